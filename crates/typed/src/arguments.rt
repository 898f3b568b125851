// The arguments of a request: numbers, names of things, and masks of tasks.
ghost use Rattle.std.specs.Prelude.{◌≡◌, ltb};
ghost use Rattle.labels.specs.Names.{sort_number};
ghost use Rattle.typed.specs.Arguments.{value_of, called_by, counts, placed_at, thing_at, number_at, is_tasks, tasks_from, mask_at, argument_at};
ghost use Rattle.typed.specs.Arguments.{fault_at, NextWord, NeededWord, wanted};

use crate::words::{self, Span};
use decimal::Unread;
use labels::Sort;

// What is wrong with a line.
#[derive(Clone, Copy, PartialEq, Eq)]
pub enum Reason {
    // The word is no word of the panel and no number of a kind.
    UnknownWord,
    NotNumber,
    // It is above the largest number of 64 bits.
    TooLarge,
    // A word is missing.
    TooFew,
    // One word is too many.
    TooMany,
    // The line is longer than what is held of it.
    TooLong,
    // Nothing of that sort has that name.
    UnknownName,
    // It is no sort of thing.
    NotSort,
    // It can't be a name.
    NotName,
    // Something else of that sort has that name.
    Taken,
    // It is no number of a thing: 0 to 63.
    NotInRange,
}

// What is wrong, and where the word concerned stands.
#[derive(Clone, Copy, PartialEq, Eq)]
pub struct Fault {
    pub reason: Reason,
    pub start: usize,
}

impl Reason {
    // The fault of a word that starts there.
    pub(crate) fn at(self, start: usize) -> Fault
        ensures { result ≡ fault_at self start }
    {
        Fault {
            reason: self,
            start,
        }
    }
}

// What a kind takes as a, b and c.
#[derive(Clone, Copy)]
pub struct Takes(pub Sort, pub Sort, pub Sort);

// Row 0, and one for each kind.
const ROWS: usize = 22;

// By kind, after row 0: what is no kind takes any numbers, none to three of them.
const TABLE: [Takes; ROWS] = [
    Takes(Sort::Any, Sort::Any, Sort::Any), // no kind
    Takes(Sort::Task, Sort::Unused, Sort::Unused), // 1
    Takes(Sort::Role, Sort::Unused, Sort::Unused), // 2
    Takes(Sort::Person, Sort::Unused, Sort::Unused), // 3
    Takes(Sort::Task, Sort::Task, Sort::Unused), // 4
    Takes(Sort::Task, Sort::Task, Sort::Unused), // 5
    Takes(Sort::Task, Sort::Task, Sort::Unused), // 6
    Takes(Sort::Task, Sort::Task, Sort::Unused), // 7
    Takes(Sort::Task, Sort::Role, Sort::Unused), // 8
    Takes(Sort::Role, Sort::Role, Sort::Unused), // 9
    Takes(Sort::Role, Sort::Person, Sort::Unused), // 10
    Takes(Sort::Role, Sort::Person, Sort::Unused), // 11
    Takes(Sort::Order, Sort::Unused, Sort::Mask), // 12
    Takes(Sort::Task, Sort::Order, Sort::Person), // 13
    Takes(Sort::Order, Sort::Unused, Sort::Unused), // 14
    Takes(Sort::Task, Sort::Role, Sort::Unused), // 15
    Takes(Sort::Role, Sort::Role, Sort::Unused), // 16
    Takes(Sort::Role, Sort::Person, Sort::Unused), // 17
    Takes(Sort::Task, Sort::Task, Sort::Unused), // 18
    Takes(Sort::Task, Sort::Task, Sort::Unused), // 19
    Takes(Sort::Task, Sort::Task, Sort::Unused), // 20
    Takes(Sort::Task, Sort::Task, Sort::Unused), // 21
];

// What a kind takes.
pub fn wanted(kind: u64) -> Takes
    ensures { result ≡ wanted kind }
{
    let i = kind as usize;
    if i < ROWS { TABLE[i] } else { TABLE[0] }
}

// The thing of the sort that a name stands for.
fn called(names: &[u8], sort: Sort, word: &[u8]) -> Result<u64, Reason>
    ensures { result ≡ called_by names.now sort word.now }
{
    labels::find(names, sort, word).ok_or(Reason::UnknownName)
}

// The number that a word writes.
fn counted(word: &[u8]) -> Result<u64, Reason>
    ensures { result ≡ counts word.now }
{
    match decimal::read(word) {
        Ok(n) => Ok(n),
        Err(Unread::TooLarge) => Err(Reason::TooLarge),
        Err(Unread::NotDecimal) => Err(Reason::NotNumber),
    }
}

// Whether things of the sort have names.
fn has_names(sort: Sort) -> bool
    ensures { result ≡ ltb (sort_number sort) 4 }
{
    match sort {
        Sort::Task | Sort::Role | Sort::Person | Sort::Order => true,
        Sort::Unused | Sort::Any | Sort::Mask => false,
    }
}

// What a word stands for where a thing of the sort is wanted: a name of that sort, or a number.
fn stands_for(names: &[u8], sort: Sort, word: &[u8]) -> Result<u64, Reason>
    ensures { result ≡ value_of names.now sort word.now }
{
    if has_names(sort) & labels::is_name(word) {
        return called(names, sort, word);
    }
    counted(word)
}

// A value as an argument, with where the line goes on behind it; or what is wrong, with where the word stands.
fn placed(value: Result<u64, Reason>, start: usize, end: usize) -> Result<(u64, usize), Fault>
    ensures { result ≡ placed_at value start end }
{
    match value {
        Ok(n) => Ok((n, end)),
        Err(reason) => Err(reason.at(start)),
    }
}

// Whether the word is `tasks`.
fn is_tasks(word: &[u8]) -> bool
    ensures { result ≡ is_tasks word.now }
{
    text::is_row(b"tasks", 0, 5, word)
}

// What is read: the bytes of a line, whether they are all of it, and the names that things have.
#[derive(Clone, Copy)]
pub struct Source<'a> {
    pub line: &'a [u8],
    pub whole: bool,
    pub names: &'a [u8],
}

impl<'a> Source<'a> {
    // The word from `at` on, if the line has one more; a line that is cut there is too long.
    pub fn next_word(self, at: usize) -> Result<Option<Span>, Fault>
        ensures { NextWord self.entry.line.now self.entry.whole at result }
    {
        let word = words::next(self.line, at, self.whole);
        if word.cut {
            return Err(Reason::TooLong.at(word.start));
        }
        if word.start == word.end {
            return Ok(None);
        }
        Ok(Some(word))
    }

    // The word from `at` on, which must be there.
    pub fn needed_word(self, at: usize) -> Result<Span, Fault>
        ensures { NeededWord self.entry.line.now self.entry.whole at result }
    {
        match self.next_word(at)? {
            Some(word) => Ok(word),
            None => Err(Reason::TooFew.at(words::next(self.line, at, self.whole).start)),
        }
    }

    // The word from `at` on, which must be there, as a thing of the sort; of a sort without names as a number.
    pub fn thing(self, sort: Sort, at: usize) -> Result<(u64, usize), Fault>
        ensures { result ≡ thing_at self.entry.line.now self.entry.whole self.entry.names.now sort at }
    {
        let word = self.needed_word(at)?;
        let value = stands_for(self.names, sort, &self.line[word.start..word.end]);
        placed(value, word.start, word.end)
    }

    // The word from `at` on as a number; 0 where there is none.
    fn number(self, at: usize) -> Result<(u64, usize), Fault>
        ensures { result ≡ number_at self.entry.line.now self.entry.whole at }
    {
        let Some(word) = self.next_word(at)? else {
            return Ok((0, at));
        };
        let value = counted(&self.line[word.start..word.end]);
        placed(value, word.start, word.end)
    }

    // The tasks that the words from `at` on name, put to the set, as far as the steps go.
    fn tasks_from(self, set: u64, at: usize, steps: u64) -> Result<(u64, usize), Fault>
        ensures { result ≡ tasks_from self.entry.line.now self.entry.whole self.entry.names.now steps set at }
    {
        if steps == 0 {
            return Ok((set, at));
        }
        let Some(word) = self.next_word(at)? else {
            return Ok((set, at));
        };
        let (task, behind) = self.thing(Sort::Task, at)?;
        if task < 64 {
            return self.tasks_from(sets::add(set, task), behind, steps - 1);
        }
        Err(Reason::NotInRange.at(word.start))
    }

    // The tasks of an order: a mask, or the word `tasks` and one task or more.
    fn mask(self, at: usize) -> Result<(u64, usize), Fault>
        ensures { result ≡ mask_at self.entry.line.now self.entry.whole self.entry.names.now at }
    {
        let word = words::next(self.line, at, self.whole);
        if !is_tasks(&self.line[word.start..word.end]) {
            return self.thing(Sort::Unused, at);
        }
        self.thing(Sort::Task, word.end)?;
        self.tasks_from(0, word.end, 64)
    }

    // The argument from `at` on, of the sort that is wanted.
    pub fn argument(self, sort: Sort, at: usize) -> Result<(u64, usize), Fault>
        ensures { result ≡ argument_at self.entry.line.now self.entry.whole self.entry.names.now sort at }
    {
        match sort {
            Sort::Unused => Ok((0, at)),
            Sort::Any => self.number(at),
            Sort::Mask => self.mask(at),
            Sort::Task | Sort::Role | Sort::Person | Sort::Order => self.thing(sort, at),
        }
    }
}
