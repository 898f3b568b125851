// One line of the panel, read. specs/Grammar.antt says what a line means; docs/PANEL.md says it for a person.
//
//     line     nothing | show | show SORT THING | audit | help | help WORD | quit | name SORT THING NAME | try request | request
//     request  a kind, by its number or its word, then the arguments that it uses, in the order a, b, c of document 01
//
// Words are parted by spaces, tabs and carriage returns; a # begins a comment, to the end of the line.
#![tactic(auto)]

mod arguments;
mod words;

ghost use Rattle.std.specs.Prelude.{◌≡◌, ◌≤◌, ◌<◌, length};
ghost use Rattle.std.specs.Option.{SomeIff};
ghost use Rattle.vocabulary.specs.Vocabulary.{row_for, kind_of};
ghost use Rattle.decimal.specs.Decimal.{number_of};
ghost use Rattle.typed.specs.Words.{part};
ghost use Rattle.typed.specs.Grammar.{line_said, sort_for, asked, ends, help_at, first_argument, by_number, request_at, show_at};
ghost use Rattle.typed.specs.Grammar.{is_taken, label_at, named_at, name_at, begun_by, line_of};

use arguments::{Fault, Source};
pub use arguments::{Reason, Takes, wanted};
use decimal::Unread;
use labels::Sort;
pub use words::next;

// How much of a line its reader keeps.
pub const ROOM: usize = 1024;

// A request; the numbers that its kind does not use are 0.
#[derive(Clone, Copy)]
pub struct Request {
    pub kind: u64,
    pub a: u64,
    pub b: u64,
    pub c: u64,
}

// What a line says.
#[derive(Clone, Copy)]
pub enum Line {
    Blank,
    Ask(Request),
    // What the book would answer.
    Try(Request),
    // The thing of a sort gets the name that stands from the one place to before the other.
    Name(Sort, u64, usize, usize),
    Show,
    // The thing of a sort.
    ShowOne(Sort, u64),
    Audit,
    Help,
    // The row of the vocabulary.
    HelpOn(u64),
    Quit,
    // What is wrong, and where the word concerned stands.
    Fault(Reason, usize),
}

// The sort of thing that a word names: a task, a role, a person (or subject) or an order.
pub fn sort_of(word: &[u8]) -> Option<Sort>
    ensures { result ≡ sort_for word.now }
{
    match text::find_row(b"task    role    person  order   subject ", 0, 5, 8, word)? {
        0 => Some(Sort::Task),
        1 => Some(Sort::Role),
        3 => Some(Sort::Order),
        _ => Some(Sort::Person),
    }
}

// The request, asked or only tried.
fn ask(trial: bool, kind: u64, a: u64, b: u64, c: u64) -> Line
    ensures { result ≡ asked trial kind a b c }
{
    if trial {
        return Line::Try(Request { kind, a, b, c });
    }
    Line::Ask(Request { kind, a, b, c })
}

// The kind that a word of the panel names, if it names one.
fn kind_of(word: &[u8]) -> Option<u64>
    ensures { SomeIff result (0 < kind_of (row_for word.now)) (kind_of (row_for word.now)) }
{
    vocabulary::kind_of(vocabulary::find(word)?)
}

// Whether another thing of the sort than n has the name.
fn is_taken(names: &[u8], sort: Sort, n: u64, name: &[u8]) -> bool
    ensures { result ≡ is_taken names.now sort n name.now }
{
    match labels::find(names, sort, name) {
        Some(holder) => holder != n,
        None => false,
    }
}

impl<'a> Source<'a> {
    // What is said, where the line ends at `at`.
    fn ended(self, at: usize, said: Line) -> Result<Line, Fault>
        ensures { line_said result ≡ ends self.entry.line.now self.entry.whole at said }
    {
        match self.next_word(at)? {
            Some(word) => Err(Reason::TooMany.at(word.start)),
            None => Ok(said),
        }
    }

    // The rest of the request, once its kind is read.
    fn of_kind(self, trial: bool, kind: u64, at: usize) -> Result<Line, Fault>
        ensures { line_said result ≡ first_argument self.entry.line.now self.entry.whole self.entry.names.now trial kind at }
    {
        let takes = wanted(kind);
        let (a, at) = self.argument(takes.0, at)?;
        let (b, at) = self.argument(takes.1, at)?;
        let (c, at) = self.argument(takes.2, at)?;
        self.ended(at, ask(trial, kind, a, b, c))
    }

    // A request whose kind is given as a number.
    fn numbered(self, trial: bool, start: usize, end: usize) -> Result<Line, Fault>
        requires { (start ≤ end) × (end ≤ length self.line.now) }
        ensures { line_said result ≡ by_number self.entry.line.now self.entry.whole self.entry.names.now trial start end
            (number_of (part start end self.entry.line.now)) }
    {
        match decimal::read(&self.line[start..end]) {
            Ok(kind) => self.of_kind(trial, kind, end),
            Err(Unread::TooLarge) => Err(Reason::TooLarge.at(start)),
            Err(Unread::NotDecimal) => Err(Reason::UnknownWord.at(start)),
        }
    }

    // The request that stands from `at` on.
    fn read_request(self, trial: bool, at: usize) -> Result<Line, Fault>
        ensures { line_said result ≡ request_at self.entry.line.now self.entry.whole self.entry.names.now trial at }
    {
        let word = self.needed_word(at)?;
        match kind_of(&self.line[word.start..word.end]) {
            Some(kind) => self.of_kind(trial, kind, word.end),
            None => self.numbered(trial, word.start, word.end),
        }
    }

    // `show` alone, or with a sort and one of it; the word `show` ends before `at`.
    fn show(self, at: usize) -> Result<Line, Fault>
        ensures { line_said result ≡ show_at self.entry.line.now self.entry.whole self.entry.names.now at }
    {
        let Some(word) = self.next_word(at)? else {
            return Ok(Line::Show);
        };
        let Some(sort) = sort_of(&self.line[word.start..word.end]) else {
            return Err(Reason::NotSort.at(word.start));
        };
        let (n, behind) = self.thing(sort, word.end)?;
        self.ended(behind, Line::ShowOne(sort, n))
    }

    // `help` alone, or with a word of the panel.
    fn help(self, at: usize) -> Result<Line, Fault>
        ensures { line_said result ≡ help_at self.entry.line.now self.entry.whole at }
    {
        let Some(word) = self.next_word(at)? else {
            return Ok(Line::Help);
        };
        let Some(row) = vocabulary::find(&self.line[word.start..word.end]) else {
            return Err(Reason::UnknownWord.at(word.start));
        };
        self.ended(word.end, Line::HelpOn(row))
    }

    // The name from `at` on, for thing n of the sort.
    fn label(self, sort: Sort, n: u64, at: usize) -> Result<Line, Fault>
        ensures { line_said result ≡ label_at self.entry.line.now self.entry.whole self.entry.names.now sort n at }
    {
        let word = self.needed_word(at)?;
        let name = &self.line[word.start..word.end];
        if !labels::is_name(name) {
            return Err(Reason::NotName.at(word.start));
        }
        if is_taken(self.names, sort, n, name) {
            return Err(Reason::Taken.at(word.start));
        }
        self.ended(word.end, Line::Name(sort, n, word.start, word.end))
    }

    // The thing from `at` on, whose number is 0 to 63, and then its name.
    fn named(self, sort: Sort, at: usize) -> Result<Line, Fault>
        ensures { line_said result ≡ named_at self.entry.line.now self.entry.whole self.entry.names.now sort at }
    {
        let (n, behind) = self.thing(sort, at)?;
        if n < 64 {
            return self.label(sort, n, behind);
        }
        Err(Reason::NotInRange.at(next(self.line, at, self.whole).start))
    }

    // `name`, a sort, one of it and its name.
    fn name(self, at: usize) -> Result<Line, Fault>
        ensures { line_said result ≡ name_at self.entry.line.now self.entry.whole self.entry.names.now at }
    {
        let word = self.needed_word(at)?;
        match sort_of(&self.line[word.start..word.end]) {
            Some(sort) => self.named(sort, word.end),
            None => Err(Reason::NotSort.at(word.start)),
        }
    }

    // What the line says that begins with the word of a row, which ends before `end`.
    fn begun(self, row: u64, end: usize) -> Result<Line, Fault>
        ensures { line_said result ≡ begun_by self.entry.line.now self.entry.whole self.entry.names.now row end }
    {
        match row {
            vocabulary::SHOW => self.show(end),
            vocabulary::AUDIT => self.ended(end, Line::Audit),
            vocabulary::HELP => self.help(end),
            vocabulary::QUIT => self.ended(end, Line::Quit),
            vocabulary::NAME => self.name(end),
            vocabulary::TRY => self.read_request(true, end),
            _ => self.read_request(false, 0),
        }
    }

    // What the line says, or what is wrong with it.
    fn read_line(self) -> Result<Line, Fault>
        ensures { line_said result ≡ line_of self.entry.line.now self.entry.whole self.entry.names.now }
    {
        let Some(word) = self.next_word(0)? else {
            return Ok(Line::Blank);
        };
        match vocabulary::find(&self.line[word.start..word.end]) {
            Some(row) => self.begun(row, word.end),
            None => self.read_request(false, 0),
        }
    }
}

// What the line says; it is not whole where it went on past the last byte here. Names stand for what they are in the table.
pub fn read(line: &[u8], whole: bool, names: &[u8]) -> Line
    ensures { result ≡ line_of line.now whole names.now }
{
    match (Source { line, whole, names }).read_line() {
        Ok(said) => said,
        Err(fault) => Line::Fault(fault.reason, fault.start),
    }
}
