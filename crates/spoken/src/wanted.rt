// Which sort of thing a line wants at a place, and which kind of request it asks for; and which things an answer names.
use crate::kinds;
use answers::{Answer, Refusal};
use labels::Sort;

// The sorts of the things that an answer's x, y and z name; Unused where one names nothing, or a number that is no thing.
pub fn sorts_told(answer: Answer) -> [Sort; 3] {
    let Err(refusal) = answer else {
        return [Sort::Unused; 3];
    };
    match refusal {
        Refusal::OrderOpen(_) => [Sort::Order, Sort::Unused, Sort::Unused],
        Refusal::HasSubject(_) | Refusal::SubjectOwnsBoth(_) | Refusal::RoleAssignment(_, _) => {
            [Sort::Person, Sort::Unused, Sort::Unused]
        }
        Refusal::HasRole(_) | Refusal::RoleOwnsBoth(_) | Refusal::TaskAssignment(_, _) => {
            [Sort::Role, Sort::Unused, Sort::Unused]
        }
        Refusal::TaskNotOwned(_) => [Sort::Task, Sort::Unused, Sort::Unused],
        Refusal::SmeBetween(_, _) | Refusal::DmeBetween(_, _) => {
            [Sort::Task, Sort::Task, Sort::Unused]
        }
        Refusal::HoldsSme(_, _, _) | Refusal::HoldsDme(_, _, _) => {
            [Sort::Task, Sort::Task, Sort::Order]
        }
        _ => [Sort::Unused; 3],
    }
}

// The tasks that somebody who gains one owns already and that exclude it, as a mask, where the answer tells them.
pub fn clashing(answer: Answer) -> Option<u64> {
    match answer {
        Err(Refusal::TaskAssignment(_, tasks) | Refusal::RoleAssignment(_, tasks)) => Some(tasks),
        _ => None,
    }
}

// A place in a line: where a word begins.
#[derive(Clone, Copy)]
pub struct Place<'l> {
    pub line: &'l [u8],
    pub start: usize,
}

impl<'l> Place<'l> {
    // The word there.
    pub fn word(self) -> &'l [u8] {
        let word = typed::next(self.line, self.start, true);
        &self.line[word.start..word.end]
    }

    // The place behind the word there.
    fn behind(self) -> Place<'l> {
        Place {
            start: typed::next(self.line, self.start, true).end,
            ..self
        }
    }

    // The first place of the line.
    fn first(self) -> Place<'l> {
        Place { start: 0, ..self }
    }

    // Whether the line begins with the word of a row.
    fn line_begins_with(self, row: u64) -> bool {
        vocabulary::find(self.first().word()) == Some(row)
    }

    // Whether the line asks for help.
    pub fn is_in_help(self) -> bool {
        self.line_begins_with(vocabulary::HELP)
    }

    // Where the request begins: behind `try`, where the line begins with that.
    fn request(self) -> Place<'l> {
        if self.line_begins_with(vocabulary::TRY) {
            self.first().behind()
        } else {
            self.first()
        }
    }

    // The kind of request that the line asks for or tries, if it does either.
    pub fn kind(self) -> Option<u64> {
        kind_named(self.request().word())
    }

    // Which word of the line it is, from 1 on ..
    pub fn number(self) -> u64 {
        self.number_from(self.first())
    }

    // .. counted from another place on.
    fn number_from(self, from: Place) -> u64 {
        let mut at = from.start;
        for number in 1..typed::ROOM as u64 {
            let word = typed::next(self.line, at, true);
            if self.start <= word.start {
                return number;
            }
            at = word.end;
        }
        typed::ROOM as u64
    }

    // The sort of the thing that is wanted there, if one is: by the kind of the request, or as it stands behind `show` or `name`.
    pub fn sort(self) -> Option<Sort> {
        match self.kind() {
            Some(kind) => Some(sort_in(kind, self.number_from(self.request()))),
            None => typed::sort_of(self.first().behind().word()),
        }
    }
}

// The kind that a word names, if it names one: 0 is none.
fn kind_named(word: &[u8]) -> Option<u64> {
    vocabulary::find(word)
        .and_then(vocabulary::kind_of)
        .or_else(|| decimal::read(word).ok())
        .filter(|kind| *kind != 0)
}

// The sort that a kind wants as a word of the request: an order's tasks may go on and on.
fn sort_in(kind: u64, number: u64) -> Sort {
    let typed::Takes(a, b, c) = typed::wanted(kind);
    match number {
        2 => a,
        3 => b,
        4 if kind != kinds::OPEN => c,
        _ => Sort::Task,
    }
}
