// The arguments of a request: the one fixed table of what each must be, and the first argument at fault.
#![tactic(auto)]

ghost use Rattle.std.specs.Prelude.{◌≡◌, ◌&&◌, not, ◌<◌, ltb, eqb, MatchOption};
ghost use Rattle.sets.specs.Mask.{bit, within};
ghost use Rattle.rules.specs.Book.{head_words, tasks};
ghost use Rattle.rules.specs.Requests.{row_of, fits, is_open};
ghost use Rattle.book.specs.Slice.{tables};
ghost use Rattle.ask.specs.Arguments.{need_of, asked, fault_of};

use book::Table;

// What an argument must be.
#[derive(Clone, Copy, PartialEq, Eq, Debug)]
pub enum Argument {
    Unused,
    InRange,
    Task,
    Role,
    Subject,
    OpenOrder,
    TaskMask,
}

// What a, b and c must be.
#[derive(Clone, Copy, PartialEq, Eq, Debug)]
pub struct Row(pub Argument, pub Argument, pub Argument);

// What is no kind asks for nothing.
const NO_KIND: Row = Row(Argument::Unused, Argument::Unused, Argument::Unused);

// Row 0, and one for each kind.
const ROWS: usize = 22;

// By kind: the one fixed table of twenty-one rows, after row 0, which is no kind.
const TABLE: [Row; ROWS] = [
    NO_KIND,
    Row(Argument::InRange, Argument::Unused, Argument::Unused), // 1
    Row(Argument::InRange, Argument::Unused, Argument::Unused), // 2
    Row(Argument::InRange, Argument::Unused, Argument::Unused), // 3
    Row(Argument::Task, Argument::Task, Argument::Unused), // 4
    Row(Argument::Task, Argument::Task, Argument::Unused), // 5
    Row(Argument::Task, Argument::Task, Argument::Unused), // 6
    Row(Argument::Task, Argument::Task, Argument::Unused), // 7
    Row(Argument::Task, Argument::Role, Argument::Unused), // 8
    Row(Argument::Role, Argument::Role, Argument::Unused), // 9
    Row(Argument::Role, Argument::Subject, Argument::Unused), // 10
    Row(Argument::Role, Argument::Subject, Argument::Unused), // 11
    Row(Argument::InRange, Argument::Unused, Argument::TaskMask), // 12
    Row(Argument::Task, Argument::OpenOrder, Argument::Subject), // 13
    Row(Argument::OpenOrder, Argument::Unused, Argument::Unused), // 14
    Row(Argument::Task, Argument::Role, Argument::Unused), // 15
    Row(Argument::Role, Argument::Role, Argument::Unused), // 16
    Row(Argument::Role, Argument::Subject, Argument::Unused), // 17
    Row(Argument::Task, Argument::Task, Argument::Unused), // 18
    Row(Argument::Task, Argument::Task, Argument::Unused), // 19
    Row(Argument::Task, Argument::Task, Argument::Unused), // 20
    Row(Argument::Task, Argument::Task, Argument::Unused), // 21
];

// The row of a kind; what is no kind asks for nothing.
fn row_of(kind: u64) -> Row
    ensures { result ≡ asked (row_of kind) }
{
    match TABLE.get(kind as usize) {
        Some(row) => *row,
        None => NO_KIND,
    }
}

// Whether v is a defined task, role or subject, by the word of the head.
fn is_defined(book: &book::Words, things: u64, v: u64) -> bool
    requires { things < head_words }
    ensures { result ≡ (ltb v 64 && bit ((tables book.now).head things) v) }
{
    v < 64 && sets::has(book::head(book, things), v)
}

// Whether v is an open order.
#[tactic(auto, unfolding(rules::specs::Requests::is_open))]
fn is_open_order(book: &book::Words, v: u64) -> bool
    ensures { result ≡ (ltb v 64 && is_open (tables book.now) v) }
{
    v < 64 && book::row(book, Table::Orders, v) != 0
}

// Whether v is a nonempty mask of defined tasks.
fn is_task_mask(book: &book::Words, v: u64) -> bool
    ensures { result ≡ (not (eqb v 0) && within v (tasks (tables book.now))) }
{
    v != 0 && sets::inside(v, book::head(book, book::TASKS))
}

// Whether v is what it must be.
#[tactic(auto, unfolding(rules::specs::Requests::fits))]
fn is_fit(book: &book::Words, argument: Argument, v: u64) -> bool
    ensures { result ≡ fits (tables book.now) (need_of argument) v }
{
    match argument {
        Argument::Unused => true,
        Argument::InRange => v < 64,
        Argument::Task => is_defined(book, book::TASKS, v),
        Argument::Role => is_defined(book, book::ROLES, v),
        Argument::Subject => is_defined(book, book::SUBJECTS, v),
        Argument::OpenOrder => is_open_order(book, v),
        Argument::TaskMask => is_task_mask(book, v),
    }
}

// The place of the first argument at fault, 1, 2 or 3, where there is one.
pub fn argument_fault(book: &book::Words, kind: u64, a: u64, b: u64, c: u64) -> Option<u64>
    ensures { MatchOption result (fault_of (tables book.now) (row_of kind) a b c ≡ 0)
        (λ place. (0 < place) × (fault_of (tables book.now) (row_of kind) a b c ≡ place)) }
{
    let Row(first, second, third) = row_of(kind);
    if !is_fit(book, first, a) {
        return Some(1);
    }
    if !is_fit(book, second, b) {
        return Some(2);
    }
    if !is_fit(book, third, c) {
        return Some(3);
    }
    None
}
