// The request entry. It trusts nobody: the length, the words and the arguments are looked at first, in document 01's order, and
// what is no kind is refused where the kinds part.
#![tactic(auto)]

ghost use Rattle.std.specs.Prelude.{◌≡◌, ◌<◌};
ghost use Rattle.rules.specs.Requests.{row_of};
ghost use Rattle.book.specs.Tables.{number};
ghost use Rattle.book.specs.Slice.{tables, WellFormed};
ghost use Rattle.ask.specs.Arguments.{fault_of};
ghost use Rattle.deeds.specs.Outcome.{Settled};
ghost use Rattle.desk.specs.Guarantee.{ask, Answered};
ghost use Rattle.desk.specs.Tables.{staff_table};

use answers::{Answer, Refusal};
use book::Table;

// The tables that kinds 8, 9, 10 add to and 15, 16, 17 take from.
const STAFF: [Table; 3] = [Table::TasksOf, Table::Juniors, Table::RolesOf];

// The table of kinds 4 to 7 and 18 to 21, by the kind's place among the four: they are the first four of the nine.
fn pair_table(place: u64) -> Table
    requires { place < 4 }
    ensures { number result ≡ place }
{
    book::TABLES[place as usize]
}

// The table of one of the other six kinds, by its place among the three.
fn staff_table(place: u64) -> Table
    requires { place < 3 }
    ensures { number result ≡ staff_table place }
{
    STAFF[place as usize]
}

// What the kind does, on a well-formed book and arguments that fit; what is no kind is refused.
// Stays: a kind is a number, as the C interface gives it, and `Answered` promises an answer to any number.
// Stays: a, b and c go side by side, as document 01 has them: what each of them means goes by the kind, so a struct could give them no names.
// Stays: `WellFormed` is asked and is no type: between two writes of one change a book is not well-formed, and it is written through `&mut`.
fn carry_out(book: &mut book::Words, kind: u64, a: u64, b: u64, c: u64) -> Answer
    requires { WellFormed book.old × (fault_of (tables book.old) (row_of kind) a b c ≡ 0) }
    ensures { Settled book.old book.new (row_of kind).deed a b c result }
{
    match kind {
        1..=3 => unopposed::define(book, kind - 1, a),
        4..=7 => pairs::relate(book, pair_table(kind - 4), a, b),
        8..=10 => staff::assign(book, staff_table(kind - 8), a, b),
        11 => unopposed::activate(book, a, b),
        12 => orders::open_order(book, a, c),
        13 => orders::allocate(book, a, b, c),
        14 => orders::close_order(book, a),
        15..=17 => unopposed::take_back(book, staff_table(kind - 15), a, b),
        18..=21 => pairs::unrelate(book, pair_table(kind - 18), a, b),
        _ => Err(Refusal::UnknownKind),
    }
}

// One request on as many words as a book has.
fn request_on(book: &mut book::Words, kind: u64, a: u64, b: u64, c: u64) -> Answer
    ensures { Answered book.old book.new (ask kind a b c) result }
{
    if let Some(place) = scan::first_bad(book) {
        return Err(Refusal::BadWord(place));
    }
    if let Some(place) = ask::argument_fault(book, kind, a, b, c) {
        return Err(Refusal::BadArgument(place));
    }
    carry_out(book, kind, a, b, c)
}

// One request on a lent book: the answer, and the change in place where the answer is 0.
pub fn request(words: &mut [u64], kind: u64, a: u64, b: u64, c: u64) -> Answer
    ensures { Answered words.old words.new (ask kind a b c) result }
{
    match words.as_mut_array() {
        Some(book) => request_on(book, kind, a, b, c),
        None => Err(Refusal::WrongLength),
    }
}
