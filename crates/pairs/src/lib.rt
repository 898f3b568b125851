// Kinds 4 to 7: add SME, DME, RB or SB between tasks a and b; 18 to 21, in `back`, take it back. The four pair tables share each deed,
// over the table.
#![tactic(auto)]

mod back;

ghost use Rattle.std.specs.Prelude.{◌≡◌, ◌<◌};
ghost use Rattle.rules.specs.Requests.{relate};
ghost use Rattle.rules.specs.Numbers.{open_refusal, state_refusal, pair_conflicts, first_of};
ghost use Rattle.book.specs.Tables.{number};
ghost use Rattle.book.specs.Slice.{tables, WellFormed};
ghost use Rattle.answers.specs.Answers.{said};
ghost use Rattle.deeds.specs.Outcome.{decide, Settled};

use answers::{Answer, Refusal};
pub use back::unrelate;
use book::Table;

// 7 while an order is open.
fn open_refusal(book: &book::Words) -> Answer
    ensures { said result ≡ open_refusal (tables book.now) }
{
    match search::lowest_open(book) {
        Some(order) => Err(Refusal::OrderOpen(order)),
        None => Ok(()),
    }
}

// 5 where the pair is set already, 7 while an order is open.
fn pair_refusal(book: &book::Words, table: Table, a: u64, b: u64) -> Answer
    requires { (a < 64) × (b < 64) }
    ensures { said result ≡ state_refusal (tables book.now) (relate (number table)) a b 0 }
{
    if book::is_in_row(book, table, a, b) {
        return Err(Refusal::AlreadySet);
    }
    open_refusal(book)
}

// What conflicts with the new pair, by the table. A table that has no pairs is refused.
// Stays: a match on the table, as document 01 lists conflicts by kind; the kinds' tests as closures would be the same four lines elsewhere.
fn pair_conflict(book: &book::Words, table: Table, a: u64, b: u64) -> Answer
    requires { WellFormed book.now × (a < 64) × (b < 64) }
    ensures { said result ≡ first_of (pair_conflicts (number table)) (tables book.now) a b }
{
    match table {
        Table::Sme => exclusions::sme_conflict(book, a, b),
        Table::Dme => exclusions::dme_conflict(book, a, b),
        Table::Rb => bindings::rb_conflict(book, a, b),
        Table::Sb => bindings::sb_conflict(book, a, b),
        _ => Err(Refusal::UnknownKind),
    }
}

// The answer, on the book as it stands.
fn judge_pair(book: &book::Words, table: Table, a: u64, b: u64) -> Answer
    requires { WellFormed book.now × (a < 64) × (b < 64) }
    ensures { said result ≡ decide (tables book.now) (relate (number table)) a b 0 }
{
    pair_refusal(book, table, a, b)?;
    pair_conflict(book, table, a, b)
}

// Kinds 4 to 7: both bits of the pair, where nothing stands in the way.
pub fn relate(book: &mut book::Words, table: Table, a: u64, b: u64) -> Answer
    requires { WellFormed book.old × (a < 64) × (b < 64) }
    ensures { Settled book.old book.new (relate (number table)) a b 0 result }
{
    judge_pair(book, table, a, b)?;
    book::add_to_row(book, table, a, b);
    book::add_to_row(book, table, b, a);
    Ok(())
}
