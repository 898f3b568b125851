// Kinds 18 to 21: SME, DME, RB or SB between tasks a and b is taken back. Nothing conflicts with it.
ghost use Rattle.std.specs.Prelude.{◌≡◌, ◌<◌};
ghost use Rattle.rules.specs.Requests.{unrelate};
ghost use Rattle.book.specs.Tables.{number};
ghost use Rattle.book.specs.Slice.{tables};
ghost use Rattle.answers.specs.Answers.{said};
ghost use Rattle.deeds.specs.Outcome.{decide, Settled};

use crate::open_refusal;
use answers::{Answer, Refusal};
use book::Table;

// The answer: 6 where bit b of row a isn't set, whatever row b has; then 7 while an order is open.
fn judge_back(book: &book::Words, table: Table, a: u64, b: u64) -> Answer
    requires { (a < 64) × (b < 64) }
    ensures { said result ≡ decide (tables book.now) (unrelate (number table)) a b 0 }
{
    if !book::is_in_row(book, table, a, b) {
        return Err(Refusal::NotThere);
    }
    open_refusal(book)
}

// Both bits of the pair are taken back, the one that 6 asks for last: where the power fails between them, the request can be made again.
pub fn unrelate(book: &mut book::Words, table: Table, a: u64, b: u64) -> Answer
    requires { (a < 64) × (b < 64) }
    ensures { Settled book.old book.new (unrelate (number table)) a b 0 result }
{
    judge_back(book, table, a, b)?;
    book::take_from_row(book, table, b, a);
    book::take_from_row(book, table, a, b);
    Ok(())
}
