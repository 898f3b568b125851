// What conflicts with an allocation, in the documents' order: 33 and 34, by what the subject holds.
#![tactic(auto)]

ghost use Rattle.std.specs.Prelude.{◌≡◌, ◌<◌};
ghost use Rattle.rules.specs.Book.{SME, DME};
ghost use Rattle.rules.specs.Requests.{is_open};
ghost use Rattle.rules.specs.Numbers.{accepted, given_pair_in, given_lowest_pair, holds, held_conflicts, first_of};
ghost use Rattle.book.specs.Slice.{tables, WellFormed};
ghost use Rattle.answers.specs.Answers.{said};

use answers::{Answer, Refusal};
use book::Table;

// 33, between what c holds in each order and the tasks that c would get. The tasks that are SME to one of these are found once.
fn sme_held(book: &book::Words, c: u64, hand: u64) -> Answer
    requires { WellFormed book.now × (c < 64) }
    ensures { said result ≡ given_lowest_pair 33 (is_open (tables book.now)) (holds SME (tables book.now) c hand) accepted }
{
    let excluded = search::meeting(book, Table::Sme, book::head(book, book::TASKS), hand);
    if excluded == 0 {
        return Ok(());
    }
    for order in 0..64 {
        let held = hands::held_among(book, order, c, excluded);
        if let Some((x, y)) = search::first_pair(book, Table::Sme, held, hand) {
            return Err(Refusal::HoldsSme(x, y, order));
        }
    }
    Ok(())
}

// 34, between what c holds in order b and the tasks that c would get there.
fn dme_held(book: &book::Words, b: u64, c: u64, hand: u64) -> Answer
    requires { (b < 64) × (c < 64) }
    ensures { said result ≡ given_pair_in 34 (holds DME (tables book.now) c hand b) b accepted }
{
    let held = hands::held_among(book, b, c, !0);
    match search::first_pair(book, Table::Dme, held, hand) {
        Some((x, y)) => Err(Refusal::HoldsDme(x, y, b)),
        None => Ok(()),
    }
}

// Kind 13: 33 of all open orders, then 34 of order b; what c would get is a's subject group there.
pub fn allocate_conflict(book: &book::Words, a: u64, b: u64, c: u64) -> Answer
    requires { WellFormed book.now × (a < 64) × (b < 64) × (c < 64) }
    ensures { said result ≡ first_of (held_conflicts c) (tables book.now) a b }
{
    let hand = hands::subject_hand(book, a, b);
    sme_held(book, c, hand)?;
    dme_held(book, b, c, hand)
}
