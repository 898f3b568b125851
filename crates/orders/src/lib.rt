// Kinds 12, 13 and 14, on a book whose arguments fit: open an order, allocate a task in it, close it.
// Each judges first, on the book as it stands, and writes in place only where the answer is 0.
#![tactic(auto)]

ghost use Rattle.std.specs.Prelude.{◌≡◌, ◌-◌, ◌≤◌, ◌<◌};
ghost use Rattle.sets.specs.Members.{IsLowest};
ghost use Rattle.rules.specs.Trade.{role, owned_tasks};
ghost use Rattle.rules.specs.Requests.{open_order, allocate, close_order, role_hand};
ghost use Rattle.rules.specs.Numbers.{outside, cell_refusal, allocate_refusal};
ghost use Rattle.book.specs.Slice.{tables, WellFormed};
ghost use Rattle.answers.specs.Answers.{said};
ghost use Rattle.deeds.specs.Outcome.{decide, Settled};

use answers::{Answer, Refusal};
use book::Table;
use cells::Hand;

// Kind 12: open order a with the task mask c. 5 where it is open already.
pub fn open_order(book: &mut book::Words, a: u64, c: u64) -> Answer
    requires { a < 64 }
    ensures { Settled book.old book.new open_order a 0 c result }
{
    if book::row(book, Table::Orders, a) != 0 {
        return Err(Refusal::AlreadySet);
    }
    cells::set_order(book, a, c);
    Ok(())
}

// Kind 14: close order a. Its mask and its 64 cells become 0.
pub fn close_order(book: &mut book::Words, a: u64) -> Answer
    requires { a < 64 }
    ensures { Settled book.old book.new close_order a 0 0 result }
{
    cells::set_order(book, a, 0);
    Ok(())
}

// The lowest task of a's role group in order b that the role e - 1 doesn't own, if there is one.
fn lowest_unowned(book: &book::Words, a: u64, b: u64, e: u64) -> Option<u64>
    requires { (a < 64) × (b < 64) × (0 < e) × (e ≤ 64) }
    ensures { IsLowest (outside (role_hand (tables book.now) a b) (owned_tasks (tables book.now) (role (e - 1)))) result }
{
    let hand = hands::role_hand(book, a, b);
    let owned = trade::owned_tasks(book, sets::alone(e - 1));
    search::lowest_outside(hand, owned)
}

// Kind 13: 9 and 10 by the cell of task a in order b, then 11, where e is the executing role plus 1.
fn cell_refusal(book: &book::Words, a: u64, b: u64, e: u64) -> Answer
    requires { (a < 64) × (b < 64) × (0 < e) × (e ≤ 64) }
    ensures { said result ≡ cell_refusal (tables book.now) a b e }
{
    let v = book::cell(book, b, a);
    let subject = book::subject_in(v);
    if subject != 0 {
        return Err(Refusal::HasSubject(subject - 1));
    }
    let role = book::role_in(v);
    if role != 0 && role != e {
        return Err(Refusal::HasRole(role - 1));
    }
    match lowest_unowned(book, a, b, e) {
        Some(task) => Err(Refusal::TaskNotOwned(task)),
        None => Ok(()),
    }
}

// Kind 13: 4 where a is not in order b, then 8 to 11.
fn allocate_refusal(book: &book::Words, a: u64, b: u64, c: u64) -> Answer
    requires { (a < 64) × (b < 64) × (c < 64) }
    ensures { said result ≡ allocate_refusal (tables book.now) a b c }
{
    if !book::is_in_row(book, Table::Orders, b, a) {
        return Err(Refusal::BadArgument(1));
    }
    if !hands::active_owned(book, c) {
        return Err(Refusal::NotOwned);
    }
    cell_refusal(book, a, b, book::row(book, Table::Active, c))
}

// Kind 13: the answer, on the book as it stands.
fn judge_allocation(book: &book::Words, a: u64, b: u64, c: u64) -> Answer
    requires { WellFormed book.now × (a < 64) × (b < 64) × (c < 64) }
    ensures { said result ≡ decide (tables book.now) allocate a b c }
{
    allocate_refusal(book, a, b, c)?;
    holdings::allocate_conflict(book, a, b, c)
}

// Kind 13: allocate task a in order b to subject c.
pub fn allocate(book: &mut book::Words, a: u64, b: u64, c: u64) -> Answer
    requires { WellFormed book.old × (a < 64) × (b < 64) × (c < 64) }
    ensures { Settled book.old book.new allocate a b c result }
{
    judge_allocation(book, a, b, c)?;
    let hand = Hand {
        order: b,
        wide: hands::role_hand(book, a, b),
        narrow: hands::subject_hand(book, a, b),
        role: book::row(book, Table::Active, c),
        subject: c,
    };
    hand.stamp(book);
    Ok(())
}
