// What an allocation asks of an order and a subject: the two hands of a task, what the subject holds, and whether it owns its active role now.
// Whoever calls these has seen that the numbers are below 64.
#![tactic(auto)]

ghost use Rattle.std.specs.Prelude.{◌≡◌, ◌<◌};
ghost use Rattle.std.specs.Int.Bits.{bit_and};
ghost use Rattle.sets.specs.Mask.{alone_if};
ghost use Rattle.rules.specs.Requests.{role_hand, subject_hand};
ghost use Rattle.rules.specs.Numbers.{active_owned, in_hand, held_by};
ghost use Rattle.book.specs.Slice.{tables};

use book::Table;

// The tasks of the order in the role group of a task.
pub fn role_hand(book: &book::Words, task: u64, order: u64) -> u64
    requires { (task < 64) × (order < 64) }
    ensures { result ≡ role_hand (tables book.now) task order }
{
    trade::role_group(book, task) & book::row(book, Table::Orders, order)
}

// The tasks of the order in the subject group of a task.
// Stays: one function for both, with the group as a closure, would take more words at each call than the one line that differs.
pub fn subject_hand(book: &book::Words, task: u64, order: u64) -> u64
    requires { (task < 64) × (order < 64) }
    ensures { result ≡ subject_hand (tables book.now) task order }
{
    trade::subject_group(book, task) & book::row(book, Table::Orders, order)
}

// Task t alone, where its cell has the subject; else nothing.
fn held_row(book: &book::Words, order: u64, subject: u64, t: u64) -> u64
    requires { (order < 64) × (subject < 64) × (t < 64) }
    ensures { result ≡ alone_if (in_hand (tables book.now) order subject) t }
{
    if book::subject_in(book::cell(book, order, t)) == subject + 1 {
        sets::alone(t)
    } else {
        0
    }
}

// The tasks of the order that the subject holds, among those that are asked for: no other cell is looked at.
pub fn held_among(book: &book::Words, order: u64, subject: u64, those: u64) -> u64
    requires { (order < 64) × (subject < 64) }
    ensures { result ≡ bit_and (held_by (tables book.now) order subject) those }
{
    let asked = book::row(book, Table::Orders, order) & those;
    let mut held = 0;
    for t in sets::each(asked) {
        held |= held_row(book, order, subject, t);
    }
    held
}

// Whether the subject's active word names a role that it owns now. No role is numbered above 63.
pub fn active_owned(book: &book::Words, subject: u64) -> bool
    requires { subject < 64 }
    ensures { result ≡ active_owned (tables book.now) subject }
{
    let e = book::row(book, Table::Active, subject);
    match e {
        0 => false,
        1..=64 => trade::owns_role(book, subject, e - 1),
        _ => false,
    }
}
