// Kinds that nothing conflicts with: define a task, a role or a subject (1 to 3), activate a role (11),
// take back what 8, 9 and 10 added (15 to 17).
#![tactic(auto)]

ghost use Rattle.std.specs.Prelude.{◌<◌};
ghost use Rattle.rules.specs.Requests.{define, activate, take_back};
ghost use Rattle.book.specs.Tables.{number};
ghost use Rattle.deeds.specs.Outcome.{Settled};

use answers::{Answer, Refusal};
use book::Table;

// Kinds 1, 2, 3: number a joins a mask of the head. 5 where it is defined already.
pub fn define(book: &mut book::Words, word: u64, a: u64) -> Answer
    requires { (word < 3) × (a < 64) }
    ensures { Settled book.old book.new (define word) a 0 0 result }
{
    let defined = book::head(book, word);
    if sets::has(defined, a) {
        return Err(Refusal::AlreadySet);
    }
    book::set_head(book, word, sets::add(defined, a));
    Ok(())
}

// Kind 11: role a is the active role of subject b. 8 where b doesn't own it.
pub fn activate(book: &mut book::Words, a: u64, b: u64) -> Answer
    requires { (a < 64) × (b < 64) }
    ensures { Settled book.old book.new activate a b 0 result }
{
    if !trade::owns_role(book, b, a) {
        return Err(Refusal::NotOwned);
    }
    book::set_row(book, Table::Active, b, a + 1);
    Ok(())
}

// Kinds 15, 16, 17: number a leaves row b of a table. 6 where it isn't there.
pub fn take_back(book: &mut book::Words, table: Table, a: u64, b: u64) -> Answer
    requires { (a < 64) × (b < 64) }
    ensures { Settled book.old book.new (take_back (number table)) a b 0 result }
{
    if !book::is_in_row(book, table, b, a) {
        return Err(Refusal::NotThere);
    }
    book::take_from_row(book, table, b, a);
    Ok(())
}
