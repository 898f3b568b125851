// Kinds 8, 9 and 10: a task for a role, a junior for a role, a role for a subject. Number a joins row b of a table.
#![tactic(auto)]

ghost use Rattle.std.specs.Prelude.{◌≡◌, ◌<◌};
ghost use Rattle.rules.specs.Requests.{assign};
ghost use Rattle.rules.specs.Numbers.{state_refusal, assign_conflicts, first_of};
ghost use Rattle.book.specs.Tables.{number};
ghost use Rattle.book.specs.Slice.{tables, WellFormed};
ghost use Rattle.answers.specs.Answers.{said};
ghost use Rattle.deeds.specs.Outcome.{decide, Settled};

use answers::{Answer, Refusal};
use book::Table;

// 5 where it is assigned already.
fn assign_refusal(book: &book::Words, table: Table, a: u64, b: u64) -> Answer
    requires { (a < 64) × (b < 64) }
    ensures { said result ≡ state_refusal (tables book.now) (assign (number table)) a b 0 }
{
    if book::is_in_row(book, table, b, a) {
        return Err(Refusal::AlreadySet);
    }
    Ok(())
}

// What conflicts, by the table: tasks of roles, juniors, roles of subjects. A table that nothing is assigned in is refused.
// Stays: a match on the table, as document 01 lists conflicts by kind; the kinds' tests as closures would be the same three lines elsewhere.
fn assign_conflict(book: &book::Words, table: Table, a: u64, b: u64) -> Answer
    requires { WellFormed book.now × (a < 64) × (b < 64) }
    ensures { said result ≡ first_of (assign_conflicts (number table)) (tables book.now) a b }
{
    match table {
        Table::TasksOf => gains::task_conflict(book, a, b),
        Table::Juniors => gains::junior_conflict(book, a, b),
        Table::RolesOf => gains::own_conflict(book, a, b),
        _ => Err(Refusal::UnknownKind),
    }
}

// The answer, on the book as it stands.
fn judge_assignment(book: &book::Words, table: Table, a: u64, b: u64) -> Answer
    requires { WellFormed book.now × (a < 64) × (b < 64) }
    ensures { said result ≡ decide (tables book.now) (assign (number table)) a b 0 }
{
    assign_refusal(book, table, a, b)?;
    assign_conflict(book, table, a, b)
}

// Kinds 8 to 10: number a joins row b of the table, where nothing stands in the way.
pub fn assign(book: &mut book::Words, table: Table, a: u64, b: u64) -> Answer
    requires { WellFormed book.old × (a < 64) × (b < 64) }
    ensures { Settled book.old book.new (assign (number table)) a b 0 result }
{
    judge_assignment(book, table, a, b)?;
    book::add_to_row(book, table, b, a);
    Ok(())
}
