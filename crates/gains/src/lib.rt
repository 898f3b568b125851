// What conflicts with an assignment: 29 and 30 of the hierarchy, 31 and 32 of what an owner would gain.
// 31 and 32 share one search over owners.
#![tactic(auto)]

ghost use Rattle.std.specs.Prelude.{◌≡◌, ◌<◌};
ghost use Rattle.sets.specs.Mask.{bit};
ghost use Rattle.rules.specs.Trade.{reach};
ghost use Rattle.rules.specs.Numbers.{gained_role, task_conflicts, junior_conflicts, role_conflicts, first_of};
ghost use Rattle.book.specs.Slice.{tables, WellFormed};
ghost use Rattle.gains.specs.Gains.{owners_conflict};
ghost use Rattle.answers.specs.Answers.{said};

use answers::{Answer, Refusal};
use book::Table;
use owners::Owner;

// What a role brings: all tasks that it owns.
fn gained_role(book: &book::Words, a: u64) -> u64
    requires { a < 64 }
    ensures { result ≡ gained_role (tables book.now) a }
{
    trade::owned_tasks(book, sets::alone(a))
}

// 30: role a reaches role b.
fn reaches(book: &book::Words, a: u64, b: u64) -> bool
    requires { (a < 64) × (b < 64) }
    ensures { result ≡ bit (reach (tables book.now) a) b }
{
    sets::has(trade::reach(book, a), b)
}

// Kinds 8 and 9: 31 among role b and its seniors, then 32 among the subjects that own it, where the owner would gain these tasks.
pub fn owners_conflict(book: &book::Words, gain: u64, b: u64) -> Answer
    requires { WellFormed book.now × (b < 64) }
    ensures { said result ≡ owners_conflict (tables book.now) gain b }
{
    if let Some((role, tasks)) = owners::first_clash(book, Owner::Role, b, gain) {
        return Err(Refusal::TaskAssignment(role, tasks));
    }
    match owners::first_clash(book, Owner::Subject, b, gain) {
        Some((subject, tasks)) => Err(Refusal::RoleAssignment(subject, tasks)),
        None => Ok(()),
    }
}

// Kind 8: 31 and 32, of the task itself.
pub fn task_conflict(book: &book::Words, a: u64, b: u64) -> Answer
    requires { WellFormed book.now × (a < 64) × (b < 64) }
    ensures { said result ≡ first_of task_conflicts (tables book.now) a b }
{
    owners_conflict(book, sets::alone(a), b)
}

// Kind 9: 29, 30, then 31 and 32.
pub fn junior_conflict(book: &book::Words, a: u64, b: u64) -> Answer
    requires { WellFormed book.now × (a < 64) × (b < 64) }
    ensures { said result ≡ first_of junior_conflicts (tables book.now) a b }
{
    if a == b {
        return Err(Refusal::SelfInheritance);
    }
    if reaches(book, a, b) {
        return Err(Refusal::Cycle);
    }
    owners_conflict(book, gained_role(book, a), b)
}

// Kind 10: 32 of subject b itself.
pub fn own_conflict(book: &book::Words, a: u64, b: u64) -> Answer
    requires { (a < 64) × (b < 64) }
    ensures { said result ≡ first_of role_conflicts (tables book.now) a b }
{
    let owned = trade::owned_tasks(book, book::row(book, Table::RolesOf, b));
    let gain = gained_role(book, a);
    let tasks = search::meeting(book, Table::Sme, owned, gain);
    if tasks != 0 {
        return Err(Refusal::RoleAssignment(b, tasks));
    }
    Ok(())
}
