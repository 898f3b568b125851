// What conflicts with a new exclusion, in document 01's order: kind 4 (SME) and kind 5 (DME).
#![tactic(auto)]

ghost use Rattle.std.specs.Prelude.{◌≡◌, [], ◌∷◌, ◌<◌};
ghost use Rattle.rules.specs.Numbers.{role_owns_both, subject_owns_both, sme_conflicts, dme_conflicts, first_of};
ghost use Rattle.book.specs.Slice.{tables, WellFormed};
ghost use Rattle.answers.specs.Answers.{said};

use answers::{Answer, Refusal};
use book::Table;
use owners::Owner;

// 25 and 26: a role, then a subject, owns both tasks.
fn owned_together(book: &book::Words, a: u64, b: u64) -> Answer
    requires { WellFormed book.now × (a < 64) × (b < 64) }
    ensures { said result ≡ first_of (role_owns_both ∷ subject_owns_both ∷ []) (tables book.now) a b }
{
    let xs = owners::owners_of(book, sets::alone(a));
    let ys = owners::owners_of(book, sets::alone(b));
    if let Some(role) = owners::lowest_starter(book, Owner::Role, xs, ys) {
        return Err(Refusal::RoleOwnsBoth(role));
    }
    if let Some(subject) = owners::lowest_starter(book, Owner::Subject, xs, ys) {
        return Err(Refusal::SubjectOwnsBoth(subject));
    }
    Ok(())
}

// Kind 4: 20, 21, 23, 24, 25, 26.
pub fn sme_conflict(book: &book::Words, a: u64, b: u64) -> Answer
    requires { WellFormed book.now × (a < 64) × (b < 64) }
    ensures { said result ≡ first_of sme_conflicts (tables book.now) a b }
{
    if a == b {
        return Err(Refusal::SelfConstraint);
    }
    if book::is_in_row(book, Table::Dme, a, b) {
        return Err(Refusal::AlreadyDme);
    }
    if sets::has(trade::subject_group(book, a), b) {
        return Err(Refusal::OneSubjectGroup);
    }
    if sets::has(trade::role_group(book, a), b) {
        return Err(Refusal::OneRoleGroup);
    }
    owned_together(book, a, b)
}

// Kind 5: 20, 22, 23.
pub fn dme_conflict(book: &book::Words, a: u64, b: u64) -> Answer
    requires { (a < 64) × (b < 64) }
    ensures { said result ≡ first_of dme_conflicts (tables book.now) a b }
{
    if a == b {
        return Err(Refusal::SelfConstraint);
    }
    if book::is_in_row(book, Table::Sme, a, b) {
        return Err(Refusal::AlreadySme);
    }
    if sets::has(trade::subject_group(book, a), b) {
        Err(Refusal::OneSubjectGroup)
    } else {
        Ok(())
    }
}
