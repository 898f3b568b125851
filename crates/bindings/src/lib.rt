// What conflicts with a new binding, in document 01's order: kind 6 (RB) and kind 7 (SB).
#![tactic(auto)]

ghost use Rattle.std.specs.Prelude.{◌≡◌, [], ◌∷◌, ◌<◌};
ghost use Rattle.rules.specs.Numbers.{sme_between_groups, dme_between_groups, rb_conflicts, sb_conflicts, first_of};
ghost use Rattle.book.specs.Slice.{tables};
ghost use Rattle.answers.specs.Answers.{said};

use answers::{Answer, Refusal};
use book::Table;

// Kind 6: 20, 22, 27.
pub fn rb_conflict(book: &book::Words, a: u64, b: u64) -> Answer
    requires { (a < 64) × (b < 64) }
    ensures { said result ≡ first_of rb_conflicts (tables book.now) a b }
{
    if a == b {
        return Err(Refusal::SelfConstraint);
    }
    if book::is_in_row(book, Table::Sme, a, b) {
        return Err(Refusal::AlreadySme);
    }
    let xs = trade::role_group(book, a);
    let ys = trade::role_group(book, b);
    match search::first_pair(book, Table::Sme, xs, ys) {
        Some((x, y)) => Err(Refusal::SmeBetween(x, y)),
        None => Ok(()),
    }
}

// 27 between the role groups of a and b, then 28 between their subject groups, of which the role groups are made.
fn groups_conflict(book: &book::Words, a: u64, b: u64) -> Answer
    requires { (a < 64) × (b < 64) }
    ensures { said result ≡ first_of (sme_between_groups ∷ dme_between_groups ∷ []) (tables book.now) a b }
{
    let xs = trade::subject_group(book, a);
    let ys = trade::subject_group(book, b);
    let wide_xs = trade::bound_with(book, xs);
    let wide_ys = trade::bound_with(book, ys);
    if let Some((x, y)) = search::first_pair(book, Table::Sme, wide_xs, wide_ys) {
        return Err(Refusal::SmeBetween(x, y));
    }
    if let Some((x, y)) = search::first_pair(book, Table::Dme, xs, ys) {
        return Err(Refusal::DmeBetween(x, y));
    }
    Ok(())
}

// Kind 7: 20, 21, 22, 27, 28.
pub fn sb_conflict(book: &book::Words, a: u64, b: u64) -> Answer
    requires { (a < 64) × (b < 64) }
    ensures { said result ≡ first_of sb_conflicts (tables book.now) a b }
{
    if a == b {
        return Err(Refusal::SelfConstraint);
    }
    if book::is_in_row(book, Table::Dme, a, b) {
        return Err(Refusal::AlreadyDme);
    }
    if book::is_in_row(book, Table::Sme, a, b) {
        return Err(Refusal::AlreadySme);
    }
    groups_conflict(book, a, b)
}
