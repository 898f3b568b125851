// Document 01, "The audit": it only reads, and names the lowest broken rule.
#![tactic(auto)]

ghost use Rattle.std.specs.Prelude.{◌≡◌, false, not, ℕ, ◌<◌};
ghost use Rattle.rules.specs.Audit.{apart, kept_at, broken};
ghost use Rattle.book.specs.Tables.{number};
ghost use Rattle.book.specs.Slice.{tables, WellFormed};
ghost use Rattle.audit.specs.Guarantee.{Finds};
ghost use Rattle.audit.specs.Asked.{asked_by};
ghost use Rattle.audit.specs.Broken.{IsFirstBroken};

use answers::{Fault, Finding};
use book::Table;
use owners::Owner;

// The first number that is no rule.
// Stays: a rule goes by its number, here and in all that part by it: document 01 gives it, and a finding tells it to a C caller.
const PAST: u8 = 11;

// The numbers that rules 1 to 8 ask about: tasks in 1 to 5, roles in 6 and 7, subjects in 8. Where nothing is defined, nothing stands.
fn asked(book: &book::Words, rule: u8) -> u64
    ensures { result ≡ asked_by (tables book.now) rule }
{
    match rule {
        6..=7 => book::head(book, book::ROLES),
        8 => book::head(book, book::SUBJECTS),
        _ => book::head(book, book::TASKS),
    }
}

// Rules 4 and 5 of task x: its row has none of its group, which is made only where the row has somebody.
fn is_apart_from<F: FnOnce(u64) -> u64>(book: &book::Words, table: Table, group: F, x: u64) -> bool
    requires { (x < 64) × F.pre group x }
    ensures { (groups : ℕ → ℕ) → ((m : ℕ) → F.post group x m → m ≡ groups x) → result ≡ apart ((tables book.now).row (number table)) groups x }
{
    if book::row(book, table, x) == 0 {
        return true;
    }
    table_rules::is_apart(book, table, group(x), x)
}

// Rules 1 and 2 of task x. What is neither asks nothing here.
fn is_pair_kept(book: &book::Words, rule: u8, x: u64) -> bool
    requires { (x < 64) × (rule < 3) }
    ensures { result ≡ kept_at (tables book.now) rule x }
{
    match rule {
        1 => table_rules::is_kept_in_four(|table| !book::is_in_row(book, table, x, x)),
        2 => table_rules::is_kept_in_four(|table| table_rules::is_two_sided(book, table, x)),
        _ => true,
    }
}

// Rules 3 to 5 of task x.
fn is_exclusion_kept(book: &book::Words, rule: u8, x: u64) -> bool
    requires { (x < 64) × (2 < rule) × (rule < 6) }
    ensures { result ≡ kept_at (tables book.now) rule x }
{
    match rule {
        3 => table_rules::is_apart(book, Table::Sme, book::row(book, Table::Dme, x), x),
        4 => is_apart_from(book, Table::Sme, |t| trade::role_group(book, t), x),
        _ => is_apart_from(book, Table::Dme, |t| trade::subject_group(book, t), x),
    }
}

// Rules 6 and 7 of role x, rule 8 of subject x.
fn is_owner_kept(book: &book::Words, rule: u8, x: u64) -> bool
    requires { (x < 64) × (5 < rule) × (rule < 9) }
    ensures { result ≡ kept_at (tables book.now) rule x }
{
    match rule {
        6 => table_rules::is_acyclic(book, x),
        7 => table_rules::is_owner_free(book, Owner::Role, x),
        _ => table_rules::is_owner_free(book, Owner::Subject, x),
    }
}

// What one of rules 1 to 8 asks of one number. It is asked of every number, so the rules part by tests: a jump through a table costs more.
fn is_kept_at(book: &book::Words, rule: u8, x: u64) -> bool
    requires { (x < 64) × (rule < 9) }
    ensures { result ≡ kept_at (tables book.now) rule x }
{
    if rule < 3 {
        return is_pair_kept(book, rule, x);
    }
    if rule < 6 {
        return is_exclusion_kept(book, rule, x);
    }
    is_owner_kept(book, rule, x)
}

// Whether one of rules 1 to 8 is kept: it is at every defined number, and at the others by itself.
fn is_kept(book: &book::Words, rule: u8) -> bool
    requires { WellFormed book.now × (rule < 9) }
    ensures { result ≡ not (broken (tables book.now) rule) }
{
    for x in sets::each(asked(book, rule)) {
        if !is_kept_at(book, rule, x) {
            return false;
        }
    }
    true
}

// Whether a rule is broken. Rule 10 is asked last, and then rule 2 is kept.
fn is_broken(book: &book::Words, rule: u8) -> bool
    requires { WellFormed book.now × (rule < 11) × (2 < rule → broken (tables book.now) 2 ≡ false) }
    ensures { result ≡ broken (tables book.now) rule }
{
    match rule {
        9 => !hand_rules::are_apart(book),
        10 => !hand_rules::are_together(book),
        _ => !is_kept(book, rule),
    }
}

// The lowest broken rule, if one is broken.
fn lowest_broken(book: &book::Words) -> Option<u8>
    requires { WellFormed book.now }
    ensures { IsFirstBroken (tables book.now) result }
{
    for rule in 1..PAST {
        if is_broken(book, rule) {
            return Some(rule);
        }
    }
    None
}

// The audit of a lent slice of any length.
pub fn audit(words: &[u64]) -> Finding
    ensures { Finds words.now result }
{
    let Ok(book) = <&book::Words>::try_from(words) else {
        return Err(Fault::WrongLength);
    };
    if let Some(i) = scan::first_bad(book) {
        return Err(Fault::BadWord(i));
    }
    match lowest_broken(book) {
        Some(rule) => Err(Fault::Broken(rule)),
        None => Ok(()),
    }
}
