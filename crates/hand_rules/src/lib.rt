// The audit's rules 9 and 10, over the cells of the open orders. For rule 9 who holds what is found first, a set of tasks for each subject:
// over all orders for SME, order by order for DME. For rule 10 the groups are, task by task, and each is looked at once, from its lowest
// task in an order.
#![tactic(auto)]

ghost use Rattle.std.specs.Prelude.{◌≡◌, false, not, ℕ, ◌≤◌, ◌<◌};
ghost use Rattle.sets.specs.Search.{all};
ghost use Rattle.rules.specs.Audit.{pair_free, broken};
ghost use Rattle.book.specs.Tables.{number};
ghost use Rattle.book.specs.Slice.{words, tables, WellFormed};
ghost use Rattle.hand_rules.specs.Hands.{Opens, noted, NotedIn, Gathered, OnlyDefined, dme_apart_in};
ghost use Rattle.hand_rules.specs.Hands.{from_lowest, alike, same_hand, together_in, bound_together};

use book::Table;

// The open orders, those that have a task, as a set.
fn open_orders(book: &book::Words) -> u64
    ensures { Opens (tables book.now) result }
{
    search::meeting(book, Table::Orders, !0, !0)
}

// Task t is noted as held by the subject of its cell, which is given plus 1; 0 is nobody.
fn note(held: &mut [u64; 64], s: u64, t: u64)
    requires { (s ≤ 64) × (t < 64) }
    ensures { (k : ℕ) → words held.new k ≡ noted s t k (words held.old k) }
{
    if s == 0 {
        return;
    }
    let i = (s - 1) as usize;
    held[i] = sets::add(held[i], t);
}

// Notes for each subject what it holds in the order, beside what it was noted with before.
fn note_order(book: &book::Words, order: u64, held: &mut [u64; 64])
    requires { WellFormed book.now × (order < 64) }
    ensures { NotedIn (tables book.now) order held.old held.new }
{
    for t in sets::each(book::row(book, Table::Orders, order)) {
        note(held, book::subject_in(book::cell(book, order, t)), t);
    }
}

// Whether what each subject is noted with holds no pair of the table. Who is undefined is noted with nothing.
fn are_free(book: &book::Words, table: Table, held: &[u64; 64]) -> bool
    requires { OnlyDefined (tables book.now) held.now }
    ensures { result ≡ all 64 (λ s. pair_free ((tables book.now).row (number table)) (words held.now s)) }
{
    for s in sets::each(book::head(book, book::SUBJECTS)) {
        if !search::is_pair_free(book, table, held[s as usize]) {
            return false;
        }
    }
    true
}

// What each subject is noted with joins what it is noted with anywhere.
fn gather(held: &[u64; 64], anywhere: &mut [u64; 64])
    ensures { Gathered held.now anywhere.old anywhere.new }
{
    for (s, here) in held.iter().enumerate() {
        anywhere[s] |= *here;
    }
}

// Rule 9 for DME in one order: nobody holds both tasks of a pair in it. What each holds in it joins what they hold anywhere. An order that is
// not open asks nothing, and nothing is held in it.
fn is_dme_apart_in(book: &book::Words, order: u64, anywhere: &mut [u64; 64]) -> bool
    requires { WellFormed book.now × (order < 64) }
    ensures { (result ≡ dme_apart_in (tables book.now) order) × NotedIn (tables book.now) order anywhere.old anywhere.new }
{
    if book::row(book, Table::Orders, order) == 0 {
        return true;
    }
    let mut held = [0u64; 64];
    note_order(book, order, &mut held);
    gather(&held, anywhere);
    are_free(book, Table::Dme, &held)
}

// Rule 9: DME in each order by itself, then SME of what is held in all of them together.
pub fn are_apart(book: &book::Words) -> bool
    requires { WellFormed book.now }
    ensures { result ≡ not (broken (tables book.now) 9) }
{
    let mut anywhere = [0u64; 64];
    for order in 0..64 {
        if !is_dme_apart_in(book, order, &mut anywhere) {
            return false;
        }
    }
    are_free(book, Table::Sme, &anywhere)
}

// The set, where u is its lowest member; else nothing.
fn from_lowest(set: u64, u: u64) -> u64
    ensures { result ≡ from_lowest set u }
{
    if sets::lowest(set) == u { set } else { 0 }
}

// Rule 10 of two cells: the same S where v is in the subject group, the same E where it is in the role group.
fn is_alike(subjects: u64, roles: u64, v: u64, own: u64, other: u64) -> bool
    requires { v < 64 }
    ensures { result ≡ alike subjects roles v own other }
{
    (!sets::has(subjects, v) | (book::subject_in(own) == book::subject_in(other)))
        & (!sets::has(roles, v) | (book::role_in(own) == book::role_in(other)))
}

// Rule 10 beside u, in whose cell `own` stands.
fn is_together(book: &book::Words, order: u64, subjects: u64, roles: u64, own: u64) -> bool
    requires { order < 64 }
    ensures { result ≡ all 64 (same_hand (tables book.now) order subjects roles own) }
{
    for v in sets::each(subjects | roles) {
        if !is_alike(subjects, roles, v, own, book::cell(book, order, v)) {
            return false;
        }
    }
    true
}

// Rule 10 of u and its groups in one order, where u is the lowest of a group; an order without u asks nothing.
fn is_together_in(book: &book::Words, subjects: u64, roles: u64, u: u64, order: u64) -> bool
    requires { (u < 64) × (order < 64) }
    ensures { result ≡ together_in (tables book.now) subjects roles u order }
{
    let tasks = book::row(book, Table::Orders, order);
    if !sets::has(tasks, u) {
        return true;
    }
    is_together(
        book,
        order,
        from_lowest(tasks & subjects, u),
        from_lowest(tasks & roles, u),
        book::cell(book, order, u),
    )
}

// Rule 10 of u and its groups, in every open order.
fn is_together_with(book: &book::Words, opened: u64, subjects: u64, roles: u64, u: u64) -> bool
    requires { Opens (tables book.now) opened × (u < 64) }
    ensures { result ≡ all 64 (together_in (tables book.now) subjects roles u) }
{
    for order in sets::each(opened) {
        if !is_together_in(book, subjects, roles, u, order) {
            return false;
        }
    }
    true
}

// Rule 10 of u: its groups are made once for all orders, the one from the other. Who is bound to nobody is a group alone.
fn is_bound_together(book: &book::Words, opened: u64, u: u64) -> bool
    requires { Opens (tables book.now) opened × (u < 64) }
    ensures { result ≡ bound_together (tables book.now) u }
{
    if trade::mixed_row(book, Table::Sb, Table::Rb, u) == 0 {
        return true;
    }
    let subjects = trade::subject_group(book, u);
    is_together_with(book, opened, subjects, trade::bound_with(book, subjects), u)
}

// Rule 10, where rule 2 is kept: then the groups of two tasks are the same or apart.
pub fn are_together(book: &book::Words) -> bool
    requires { WellFormed book.now × (broken (tables book.now) 2 ≡ false) }
    ensures { result ≡ not (broken (tables book.now) 10) }
{
    let opened = open_orders(book);
    for u in sets::each(book::head(book, book::TASKS)) {
        if !is_bound_together(book, opened, u) {
            return false;
        }
    }
    true
}
