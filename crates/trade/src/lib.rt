// Document 01, "Words of the trade", on a lent slice: reach, owns, the two groups.
// One closure over the rows of two tables serves them all; a single table is mixed with itself.
#![tactic(auto)]

ghost use Rattle.std.specs.Prelude.{◌≡◌, ℕ, ◌<◌, get_or};
ghost use Rattle.rules.specs.Book.{SB, RB};
ghost use Rattle.sets.specs.Mask.{joined};
ghost use Rattle.chains.specs.Closure.{close};
ghost use Rattle.rules.specs.Trade.{subject, mixed, below, reach, owns_role, owned_tasks, subject_group, role_group};
ghost use Rattle.book.specs.Tables.{number};
ghost use Rattle.book.specs.Slice.{words, tables};
ghost use Rattle.trade.specs.Spread.{Enough};

use book::Table;

// Row r of two tables mixed.
pub fn mixed_row(book: &book::Words, first: Table, second: Table, r: u64) -> u64
    requires { r < 64 }
    ensures { result ≡ mixed (tables book.now) (number first) (number second) r }
{
    book::row(book, first, r) | book::row(book, second, r)
}

// The mixed rows of all members of the set, joined.
pub fn joined_rows(book: &book::Words, first: Table, second: Table, set: u64) -> u64
    ensures { result ≡ joined 64 (mixed (tables book.now) (number first) (number second)) set }
{
    let mut out = 0;
    for r in sets::each(set) {
        out |= mixed_row(book, first, second, r);
    }
    out
}

// All rows of two tables mixed, side by side.
fn mixed_rows(book: &book::Words, first: Table, second: Table) -> [u64; 64]
    ensures { (k : ℕ) → k < 64 → get_or result k 0 ≡ mixed (tables book.now) (number first) (number second) k }
{
    let mut rows = [0u64; 64];
    for r in 0..64 {
        rows[r as usize] = mixed_row(book, first, second, r);
    }
    rows
}

// The rows of all members of the set, joined.
fn joined_of(rows: &[u64; 64], set: u64) -> u64
    ensures { result ≡ joined 64 (words rows.now) set }
{
    let mut out = 0;
    for r in sets::each(set) {
        out |= rows[r as usize];
    }
    out
}

// The set and all that chains along the rows lead to from it: widened by one step at each call, until nothing is added or
// no steps are left. Only the rows of fresh members are joined; those of the others were before.
fn widened(rows: &[u64; 64], set: u64, fresh: u64, steps: u64) -> u64
    requires { Enough (words rows.now) set fresh }
    ensures { result ≡ close steps (words rows.now) set }
{
    if steps == 0 {
        return set;
    }
    let more = joined_of(rows, fresh) & !set;
    if more == 0 {
        return set;
    }
    widened(rows, set | more, more, steps - 1)
}

// The same along the mixed rows of the book. Most sets are closed by now; only where they aren't are the rows laid side by side.
fn grown(book: &book::Words, first: Table, second: Table, set: u64, fresh: u64, steps: u64) -> u64
    requires { Enough (mixed (tables book.now) (number first) (number second)) set fresh }
    ensures { result ≡ close steps (mixed (tables book.now) (number first) (number second)) set }
{
    if steps == 0 {
        return set;
    }
    let more = joined_rows(book, first, second, fresh) & !set;
    if more == 0 {
        return set;
    }
    let rows = mixed_rows(book, first, second);
    widened(&rows, set | more, more, steps - 1)
}

// The set and all that chains along the mixed rows lead to from it, in so many steps at most: the first step, from all its members.
// In one place in the machine code, for whatever tables: made apart for each pair of them it would call memcpy, which the header rules out.
#[inline(never)]
pub fn spread(book: &book::Words, first: Table, second: Table, set: u64, steps: u64) -> u64
    ensures { result ≡ close steps (mixed (tables book.now) (number first) (number second)) set }
{
    if steps == 0 {
        return set;
    }
    let more = joined_rows(book, first, second, set) & !set;
    if more == 0 {
        return set;
    }
    grown(book, first, second, set | more, more, steps - 1)
}

// The roles of the set and all roles that they reach.
pub fn below(book: &book::Words, set: u64) -> u64
    ensures { result ≡ below (tables book.now) set }
{
    spread(book, Table::Juniors, Table::Juniors, set, 64)
}

// The roles that role r reaches.
pub fn reach(book: &book::Words, r: u64) -> u64
    requires { r < 64 }
    ensures { result ≡ reach (tables book.now) r }
{
    below(book, book::row(book, Table::Juniors, r))
}

// Whether subject s owns role r: one of its assigned roles, or reached by one.
pub fn owns_role(book: &book::Words, s: u64, r: u64) -> bool
    requires { (s < 64) × (r < 64) }
    ensures { result ≡ owns_role (tables book.now) (subject (tables book.now) s) r }
{
    sets::has(below(book, book::row(book, Table::RolesOf, s)), r)
}

// The tasks owned by one who starts with a set of roles.
pub fn owned_tasks(book: &book::Words, start: u64) -> u64
    ensures { result ≡ owned_tasks (tables book.now) start }
{
    joined_rows(book, Table::TasksOf, Table::TasksOf, below(book, start))
}

// The subject group of task t: chains of SB.
pub fn subject_group(book: &book::Words, t: u64) -> u64
    requires { t < 64 }
    ensures { result ≡ subject_group (tables book.now) t }
{
    spread(book, Table::Sb, Table::Sb, sets::alone(t), 64)
}

// What chains of SB and RB mixed lead to from a set of tasks. From the subject group of a task it is the role group: whoever needs both
// can make the one from the other.
pub fn bound_with(book: &book::Words, set: u64) -> u64
    ensures { result ≡ close 64 (mixed (tables book.now) SB RB) set }
{
    spread(book, Table::Sb, Table::Rb, set, 64)
}

// The role group of task t: chains of SB and RB mixed.
pub fn role_group(book: &book::Words, t: u64) -> u64
    requires { t < 64 }
    ensures { result ≡ role_group (tables book.now) t }
{
    bound_with(book, sets::alone(t))
}
