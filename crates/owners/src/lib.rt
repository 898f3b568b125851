// Owners, roles and subjects alike: who owns two tasks (25, 26), and who owns a task that is SME to one it would gain (31, 32).
#![tactic(auto)]

ghost use Rattle.std.specs.Prelude.{◌≡◌, ◌<◌};
ghost use Rattle.sets.specs.Members.{IsLowest};
ghost use Rattle.book.specs.Slice.{tables, WellFormed};
ghost use Rattle.owners.specs.Owners.{start_of, clashes_below, found_clash};
ghost use Rattle.owners.specs.Rising.{above, Raised, owners_of, starters, starts_in_both};

use book::Table;

// Whether numbers 0 to 63 stand for roles or for subjects.
// Stays: matched where the two part, and no closure, since it is handed through three searches and the definitions go by it too.
#[derive(Clone, Copy)]
pub enum Owner {
    Role,
    Subject,
}

// The roles that an owner starts with: a role with itself, a subject with its assigned roles.
pub fn start_of(book: &book::Words, owner: Owner, o: u64) -> u64
    requires { o < 64 }
    ensures { result ≡ start_of (tables book.now) owner o }
{
    match owner {
        Owner::Role => sets::alone(o),
        Owner::Subject => book::row(book, Table::RolesOf, o),
    }
}

// One round upwards: the set with roles that have a junior in it. What is added counts for those that are asked after it, so that a chain
// which goes up by its numbers takes one round.
fn raised(book: &book::Words, set: u64) -> u64
    ensures { Raised (tables book.now) set result }
{
    let mut all = set;
    for r in sets::each(book::head(book, book::ROLES) & !set) {
        all |= search::meeting_row(book, Table::Juniors, all, r);
    }
    all
}

// The roles of the set and all that reach one of them: round after round, until nothing is added.
fn above(book: &book::Words, set: u64) -> u64
    ensures { result ≡ above (tables book.now) set }
{
    let mut all = set;
    let mut more = raised(book, set);
    while more != all {
        all = more;
        more = raised(book, all);
    }
    all
}

// The roles that own one of the tasks.
pub fn owners_of(book: &book::Words, tasks: u64) -> u64
    ensures { result ≡ owners_of (tables book.now) tasks }
{
    above(
        book,
        search::meeting(book, Table::TasksOf, book::head(book, book::ROLES), tasks),
    )
}

// The owners that start with a role of the set.
fn starters(book: &book::Words, owner: Owner, set: u64) -> u64
    ensures { result ≡ starters (tables book.now) owner set }
{
    match owner {
        Owner::Role => set,
        Owner::Subject => {
            search::meeting(book, Table::RolesOf, book::head(book, book::SUBJECTS), set)
        }
    }
}

// The lowest owner that starts with a role of each set.
pub fn lowest_starter(book: &book::Words, owner: Owner, xs: u64, ys: u64) -> Option<u64>
    ensures { IsLowest (starts_in_both (tables book.now) owner xs ys) result }
{
    sets::first(starters(book, owner, xs) & starters(book, owner, ys))
}

// Among the owners of role b: the lowest that owns a task SME to one it would gain, and all tasks it owns that are.
pub fn first_clash(book: &book::Words, owner: Owner, b: u64, gain: u64) -> Option<(u64, u64)>
    requires { WellFormed book.now × (b < 64) }
    ensures { result ≡ found_clash (clashes_below (tables book.now) owner b gain) }
{
    let all_clashing = search::meeting(book, Table::Sme, book::head(book, book::TASKS), gain);
    if all_clashing == 0 {
        return None;
    }
    let holders = owners_of(book, all_clashing);
    if holders == 0 {
        return None;
    }
    let o = lowest_starter(book, owner, above(book, sets::alone(b)), holders)?;
    let owned = trade::owned_tasks(book, start_of(book, owner, o));
    Some((o, owned & all_clashing))
}
