// All about one thing: what it is, has, excludes and is bound to, and what is in hand.
ghost use Rattle.std.specs.Prelude.{ℕ, ◌<◌};

use crate::entries;
use crate::entries::{Entry, Hand, Thing};
use book::Table;
use called::Pen;
use labels::Sort;

// Writes the first line: which thing it is.
fn title(pen: &mut Pen, thing: Thing) {
    pen.sort(thing.sort);
    pen.paper.byte(b' ');
    pen.thing(thing.sort, thing.n);
    pen.paper.byte(b'\n');
}

// Writes how many tasks an order has.
fn size(pen: &mut Pen, book: &book::Words, thing: Thing) {
    if thing.sort == Sort::Order {
        pen.paper.text("  how many tasks ");
        pen.paper
            .number(sets::count(book::row(book, Table::Orders, thing.n)));
        pen.paper.byte(b'\n');
    }
}

// The tasks that exclude one of the set (SME).
fn excluded(book: &book::Words, set: u64) -> Entry {
    Entry::of(
        Sort::Task,
        trade::joined_rows(book, Table::Sme, Table::Sme, set),
    )
}

// All things of a sort that pass.
fn those<F: Fn(u64) -> bool>(sort: Sort, test: F) -> Entry
    requires { (i : ℕ) → i < 64 → F.pre test i }
{
    let mut set: u64 = 0;
    for i in 0..64u64 {
        if test(i) {
            set = sets::add(set, i);
        }
    }
    Entry::of(sort, set)
}

// Whether the person holds the task in one open order or another.
fn is_held(book: &book::Words, person: Thing, task: u64) -> bool
    requires { task < 64 }
{
    (0..64u64).any(|order| {
        let hand = Hand::of(order, task);
        hand.is_known(book) && hand.concerns(book, person)
    })
}

// The tasks of the role that a person acts in, as long as they own it; without those that exclude one that they hold (SME), which they may
// do in no order meanwhile.
fn may_do(book: &book::Words, person: Thing) -> Entry {
    let owned = trade::below(book, book::row(book, Table::RolesOf, person.n));
    let acting = entries::acting_in(book, person);
    let tasks = trade::owned_tasks(book, acting.set & owned);
    let held = those(Sort::Task, |task| is_held(book, person, task));
    Entry::of(Sort::Task, tasks & !excluded(book, held.set).set)
}

// Writes facts, one to a line: what each is, and the things that it is of.
fn put(pen: &mut Pen, facts: &[(&str, Entry)]) {
    for (label, entry) in facts {
        pen.paper.text(label);
        pen.things(entry.sort, entry.set);
        pen.paper.byte(b'\n');
    }
}

// Of a person: has roles, acts in, owns tasks, may do now, must not own.
fn of_person(pen: &mut Pen, book: &book::Words, person: Thing) {
    let [_, roles, acting, tasks] = entries::of_person(book, person);
    put(
        pen,
        &[
            ("  has roles      ", roles),
            ("  acts in        ", acting),
            ("  owns tasks     ", tasks),
            ("  may do now     ", may_do(book, person)),
            ("  must not own   ", excluded(book, tasks.set)),
        ],
    );
}

// Of a role: the roles below and above it, its tasks, those it must not own, and whose it is.
fn of_role(pen: &mut Pen, book: &book::Words, role: Thing) {
    let n = role.n;
    let [_, juniors, assigned, owned] = entries::of_role(book, role);
    let seniors = those(Sort::Role, |r| sets::has(trade::reach(book, r), n));
    let owners = those(Sort::Person, |s| trade::owns_role(book, s, n));
    let actors = those(Sort::Person, |s| book::row(book, Table::Active, s) == n + 1);
    put(
        pen,
        &[
            ("  juniors        ", juniors),
            ("  seniors        ", seniors),
            ("  has tasks      ", assigned),
            ("  owns tasks     ", owned),
            ("  must not own   ", excluded(book, owned.set)),
            ("  owned by       ", owners),
            ("  acted in by    ", actors),
        ],
    );
}

// Of a task: what it excludes and is bound to, its two groups, and who owns it.
fn of_task(pen: &mut Pen, book: &book::Words, task: Thing) {
    let n = task.n;
    let [_, sme, dme, rb, sb, subjects, roles] = entries::of_task(book, task);
    let owning = those(
        Sort::Role,
        |r| sets::has(trade::owned_tasks(book, sets::alone(r)), n),
    );
    let owners = those(
        Sort::Person,
        |s| sets::has(
            trade::owned_tasks(book, book::row(book, Table::RolesOf, s)),
            n,
        ),
    );
    put(
        pen,
        &[
            ("  SME            ", sme),
            ("  DME            ", dme),
            ("  RB             ", rb),
            ("  SB             ", sb),
            ("  subject group  ", subjects),
            ("  role group     ", roles),
            ("  owned by roles ", owning),
            ("  and by people  ", owners),
        ],
    );
}

// Of an order: the tasks that nobody has in hand and no role holds.
fn of_order(pen: &mut Pen, book: &book::Words, order: u64)
    requires { order < 64 }
{
    let free = those(Sort::Task, |task| {
        let hand = Hand::of(order, task);
        hand.is_known(book) && hand.is_free(book)
    });
    put(pen, &[("  still free     ", free)]);
}

// Writes what is told of a thing of its sort.
fn facts(pen: &mut Pen, book: &book::Words, thing: Thing) {
    match thing.sort {
        Sort::Task => of_task(pen, book, thing),
        Sort::Role => of_role(pen, book, thing),
        Sort::Person => of_person(pen, book, thing),
        _ => of_order(pen, book, thing.n),
    }
}

// Writes a line about a task of an order in hand; without the thing that the line is about.
fn hand(pen: &mut Pen, book: &book::Words, about: Sort, hand: Hand) {
    let [order, task, role, person] = entries::of_hand(book, hand);
    pen.paper.text("  in hand       ");
    for (word, entry) in &[
        (" task ", task),
        (" in order ", order),
        (", role ", role),
        (", person ", person),
    ] {
        if entry.sort != about {
            pen.paper.text(word);
            pen.things(entry.sort, entry.set);
        }
    }
    pen.paper.byte(b'\n');
}

// Writes the tasks of orders that are in hand and concern the thing, one to a line.
fn hands(pen: &mut Pen, book: &book::Words, thing: Thing) {
    let mut idle = true;
    for order in 0..64u64 {
        for task in sets::each(book::row(book, Table::Orders, order)) {
            let it = Hand::of(order, task);
            if !it.is_free(book) && it.concerns(book, thing) {
                hand(pen, book, thing.sort, it);
                idle = false;
            }
        }
    }
    if idle {
        pen.paper.text("  in hand        -\n");
    }
}

// Writes all about a thing that is in the book.
pub fn all(pen: &mut Pen, book: &book::Words, thing: Thing) {
    title(pen, thing);
    size(pen, book, thing);
    facts(pen, book, thing);
    hands(pen, book, thing);
}
