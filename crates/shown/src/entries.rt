// What the book says of things, as sets: the lines of the tables, and what else is told of one thing or another.
ghost use Rattle.std.specs.Prelude.{◌≡◌, ◌<◌};
ghost use Rattle.sets.specs.Mask.{bit};
ghost use Rattle.rules.specs.Book.{orders};
ghost use Rattle.book.specs.Slice.{tables};
ghost use Rattle.shown.specs.Cells.{cell_count};

use book::Table;
use labels::Sort;

// How many cells the book has: one for each task of each order.
pub const CELL_COUNT: u64 = 4096;

// A set of things of one sort.
#[derive(Clone, Copy)]
pub struct Entry {
    pub sort: Sort,
    pub set: u64,
}

impl Entry {
    // The things of the sort that are in the set.
    pub fn of(sort: Sort, set: u64) -> Entry {
        Entry { sort, set }
    }

    // A thing that stands in the book as its number plus 1; none for 0.
    fn one(sort: Sort, word: u64) -> Entry {
        let set = match word {
            1..=64 => sets::alone(word - 1),
            _ => 0,
        };
        Entry { sort, set }
    }
}

// One thing of a sort.
#[derive(Clone, Copy)]
pub struct Thing {
    pub sort: Sort,
    pub n: u64,
    ghost within: { n < 64 },
}

impl Thing {
    // The thing, if the book has it: it is defined, or an order that is open.
    pub fn known(book: &book::Words, sort: Sort, n: u64) -> Option<Thing> {
        if 63 < n {
            return None;
        }
        let is_known = match sort {
            Sort::Task => sets::has(book::head(book, book::TASKS), n),
            Sort::Role => sets::has(book::head(book, book::ROLES), n),
            Sort::Person => sets::has(book::head(book, book::SUBJECTS), n),
            _ => book::row(book, Table::Orders, n) != 0,
        };
        is_known.then_some(Thing { sort, n })
    }

    // It alone.
    fn entry(self) -> Entry {
        Entry::of(self.sort, sets::alone(self.n))
    }
}

// A task of an order.
#[derive(Clone, Copy)]
pub struct Hand {
    pub order: u64,
    pub task: u64,
    ghost within: { (order < 64) × (task < 64) },
}

impl Hand {
    // That task of that order, which need not have it.
    pub fn of(order: u64, task: u64) -> Hand
        requires { (order < 64) × (task < 64) }
    {
        Hand { order, task }
    }

    // By its number among the tasks of all orders, if the order has it.
    pub fn known(book: &book::Words, at: u64) -> Option<Hand>
        requires { at < cell_count }
    {
        let hand = Hand::of(at / 64, at % 64);
        hand.is_known(book).then_some(hand)
    }

    // Whether the order has the task.
    pub fn is_known(self, book: &book::Words) -> bool
        ensures { result ≡ bit ((tables book.now).row orders self.order) self.task }
    {
        book::is_in_row(book, Table::Orders, self.order, self.task)
    }

    // Whether nobody has it in hand, and no role holds it.
    pub fn is_free(self, book: &book::Words) -> bool {
        book::cell(book, self.order, self.task) == 0
    }

    // Whether it is what the thing is asked about: its own task, done in its role, done by its person, or in its order.
    pub fn concerns(self, book: &book::Words, thing: Thing) -> bool {
        let cell = book::cell(book, self.order, self.task);
        match thing.sort {
            Sort::Task => self.task == thing.n,
            Sort::Role => book::role_in(cell) == thing.n + 1,
            Sort::Person => book::subject_in(cell) == thing.n + 1,
            _ => self.order == thing.n,
        }
    }
}

// The role that a person acts in.
pub fn acting_in(book: &book::Words, person: Thing) -> Entry {
    Entry::one(Sort::Role, book::row(book, Table::Active, person.n))
}

// A person: their number, roles, active role, tasks.
pub fn of_person(book: &book::Words, person: Thing) -> [Entry; 4] {
    let assigned = book::row(book, Table::RolesOf, person.n);
    [
        person.entry(),
        Entry::of(Sort::Role, assigned),
        acting_in(book, person),
        Entry::of(Sort::Task, trade::owned_tasks(book, assigned)),
    ]
}

// A role: its number, direct juniors, tasks assigned, tasks owned.
pub fn of_role(book: &book::Words, role: Thing) -> [Entry; 4] {
    [
        role.entry(),
        Entry::of(Sort::Role, book::row(book, Table::Juniors, role.n)),
        Entry::of(Sort::Task, book::row(book, Table::TasksOf, role.n)),
        Entry::of(Sort::Task, trade::owned_tasks(book, sets::alone(role.n))),
    ]
}

// A task: its number, what it excludes and is bound to, its two groups.
pub fn of_task(book: &book::Words, task: Thing) -> [Entry; 7] {
    let n = task.n;
    [
        sets::alone(n),
        book::row(book, Table::Sme, n),
        book::row(book, Table::Dme, n),
        book::row(book, Table::Rb, n),
        book::row(book, Table::Sb, n),
        trade::subject_group(book, n),
        trade::role_group(book, n),
    ]
    .map(|set| Entry::of(Sort::Task, set))
}

// A task of an order: the order, the task, the executing role and person.
pub fn of_hand(book: &book::Words, hand: Hand) -> [Entry; 4] {
    let cell = book::cell(book, hand.order, hand.task);
    [
        Entry::of(Sort::Order, sets::alone(hand.order)),
        Entry::of(Sort::Task, sets::alone(hand.task)),
        Entry::one(Sort::Role, book::role_in(cell)),
        Entry::one(Sort::Person, book::subject_in(cell)),
    ]
}
