// Bad words, block by block: the rows of each table, the cells of each order, and the lowest word that may not stand where it stands.
#![tactic(auto)]

ghost use Rattle.std.specs.Prelude.{◌≡◌, ◌<◌};
ghost use Rattle.sets.specs.Members.{IsLowest};
ghost use Rattle.rules.specs.Book.{orders, names, bad_active, bad_cell};
ghost use Rattle.book.specs.Tables.{number};
ghost use Rattle.book.specs.Slice.{tables};
ghost use Rattle.scan.specs.Blocks.{has_role, mask_bad, active_bad, row_bad, cell_bad, joined_cells, IsFirstBad};

use book::Table;

// Whether v is 0, or one more than a number of the set.
fn is_in(set: u64, v: u64) -> bool
    ensures { result ≡ names set v }
{
    match v {
        0 => true,
        1..=64 => sets::has(set, v - 1),
        _ => false,
    }
}

// Whether an active role is bad: its subject is undefined, or no known role has this number.
fn is_bad_active(defined: bool, known: u64, v: u64) -> bool
    ensures { result ≡ bad_active defined known v }
{
    !defined | !is_in(known, v)
}

// Whether E of a cell is one more than a number of 0 to 63. Asked of the whole word, that is one test and no division.
fn has_role(v: u64) -> bool
    ensures { result ≡ has_role v }
{
    (v >= book::cell_of(1, 0)) & (v <= book::cell_of(64, 127))
}

// Whether a cell is bad in which something stands. E and S are one more than what they name, so they are looked up in the sets moved up by one.
// For E what falls off at the end comes in at the beginning. For S that is the place of 0, which is always in; so 64 is asked for apart.
fn is_bad_cell(in_order: bool, roles: u64, subjects: u64, v: u64) -> bool
    ensures { result ≡ bad_cell in_order roles subjects v }
{
    if !in_order || !has_role(v) {
        return true;
    }
    if !sets::has((roles << 1) | (roles >> 63), book::role_in(v) % 64) {
        return true;
    }
    let subject = book::subject_in(v);
    if subject >= 64 {
        return !is_in(subjects, subject);
    }
    !sets::has((subjects << 1) | 1, subject)
}

// Whether row r of a table of masks is bad: of an undefined owner any but 0 is, of a defined one what names something that is not known.
fn is_bad_mask_at(book: &book::Words, table: Table, owners: u64, known: u64, r: u64) -> bool
    requires { r < 64 }
    ensures { result ≡ mask_bad (tables book.now) (number table) owners known r }
{
    let v = book::row(book, table, r);
    if sets::has(owners, r) {
        sets::meets(v, !known)
    } else {
        v != 0
    }
}

// The lowest bad row of a table of masks, if it has one.
fn bad_mask_in(book: &book::Words, table: Table, owners: u64, known: u64) -> Option<u64>
    ensures { IsLowest (mask_bad (tables book.now) (number table) owners known) result }
{
    (0..64).find(|r| is_bad_mask_at(book, table, owners, known, *r))
}

// Whether the active role of subject r is bad. A word of 0 is never bad.
fn is_bad_active_at(book: &book::Words, subjects: u64, roles: u64, r: u64) -> bool
    requires { r < 64 }
    ensures { result ≡ active_bad (tables book.now) subjects roles r }
{
    let v = book::row(book, Table::Active, r);
    v != 0 && is_bad_active(sets::has(subjects, r), roles, v)
}

// The lowest bad active role, if there is one.
fn bad_active_in(book: &book::Words, subjects: u64, roles: u64) -> Option<u64>
    ensures { IsLowest (active_bad (tables book.now) subjects roles) result }
{
    (0..64).find(|r| is_bad_active_at(book, subjects, roles, *r))
}

// The lowest bad row of a table, if it has one.
// Stays: a match on the table, which says in a line for each what it may hold; closures handed in would be these lines in another place.
// A call of its own, so that what goes through the tables keeps them in a frame, and not below the stack's end, in the red zone.
#[inline(never)]
fn bad_row_in(book: &book::Words, table: Table) -> Option<u64>
    ensures { IsLowest (row_bad (tables book.now) (number table)) result }
{
    let tasks = book::head(book, book::TASKS);
    let roles = book::head(book, book::ROLES);
    let subjects = book::head(book, book::SUBJECTS);
    match table {
        Table::Sme | Table::Dme | Table::Rb | Table::Sb => bad_mask_in(book, table, tasks, tasks),
        Table::Juniors => bad_mask_in(book, table, roles, roles),
        Table::TasksOf => bad_mask_in(book, table, roles, tasks),
        Table::RolesOf => bad_mask_in(book, table, subjects, roles),
        Table::Active => bad_active_in(book, subjects, roles),
        Table::Orders => bad_mask_in(book, table, !0, tasks),
    }
}

// The cells of an order, joined: 0 where all are 0.
fn joined_cells(book: &book::Words, order: u64) -> u64
    requires { order < 64 }
    ensures { result ≡ joined_cells (tables book.now) order }
{
    let mut any = 0;
    for t in 0..64 {
        any |= book::cell(book, order, t);
    }
    any
}

// Whether the cell of an order with these tasks, and of task t, is bad, where these roles and subjects are known. A cell of 0 is never bad.
fn is_bad_cell_at(
    book: &book::Words,
    order: u64,
    tasks: u64,
    roles: u64,
    subjects: u64,
    t: u64,
) -> bool
    requires at { (order < 64) × (tasks ≡ (tables book.now).row orders order) × (t < 64) }
    requires known { (roles ≡ (tables book.now).head 1) × (subjects ≡ (tables book.now).head 2) }
    ensures { result ≡ cell_bad (tables book.now) order t }
{
    let v = book::cell(book, order, t);
    v != 0 && is_bad_cell(sets::has(tasks, t), roles, subjects, v)
}

// The lowest bad cell of an order with these tasks, if it has one. Roles and subjects are read once, and not at each of the cells.
fn bad_cell_among(book: &book::Words, order: u64, tasks: u64) -> Option<u64>
    requires { (order < 64) × (tasks ≡ (tables book.now).row orders order) }
    ensures { IsLowest (cell_bad (tables book.now) order) result }
{
    let roles = book::head(book, book::ROLES);
    let subjects = book::head(book, book::SUBJECTS);
    (0..64).find(|t| is_bad_cell_at(book, order, tasks, roles, subjects, *t))
}

// The lowest bad cell of an order, if it has one. Most orders are closed, and then all their cells are 0.
fn bad_cell_in(book: &book::Words, order: u64) -> Option<u64>
    requires { order < 64 }
    ensures { IsLowest (cell_bad (tables book.now) order) result }
{
    let tasks = book::row(book, Table::Orders, order);
    if tasks == 0 && joined_cells(book, order) == 0 {
        return None;
    }
    bad_cell_among(book, order, tasks)
}

// The lowest bad word, if the book is not well-formed. Of the head only word 3 can be bad.
pub fn first_bad(book: &book::Words) -> Option<u64>
    ensures { IsFirstBad (tables book.now) result }
{
    if book::head(book, 3) != 0 {
        return Some(3);
    }
    for table in book::TABLES {
        if let Some(r) = bad_row_in(book, table) {
            return Some(book::row_at(table, r));
        }
    }
    for order in 0..64 {
        if let Some(t) = bad_cell_in(book, order) {
            return Some(book::cell_at(order, t));
        }
    }
    None
}
