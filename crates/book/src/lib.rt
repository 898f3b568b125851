// The words of the book on a lent slice: rows read and cells written by index. Where each word lies is known here alone.
// That the slice is full its type says; the tables are numbered as in document 01's list.
//
// Stays: numbers below 64 are u64 with a `requires`: they shift, add to and compare with words and with what C gives; as a type of their own
// each clause would say `r.n` for r, and each loop over 0 to 63 would build one.
#![tactic(auto)]

ghost use Rattle.std.specs.Prelude.{◌≡◌, ◌+◌, ◌*◌, ◌≤◌, ◌<◌};
ghost use Rattle.sets.specs.Mask.{bit};
ghost use Rattle.rules.specs.Book.{head_words, table_at, cells_at, cell_base, cell_of, role_in, subject_in};
ghost use Rattle.book.specs.Tables.{number};
ghost use Rattle.book.specs.Slice.{tables, Became, with_head, with_row, with_cell, with_member, without_member};

// How many words a book has.
pub const WORDS: usize = 4676;

// The words of a book.
pub type Words = [u64; WORDS];

// How many of them stand before the tables.
const HEAD: u64 = 4;

// Where the cells begin.
const CELLS: u64 = 580;

// A cell is this many times its role, and its subject.
const CELL_BASE: u64 = 128;

// The head's three masks: the defined tasks, roles and subjects.
// Stays: numbers and no enum, since the head has a word 3 besides, which only the scan reads, and kinds 1 to 3 count them.
pub const TASKS: u64 = 0;

pub const ROLES: u64 = 1;

pub const SUBJECTS: u64 = 2;

// The nine tables of document 01, in its order: that is how they are numbered, and where they stand.
#[derive(Clone, Copy, PartialEq, Eq)]
pub enum Table {
    // Four of task pairs, each with the row of a task ..
    Sme,
    Dme,
    Rb,
    Sb,
    // .. the direct juniors and the tasks of a role ..
    Juniors,
    TasksOf,
    // .. the roles of a subject and its active role, plus 1 ..
    RolesOf,
    Active,
    // .. and the tasks of an order.
    Orders,
}

// All nine in that order: table k at place k.
pub const TABLES: [Table; 9] = [
    Table::Sme,
    Table::Dme,
    Table::Rb,
    Table::Sb,
    Table::Juniors,
    Table::TasksOf,
    Table::RolesOf,
    Table::Active,
    Table::Orders,
];

// Where row r of a table stands.
pub fn row_at(table: Table, r: u64) -> u64
    requires { r < 64 }
    ensures { result ≡ table_at (number table) + r }
{
    HEAD + 64 * table as u64 + r
}

// Where the cell of an order and a task stands.
pub fn cell_at(order: u64, task: u64) -> u64
    requires { (order < 64) × (task < 64) }
    ensures { result ≡ cells_at + 64 * order + task }
{
    CELLS + 64 * order + task
}

// A word of the head: the defined tasks, roles or subjects, or word 3.
pub fn head(book: &Words, i: u64) -> u64
    requires { i < head_words }
    ensures { result ≡ (tables book.now).head i }
{
    book[i as usize]
}

// Row r of a table.
pub fn row(book: &Words, table: Table, r: u64) -> u64
    requires { r < 64 }
    ensures { result ≡ (tables book.now).row (number table) r }
{
    book[row_at(table, r) as usize]
}

// Whether number i is in row r of a table.
pub fn is_in_row(book: &Words, table: Table, r: u64, i: u64) -> bool
    requires { (r < 64) × (i < 64) }
    ensures { result ≡ bit ((tables book.now).row (number table) r) i }
{
    sets::has(row(book, table, r), i)
}

// The cell of an order and a task.
pub fn cell(book: &Words, order: u64, task: u64) -> u64
    requires { (order < 64) × (task < 64) }
    ensures { result ≡ (tables book.now).cell order task }
{
    book[cell_at(order, task) as usize]
}

// The executing role in a cell, plus 1; 0 for none.
// Stays: 0 for none, here and for the subject: that is how document 01 writes E and S into the word, and `role_in` promises the word's own.
pub fn role_in(cell: u64) -> u64
    ensures { result ≡ role_in cell }
{
    cell / CELL_BASE
}

// The executing subject in a cell, plus 1; 0 for none.
pub fn subject_in(cell: u64) -> u64
    ensures { result ≡ subject_in cell }
{
    cell % CELL_BASE
}

// The cell with this role and this subject, each plus 1.
pub fn cell_of(role: u64, subject: u64) -> u64
    requires { (role ≤ 64) × (subject < cell_base) }
    ensures { result ≡ cell_of role subject }
{
    CELL_BASE * role + subject
}

// Word i of the head is v.
pub fn set_head(book: &mut Words, i: u64, v: u64)
    requires { i < head_words }
    ensures { Became book.old book.new (with_head i v) }
{
    book[i as usize] = v;
}

// Row r of a table is v.
pub fn set_row(book: &mut Words, table: Table, r: u64, v: u64)
    requires { r < 64 }
    ensures { Became book.old book.new (with_row (number table) r v) }
{
    book[row_at(table, r) as usize] = v;
}

// The cell of an order and a task is v.
pub fn set_cell(book: &mut Words, order: u64, task: u64, v: u64)
    requires { (order < 64) × (task < 64) }
    ensures { Became book.old book.new (with_cell order task v) }
{
    book[cell_at(order, task) as usize] = v;
}

// Number i joins row r of a table.
pub fn add_to_row(book: &mut Words, table: Table, r: u64, i: u64)
    requires { (r < 64) × (i < 64) }
    ensures { Became book.old book.new (with_member (number table) r i) }
{
    let mask = row(book, table, r);
    set_row(book, table, r, sets::add(mask, i));
}

// Number i leaves row r of a table.
pub fn take_from_row(book: &mut Words, table: Table, r: u64, i: u64)
    requires { (r < 64) × (i < 64) }
    ensures { Became book.old book.new (without_member (number table) r i) }
{
    let mask = row(book, table, r);
    set_row(book, table, r, sets::remove(mask, i));
}
