// The panel's names of tasks, roles, persons and orders, in one table of bytes: a row for each thing, filled up with blanks. A row of
// blanks is no name. The book knows nothing of names.
#![tactic(auto)]

ghost use Rattle.std.specs.Prelude.{◌≡◌, ◌+◌, ◌<◌, ◌≤◌, length};
ghost use Rattle.std.specs.Option.{SomeIff};
ghost use Rattle.text.specs.Rows.{filled};
ghost use Rattle.labels.specs.Names.{is_name_byte, has_name_bytes, is_name, sort_number, row_at, found, given, name_letter, name_length, name_bytes};

// What a number at the panel stands for: a thing of one of the four sorts that have names; or no thing, since it is not used, may be
// any number, or is a mask of tasks.
#[derive(Clone, Copy, PartialEq, Eq)]
pub enum Sort {
    Task,
    Role,
    Person,
    Order,
    Unused,
    Any,
    Mask,
}

// The sort that a number stands for: so whoever has a number asks for no less than with the sort. Past 6 no number stands for any.
impl From<u64> for Sort {
    ghost from_gives = { λ n sort. (n < 7 → sort_number sort ≡ n) × (7 ≤ n → sort_number sort ≡ 4) };

    fn from(n: u64) -> Sort {
        match n {
            0 => Sort::Task,
            1 => Sort::Role,
            2 => Sort::Person,
            3 => Sort::Order,
            5 => Sort::Any,
            6 => Sort::Mask,
            _ => Sort::Unused,
        }
    }
}

// How many things there are of each sort that has names.
const THINGS: u64 = 64;

// The longest name.
pub const WIDTH: usize = 24;

// Stays: fixed memory: the names are one lent array of bytes, a row for each thing, and no rows with a length beside each.
// The bytes of the table, which starts as SIZE blanks.
pub const SIZE: usize = 6144;

// A letter, a digit, - or _.
fn is_name_byte(byte: u8) -> bool
    ensures { result ≡ is_name_byte byte }
{
    byte.is_ascii_alphanumeric() | (byte == b'-') | (byte == b'_')
}

fn has_name_bytes(word: &[u8]) -> bool
    ensures { result ≡ has_name_bytes word.now }
{
    word.iter().all(|byte| is_name_byte(*byte))
}

// Whether the word can be a name: letters, digits, - and _, not beginning with a digit, 1 to 24 of them.
pub fn is_name(word: &[u8]) -> bool
    ensures { result ≡ is_name word.now }
{
    let [first, ..] = word else {
        return false;
    };
    // A word that is too long or begins with a digit is not read to its end.
    let may_be = (word.len() <= WIDTH) & !first.is_ascii_digit();
    may_be && has_name_bytes(word)
}

// Which of the sorts with names it is, if it is one: tasks come first in the table, then roles, persons and orders.
fn place_of(sort: Sort) -> Option<u64>
    ensures { SomeIff result (sort_number sort < 4) (sort_number sort) }
{
    match sort {
        Sort::Task => Some(0),
        Sort::Role => Some(1),
        Sort::Person => Some(2),
        Sort::Order => Some(3),
        Sort::Unused | Sort::Any | Sort::Mask => None,
    }
}

// Where the row of a thing begins, if there is such a thing.
fn row_of(sort: Sort, n: u64) -> Option<usize>
    ensures { SomeIff result ((sort_number sort < 4) × (n < 64)) (row_at (sort_number sort) n) }
{
    let place = place_of(sort)?;
    if n < THINGS {
        Some((place * THINGS + n) as usize * WIDTH)
    } else {
        None
    }
}

// The thing of the sort that has the word as its name, if there is one.
pub fn find(names: &[u8], sort: Sort, word: &[u8]) -> Option<u64>
    ensures { SomeIff result (found names.now (sort_number sort) word.now < 64) (found names.now (sort_number sort) word.now) }
{
    let first = row_of(sort, 0)?;
    if is_name(word) {
        text::find_row(names, first, THINGS, WIDTH, word)
    } else {
        None
    }
}

// The row becomes the word, filled up with blanks.
fn fill(row: &mut [u8], word: &[u8])
    requires { (length row.old ≡ 24) × (length word.now ≤ 24) }
    ensures { row.new ≡ filled 24 word.now }
{
    row.fill(b' ');
    row[..word.len()].copy_from_slice(word);
}

// The name of thing n of the sort becomes the word. The table stays as it is where there is no such thing or the word can't be a name.
pub fn give(names: &mut [u8], sort: Sort, n: u64, word: &[u8])
    ensures { names.new ≡ given names.old (sort_number sort) n word.now }
{
    if names.len() != SIZE {
        return;
    }
    let Some(at) = row_of(sort, n) else {
        return;
    };
    if is_name(word) {
        fill(&mut names[at..at + WIDTH], word);
    }
}

// Letter i of the name of thing n of the sort; a blank behind its row, or where there is no such thing.
pub fn letter(names: &[u8], sort: Sort, n: u64, i: usize) -> u8
    ensures { result ≡ name_letter names.now (sort_number sort) n i }
{
    match row_of(sort, n) {
        Some(at) if i < WIDTH => text::letter(names, at + i),
        _ => b' ',
    }
}

// How long the name of thing n of the sort is; 0 where it has none.
pub fn length_of(names: &[u8], sort: Sort, n: u64) -> usize
    ensures { result ≡ name_length names.now (sort_number sort) n }
{
    (0..WIDTH)
        .find(|i| letter(names, sort, n, *i) == b' ')
        .unwrap_or(WIDTH)
}

// The name of thing n of the sort; empty where it has none, or where there is no such thing.
pub fn name_of<'a>(names: &'a [u8], sort: Sort, n: u64) -> &'a [u8]
    ensures { result.now ≡ name_bytes names.now (sort_number sort) n }
{
    let Some(at) = row_of(sort, n) else {
        return &[];
    };
    names.get(at..at + length_of(names, sort, n)).unwrap_or(&[])
}
