// How a person stands in the book: which roles they have, and in which one they act.
ghost use Rattle.std.specs.Prelude.{◌≡◌, ◌-◌, ◌<◌};
ghost use Rattle.std.specs.Option.{SomeIff};
ghost use Rattle.rules.specs.Book.{roles_of, active};
ghost use Rattle.book.specs.Tables.{number};
ghost use Rattle.book.specs.Slice.{tables, Full};

use book::Table;

// Row n of a table, 0 past the last row. Of a slice that is no book nothing is promised.
fn row_of(book: &[u64], table: Table, n: u64) -> u64
    ensures { Full book.now → (result ≡ (tables book.now).row (number table) n) }
{
    match <&book::Words>::try_from(book) {
        Ok(words) if n < 64 => book::row(words, table, n),
        _ => 0,
    }
}

// The roles assigned to a person, as a set.
pub fn roles_of(book: &[u64], person: u64) -> u64
    ensures { Full book.now → (result ≡ (tables book.now).row roles_of person) }
{
    row_of(book, Table::RolesOf, person)
}

// The active word of a person: 0 where they act in no role, else that role plus 1.
pub fn active_of(book: &[u64], person: u64) -> u64
    ensures { Full book.now → (result ≡ (tables book.now).row active person) }
{
    row_of(book, Table::Active, person)
}

// The role that an active word names, if it names one.
pub fn acted_in(word: u64) -> Option<u64>
    ensures { SomeIff result (0 < word) (word - 1) }
{
    word.checked_sub(1)
}
