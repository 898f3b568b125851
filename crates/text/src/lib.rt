// Rows of fixed width that each hold one word, filled up with blanks, and the search for a word among them.
#![tactic(auto)]

ghost use Rattle.std.specs.Prelude.{◌≡◌, ◌+◌, ◌*◌, ◌<◌};
ghost use Rattle.std.specs.Option.{SomeIff};
ghost use Rattle.text.specs.Rows.{letter_at, same_letters, is_row, find_row};

// Byte i; a blank behind the end.
pub fn letter(bytes: &[u8], i: usize) -> u8
    ensures { result ≡ letter_at bytes.now i }
{
    bytes.get(i).copied().unwrap_or(b' ')
}

// Whether the row from `start` on begins with these letters, and has blanks behind them.
fn same_letters(rows: &[u8], start: usize, width: usize, word: &[u8]) -> bool
    requires { start + width < 65536 }
    ensures { result ≡ same_letters rows.now start width word.now }
{
    (0..width).all(|i| letter(rows, start + i) == letter(word, i))
}

// Whether the row from `start` on is the word, which is then no longer than the row.
pub fn is_row(rows: &[u8], start: usize, width: usize, word: &[u8]) -> bool
    requires { start + width < 65536 }
    ensures { result ≡ is_row rows.now start width word.now }
{
    word.len() <= width && same_letters(rows, start, width, word)
}

// The lowest of the rows from `first` on that is the word, if one is.
pub fn find_row(rows: &[u8], first: usize, count: u64, width: usize, word: &[u8]) -> Option<u64>
    requires { first + count * width < 65536 }
    ensures { SomeIff result (find_row rows.now first count width word.now < count) (find_row rows.now first count width word.now) }
{
    (0..count).find(|n| is_row(rows, first + *n as usize * width, width, word))
}
