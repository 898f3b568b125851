// The words of the panel, one to a row, and the kinds of request that they name.
#![tactic(auto)]

ghost use Rattle.std.specs.Prelude.{◌≡◌, ◌<◌};
ghost use Rattle.std.specs.Option.{SomeIff};
ghost use Rattle.vocabulary.specs.Vocabulary.{row_count, row_for, word_of, kind_of};

// The rows of the words that are no kind.
// Stays: a row is a number, since the help and the near words count through the rows; an enum would be turned into one at every use.
pub const SHOW: u64 = 0;

pub const AUDIT: u64 = 1;

pub const HELP: u64 = 2;

pub const QUIT: u64 = 3;

pub const NAME: u64 = 4;

pub const TRY: u64 = 5;

// Kind k has row KINDS + k: a new kind is a new row at the end.
pub const KINDS: u64 = 10;

// How many words there are.
pub const ROWS: u64 = 32;

// How many letters the longest word may have.
pub const WIDTH: usize = 16;

// The row of a word, if it is a word of the panel.
pub fn find(text: &[u8]) -> Option<u64>
    ensures { SomeIff result (row_for text.now < row_count) (row_for text.now) }
{
    (0..ROWS).find(|row| text::is_row(word(*row), 0, WIDTH, text))
}

// The word of a row; empty where there is no such row. First are the words that are no kind, then second words of kinds 4 to 7 and of
// kind 3, then kinds 1 to 21.
// Stays: no `const` table of `&str`, tried: the proof did not close, since it knows no letter behind such a table's references.
#[tactic(auto, unfolding(crate::specs::Vocabulary::nth_word, crate::specs::Vocabulary::words))]
pub fn word(row: u64) -> &'static [u8]
    ensures { result.now ≡ word_of row }
{
    match row {
        0 => b"show",
        1 => b"audit",
        2 => b"help",
        3 => b"quit",
        4 => b"name",
        5 => b"try",
        6 => b"exclude-static",
        7 => b"exclude-dynamic",
        8 => b"bind-role",
        9 => b"bind-subject",
        10 => b"define-person",
        11 => b"define-task",
        12 => b"define-role",
        13 => b"define-subject",
        14 => b"sme",
        15 => b"dme",
        16 => b"rb",
        17 => b"sb",
        18 => b"assign-task",
        19 => b"junior",
        20 => b"assign-role",
        21 => b"activate",
        22 => b"open",
        23 => b"allocate",
        24 => b"close",
        25 => b"take-task",
        26 => b"take-junior",
        27 => b"take-role",
        28 => b"take-sme",
        29 => b"take-dme",
        30 => b"take-rb",
        31 => b"take-sb",
        _ => &[],
    }
}

// The kind of request that a row names, if it names one.
pub fn kind_of(row: u64) -> Option<u64>
    ensures { SomeIff result (0 < kind_of row) (kind_of row) }
{
    match row {
        6..=9 => Some(row - 2),
        10 => Some(3),
        11..=31 => Some(row - KINDS),
        _ => None,
    }
}
