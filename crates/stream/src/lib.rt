// One line of a stream of cases, in the form in which the independent program in witness/ writes and reads them.
//
//     n L          a new book of L words, all 0, L at most 4,700
//     w I V        word I becomes V, I below L
//     r K A B C    a request
//     a            the audit
//
// The fields are parted by one space each; numbers are decimal and below 2^64. specs/Stream.antt says it as a definition that computes,
// and `read` is proved to give what that gives.
#![tactic(auto)]

ghost use Rattle.std.specs.Prelude.{◌≡◌, ◌≤◌, ◌==◌, ◌||◌, length, slice_index, unwrap_or};
ghost use Rattle.std.specs.List.{position};
ghost use Rattle.stream.specs.Stream.{is_space, fields_behind, new_book, set_word, request, named, command_of, Starts};
ghost use Rattle.stream.specs.declared.Command.TheVariants.{Audit, Other};

// The longest book.
pub const LONGEST: usize = 4700;

// What a line says.
// Stays: no command is one of its cases, since `read` promises `command_of`, a definition that the examiner reads and that has it so.
#[derive(Clone, Copy)]
pub enum Command {
    New(usize),
    Word(usize, u64),
    Request(u64, u64, u64, u64),
    Audit,
    Other,
}

// Where the next space stands, if there is one.
fn next_space(rest: &[u8]) -> Option<usize>
    ensures { result ≡ position is_space rest.now }
{
    rest.iter().position(|b| *b == b' ')
}

// How many bytes of the rest of a line are its first field: those before the next space, or all.
fn field_len(rest: &[u8]) -> usize
    ensures value { result ≡ unwrap_or (position is_space rest.now) (length rest.now) }
    ensures within { result ≤ length rest.now }
{
    next_space(rest).unwrap_or(rest.len())
}

// The number in the field behind the space that `rest` begins with, and what is left behind that field. There is none where the line has ended.
fn number(rest: &[u8]) -> Option<(u64, &[u8])>
    ensures { Starts (fields_behind rest.now) result }
{
    let (_, fields) = rest.split_first()?;
    let (field, left) = fields.split_at(field_len(fields));
    if field.is_empty() {
        return None;
    }
    let n = decimal::read(field).ok()?;
    Some((n, left))
}

// A new book, of as many words as the one number says.
fn new_book(rest: &[u8]) -> Option<Command>
    ensures { unwrap_or result Other ≡ new_book (fields_behind rest.now) }
{
    let (size, rest) = number(rest)?;
    let words = size as usize;
    (rest.is_empty() & (words <= LONGEST)).then_some(Command::New(words))
}

// A word of the book and its value.
fn set_word(rest: &[u8], length: usize) -> Option<Command>
    ensures { unwrap_or result Other ≡ set_word (fields_behind rest.now) length }
{
    let (place, rest) = number(rest)?;
    let (value, rest) = number(rest)?;
    let i = place as usize;
    (rest.is_empty() & (i < length)).then_some(Command::Word(i, value))
}

// A request: its kind and its three numbers.
fn request(rest: &[u8]) -> Option<Command>
    ensures { unwrap_or result Other ≡ request (fields_behind rest.now) }
{
    let (kind, rest) = number(rest)?;
    let (a, rest) = number(rest)?;
    let (b, rest) = number(rest)?;
    let (c, rest) = number(rest)?;
    rest.is_empty().then_some(Command::Request(kind, a, b, c))
}

// The command of that name; `rest` is the line behind it.
fn named(name: u8, rest: &[u8], length: usize) -> Option<Command>
    ensures { unwrap_or result Other ≡ named name (fields_behind rest.now) length }
{
    match name {
        b'n' => new_book(rest),
        b'w' => set_word(rest, length),
        b'r' => request(rest),
        b'a' => rest.is_empty().then_some(Command::Audit),
        _ => None,
    }
}

// Whether a space parts the rest of a line from its first byte, or nothing is left.
fn is_parted(rest: &[u8]) -> bool
    ensures { result ≡ (length rest.now == 0) || is_space (slice_index rest.now 0) }
{
    rest.is_empty() || rest[0] == b' '
}

// What the line says to a book of `length` words; it is not whole where it went on past the last byte here.
pub fn read(line: &[u8], whole: bool, length: usize) -> Command
    ensures { result ≡ command_of line.now whole length }
{
    if !whole {
        return Command::Other;
    }
    let Some((name, rest)) = line.split_first() else {
        return Command::Other;
    };
    if !is_parted(rest) {
        return Command::Other;
    }
    named(*name, rest, length).unwrap_or(Command::Other)
}
