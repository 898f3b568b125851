// The words of a line: parted by blanks, up to a comment.
ghost use Rattle.std.specs.Prelude.{◌≡◌, ◌≤◌, length};
ghost use Rattle.typed.specs.Words.{is_blank, belongs, past, span_from};

// Stays: a word is told by its places and not as a slice, since a fault names where it stands, and what follows is read from its end.
// A word of a line, from `start` to before `end`; empty where the line has no more.
// It is cut where it, or what comes behind it, lies past what is held of the line.
#[derive(Clone, Copy)]
pub struct Span {
    pub start: usize,
    pub end: usize,
    pub cut: bool,
}

fn is_blank(byte: u8) -> bool
    ensures { result ≡ is_blank byte }
{
    (byte == b' ') | (byte == b'\t') | (byte == b'\r')
}

// Whether the byte belongs to a word, or to the blanks before one. A # begins a comment, which counts as the end of the line.
fn is_of(byte: u8, in_word: bool) -> bool
    ensures { result ≡ belongs in_word byte }
{
    let blank = is_blank(byte);
    if in_word {
        !(blank | (byte == b'#'))
    } else {
        blank
    }
}

// Past the bytes of a word, or past the blanks before one.
fn go_past(line: &[u8], from: usize, in_word: bool) -> usize
    requires { from ≤ length line.now }
    ensures { (result ≡ past line.now from in_word) × (from ≤ result) × (result ≤ length line.now) }
{
    for i in from..line.len() {
        if !is_of(line[i], in_word) {
            return i;
        }
    }
    line.len()
}

// The next word of the line from `from` on; the line is not whole where it went on past the last byte here.
pub fn next(line: &[u8], from: usize, whole: bool) -> Span
    ensures { (result ≡ span_from line.now from whole) × (result.start ≤ result.end) × (result.end ≤ length line.now) }
{
    let first = from.min(line.len());
    let start = go_past(line, first, false);
    let end = go_past(line, start, true);
    let cut = (end == line.len()) & !whole;
    Span { start, end, cut }
}
