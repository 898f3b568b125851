// What a line does to the book and to the names. specs/Acts.antt says it.
ghost use Rattle.std.specs.Prelude.{◌≡◌, length};
ghost use Rattle.labels.specs.Names.{sort_number, given};
ghost use Rattle.typed.specs.Words.{part};
ghost use Rattle.typed.specs.Grammar.{line_of};
ghost use Rattle.panel.specs.Acts.{Acts, names_after};

use answers::Answer;
use labels::Sort;
use typed::Line;

// The copy becomes the book, where it is as long.
fn copy(book: &[u64], trial: &mut [u64])
    ensures { length trial.old ≡ length book.now → trial.new ≡ book.now }
{
    if trial.len() == book.len() {
        trial.copy_from_slice(book);
    }
}

// What a line does to the book, and what it got from it, if it asked for anything: a request is asked of it, one that is only tried of a
// copy; every other line leaves it as it is. A trial needs room for a copy.
fn act(book: &mut [u64], trial: &mut [u64], line: Line) -> Option<Answer>
    ensures { Acts book.old book.new (length trial.old) line result }
{
    match line {
        Line::Ask(q) => Some(desk::request(book, q.kind, q.a, q.b, q.c)),
        Line::Try(q) => {
            copy(book, trial);
            Some(desk::request(trial, q.kind, q.a, q.b, q.c))
        }
        _ => None,
    }
}

// A line as it was read, and what came of it.
#[derive(Clone, Copy)]
pub struct Obeyed {
    pub line: Line,
    pub acted: Option<Answer>,
}

// Reads a line and does to the book what it says.
pub fn obey(book: &mut [u64], trial: &mut [u64], text: &[u8], whole: bool, names: &[u8]) -> Obeyed
    ensures line_value { result.line ≡ line_of text.now whole names.now }
    ensures acts { Acts book.old book.new (length trial.old) result.line result.acted }
{
    let line = typed::read(text, whole, names);
    let acted = act(book, trial, line);
    Obeyed { line, acted }
}

// Thing n of the sort gets the name that stands in the text from `start` to before `end`, as far as the text goes.
fn give(names: &mut [u8], text: &[u8], sort: Sort, n: u64, start: usize, end: usize)
    ensures { names.new ≡ given names.old (sort_number sort) n (part start end text.now) }
{
    let to = end.min(text.len());
    let from = start.min(to);
    labels::give(names, sort, n, &text[from..to]);
}

// The name that a line gives is kept.
pub fn keep_name(names: &mut [u8], text: &[u8], line: Line)
    ensures { names.new ≡ names_after names.old text.now line }
{
    if let Line::Name(sort, n, start, end) = line {
        give(names, text, sort, n, start, end);
    }
}
