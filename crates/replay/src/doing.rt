// What a line of a stream does to the words of the book, and what is to be told of it.
ghost use Rattle.std.specs.Prelude.{◌≡◌, length, set, replicate};
ghost use Rattle.desk.specs.Guarantee.{ask};
ghost use Rattle.stream.specs.Stream.{command_of};
ghost use Rattle.replay.specs.Obeyed.{Front, reply_to, audit_of, Changed, Obeyed};

use answers::Reply;
use stream::Command;

// Stays: nothing is one of five things that may come of a line; an Option of the other four would have one more match and the same arms.
// What came of a line.
#[derive(Clone, Copy)]
pub enum Outcome {
    // Every word is 0, and the book has as many words.
    Cleared(usize),
    // That word is the value.
    Put(usize, u64),
    Answered(Reply),
    Audited(Reply),
    // The line is no command to this book.
    Nothing,
}

// Makes every word 0.
pub fn clear(words: &mut [u64])
    ensures { words.new ≡ replicate (length words.old) 0 }
{
    words.fill(0);
}

// Makes a word the value; there may be no such word.
pub fn store(words: &mut [u64], i: usize, value: u64)
    ensures { words.new ≡ set words.old i value }
{
    if i < words.len() {
        words[i] = value;
    }
}

// How many of the words are a book of n: that many, or all of them.
fn part(words: &[u64], n: usize) -> usize
    ensures { Front n (length words.now) result }
{
    n.min(words.len())
}

// A request on the first n words.
fn ask(words: &mut [u64], n: usize, kind: u64, a: u64, b: u64, c: u64) -> Reply
    ensures value { result ≡ reply_to words.old n (ask kind a b c) }
    ensures changed { Changed words.old words.new n (ask kind a b c) }
{
    let end = part(words, n);
    Reply::from(desk::request(&mut words[..end], kind, a, b, c))
}

// The audit of the first n words.
fn inspect(words: &[u64], n: usize) -> Reply
    ensures { result ≡ audit_of words.now n }
{
    let end = part(words, n);
    Reply::from(audit::audit(&words[..end]))
}

// Does to the words what the line says to a book of n.
pub fn obey(words: &mut [u64], line: &[u8], whole: bool, n: usize) -> Outcome
    ensures { Obeyed words.old words.new n (command_of line.now whole n) result }
{
    match stream::read(line, whole, n) {
        Command::New(size) => {
            clear(words);
            Outcome::Cleared(size)
        }
        Command::Word(i, v) => {
            store(words, i, v);
            Outcome::Put(i, v)
        }
        Command::Request(kind, a, b, c) => Outcome::Answered(ask(words, n, kind, a, b, c)),
        Command::Audit => Outcome::Audited(inspect(words, n)),
        Command::Other => Outcome::Nothing,
    }
}
