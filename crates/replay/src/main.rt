// The run agreement: plays a stream of cases on the proved book and prints what the independent program in witness/
// prints for them. The lines of a stream are described in crate stream; the answers are
//
//     r NUMBER X Y Z I V .. to a request: its answer, then each word that it changed and what it became, index rising
//     a NUMBER X Y          to an audit
//     ? LINE                to a line that is no command to this book
//
// Where the input can't be read or the output can't be written, it stops and tells that on standard error and to the command
// that runs it.
#![tactic(auto)]

mod doing;
mod telling;

ghost use Rattle.stream.specs.Stream.{command_of};
ghost use Rattle.replay.specs.Obeyed.{Carried};

use doing::Outcome;
use input::{Lines, Unreadable};
use output::Paper;
use std::io::Read;
use std::process::ExitCode;

// Carries out what a line says and tells of it; `before` is the book as it was before. It answers how long the book is then.
fn carry_out(
    book: &mut [u64],
    before: &mut [u64],
    paper: &mut Paper,
    line: &[u8],
    whole: bool,
    length: usize,
) -> usize
    ensures { Carried book.old book.new length (command_of line.now whole length) result }
{
    match doing::obey(book, line, whole, length) {
        Outcome::Cleared(new) => {
            doing::clear(before);
            return new;
        }
        Outcome::Put(i, v) => doing::store(before, i, v),
        Outcome::Answered(reply) => {
            telling::answer(paper, reply);
            telling::changes(book, before, paper);
            paper.byte(b'\n');
        }
        Outcome::Audited(reply) => {
            telling::finding(paper, reply);
            paper.byte(b'\n');
        }
        Outcome::Nothing => telling::complain(paper, line),
    }
    length
}

// Plays the whole stream, as far as it can be read and told.
fn play(
    source: &mut impl Read,
    book: &mut [u64],
    before: &mut [u64],
    paper: &mut Paper,
    lines: &mut Lines,
) -> Result<(), Unreadable> {
    let mut length = 0;
    for _ in 0..u64::MAX {
        if paper.has_failed() {
            break;
        }
        let Some(line) = lines.next(source)? else {
            break;
        };
        length = carry_out(book, before, paper, line.text, line.whole, length);
    }
    Ok(())
}

// Tells how it went, where it did not go well. Where the reader of the output has closed it, nothing is told.
fn conclude(system: &impl Print, paper: &Paper, unread: bool) -> ExitCode {
    if paper.is_closed(system) {
        return ExitCode::from(command::CLOSED);
    }
    let unwritten = paper.has_failed();
    if unread {
        command::complain(b"replay: the input can't be read");
    }
    if unwritten {
        command::complain(b"replay: the output can't be written");
    }
    if unread | unwritten {
        command::end(command::BROKEN);
    }
    ExitCode::SUCCESS
}

fn main(rt: HostRuntime) -> ExitCode {
    let mut book = [0u64; stream::LONGEST];
    let mut before = [0u64; stream::LONGEST];
    let mut room = [0u8; output::ROOM];
    let mut paper = Paper::on(&mut room);
    let mut piece = [0u8; 4096];
    let mut text = [0u8; 256];
    let mut lines = Lines::on(&mut piece, &mut text);
    let unread = play(
        &mut rt.stdin(),
        &mut book,
        &mut before,
        &mut paper,
        &mut lines,
    )
    .is_err();
    paper.flush();
    conclude(&rt, &paper, unread)
}
