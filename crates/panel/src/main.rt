// The panel: it starts from the blank book, reads requests from standard input, one a line, and tells what the book answers to each, and
// at the end what the audit finds. The grammar of a line is that of crate typed.
//
//     LINE: NUMBER X Y Z  SENTENCE   the answer to the request on that line
//     LINE: NUMBER X Y  SENTENCE     what the audit on that line found
//     LINE: no request: ..           what is wrong with a line that is none; the shift goes on
//     LINE: the book                 after `show`, with the tables behind it
//     end: NUMBER X Y  SENTENCE      the audit at the end of the shift
//
// With --json each answer is an object on a line of its own. With --strict the status tells whether anything was refused. Of a line the
// first 1,024 bytes are kept: a longer one is told as too long, unless a comment began before that.
#![tactic(auto)]

mod acting;

use acting::Obeyed;
use called::Pen;
use input::{Lines, Unreadable};
use output::Paper;
use spoken::How;
use std::env::Env;
use std::io::{IsTerminal, Read};
use std::process::ExitCode;
use typed::Line;

// What the first line may begin with: a byte order mark.
const MARK: [u8; 3] = [0xef, 0xbb, 0xbf];

// What the panel was asked for, and whether somebody sits before it.
#[derive(Clone, Copy)]
struct Options {
    json: bool,
    strict: bool,
    terminal: bool,
}

impl Options {
    // What the words behind the program's name ask for.
    fn asked_for(system: &impl Env, terminal: bool) -> Options {
        Options {
            json: command::has_option(system, b"--json"),
            strict: command::has_option(system, b"--strict"),
            terminal,
        }
    }
}

// A shift: the paper that it is told on, the names and the book that its lines change, and room for a copy of the book.
#[derive(Drop)]
struct Shift<'a> {
    options: Options,
    paper: Paper<'a>,
    names: [u8; labels::SIZE],
    book: book::Words,
    trial: book::Words,
    // Whether a request was refused so far, or a line was none.
    wrong: bool,
}

impl<'a> Shift<'a> {
    // How what comes of a line is told.
    fn how(&self, trial: bool) -> How {
        How {
            json: self.options.json,
            trial,
        }
    }

    // Greets who sits there.
    fn welcome(&mut self) {
        if self.options.terminal {
            self.paper.text(
                "Towerplank 4.0.0: type requests; help lists them, quit or Ctrl-D ends the shift\n",
            );
        }
    }

    // Asks for a line, where somebody sits there.
    fn prompt(&mut self) {
        if self.options.terminal {
            self.paper.text("> ");
            self.paper.flush();
        }
    }

    // Ends the line that the prompt began, where the input ended behind it.
    fn end_prompt(&mut self) {
        if self.options.terminal {
            self.paper.byte(b'\n');
        }
    }

    // Tells what came of a line.
    fn say(&mut self, number: u64, text: &[u8], obeyed: Obeyed) {
        let how = self.how(matches!(obeyed.line, Line::Try(_)));
        let mut pen = Pen {
            paper: &mut self.paper,
            names: &self.names,
        };
        match obeyed.line {
            Line::Blank | Line::Quit => {}
            Line::Ask(q) | Line::Try(q) => {
                if let Some(answer) = obeyed.acted {
                    spoken::answer(&mut pen, &self.book, number, q, answer, how);
                }
            }
            Line::Name(sort, n, _, _) => spoken::named(&mut pen, number, sort, n, how),
            Line::Show => {
                spoken::begin(pen.paper, number, b",\"show\":\"", b"the book\n", how);
                shown::book(&mut pen, &self.book);
                spoken::close(pen.paper, how);
            }
            Line::ShowOne(sort, n) => {
                spoken::begin(pen.paper, number, b",\"show\":\"", b"", how);
                shown::thing(&mut pen, &self.book, sort, n);
                spoken::close(pen.paper, how);
            }
            Line::Audit => spoken::finding(pen.paper, number, audit::audit(&self.book), how),
            Line::Help => spoken::help(pen.paper, number, how),
            Line::HelpOn(row) => spoken::help_on(pen.paper, number, row, how),
            Line::Fault(reason, start) => spoken::fault(&mut pen, number, text, reason, start, how),
        }
    }

    // Does what a line says, and tells what came of it.
    fn serve(&mut self, number: u64, text: &[u8], whole: bool) -> Line {
        let obeyed = acting::obey(&mut self.book, &mut self.trial, text, whole, &self.names);
        acting::keep_name(&mut self.names, text, obeyed.line);
        self.say(number, text, obeyed);
        self.paper.flush();
        self.wrong |= match obeyed.line {
            Line::Ask(_) => obeyed.acted.is_some_and(|answer| answer.is_err()),
            Line::Fault(_, _) => true,
            _ => false,
        };
        obeyed.line
    }

    // Plays the shift: every line is served, until the input ends, a line ends it, or nothing can be written any more.
    fn play(&mut self, source: &mut impl Read, lines: &mut Lines) -> Result<(), Unreadable> {
        for number in 1..u64::MAX {
            self.prompt();
            let Some(line) = lines.next(source)? else {
                self.end_prompt();
                break;
            };
            if self.paper.has_failed() {
                break;
            }
            let text = unmarked(line.text, number);
            if let Line::Quit = self.serve(number, text, line.whole) {
                break;
            }
        }
        Ok(())
    }

    // The audit at the end of the shift. The command is told whether anything went wrong, if it was asked to be.
    fn finish(&mut self) {
        let finding = audit::audit(&self.book);
        let how = self.how(false);
        spoken::end(&mut self.paper, finding, how);
        self.paper.flush();
        let told = self.options.strict && !self.paper.has_failed();
        if told && (self.wrong || finding.is_err()) {
            command::end(command::REFUSED);
        }
    }

    // The end of the shift: the audit, or what failed. Where the reader of the output has closed it, nothing is told.
    fn conclude(&mut self, system: &impl Print, played: Result<(), Unreadable>) -> ExitCode {
        if played.is_ok() {
            self.finish();
        }
        if self.paper.is_closed(system) {
            return ExitCode::from(command::CLOSED);
        }
        if played.is_err() {
            break_off(b"panel: the input can't be read");
        } else if self.paper.has_failed() {
            break_off(b"panel: the output can't be written");
        }
        ExitCode::SUCCESS
    }
}

// What a line says: of the first one what stands behind a byte order mark.
fn unmarked(text: &[u8], number: u64) -> &[u8] {
    if number == 1 {
        text.strip_prefix(&MARK).unwrap_or(text)
    } else {
        text
    }
}

// Tells that reading or writing failed, on standard error and to the command.
fn break_off(text: &[u8]) {
    command::complain(text);
    command::end(command::BROKEN);
}

fn main(rt: HostRuntime) -> ExitCode {
    let mut source = rt.stdin();
    let terminal = source.is_terminal() & rt.stdout().is_terminal();
    let mut room = [0u8; output::ROOM];
    let mut piece = [0u8; 4096];
    let mut text = [0u8; typed::ROOM];
    let mut shift = Shift {
        options: Options::asked_for(&rt, terminal),
        paper: Paper::on(&mut room),
        names: [b' '; labels::SIZE],
        book: [0; book::WORDS],
        trial: [0; book::WORDS],
        wrong: false,
    };
    let mut lines = Lines::on(&mut piece, &mut text);
    shift.welcome();
    let played = shift.play(&mut source, &mut lines);
    shift.conclude(&rt, played)
}
