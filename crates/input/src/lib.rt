// Lines of standard input, read in pieces of any size.
//
// The caller lends two arrays: `piece` for the bytes read and not yet looked at, `text` for the line. A line that is
// longer than `text` is cut there, and told as not whole; its other bytes are passed over. Where reading fails there is no
// line any more, not even the part that came before: that is an error, and the caller stops.
#![tactic(auto)]

ghost use Rattle.std.specs.Prelude.{◌≡◌, ◌≤◌, length, take, IfOk, IfSome};
ghost use Rattle.input.specs.Lines.{unread, NoLine, Taken};
ghost use Rattle.input.specs.declared.Line.{Line};

use std::io::Read;

// What the input has come to. Once it is over nothing is read any more, though a terminal could go on.
#[derive(Clone, Copy)]
enum Input {
    Open,
    Over,
    Failed,
}

// A line, and whether that is all of it.
#[derive(Clone, Copy)]
pub struct Line<'l> {
    pub text: &'l [u8],
    pub whole: bool,
}

// The input can't be read.
#[derive(Clone, Copy)]
pub struct Unreadable;

// Where the reading stands.
#[derive(Clone, Copy)]
struct Reading {
    // What is still to be looked at of the piece: from `at` to before `end`.
    at: usize,
    end: usize,
    // How many bytes of the line stand in the text, and whether that is all of it.
    held: usize,
    whole: bool,
    input: Input,
}

// The lines of an input, on the arrays that the caller lends.
#[derive(Drop)]
pub struct Lines<'a> {
    piece: &'a mut [u8],
    text: &'a mut [u8],
    reading: Reading,
    ghost ahead: { (reading.at ≤ reading.end) × (reading.end ≤ length piece.now) },
    ghost within: { reading.held ≤ length text.now },
}

impl<'a> Lines<'a> {
    ghost use types.Logic.{sem};
    ghost use Rattle.input.specs.Lent.{GivenBack};

    // Before the first line.
    pub fn on(piece: &'a mut [u8], text: &'a mut [u8]) -> Lines<'a>
        ensures first { result.reading ≡ unread }
        ensures room { length result.text.now ≡ length text.old }
        ensures piece { length result.piece.now ≡ length piece.old }
    {
        let reading = Reading {
            at: 0,
            end: 0,
            held: 0,
            whole: true,
            input: Input::Open,
        };
        Lines {
            piece,
            text,
            reading,
        }
    }

    // Reads the next piece, unless the input is over.
    fn refill(&mut self, source: &mut impl Read)
        ensures held { self.new.reading.held ≡ self.old.reading.held }
        ensures room { length self.new.text.now ≡ length self.old.text.now }
        ensures piece { length self.new.piece.now ≡ length self.old.piece.now }
    {
        if let Input::Open = self.reading.input {
            let (end, input) = match source.read(self.piece) {
                Ok(0) => (0, Input::Over),
                Ok(got) => (got, Input::Open),
                Err(_) => (0, Input::Failed),
            };
            self.reading = Reading {
                at: 0,
                end,
                input,
                ..self.reading
            };
        }
    }

    // The next byte of the input; none at its end.
    fn byte(&mut self, source: &mut impl Read) -> Result<Option<u8>, Unreadable>
        ensures held { self.new.reading.held ≡ self.old.reading.held }
        ensures room { length self.new.text.now ≡ length self.old.text.now }
        ensures piece { length self.new.piece.now ≡ length self.old.piece.now }
        ensures no_line { NoLine self.new.reading result }
    {
        if self.reading.at == self.reading.end {
            self.refill(source);
        }
        if let Input::Failed = self.reading.input {
            return Err(Unreadable);
        }
        if self.reading.at == self.reading.end {
            return Ok(None);
        }
        let byte = self.piece[self.reading.at];
        self.reading.at += 1;
        Ok(Some(byte))
    }

    // Takes a byte to the line.
    #[tactic(auto, unfolding(crate::specs::Lines::kept, crate::specs::Lines::held_with, crate::specs::Lines::whole_with))]
    fn take(&mut self, byte: u8)
        ensures taken { Taken self.old.text.now self.new.text.now self.old.reading self.new.reading byte }
        ensures room { length self.new.text.now ≡ length self.old.text.now }
        ensures piece { length self.new.piece.now ≡ length self.old.piece.now }
    {
        if byte == b'\n' {
            return;
        }
        if self.reading.held < self.text.len() {
            self.text[self.reading.held] = byte;
            self.reading.held += 1;
        } else {
            self.reading.whole = false;
        }
    }

    // Gathers the next line, if there is one. Where nothing comes any more, what is held is the last line, if anything is.
    fn gather(&mut self, source: &mut impl Read) -> Result<bool, Unreadable>
        ensures no_line { NoLine self.new.reading result }
        ensures room { length self.new.text.now ≡ length self.old.text.now }
        ensures piece { length self.new.piece.now ≡ length self.old.piece.now }
    {
        self.reading.held = 0;
        self.reading.whole = true;
        for _ in 0..u64::MAX {
            let Some(byte) = self.byte(source)? else {
                return Ok(self.reading.held != 0);
            };
            self.take(byte);
            if byte == b'\n' {
                break;
            }
        }
        Ok(true)
    }

    // The line as it was gathered.
    fn line(&self) -> Line<'_>
        ensures text { result.text.now ≡ take self.now.reading.held self.now.text.now }
        ensures whole { result.whole ≡ self.now.reading.whole }
    {
        Line {
            text: &self.text[..self.reading.held],
            whole: self.reading.whole,
        }
    }

    // The next line, if there is one: no longer than the text that was lent. The line is lent from self, so what self is after the call is said
    // of when the line is given back: where reading has failed there was no line, and both arrays keep their length.
    pub fn next(&mut self, source: &mut impl Read) -> Result<Option<Line<'_>>, Unreadable>
        ensures room { IfOk result (λ found. IfSome found (λ (line : Line). length line.text.now ≤ length self.old.text.now)) }
        ensures* given_back { sem 𝓛 (GivenBack self.entry result) }
    {
        if self.gather(source)? {
            Ok(Some(self.line()))
        } else {
            Ok(None)
        }
    }
}
