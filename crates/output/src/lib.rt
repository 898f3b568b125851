// Text for standard output, gathered on a lent array, the paper, and written when that is full or when it is asked for.
#![tactic(auto)]

ghost use Rattle.std.specs.Prelude.{◌≡◌, ◌≤◌, false, length};

use std::io::{ErrorKind, Print};

// How many bytes a program lends to its paper.
pub const ROOM: usize = 4092;

// The descriptor of standard output.
const OUTPUT: i32 = 1;

// What was gathered stands in the first bytes of the room that was lent.
#[derive(Drop)]
pub struct Paper<'a> {
    room: &'a mut [u8],
    used: usize,
    // Whether what is put on it stands inside a JSON string.
    quoted: bool,
    // Whether a write has failed.
    failed: bool,
    ghost within: { used ≤ length room.now },
}

impl<'a> Paper<'a> {
    // A blank paper, on any room.
    pub fn on(room: &'a mut [u8]) -> Paper<'a>
        ensures blank { (result.used ≡ 0) × (result.quoted ≡ false) × (result.failed ≡ false) }
        ensures room { length result.room.now ≡ length room.old }
    {
        Paper {
            room,
            used: 0,
            quoted: false,
            failed: false,
        }
    }

    // Whether a write has failed.
    pub fn has_failed(&self) -> bool {
        self.failed
    }

    // Whether a write has failed since the reader of the output has closed it: one more write then fails for that reason.
    pub fn is_closed(&self, system: &impl Print) -> bool {
        if !self.failed {
            return false;
        }
        match system.write_some(b"\n") {
            Ok(_) => false,
            Err(error) => error.kind() == ErrorKind::BrokenPipe,
        }
    }

    // Writes what was gathered. After a write that failed nothing is written any more.
    pub fn flush(&mut self)
        ensures stays { self.new.quoted ≡ self.old.quoted }
        ensures room { length self.new.room.now ≡ length self.old.room.now }
    {
        if !self.failed && !io::write_all(OUTPUT, &self.room[..self.used]) {
            self.failed = true;
        }
        self.used = 0;
    }

    // One byte more, as it is.
    fn put(&mut self, byte: u8)
        ensures stays { self.new.quoted ≡ self.old.quoted }
        ensures room { length self.new.room.now ≡ length self.old.room.now }
    {
        if self.used == self.room.len() {
            self.flush();
        }
        if self.used < self.room.len() {
            self.room[self.used] = byte;
            self.used += 1;
        }
    }

    // From here on what is put on the paper stands inside a JSON string, or no longer does.
    pub fn quoted(&mut self, on: bool)
        ensures quotes { self.new.quoted ≡ on }
        ensures room { length self.new.room.now ≡ length self.old.room.now }
    {
        self.quoted = on;
    }

    // A byte inside a JSON string: what JSON would take otherwise, and what is no letter of ASCII, is written by its number.
    fn escaped(&mut self, byte: u8)
        ensures stays { self.new.quoted ≡ self.old.quoted }
        ensures room { length self.new.room.now ≡ length self.old.room.now }
    {
        match byte {
            b'"' | b'\\' => {
                self.put(b'\\');
                self.put(byte);
            }
            32..=126 => self.put(byte),
            _ => {
                for b in b"\\u00" {
                    self.put(*b);
                }
                self.put(hex_digit(byte / 16));
                self.put(hex_digit(byte));
            }
        }
    }

    // One byte more.
    pub fn byte(&mut self, byte: u8)
        ensures stays { self.new.quoted ≡ self.old.quoted }
        ensures room { length self.new.room.now ≡ length self.old.room.now }
    {
        if self.quoted {
            self.escaped(byte);
        } else {
            self.put(byte);
        }
    }

    // More bytes.
    pub fn bytes(&mut self, text: &[u8])
        ensures stays { self.new.quoted ≡ self.old.quoted }
        ensures room { length self.new.room.now ≡ length self.old.room.now }
    {
        for b in text {
            self.byte(*b);
        }
    }

    // More text.
    pub fn text(&mut self, text: &str)
        ensures stays { self.new.quoted ≡ self.old.quoted }
        ensures room { length self.new.room.now ≡ length self.old.room.now }
    {
        self.bytes(text.as_bytes());
    }

    // A number in decimal.
    pub fn number(&mut self, n: u64)
        ensures stays { self.new.quoted ≡ self.old.quoted }
        ensures room { length self.new.room.now ≡ length self.old.room.now }
    {
        let mut digits = [0u8; 20];
        let count = io::decimal(n, &mut digits);
        self.bytes(&digits[..count]);
    }

    // Text n of several, counted from 0; nothing where there are not so many.
    pub fn nth(&mut self, texts: &[&str], n: u64)
        ensures stays { self.new.quoted ≡ self.old.quoted }
        ensures room { length self.new.room.now ≡ length self.old.room.now }
    {
        if let Ok(i) = usize::try_from(n) {
            if let Some(text) = texts.get(i) {
                self.text(text);
            }
        }
    }
}

// A digit to base 16.
fn hex_digit(n: u8) -> u8 {
    let low = n % 16;
    if low < 10 {
        b'0' + low
    } else {
        b'a' + (low - 10)
    }
}
