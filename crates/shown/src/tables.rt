// A table: each column is as wide as its widest entry or its heading, so the widths come first, then the lines.
ghost use Rattle.std.specs.Prelude.{ℕ, ◌<◌};

use crate::entries::Entry;
use called::Pen;
use output::Paper;
use std::convert::AsSlice;

// The most columns that a table has.
// Stays: one size for all tables, tried: a const parameter in the array of &str, or in what the closure gives, is refused.
const COLUMNS: usize = 7;

// What stands in a column of a line: a heading, or an entry.
trait Column {
    // How wide it is.
    fn width(&self, names: &[u8]) -> u64;

    // Writes it.
    fn put(&self, pen: &mut Pen);
}

impl Column for &str {
    fn width(&self, _names: &[u8]) -> u64 {
        self.len() as u64
    }

    fn put(&self, pen: &mut Pen) {
        pen.paper.text(self);
    }
}

impl Column for Entry {
    fn width(&self, names: &[u8]) -> u64 {
        called::width(names, self.sort, self.set)
    }

    fn put(&self, pen: &mut Pen) {
        pen.things(self.sort, self.set);
    }
}

// Makes each column as wide as the line needs it.
fn widen<C: Column>(widths: &mut [u64], names: &[u8], line: &[C]) {
    for (wide, column) in widths.iter_mut().zip(line) {
        *wide = column.width(names).max(*wide);
    }
}

// Writes so many blanks.
fn blanks(paper: &mut Paper, n: u64) {
    for _ in 0..n {
        paper.byte(b' ');
    }
}

// Writes a line: before each column but the first what fills up the one before it, and two blanks more to part them.
fn put<C: Column>(pen: &mut Pen, widths: &[u64], line: &[C]) {
    let mut gap: u64 = 0;
    for (wide, column) in widths.iter().zip(line) {
        blanks(pen.paper, gap);
        column.put(pen);
        gap = wide
            .saturating_sub(column.width(pen.names))
            .saturating_add(2);
    }
    pen.paper.byte(b'\n');
}

// Writes a table with an empty line before it; `line` gives its lines, where they are there.
pub fn table<L: AsSlice<Entry> + Drop, F: Fn(u64) -> Option<L>>(
    pen: &mut Pen,
    headings: &[&str],
    lines: u64,
    line: F,
)
    requires { (n : ℕ) → n < lines → F.pre line n }
{
    let mut widths = [0u64; COLUMNS];
    widen(&mut widths, pen.names, headings);
    for n in 0..lines {
        if let Some(entries) = line(n) {
            widen(&mut widths, pen.names, entries.as_slice());
        }
    }
    pen.paper.byte(b'\n');
    put(pen, &widths, headings);
    for n in 0..lines {
        if let Some(entries) = line(n) {
            put(pen, &widths, entries.as_slice());
        }
    }
}
