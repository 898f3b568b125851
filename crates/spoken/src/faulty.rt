// What is wrong with a line that is no request.
use crate::wanted::Place;
use called::Pen;
use labels::Sort;
use output::Paper;
use typed::Reason;

// How much of a word is shown.
const SHOWN: usize = 40;

// Writes the first bytes of a word: one that can't be seen as a ?.
fn letters(paper: &mut Paper, word: &[u8]) {
    for byte in word.iter().take(SHOWN) {
        paper.byte(if byte.is_ascii_graphic() { *byte } else { b'?' });
    }
}

// A word that was typed, between two ', with .. where there was more of it.
fn quote(paper: &mut Paper, word: &[u8]) {
    paper.byte(b'\'');
    letters(paper, word);
    if SHOWN < word.len() {
        paper.text("..");
    }
    paper.byte(b'\'');
}

// A word that the panel does not know.
fn unknown_word(paper: &mut Paper, word: &[u8], in_help: bool) {
    quote(paper, word);
    paper.text(if in_help {
        " is no word of the panel"
    } else {
        " is no kind of request"
    });
    manual::suggest(paper, word);
}

fn not_sort(paper: &mut Paper, word: &[u8]) {
    quote(paper, word);
    paper.text(" is no sort of thing: task, role, person or order");
}

fn not_name(paper: &mut Paper, word: &[u8]) {
    quote(paper, word);
    paper.text(
        " can't be a name: letters, digits, - and _, not beginning with a digit, 24 at most",
    );
}

fn unknown_name(pen: &mut Pen, sort: Sort, word: &[u8]) {
    pen.paper.text("no ");
    pen.sort(sort);
    pen.paper.text(" is called ");
    letters(pen.paper, word);
}

fn taken(pen: &mut Pen, sort: Sort, word: &[u8]) {
    pen.sort(sort);
    pen.paper.byte(b' ');
    if let Some(n) = labels::find(pen.names, sort, word) {
        pen.paper.number(n);
    }
    pen.paper.text(" is called ");
    letters(pen.paper, word);
    pen.paper.text(" already");
}

fn too_long(paper: &mut Paper) {
    paper.text("the line is longer than ");
    paper.number(typed::ROOM as u64);
    paper.text(" bytes");
}

// `word 2`, and what is wrong with it as a number, or with its being there.
fn misplaced(paper: &mut Paper, at: Place, wrong: &str) {
    paper.text("word ");
    paper.number(at.number());
    paper.text(wrong);
}

fn not_in_range(pen: &mut Pen, at: Place, sort: Sort) {
    misplaced(pen.paper, at, " is no ");
    pen.sort(sort);
    pen.paper.text("'s number: 0 to 63");
}

// What a missing word would have been, where the line asks for a request.
fn missing(at: Place) -> &'static str {
    match at.kind() {
        Some(_) => " is missing: the kind uses more numbers",
        None => " is missing",
    }
}

// The sort that is told of a place: wherever one is told, the line wants one there.
fn sort_at(at: Place) -> Sort {
    at.sort().unwrap_or(Sort::Order)
}

// Writes what is wrong with the word at a place of a line. The sort is looked for only where it is told: that takes two searches for a word.
pub fn fault(pen: &mut Pen, reason: Reason, at: Place) {
    pen.paper.text("no request: ");
    match reason {
        Reason::TooLong => too_long(pen.paper),
        Reason::TooFew => misplaced(pen.paper, at, missing(at)),
        Reason::TooMany => misplaced(pen.paper, at, " is one too many"),
        Reason::NotNumber => misplaced(pen.paper, at, " is no decimal number"),
        Reason::TooLarge => misplaced(pen.paper, at, " is above 18446744073709551615"),
        Reason::NotInRange => not_in_range(pen, at, sort_at(at)),
        Reason::UnknownWord => unknown_word(pen.paper, at.word(), at.is_in_help()),
        Reason::NotSort => not_sort(pen.paper, at.word()),
        Reason::NotName => not_name(pen.paper, at.word()),
        Reason::UnknownName => unknown_name(pen, sort_at(at), at.word()),
        Reason::Taken => taken(pen, sort_at(at), at.word()),
    }
}
