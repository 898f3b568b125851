// Answers as JSON: one object to a line. Text stands in it between opened and closed, where the paper writes each byte so that nothing
// can break the line.
use crate::sentence::{Facts, Teller};
use crate::wanted;
use answers::{Answer, Reply};
use called::Pen;
use labels::Sort;
use output::Paper;

// A field that is a number, with what stands before it.
pub fn number(paper: &mut Paper, before: &str, n: u64) {
    paper.text(before);
    paper.number(n);
}

// A field that is true or false.
fn flag(paper: &mut Paper, before: &str, is: bool) {
    paper.text(before);
    paper.text(if is { "true" } else { "false" });
}

// From here on everything written is inside a string ..
pub fn opened(paper: &mut Paper, before: &str) {
    paper.text(before);
    paper.quoted(true);
}

// .. up to here, where the object ends.
pub fn closed(paper: &mut Paper) {
    paper.quoted(false);
    paper.text("\"}\n");
}

// The word of a kind, between two "; null where it is none.
fn word(paper: &mut Paper, kind: u64) {
    paper.text(",\"word\":");
    if 0 < kind && kind < vocabulary::ROWS - vocabulary::KINDS {
        paper.byte(b'"');
        manual::row(paper, vocabulary::KINDS + kind);
        paper.byte(b'"');
    } else {
        paper.text("null");
    }
}

// The names of the request's things and the answer's, each behind the letter that its number has.
fn all_names(pen: &mut Pen, v: Facts, answer: Answer) {
    let names = pen.names;
    let typed::Takes(a, b, c) = typed::wanted(v.kind);
    let [x, y, z] = wanted::sorts_told(answer);
    let things = [
        (b'a', a, v.a),
        (b'b', b, v.b),
        (b'c', c, v.c),
        (b'x', x, v.x),
        (b'y', y, v.y),
        (b'z', z, v.z),
    ];
    let named = things.iter().filter(|(_, sort, n)| !labels::name_of(names, *sort, *n).is_empty());
    pen.paper.text(",\"names\":{");
    for (i, (letter, sort, n)) in named.enumerate() {
        pen.paper.text(if i == 0 { "\"" } else { ",\"" });
        pen.paper.byte(*letter);
        pen.paper.text("\":\"");
        pen.name(*sort, *n);
        pen.paper.byte(b'"');
    }
    pen.paper.text("}");
}

// The name of a task, between two "; null where it has none.
fn name_or_null(paper: &mut Paper, names: &[u8], n: u64) {
    let name = labels::name_of(names, Sort::Task, n);
    if name.is_empty() {
        paper.text("null");
    } else {
        paper.byte(b'"');
        paper.bytes(name);
        paper.byte(b'"');
    }
}

// The tasks of a mask, with their names.
fn tasks(paper: &mut Paper, names: &[u8], mask: u64) {
    for (i, n) in sets::each(mask).enumerate() {
        if i != 0 {
            paper.byte(b',');
        }
        number(paper, "{\"task\":", n);
        paper.text(",\"name\":");
        name_or_null(paper, names, n);
        paper.byte(b'}');
    }
}

// How many tasks the answer's mask names, and which: where it has one.
fn clash(paper: &mut Paper, names: &[u8], answer: Answer) {
    if let Some(mask) = wanted::clashing(answer) {
        number(paper, ",\"count\":", sets::count(mask));
        paper.text(",\"tasks\":[");
        tasks(paper, names, mask);
        paper.byte(b']');
    }
}

// The numbers that an answer and a finding both have.
pub fn reply(paper: &mut Paper, reply: Reply) {
    number(paper, ",\"number\":", reply.number);
    number(paper, ",\"x\":", reply.x);
    number(paper, ",\"y\":", reply.y);
}

// The request's numbers, and the answer's.
fn numbers(paper: &mut Paper, v: Facts, answer: Answer) {
    number(paper, ",\"a\":", v.a);
    number(paper, ",\"b\":", v.b);
    number(paper, ",\"c\":", v.c);
    reply(paper, Reply::from(answer));
    number(paper, ",\"z\":", v.z);
}

// An answer up to its text; whether the request was accepted, and whether it was only tried, among the rest.
pub fn answer(teller: &mut Teller, line: u64, answer: Answer, tried: bool) {
    let v = teller.facts;
    let names = teller.pen.names;
    let paper = &mut *teller.pen.paper;
    number(paper, "{\"line\":", line);
    number(paper, ",\"kind\":", v.kind);
    word(paper, v.kind);
    numbers(paper, v, answer);
    clash(paper, names, answer);
    flag(paper, ",\"accepted\":", answer.is_ok());
    flag(paper, ",\"tried\":", tried);
    all_names(teller.pen, v, answer);
    opened(teller.pen.paper, ",\"text\":\"");
}
