// What the panel says: the sentence of each answer, of the audit's finding, of a line that is no request, of a name that was given, and
// the help; as plain lines, or as JSON. A thing is told by its number and its name.
#![tactic(auto)]

mod accepted;
mod conflict;
mod faulty;
mod found;
mod json;
mod kinds;
mod refused;
mod sentence;
mod standing;
mod wanted;

use answers::{Answer, Finding, Reply};
use called::Pen;
use labels::Sort;
use output::Paper;
use sentence::{Facts, Teller};
use wanted::Place;

// How an answer is told: as JSON or plainly, and whether the request was only tried.
#[derive(Clone, Copy)]
pub struct How {
    pub json: bool,
    pub trial: bool,
}

// The number of the line that is answered.
fn at(paper: &mut Paper, line: u64) {
    paper.number(line);
    paper.text(": ");
}

// The number, x and y, plainly: what an answer and a finding both have.
fn numbers(paper: &mut Paper, reply: Reply) {
    paper.number(reply.number);
    paper.byte(b' ');
    paper.number(reply.x);
    paper.byte(b' ');
    paper.number(reply.y);
}

// The sentence of an answer, with what is said before it where the request was only tried.
fn sentence_of(teller: &mut Teller, answer: Answer, trial: bool) {
    if trial {
        teller.tell("tried, the book is as it was: ");
    }
    match answer {
        Ok(()) => accepted::accepted(teller),
        Err(refusal) => refused::refused(teller, refusal),
    }
}

fn answer_json(teller: &mut Teller, line: u64, answer: Answer, trial: bool) {
    json::answer(teller, line, answer, trial);
    sentence_of(teller, answer, trial);
    json::closed(teller.pen.paper);
}

// An answer has a z, which a finding has not.
fn answer_plain(teller: &mut Teller, line: u64, answer: Answer, trial: bool) {
    let reply = Reply::from(answer);
    at(teller.pen.paper, line);
    numbers(teller.pen.paper, reply);
    teller.pen.paper.byte(b' ');
    teller.pen.paper.number(reply.z);
    teller.pen.paper.text("  ");
    sentence_of(teller, answer, trial);
    teller.pen.paper.byte(b'\n');
}

// The answer to the request on a line: its number, x, y and z, then what it means. The book is the one that the request left.
pub fn answer(
    pen: &mut Pen,
    book: &[u64],
    line: u64,
    request: typed::Request,
    answer: Answer,
    how: How,
) {
    let facts = Facts::of(book, request, answer);
    let mut teller = Teller { pen, facts };
    if how.json {
        answer_json(&mut teller, line, answer, how.trial);
    } else {
        answer_plain(&mut teller, line, answer, how.trial);
    }
}

// What the audit found, behind what says when: for JSON the object is open and its first field is there.
fn finding_json(paper: &mut Paper, finding: Finding) {
    paper.text(",\"audit\":true");
    json::reply(paper, Reply::from(finding));
    json::opened(paper, ",\"text\":\"");
    found::finding(paper, finding);
    json::closed(paper);
}

fn finding_plain(paper: &mut Paper, finding: Finding) {
    numbers(paper, Reply::from(finding));
    paper.text("  audit: ");
    found::finding(paper, finding);
    paper.byte(b'\n');
}

// What the audit found that a line asked for ..
pub fn finding(paper: &mut Paper, line: u64, finding: Finding, how: How) {
    if how.json {
        json::number(paper, "{\"line\":", line);
        finding_json(paper, finding);
    } else {
        at(paper, line);
        finding_plain(paper, finding);
    }
}

// .. and at the end of the shift.
pub fn end(paper: &mut Paper, finding: Finding, how: How) {
    if how.json {
        paper.text("{\"end\":true");
        finding_json(paper, finding);
    } else {
        paper.text("end: ");
        finding_plain(paper, finding);
    }
}

// What is wrong with a line that is no request; the word concerned begins at `start`.
pub fn fault(pen: &mut Pen, line: u64, text: &[u8], reason: typed::Reason, start: usize, how: How) {
    let place = Place { line: text, start };
    if how.json {
        json::number(pen.paper, "{\"line\":", line);
        json::number(pen.paper, ",\"fault\":true,\"place\":", place.number());
        json::opened(pen.paper, ",\"text\":\"");
        faulty::fault(pen, reason, place);
        json::closed(pen.paper);
    } else {
        at(pen.paper, line);
        faulty::fault(pen, reason, place);
        pen.paper.byte(b'\n');
    }
}

fn named_json(pen: &mut Pen, line: u64, sort: Sort, n: u64) {
    json::number(pen.paper, "{\"line\":", line);
    pen.paper.text(",\"sort\":\"");
    pen.sort(sort);
    json::number(pen.paper, "\",\"thing\":", n);
    json::opened(pen.paper, ",\"name\":\"");
    pen.name(sort, n);
    json::closed(pen.paper);
}

fn named_plain(pen: &mut Pen, line: u64, sort: Sort, n: u64) {
    at(pen.paper, line);
    pen.sort(sort);
    pen.paper.byte(b' ');
    pen.paper.number(n);
    pen.paper.text(" is called ");
    pen.name(sort, n);
    pen.paper.byte(b'\n');
}

// What a thing is called from now on.
pub fn named(pen: &mut Pen, line: u64, sort: Sort, n: u64, how: How) {
    if how.json {
        named_json(pen, line, sort, n);
    } else {
        named_plain(pen, line, sort, n);
    }
}

// Begins a page that a line asked for, with the field that it is in JSON and its first line in plain text ..
pub fn begin(paper: &mut Paper, line: u64, field: &[u8], title: &[u8], how: How) {
    if how.json {
        json::number(paper, "{\"line\":", line);
        paper.bytes(field);
        paper.quoted(true);
    } else {
        at(paper, line);
        paper.bytes(title);
    }
}

// .. and ends it.
pub fn close(paper: &mut Paper, how: How) {
    if how.json {
        json::closed(paper);
    }
}

// The help ..
pub fn help(paper: &mut Paper, line: u64, how: How) {
    begin(
        paper,
        line,
        b",\"help\":\"",
        b"the words of the panel\n",
        how,
    );
    manual::page(paper);
    close(paper, how);
}

// .. and the help on the word of a row.
pub fn help_on(paper: &mut Paper, line: u64, row: u64, how: How) {
    begin(paper, line, b",\"help\":\"", b"", how);
    manual::title(paper, row);
    manual::word(paper, row);
    close(paper, how);
}
