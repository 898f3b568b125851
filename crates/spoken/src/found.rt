// What the audit finds.
use answers::{Fault, Finding};
use output::Paper;

// Writes the sentence of a broken rule.
fn broken(paper: &mut Paper, rule: u8) {
    paper.nth(
        &[
            "",
            "rule 1 is broken: a task excludes or is bound to itself",
            "rule 2 is broken: an exclusion or binding stands on one side only",
            "rule 3 is broken: a pair is both SME and DME",
            "rule 4 is broken: an SME pair is bound to one role",
            "rule 5 is broken: a DME pair is bound to one person",
            "rule 6 is broken: a role is above itself",
            "rule 7 is broken: a role owns both tasks of an SME pair",
            "rule 8 is broken: a person owns both tasks of an SME pair",
            "rule 9 is broken: one person holds two tasks that exclude each other, in any open orders (SME) or in one (DME)",
            "rule 10 is broken: in an open order bound tasks are in different hands or roles",
        ],
        u64::from(rule),
    );
}

fn bad_word(paper: &mut Paper, word: u64) {
    paper.text("word ");
    paper.number(word);
    paper.text(" is bad");
}

// Writes what was found.
pub fn finding(paper: &mut Paper, finding: Finding) {
    match finding {
        Ok(()) => paper.text("all ten rules hold"),
        Err(Fault::WrongLength) => paper.text("the book has not 4676 words"),
        Err(Fault::BadWord(word)) => bad_word(paper, word),
        Err(Fault::Broken(rule)) => broken(paper, rule),
    }
}
