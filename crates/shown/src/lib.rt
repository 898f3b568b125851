// The book as tables that a person can read: the people, the roles, the tasks, and the hands of each open order; and all about one thing.
// What stands at a place of a table is always a set of things of one sort, so one function writes it and one says how wide it is.
#![tactic(auto)]

mod about;
mod entries;
mod tables;

use called::Pen;
use entries::{Hand, Thing};
use labels::Sort;
use tables::table;

// Writes the whole book.
pub fn book(pen: &mut Pen, book: &[u64]) {
    let Ok(book) = <&book::Words>::try_from(book) else {
        return;
    };
    table(
        pen,
        &["person", "has roles", "acts in", "owns tasks"],
        64,
        |n| Thing::known(book, Sort::Person, n).map(|s| entries::of_person(book, s)),
    );
    table(
        pen,
        &["role", "juniors", "has tasks", "owns tasks"],
        64,
        |n| Thing::known(book, Sort::Role, n).map(|r| entries::of_role(book, r)),
    );
    table(
        pen,
        &[
            "task",
            "SME",
            "DME",
            "RB",
            "SB",
            "subject group",
            "role group",
        ],
        64,
        |n| Thing::known(book, Sort::Task, n).map(|t| entries::of_task(book, t)),
    );
    table(
        pen,
        &["order", "task", "role", "person"],
        entries::CELL_COUNT,
        |at| Hand::known(book, at).map(|hand| entries::of_hand(book, hand)),
    );
}

// Writes that there is no such thing, or that an order is not open.
fn nothing(pen: &mut Pen, sort: Sort, n: u64) {
    if sort == Sort::Order {
        pen.paper.text("order ");
        pen.thing(sort, n);
        pen.paper.text(" is not open\n");
    } else {
        pen.paper.text("there is no ");
        pen.sort(sort);
        pen.paper.text(" ");
        pen.thing(sort, n);
        pen.paper.text("\n");
    }
}

// Writes all about one thing.
pub fn thing(pen: &mut Pen, book: &[u64], sort: Sort, n: u64) {
    let Ok(book) = <&book::Words>::try_from(book) else {
        return;
    };
    match Thing::known(book, sort, n) {
        Some(thing) => about::all(pen, book, thing),
        None => nothing(pen, sort, n),
    }
}
