// Things as they are told: the number, and behind it the name where the panel has been given one.
#![tactic(auto)]

use labels::Sort;
use output::Paper;

// What things are told with: the paper, and the panel's names.
#[derive(Drop)]
pub struct Pen<'p, 'a> {
    pub paper: &'p mut Paper<'a>,
    pub names: &'p [u8],
}

impl<'p, 'a> Pen<'p, 'a> {
    // The word of a sort.
    pub fn sort(&mut self, sort: Sort) {
        self.paper.text(match sort {
            Sort::Task => "task",
            Sort::Role => "role",
            Sort::Person => "person",
            _ => "order",
        });
    }

    // The name of a thing; nothing where it has none.
    pub fn name(&mut self, sort: Sort, n: u64) {
        self.paper.bytes(labels::name_of(self.names, sort, n));
    }

    // A thing: `0 (wake)`, or `0` where it has no name.
    pub fn thing(&mut self, sort: Sort, n: u64) {
        self.paper.number(n);
        if !labels::name_of(self.names, sort, n).is_empty() {
            self.paper.text(" (");
            self.name(sort, n);
            self.paper.text(")");
        }
    }

    // The members of a set of things, parted by blanks; - where it is empty.
    pub fn things(&mut self, sort: Sort, set: u64) {
        if set == 0 {
            self.paper.byte(b'-');
        }
        for (i, n) in sets::each(set).enumerate() {
            if i != 0 {
                self.paper.byte(b' ');
            }
            self.thing(sort, n);
        }
    }
}

// How many bytes a thing takes behind `before` others, with the blank that parts it from them.
fn width_with(names: &[u8], sort: Sort, n: u64, before: u64) -> u64 {
    let digits = if n < 10 { 1 } else { 2 };
    let name = labels::name_of(names, sort, n).len() as u64;
    let named = if name == 0 { 0 } else { name.saturating_add(3) };
    let gap = if before == 0 { 0 } else { 1 };
    before
        .saturating_add(gap)
        .saturating_add(digits)
        .saturating_add(named)
}

// How many bytes the members of a set of things take.
pub fn width(names: &[u8], sort: Sort, set: u64) -> u64 {
    if set == 0 {
        return 1;
    }
    sets::each(set).fold(0, |wide, n| width_with(names, sort, n, wide))
}
