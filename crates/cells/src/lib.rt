// The changes that write an order's cells in place: kinds 12 and 14 empty them, kind 13 stamps those of a hand.
// Whoever calls these has seen that the numbers are in range.
#![tactic(auto)]

ghost use Rattle.std.specs.Prelude.{◌≡◌, true, ◌≤◌, ◌<◌};
ghost use Rattle.rules.specs.Requests.{set_order, stamped_cell};
ghost use Rattle.book.specs.Slice.{Became};

use book::Table;

// The order's task mask is stored, and all its 64 cells become 0.
pub fn set_order(book: &mut book::Words, order: u64, tasks: u64)
    requires { order < 64 }
    ensures { Became book.old book.new (λ d. set_order d order tasks) }
{
    book::set_row(book, Table::Orders, order, tasks);
    for t in 0..64 {
        book::set_cell(book, order, t, 0);
    }
}

// What kind 13 hands out in an order: the role of `wide`, the tasks of the role hand, and the subject too of `narrow`, those of the subject hand.
#[derive(Clone, Copy)]
pub struct Hand {
    pub order: u64,
    pub wide: u64,
    pub narrow: u64,
    // the executing role, plus 1
    pub role: u64,
    pub subject: u64,
    ghost in_range: { (order < 64) × (role ≤ 64) × (subject < 64) },
}

impl Hand {
    ghost use Rattle.cells.specs.Hands.{handed_out, handed_at};

    // A cell of the role hand after kind 13, where v stood: it has the role, and in the subject hand the subject too.
    fn stamped_cell(&self, in_subject: bool, v: u64) -> u64
        ensures { result ≡ stamped_cell true in_subject self.now.role self.now.subject v }
    {
        let subject = if in_subject {
            self.subject + 1
        } else {
            book::subject_in(v)
        };
        book::cell_of(self.role, subject)
    }

    // The cell of one task of the role hand, stamped.
    fn stamp_task(&self, book: &mut book::Words, task: u64)
        requires { task < 64 }
        ensures { Became book.old book.new (handed_at self.now task) }
    {
        let v = book::cell(book, self.order, task);
        book::set_cell(
            book,
            self.order,
            task,
            self.stamped_cell(sets::has(self.narrow, task), v),
        );
    }

    // Each cell of the role hand stamped.
    pub fn stamp(&self, book: &mut book::Words)
        ensures { Became book.old book.new (handed_out self.now) }
    {
        for task in sets::each(self.wide) {
            self.stamp_task(book, task);
        }
    }
}
