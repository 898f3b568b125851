// The help: a line for each word of the panel, and more on each.
#![tactic(auto)]

mod near;

pub use near::{row, suggest};
use output::Paper;

// How many words are no kind.
const OWN: u64 = 6;

// The lines: first those of the words that are no kind, then those of the kinds, in their order.
const LINES: [&str; 27] = [
    "      show                            the whole book as tables\n      show SORT THING                 all about one thing\n",
    "      audit                           do all ten rules hold in the book?\n",
    "      help                            this page\n      help WORD                       more on one word\n",
    "      quit                            end the shift; the end of the input (Ctrl-D) does it too\n",
    "      name SORT THING NAME            give a thing a name\n",
    "      try REQUEST                     what the book would answer; it stays as it is\n",
    "   1  define-task TASK                define a task\n",
    "   2  define-role ROLE                define a role\n",
    "   3  define-subject PERSON           define a person; also define-person\n",
    "   4  sme TASK TASK                   nobody may own both, nor hold both in open orders; also exclude-static\n",
    "   5  dme TASK TASK                   nobody may do both in one order; also exclude-dynamic\n",
    "   6  rb TASK TASK                    in one order both are done in one role; also bind-role\n",
    "   7  sb TASK TASK                    in one order both are done by one person; also bind-subject\n",
    "   8  assign-task TASK ROLE           the role gets the task\n",
    "   9  junior JUNIOR SENIOR            the senior role owns the junior role's tasks too\n",
    "  10  assign-role ROLE PERSON         the person gets the role\n",
    "  11  activate ROLE PERSON            the person acts in the role from now on\n",
    "  12  open ORDER tasks TASK TASK ..   open an order with these tasks; also open ORDER MASK\n",
    "  13  allocate TASK ORDER PERSON      the person does the task in the order\n",
    "  14  close ORDER                     the order is done, and its hands are forgotten\n",
    "  15  take-task TASK ROLE             the role has the task no more\n",
    "  16  take-junior JUNIOR SENIOR       the one role is no junior of the other any more\n",
    "  17  take-role ROLE PERSON           the person has the role no more\n",
    "  18  take-sme TASK TASK              what sme added is taken back\n",
    "  19  take-dme TASK TASK              what dme added is taken back\n",
    "  20  take-rb TASK TASK               what rb added is taken back\n",
    "  21  take-sb TASK TASK               what sb added is taken back\n",
];

// What more there is to say, in the same order.
const MORE: [&str; 27] = [
    "Four tables: people, roles, tasks, and the hands of open orders. With a sort and a thing: all about that one.\nExample: show person 0\n",
    "The audit looks at the whole book and names the lowest rule that is broken. It is done at the end of the shift too.\nExample: audit\n",
    "Alone it lists the words; with a word it says more on that one.\nExample: help allocate\n",
    "The shift ends with an audit. The book is not kept.\nExample: quit\n",
    "The name may be used wherever the number may, and is told beside it. Letters, digits, - and _, not beginning with a digit, 24 at most; no \
     two things of a sort have the same. The book itself knows no names.\nExample: name person 0 anna\n",
    "The request is answered as if it were made, on a copy: the book stays as it is.\nExample: try allocate 0 0 1\n",
    "A task must be defined before anything else is said of it. Once defined it stays.\nExample: define-task 0\n",
    "A role must be defined before anything else is said of it. Once defined it stays.\nExample: define-role 0\n",
    "A person must be defined before anything else is said of them. Once defined they stay.\nExample: define-subject 0\n",
    "Nobody may own both tasks, by whatever roles, or hold both in open orders, be it in one order or in two (static mutual exclusion). No order \
     may be open; take-sme takes it back.\nExample: sme 0 1\n",
    "Who does the one task in an order may not do the other in it, but may in another order (dynamic mutual exclusion). No order may be open; \
     take-dme takes it back.\nExample: dme 2 4\n",
    "Within an order both tasks are done in the same role (role binding). No order may be open; take-rb takes it back.\nExample: rb 6 7\n",
    "Within an order both tasks are done by the same person in the same role (subject binding). No order may be open; take-sb takes it \
     back.\nExample: sb 2 3\n",
    "The role owns the task from now on, and so does each role above it and each person who has one of them.\nExample: assign-task 0 0\n",
    "The first role is put below the second, which owns all that the first owns. Roles may not run in a circle.\nExample: junior 2 6\n",
    "The person owns the role, the roles below it and their tasks. To act in one of these is a request of its own: activate.\nExample: \
     assign-role 0 0\n",
    "The person acts in the role, one that they own, until they act in another. What they are given to do is done in that role.\nExample: \
     activate 5 6\n",
    "The order gets the tasks named, one or more, each defined. A mask is the sum of 1 for task 0, 2 for task 1, 4 for task 2 and so \
     on.\nExample: open 0 tasks 0 1 2, or open 0 7\n",
    "The person does the task in the open order, and with it the tasks that are bound to it by SB; those bound by RB are held for the role that \
     the person acts in. The person must act in a role that they own now (activate), and that role must own all these tasks. Nothing that the \
     person holds may exclude what they get: in any open order for SME, in this one for DME.\nExample: allocate 0 0 1 (task 0, order 0, person \
     1)\n",
    "The order's tasks and who did them are forgotten; its number can be used again.\nExample: close 0\n",
    "The task is taken from the role that it was assigned to. What is in hand in open orders stays there.\nExample: take-task 0 0\n",
    "The step between the two roles is taken back. What is in hand in open orders stays there.\nExample: take-junior 2 6\n",
    "The role is taken from the person. What is in hand in open orders stays there, and who acted in the role still does: they are given nothing \
     more to do before they own it again or act in another (activate).\nExample: take-role 4 4\n",
    "The static exclusion of the two tasks is taken back: one role or person may own both. No order may be open.\nExample: take-sme 0 1\n",
    "The dynamic exclusion of the two tasks is taken back. No order may be open.\nExample: take-dme 2 4\n",
    "The role binding of the two tasks is taken back; other bindings may still join them. No order may be open.\nExample: take-rb 6 7\n",
    "The subject binding of the two tasks is taken back; other SB may still join them. No order may be open.\nExample: take-sb 2 3\n",
];

// Which text is of a row's word, if it has one.
fn text_of(row: u64) -> Option<u64> {
    if row < OWN {
        return Some(row);
    }
    vocabulary::kind_of(row)?.checked_add(OWN - 1)
}

// The line of a word: its kind and arguments, and what it does.
fn line(paper: &mut Paper, row: u64) {
    if let Some(n) = text_of(row) {
        paper.nth(&LINES, n);
    }
}

// Writes the page.
pub fn page(paper: &mut Paper) {
    paper.text("A request is a word, or the number before it, and its things:\n");
    for row in (vocabulary::KINDS + 1..vocabulary::ROWS).chain(0..OWN) {
        line(paper, row);
    }
    paper.text(
        "A TASK, ROLE, PERSON or ORDER is a number from 0 to 63, or a name that was given to it: name task 0 wake.\n\
         A SORT is task, role, person or order. A MASK has bit 0 for task 0, bit 1 for task 1, and so on.\n\
         Words are parted by blanks; a # begins a comment.\n",
    );
}

// Writes more on one word, with an example.
pub fn word(paper: &mut Paper, row: u64) {
    line(paper, row);
    if let Some(n) = text_of(row) {
        paper.nth(&MORE, n);
    }
}

// Writes which word it is about.
pub fn title(paper: &mut Paper, row: u64) {
    paper.text("help on ");
    near::row(paper, row);
    paper.text("\n");
}
