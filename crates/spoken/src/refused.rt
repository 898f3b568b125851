// Why the book refuses a request: numbers 1 to 11.
use crate::sentence::Teller;
use crate::{conflict, kinds};
use answers::Refusal;
use labels::Sort;

// What an argument of a sort must be, where x is not that. Any number is never at fault, nor is an argument that is not used.
fn not_of_sort(sort: Sort) -> &'static str {
    match sort {
        Sort::Task => "refused: there is no task %tx; define it first",
        Sort::Role => "refused: there is no role %rx; define it first",
        Sort::Person => "refused: there is no person %px; define them first",
        Sort::Order => "refused: order %ox is not open; open it first",
        Sort::Mask =>
            "refused: %nx is no mask of defined tasks; give one or more, bit 0 for task 0",
        Sort::Unused | Sort::Any => "",
    }
}

// The same where x is past 63: nothing with such a number can be defined or opened.
fn past_sort(sort: Sort) -> &'static str {
    match sort {
        Sort::Task => "refused: a task's number is 0 to 63, not %nx",
        Sort::Role => "refused: a role's number is 0 to 63, not %nx",
        Sort::Person => "refused: a person's number is 0 to 63, not %nx",
        Sort::Order => "refused: an order's number is 0 to 63, not %nx",
        Sort::Mask | Sort::Unused | Sort::Any => not_of_sort(sort),
    }
}

// Number 4: the argument at a place is at fault. In kind 13 the task may be defined, and not be one of the order's.
fn argument(teller: &mut Teller, place: u64) {
    let v = teller.facts;
    let typed::Takes(a, b, c) = typed::wanted(v.kind);
    let (sort, x) = match place {
        1 => (a, v.a),
        2 => (b, v.b),
        _ => (c, v.c),
    };
    teller.facts.x = x;
    teller.tell(match place {
        1 if v.kind == kinds::ALLOCATE => "refused: task %tx is none of order %ob's tasks",
        _ if 63 < x => past_sort(sort),
        _ => not_of_sort(sort),
    });
}

// Number 5: one sentence for each kind from 1 to 12; kind 11 is never answered so.
fn already(teller: &mut Teller) {
    teller.tell_nth(
        &[
            "",
            "refused: task %ta is already defined",
            "refused: role %ra is already defined",
            "refused: person %pa is already defined",
            "refused: task %ta and task %tb already exclude each other (SME)",
            "refused: task %ta and task %tb already exclude each other within an order (DME)",
            "refused: task %ta and task %tb are already bound to one role (RB)",
            "refused: task %ta and task %tb are already bound to one person (SB)",
            "refused: role %rb already has task %ta",
            "refused: role %ra is already a junior of role %rb",
            "refused: person %pb already has role %ra",
            "",
            "refused: order %oa is already open; close it first, or take another number",
        ],
        teller.facts.kind,
    );
}

// Number 6: sentence 1 for kind 15, and so on.
fn not_there(teller: &mut Teller) {
    teller.tell_nth(
        &[
            "",
            "refused: task %ta is not assigned to role %rb itself",
            "refused: role %ra is no direct junior of role %rb",
            "refused: role %ra is not assigned to person %pb itself",
            "refused: there is no SME between task %ta and task %tb",
            "refused: there is no DME between task %ta and task %tb",
            "refused: there is no direct RB between task %ta and task %tb",
            "refused: there is no direct SB between task %ta and task %tb",
        ],
        teller.facts.kind.saturating_sub(14),
    );
}

// Number 8: of kind 11; then of kind 13, where the person acts in no role, or in one that they do not own now, each with no role at all
// and with some. Who has some is not offered the old role again: what they own may exclude its tasks (32).
fn not_owned(teller: &mut Teller) {
    let v = teller.facts;
    teller.tell(match (v.acted_in, v.roles) {
        _ if v.kind == kinds::ACTIVATE => {
            "refused: person %pb does not own role %ra; assign it or a senior of it to them first"
        }
        (None, 0) => "refused: person %pc has no role; assign one to them and activate it first",
        (None, _) => "refused: person %pc acts in no role; activate one of theirs first",
        (Some(_), 0) => {
            "refused: person %pc acts in role %re, which they do not own now; \
             assign that role or a senior of it to them first, or another role and activate it"
        }
        (Some(_), _) => {
            "refused: person %pc acts in role %re, which they do not own now; activate one of theirs first"
        }
    });
}

// Number 11: a task of the role group that the active role does not own, task a itself or one bound to it.
fn task_not_owned(teller: &mut Teller) {
    let v = teller.facts;
    teller.tell("refused: the role that person %pc acts in does not own task %tx");
    if v.x != v.a {
        teller.tell(", which is bound to task %ta in order %ob");
    }
    teller.tell(
        "; to resolve: choose someone whose role does, let them act in another role (activate), or assign task %tx to that role",
    );
}

// Writes the sentence of a refusal. Numbers 9 to 11 are runtime conflicts in 002: resolutions 16, 17 and 15.
pub fn refused(teller: &mut Teller, why: Refusal) {
    match why {
        Refusal::WrongLength => teller.tell("refused: the book has not 4676 words"),
        Refusal::BadWord(_) => teller.tell("refused: word %nx of the book is bad"),
        Refusal::UnknownKind => {
            teller.tell("refused: there is no request of kind %nk; the kinds are 1 to 21")
        }
        Refusal::BadArgument(place) => argument(teller, place),
        Refusal::AlreadySet => already(teller),
        Refusal::NotThere => not_there(teller),
        Refusal::OrderOpen(_) => teller.tell(
            "refused: order %ox is open, and rules between tasks stand still meanwhile; close it first",
        ),
        Refusal::NotOwned => not_owned(teller),
        Refusal::HasSubject(_) => teller.tell(
            "refused: task %ta of order %ob is in the hands of person %px; \
             to resolve: leave it with them, or close the order and open it anew",
        ),
        Refusal::HasRole(_) => teller.tell(
            "refused: task %ta of order %ob is held for role %rx; \
             to resolve: let person %pc act in role %rx (activate), or choose someone who does",
        ),
        Refusal::TaskNotOwned(_) => task_not_owned(teller),
        _ => conflict::conflict(teller, why),
    }
}
