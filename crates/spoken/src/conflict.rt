// Conflicts, and what would resolve them: numbers 20 to 34. Where document 002 removes an exclusion or a binding, the sentence names the
// request that takes it back. More than one chain of bindings may join two tasks, so there it says how far to go. Nothing of this is taken
// back while an order is open: at 20 to 28 none is, since 7 comes first; 31 and 32 say so; 33 and 34 offer no such way.
//
// The sentences name these resolutions of 002: 20: 1. 21: 4. 22: 2, and 3 for a role binding. 23: 6, and 7 for a dynamic exclusion. 24: 5.
// 25: 8. 26: 8 and 10. 27: 2, 5 and 6, and 3 for a role binding. 28: 4, 6 and 7. 29: 13. 30: 13 and 14. 31: 2, 3 and 8.
// 32: 2, 3, 8 and 10. 33 and 34: 15 and 16.
use crate::kinds;
use crate::sentence::Teller;
use answers::Refusal;

// Numbers 20 to 24, of the two tasks themselves; 22 has a way out of its own for a role binding, and 23 for a dynamic exclusion.
fn of_two_tasks(teller: &mut Teller, why: Refusal) {
    let kind = teller.facts.kind;
    teller.tell(match why {
        Refusal::SelfConstraint => {
            "conflict: task %ta can neither exclude nor be bound to itself; to resolve: name two different tasks"
        }
        Refusal::AlreadyDme => {
            "conflict: task %ta and task %tb already exclude each other within an order (DME); \
             to resolve: leave it at that, or take that DME back (take-dme)"
        }
        Refusal::AlreadySme if kind == kinds::RB => {
            "conflict: task %ta and task %tb already exclude each other (SME); \
             to resolve: leave it at that, or take that SME back (take-sme), with a DME in its place if need be (dme)"
        }
        Refusal::AlreadySme => {
            "conflict: task %ta and task %tb already exclude each other (SME); \
             to resolve: leave it at that, or take that SME back (take-sme)"
        }
        Refusal::OneSubjectGroup if kind == kinds::DME => {
            "conflict: task %ta and task %tb are bound to one person, directly or by other tasks (SB); \
             to resolve: take SB back until they no longer are (take-sb), with RB in their place if need be (rb)"
        }
        Refusal::OneSubjectGroup => {
            "conflict: task %ta and task %tb are bound to one person, directly or by other tasks (SB); \
             to resolve: take SB back until they no longer are (take-sb)"
        }
        _ => {
            "conflict: task %ta and task %tb are bound to one role, directly or by other tasks (RB, SB); \
             to resolve: take RB back until they no longer are (take-rb)"
        }
    });
}

// Numbers 25 to 28, of who owns both and of what a binding would join; 27 has a way out of its own for a role binding.
fn of_owners_and_groups(teller: &mut Teller, why: Refusal) {
    let kind = teller.facts.kind;
    teller.tell(match why {
        Refusal::RoleOwnsBoth(_) => {
            "conflict: role %rx owns both task %ta and task %tb; \
             to resolve: take one of them from the role, or from the junior it comes from (take-task, take-junior)"
        }
        Refusal::SubjectOwnsBoth(_) => {
            "conflict: person %px owns both task %ta and task %tb; \
             to resolve: take from them a role that owns one (take-role), \
             or take that task from the role, or from the junior it comes from (take-task, take-junior)"
        }
        Refusal::SmeBetween(_, _) if kind == kinds::RB => {
            "conflict: binding task %ta to task %tb would bind task %tx to task %ty, which exclude each other (SME); \
             to resolve: take that SME back (take-sme), with a DME in its place if need be (dme), \
             or take bindings back until it no longer would (take-rb, take-sb)"
        }
        Refusal::SmeBetween(_, _) => {
            "conflict: binding task %ta to task %tb would bind task %tx to task %ty, which exclude each other (SME); \
             to resolve: take that SME back (take-sme), or take bindings back until it no longer would (take-rb, take-sb)"
        }
        _ => {
            "conflict: binding task %ta to task %tb would put task %tx and task %ty into one hand, \
             which exclude each other within an order (DME); \
             to resolve: take that DME back (take-dme), or take SB back until it no longer would (take-sb), \
             with RB in their place if need be (rb)"
        }
    });
}

// Who gains what would clash with what they own: number 31 is of a role, 32 of a person.
#[derive(Clone, Copy)]
enum Gainer {
    Role,
    Person,
}

impl Gainer {
    // What is said of a role, or of a person.
    fn choose(self, of_role: &'static str, of_person: &'static str) -> &'static str {
        match self {
            Gainer::Role => of_role,
            Gainer::Person => of_person,
        }
    }
}

// Numbers 31 and 32, of what is gained, in five parts. Who owns how many tasks that exclude ..
fn owns_excluding(teller: &mut Teller, who: Gainer, several: bool) {
    teller.tell(who.choose(
        "conflict: role %rx owns %cy",
        "conflict: person %px owns %cy",
    ));
    teller.tell(if several {
        " tasks, each of which excludes "
    } else {
        " task that excludes "
    });
}

// .. what they would gain, the task itself or a task of role a ..
fn would_gain(teller: &mut Teller, who: Gainer, itself: bool) {
    teller.tell(if itself {
        "task %ta"
    } else {
        "a task of role %ra"
    });
    teller.tell(who.choose(
        ", which it would gain (SME): ",
        ", which they would gain (SME): ",
    ));
}

// .. which these tasks are ..
fn which(teller: &mut Teller, several: bool) {
    teller.tell(if several {
        "tasks %my; to resolve, for each of these tasks: "
    } else {
        "task %my; to resolve, for that task: "
    });
}

// .. what resolves it for each of them ..
fn ways_out(teller: &mut Teller, who: Gainer, itself: bool) {
    teller.tell(who.choose(
        "take it from wherever it comes, role %rx itself or juniors (take-task, take-junior)",
        "take from them each role that brings it (take-role), \
         or take it from wherever it comes, these roles themselves or juniors (take-task, take-junior)",
    ));
    teller.tell(if itself {
        ", or take its SME with task %ta back"
    } else {
        ", or take every SME between it and a task of role %ra back"
    });
    teller.tell(
        " while no order is open (take-sme), with a DME in its place if need be (dme); or, in place of all that, ",
    );
}

// .. and what does for all of them together. In kinds 8 and 9 others may have a clash of their own; in kind 10 nobody else is asked.
fn instead(teller: &mut Teller, who: Gainer) {
    teller.tell(if teller.facts.kind == kinds::ASSIGN_ROLE {
        "choose someone else"
    } else {
        who.choose(
            "assign elsewhere; another role or a person may be named next",
            "assign elsewhere, or take from them each role that brings role %rb and give it to someone else (take-role, assign-role); \
             another person may be named next",
        )
    });
}

fn of_clash(teller: &mut Teller, who: Gainer, tasks: u64) {
    let several = 1 < sets::count(tasks);
    let itself = teller.facts.kind == kinds::ASSIGN_TASK;
    owns_excluding(teller, who, several);
    would_gain(teller, who, itself);
    which(teller, several);
    ways_out(teller, who, itself);
    instead(teller, who);
}

// Writes the sentence of a conflict. Those of roles, 29 and 30, stand here, and those with what the person holds, by SME in any open order,
// 33, and by DME in the order itself, 34.
pub fn conflict(teller: &mut Teller, why: Refusal) {
    match why {
        Refusal::RoleOwnsBoth(_)
        | Refusal::SubjectOwnsBoth(_)
        | Refusal::SmeBetween(_, _)
        | Refusal::DmeBetween(_, _) => of_owners_and_groups(teller, why),
        Refusal::SelfInheritance => teller.tell(
            "conflict: role %ra can't be its own junior; to resolve: name two different roles",
        ),
        Refusal::Cycle => teller.tell(
            "conflict: role %rb is already below role %ra, so they would run in a circle; \
             to resolve: name roles that are not above each other, or take the junior step between them back first (take-junior)",
        ),
        Refusal::TaskAssignment(_, tasks) => of_clash(teller, Gainer::Role, tasks),
        Refusal::RoleAssignment(_, tasks) => of_clash(teller, Gainer::Person, tasks),
        Refusal::HoldsSme(_, _, _) => teller.tell(
            "conflict: person %pc already holds task %tx in order %oz, which excludes task %ty in every open order (SME); \
             to resolve: give task %ta to someone else, or close order %oz and, if it is opened anew, give task %tx there to someone else",
        ),
        Refusal::HoldsDme(_, _, _) => teller.tell(
            "conflict: person %pc already holds task %tx in order %ob, which excludes task %ty within an order (DME); \
             to resolve: give task %ta to someone else, or close the order and give task %tx to someone else",
        ),
        _ => of_two_tasks(teller, why),
    }
}
