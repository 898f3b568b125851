// What comes back: a request is accepted or refused, with a case for each number of document 01, and a book is sound or at fault.
// specs/Answers.antt and specs/Findings.antt give the document's number, x, y and z of each case.
#![tactic(auto)]

ghost use Rattle.std.specs.Prelude.{◌≡◌};
ghost use Rattle.answers.specs.Answers.{refused, said};
ghost use Rattle.answers.specs.Findings.{faulted, found};
ghost use Rattle.answers.specs.Replies.{reply_of};

// Why a request is refused.
#[derive(Clone, Copy, PartialEq, Eq, Debug)]
pub enum Refusal {
    WrongLength,
    BadWord(u64),
    UnknownKind,
    BadArgument(u64),
    AlreadySet,
    NotThere,
    OrderOpen(u64),
    NotOwned,
    HasSubject(u64),
    HasRole(u64),
    TaskNotOwned(u64),
    SelfConstraint,
    AlreadyDme,
    AlreadySme,
    OneSubjectGroup,
    OneRoleGroup,
    RoleOwnsBoth(u64),
    SubjectOwnsBoth(u64),
    SmeBetween(u64, u64),
    DmeBetween(u64, u64),
    SelfInheritance,
    Cycle,
    TaskAssignment(u64, u64),
    RoleAssignment(u64, u64),
    HoldsSme(u64, u64, u64),
    HoldsDme(u64, u64, u64),
}

// The answer to a request: only where it is Ok is the book changed.
pub type Answer = Result<(), Refusal>;

// What the audit finds in a book that is not sound: where it is well-formed, the lowest broken rule.
#[derive(Clone, Copy, PartialEq, Eq, Debug)]
pub enum Fault {
    WrongLength,
    BadWord(u64),
    Broken(u8),
}

// What the audit finds.
pub type Finding = Result<(), Fault>;

// An answer in numbers, as it leaves the program.
#[derive(Clone, Copy, PartialEq, Eq, Debug, Default)]
pub struct Reply {
    pub number: u64,
    pub x: u64,
    pub y: u64,
    pub z: u64,
}

// The number, x, y and z of a refusal.
impl From<Refusal> for Reply {
    ghost from_gives = { λ refusal reply. reply ≡ reply_of (refused refusal) };

    fn from(refusal: Refusal) -> Reply {
        let (number, x, y, z) = match refusal {
            Refusal::WrongLength => (1, 0, 0, 0),
            Refusal::BadWord(i) => (2, i, 0, 0),
            Refusal::UnknownKind => (3, 0, 0, 0),
            Refusal::BadArgument(place) => (4, place, 0, 0),
            Refusal::AlreadySet => (5, 0, 0, 0),
            Refusal::NotThere => (6, 0, 0, 0),
            Refusal::OrderOpen(order) => (7, order, 0, 0),
            Refusal::NotOwned => (8, 0, 0, 0),
            Refusal::HasSubject(subject) => (9, subject, 0, 0),
            Refusal::HasRole(role) => (10, role, 0, 0),
            Refusal::TaskNotOwned(task) => (11, task, 0, 0),
            Refusal::SelfConstraint => (20, 0, 0, 0),
            Refusal::AlreadyDme => (21, 0, 0, 0),
            Refusal::AlreadySme => (22, 0, 0, 0),
            Refusal::OneSubjectGroup => (23, 0, 0, 0),
            Refusal::OneRoleGroup => (24, 0, 0, 0),
            Refusal::RoleOwnsBoth(role) => (25, role, 0, 0),
            Refusal::SubjectOwnsBoth(subject) => (26, subject, 0, 0),
            Refusal::SmeBetween(x, y) => (27, x, y, 0),
            Refusal::DmeBetween(x, y) => (28, x, y, 0),
            Refusal::SelfInheritance => (29, 0, 0, 0),
            Refusal::Cycle => (30, 0, 0, 0),
            Refusal::TaskAssignment(role, tasks) => (31, role, tasks, 0),
            Refusal::RoleAssignment(subject, tasks) => (32, subject, tasks, 0),
            Refusal::HoldsSme(x, y, order) => (33, x, y, order),
            Refusal::HoldsDme(x, y, order) => (34, x, y, order),
        };
        Reply { number, x, y, z }
    }
}

// Those of an answer: what is accepted is number 0 and names nothing.
impl From<Answer> for Reply {
    ghost from_gives = { λ answer reply. reply ≡ reply_of (said answer) };

    fn from(answer: Answer) -> Reply {
        match answer {
            Ok(()) => Reply::default(),
            Err(refusal) => Reply::from(refusal),
        }
    }
}

// The number and x of a fault, which names nothing else.
impl From<Fault> for Reply {
    ghost from_gives = { λ fault reply. reply ≡ reply_of (faulted fault) };

    fn from(fault: Fault) -> Reply {
        let (number, x) = match fault {
            Fault::WrongLength => (1, 0),
            Fault::BadWord(i) => (2, i),
            Fault::Broken(rule) => (40 + rule as u64, 0),
        };
        Reply {
            number,
            x,
            y: 0,
            z: 0,
        }
    }
}

// Those of a finding: a sound book is number 0.
impl From<Finding> for Reply {
    ghost from_gives = { λ finding reply. reply ≡ reply_of (found finding) };

    fn from(finding: Finding) -> Reply {
        match finding {
            Ok(()) => Reply::default(),
            Err(fault) => Reply::from(fault),
        }
    }
}
