// Sentences with things in them. A mark is a %, the sort of the thing (t task, r role, p person, o order, m the tasks of a mask, c how many
// they are, n a number that is none of these), and whose it is: the request's kind (k) or its a, b, c, the answer's x, y, z, or the role that
// person c acts in (e).
use crate::standing;
use answers::{Answer, Reply};
use called::Pen;
use labels::Sort;

// The facts that a sentence may tell: the numbers of the request and of its answer, and how person c of an allocation stands: the roles
// assigned to them, and the one that they act in, if any.
#[derive(Clone, Copy)]
pub struct Facts {
    pub kind: u64,
    pub a: u64,
    pub b: u64,
    pub c: u64,
    pub x: u64,
    pub y: u64,
    pub z: u64,
    pub roles: u64,
    pub acted_in: Option<u64>,
}

impl Facts {
    // Those of a request and its answer. A refusal has left the book as it was, so the book tells how the person stood.
    pub fn of(book: &[u64], request: typed::Request, answer: Answer) -> Facts {
        let Reply { x, y, z, .. } = Reply::from(answer);
        let typed::Request { kind, a, b, c } = request;
        Facts {
            kind,
            a,
            b,
            c,
            x,
            y,
            z,
            roles: standing::roles_of(book, c),
            acted_in: standing::acted_in(standing::active_of(book, c)),
        }
    }

    // The number that the second letter of a mark stands for.
    // Stays: no plainer: a sentence is one text, so its marks are letters, and an enum for them would only be matched here once more.
    fn number_of(self, letter: u8) -> u64 {
        match letter {
            b'k' => self.kind,
            b'a' => self.a,
            b'b' => self.b,
            b'c' => self.c,
            b'x' => self.x,
            b'y' => self.y,
            b'e' => self.acted_in.unwrap_or(0),
            _ => self.z,
        }
    }
}

// What sentences are told with: the pen, and the facts in them.
#[derive(Drop)]
pub struct Teller<'t, 'p, 'a> {
    pub pen: &'t mut Pen<'p, 'a>,
    pub facts: Facts,
}

impl<'t, 'p, 'a> Teller<'t, 'p, 'a> {
    // Writes what a mark stands for, as its first letter tells it.
    fn mark(&mut self, sort: u8, n: u64) {
        match sort {
            b't' => self.pen.thing(Sort::Task, n),
            b'r' => self.pen.thing(Sort::Role, n),
            b'p' => self.pen.thing(Sort::Person, n),
            b'o' => self.pen.thing(Sort::Order, n),
            b'm' => self.pen.things(Sort::Task, n),
            b'c' => self.pen.paper.number(sets::count(n)),
            _ => self.pen.paper.number(n),
        }
    }

    // Writes a sentence, with a thing for each mark.
    pub fn tell(&mut self, text: &str) {
        let mut rest = text.as_bytes();
        while let [byte, after @ ..] = rest {
            if let [b'%', sort, whose, behind @ ..] = rest {
                self.mark(*sort, self.facts.number_of(*whose));
                rest = behind;
            } else {
                self.pen.paper.byte(*byte);
                rest = after;
            }
        }
    }

    // Writes sentence n of several, counted from 0; nothing where there are not so many.
    pub fn tell_nth(&mut self, texts: &[&str], n: u64) {
        if let Ok(i) = usize::try_from(n) {
            if let Some(text) = texts.get(i) {
                self.tell(text);
            }
        }
    }
}
