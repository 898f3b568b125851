// The two entries for a controller in C: a request and the audit on lent words, with the answer in four lent words. The crate towerplank_c
// exports both, and include/towerplank.h declares them. Neither entry asks anything of its caller's numbers.
#![tactic(auto)]

ghost use Rattle.std.specs.Prelude.{◌≡◌};
ghost use Rattle.desk.specs.Guarantee.{ask};
ghost use Rattle.towerplank.specs.Told.{listed, Told, ToldAudit};

use answers::Reply;

// A reply in the four words that a controller reads.
// Stays: the C interface lends four words, and no From of Reply would be plainer than this one line.
fn put(answer: &mut [u64; 4], reply: Reply)
    ensures { answer.new ≡ listed reply }
{
    *answer = [reply.number, reply.x, reply.y, reply.z];
}

// One request on a lent book: the answer's number, x, y and z, and the change in place where the number is 0.
pub fn towerplank_request(
    book: &mut [u64],
    kind: u64,
    a: u64,
    b: u64,
    c: u64,
    answer: &mut [u64; 4],
)
    ensures { Told book.old book.new (ask kind a b c) answer.new }
{
    let reply = Reply::from(desk::request(book, kind, a, b, c));
    put(answer, reply);
}

// The audit of a lent book, which it only reads.
pub fn towerplank_audit(book: &[u64], answer: &mut [u64; 4])
    ensures { ToldAudit book.now answer.new }
{
    let reply = Reply::from(audit::audit(book));
    put(answer, reply);
}
