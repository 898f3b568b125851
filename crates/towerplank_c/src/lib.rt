// The static library for a controller in C: the two entries of the crate towerplank under their C names, with the same guarantees.
// A crate is a library or a static library, and assurance stands on towerplank, so the exports are a crate of their own.
#![tactic(auto)]

ghost use Rattle.desk.specs.Guarantee.{ask};
ghost use Rattle.towerplank.specs.Told.{Told, ToldAudit};

// One request on a lent book: the answer's number, x, y and z, and the change in place where the number is 0.
#[unsafe(no_mangle)]
pub extern "C" fn towerplank_request(
    book: &mut [u64],
    kind: u64,
    a: u64,
    b: u64,
    c: u64,
    answer: &mut [u64; 4],
)
    ensures { Told book.old book.new (ask kind a b c) answer.new }
{
    towerplank::towerplank_request(book, kind, a, b, c, answer);
}

// The audit of a lent book, which it only reads.
#[unsafe(no_mangle)]
pub extern "C" fn towerplank_audit(book: &[u64], answer: &mut [u64; 4])
    ensures { ToldAudit book.now answer.new }
{
    towerplank::towerplank_audit(book, answer);
}
