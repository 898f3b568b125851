// Sets of the numbers 0 to 63 as u64 masks: tested by shift and and, joined by or.
#![tactic(auto)]

ghost use Rattle.std.specs.Prelude.{◌≡◌, ◌^◌, ◌<◌};
ghost use Rattle.sets.specs.Mask.{bit, with, without, within, meet};
ghost use Rattle.sets.specs.Count.{count};
ghost use Rattle.sets.specs.Search.{lowest};
ghost use Rattle.sets.specs.Members.{Visits, IsLowest};

// The set of number i alone.
pub fn alone(i: u64) -> u64
    requires { i < 64 }
    ensures { result ≡ 2 ^ i }
{
    1 << i
}

// Whether number i is in the set.
pub fn has(set: u64, i: u64) -> bool
    requires { i < 64 }
    ensures { result ≡ bit set i }
{
    (set >> i) & 1 == 1
}

// The set with number i.
pub fn add(set: u64, i: u64) -> u64
    requires { i < 64 }
    ensures { result ≡ with set i }
{
    set | alone(i)
}

// The set without number i.
pub fn remove(set: u64, i: u64) -> u64
    requires { i < 64 }
    ensures { result ≡ without set i }
{
    set & !alone(i)
}

// Whether every member of the set is one of the other.
pub fn inside(set: u64, other: u64) -> bool
    ensures { result ≡ within set other }
{
    set & other == set
}

// Whether two sets have a member in common.
pub fn meets(set: u64, other: u64) -> bool
    ensures { result ≡ meet set other }
{
    set & other != 0
}

// How many members the set has: the one bits of the mask.
pub fn count(set: u64) -> u64
    ensures { result ≡ count set }
{
    u64::count_ones(set) as u64
}

// The lowest member of the set, by the zero bits below it; 64 where it has none.
// Stays: 64 for none, as `u64::trailing_zeros` has it and the definition `lowest`; `first` is the Option.
pub fn lowest(set: u64) -> u64
    ensures { result ≡ lowest (bit set) }
{
    u64::trailing_zeros(set) as u64
}

// The set without its lowest member.
pub fn rest(set: u64) -> u64
    requires { 0 < set }
    ensures { result ≡ without set (lowest (bit set)) }
{
    set & (set - 1)
}

// The lowest member of the set, if it has one.
pub fn first(set: u64) -> Option<u64>
    ensures { IsLowest (bit set) result }
{
    if set == 0 { None } else { Some(lowest(set)) }
}

// The members of a set, from the lowest on, each once: what a `for` over them visits. `left` are those still to come.
#[derive(Drop)]
pub struct Members {
    pub left: u64,
}

// All members of the set.
pub fn each(set: u64) -> Members
    ensures { result.left ≡ set }
{
    Members { left: set }
}

impl Iterator for Members {
    ghost use Rattle.std.specs.Iterator.{at_most};

    type Item = u64;

    ghost next_gives = { λ s r t. Visits s.left r t.left };

    ghost remaining = { λ s. at_most s.left };

    fn next(&mut self) -> Option<u64> {
        if self.left == 0 {
            return None;
        }
        let member = lowest(self.left);
        self.left = rest(self.left);
        Some(member)
    }
}
