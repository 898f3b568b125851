// The kinds of request that what is said turns on, by their numbers.
// Stays: a promise that may not change: desk::request answers any number as a kind, so a kind is a number here too, and no enum.
pub const DME: u64 = 5;

pub const RB: u64 = 6;

pub const ASSIGN_TASK: u64 = 8;

pub const ASSIGN_ROLE: u64 = 10;

pub const ACTIVATE: u64 = 11;

pub const OPEN: u64 = 12;

pub const ALLOCATE: u64 = 13;
