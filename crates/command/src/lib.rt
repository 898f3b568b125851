// Between a program and the command that runs it: what the program was asked for, and how it went. A Rattle program ends with no
// status of its own, so it puts a digit on descriptor 3, and tools/run-program ends with that.
#![tactic(auto)]

use std::env::{Env, FillError};

// The longest option.
const ROOM: usize = 64;

// The descriptors of standard error and of what the command is told on.
const ERRORS: i32 = 2;

const TO_COMMAND: i32 = 3;

// Stays: a status is a number, since `end` takes any, and programs alone call it; an enum of these two would ask more of a caller.
// A request was refused, where it was asked to tell that.
pub const REFUSED: u8 = 1;

// Reading or writing failed.
pub const BROKEN: u8 = 3;

// The status of a program that ends since the reader of its output has closed it, as the signal of that would end it.
pub const CLOSED: u8 = 141;

// Whether argument i is the option, if there is such an argument. One that does not fit is taken as empty.
fn is_argument(system: &impl Env, i: usize, option: &[u8]) -> Option<bool> {
    let mut room = [0u8; ROOM];
    let got = match system.arg(i, &mut room) {
        Ok(got) => got,
        Err(FillError::TooLong) => 0,
        Err(FillError::NotPresent) => return None,
    };
    Some(&room[..got] == option)
}

// Whether the program was started with the option.
pub fn has_option(system: &impl Env, option: &[u8]) -> bool {
    (1..usize::MAX)
        .map_while(|i| is_argument(system, i, option))
        .any(|same| same)
}

// Tells the command how it went: REFUSED or BROKEN.
pub fn end(status: u8) {
    let digit = [b'0' + status % 10];
    io::write_all(TO_COMMAND, &digit);
}

// A line on standard error.
pub fn complain(text: &[u8]) {
    io::write_all(ERRORS, text);
    io::write_all(ERRORS, b"\n");
}
