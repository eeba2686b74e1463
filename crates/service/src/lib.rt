// What the program answers to the bytes that it reads, as text in a buffer. Nothing here reads or writes.
#![tactic(auto)]

use protocol::Line;

mod lines;

pub use lines::{HELD, fill, finish, start};

// How far an input was read: the line that is being read, its number, and whether some answer was other than 0 and 40.
#[derive(Clone, Copy)]
pub struct Place {
    pub line: Line,
    pub count: u64,
    pub refused: bool,
}

// Bytes that were answered, up to a place among them.
#[derive(Clone, Copy)]
pub struct Filled {
    pub at: usize,
    pub place: Place,
}
