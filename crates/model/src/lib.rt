// The shapes that the definitions of document 01 and the code share. The definitions stand in specs/.
#![tactic(auto)]

ghost use Rattle.std.specs.Prelude.{◌≡◌, eqb};

pub mod limit;
pub mod number;
pub mod questions;

pub use questions::{Question, Refusal};

// The number of the first question with a no, 0 where there is none, and its place.
#[derive(Clone, Copy)]
pub struct Verdict {
    pub number: u32,
    pub first: u32,
    pub second: u32,
}

// What a check of a routine returns: its verdict, and how many fit questions were put.
#[derive(Clone, Copy)]
pub struct CheckAnswer {
    pub number: u32,
    pub first: u32,
    pub second: u32,
    pub asked: u32,
}

// What a check returns that chooses rows for blank annotations: its verdict and count, and the place in the offered list of the row for each
// blank block, the lowest block first.
#[derive(Clone, Copy)]
pub struct OfferedAnswer {
    pub number: u32,
    pub first: u32,
    pub second: u32,
    pub asked: u32,
    pub choice: [u32; 3],
}

// What a run returns beside the memory that it leaves.
#[derive(Clone, Copy)]
pub struct RunAnswer {
    pub number: u32,
    pub block: u32,
    pub index: u32,
    pub finished: u64,
    pub registers: [u32; 8],
}

// Whether a check had no no.
pub fn passes(v: Verdict) -> bool
    ensures { result ≡ eqb v.number 0 }
{
    v.number == number::PASSED
}
