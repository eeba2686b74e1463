// What the check is lent of a routine, and what holds of it past Q1 to Q5.

ghost use Rattle.std.specs.Prelude.{◌≡◌, ◌+◌, ◌≤◌, ◌<◌, length, take, drop};
ghost use Rattle.model.specs.Question.{refusal};
ghost use Rattle.model.specs.Table.{code_of, rows, head_of, start_of};
ghost use Rattle.instruction.specs.Rows.{opcode_rows};
ghost use Rattle.access.specs.State.{placing};
ghost use Rattle.verify.specs.Tabled.{Starts, Tabled};

use model::{Question, Refusal, limit};

// A block: its code, its number, and the code index at which it starts.
#[derive(Clone, Copy)]
pub struct Block<'a> {
    pub code: &'a [u32],
    pub number: usize,
    pub first: usize,
    pub ghost some: { 1 ≤ length code.now },
    pub ghost long: { length code.now ≤ 32 },
    pub ghost near: { first ≤ 8192 },
    pub ghost counted: { number < 256 },
}

impl Block<'_> {
    // What questions of the instruction at an offset come to: a no is placed there.
    #[tactic(auto, unfolding(access::specs::State::placing))]
    pub fn placed(&self, outcome: Result<(), Question>, offset: usize) -> Result<(), Refusal>
        requires { offset < 32 }
        ensures { result ≡ placing (λ q. refusal q self.now.number (self.now.first + offset)) outcome tt }
    {
        match outcome {
            Ok(()) => Ok(()),
            Err(no) => Err(Refusal::within(no, self.number, self.first + offset)),
        }
    }
}

// A routine past Q1 to Q5: the rows of the opcodes, its tables, and the code index at which each block starts, and after the last where the
// code ends.
#[derive(Clone, Copy)]
pub struct Routine<'a> {
    pub rows: &'a [[u32; 2]; instruction::OPCODES],
    pub types: &'a [u32],
    pub tags: &'a [u32],
    pub blocks: &'a [u32],
    pub code: &'a [u32],
    pub starts: &'a [u32; limit::BLOCKS + 1],
    pub ghost opcodes: { rows.now ≡ opcode_rows },
    pub ghost tabled: { Tabled types.now (code_of blocks.now code.now) },
    pub ghost placed: { Starts blocks.now starts.now },
}

impl<'a> Routine<'a> {
    // How many blocks there are.
    pub fn count(&self) -> usize
        ensures { result ≡ rows self.now.blocks.now }
    {
        self.blocks.len() / limit::ROW_WORDS
    }

    // Block b.
    pub fn block(&self, b: usize) -> Block<'a>
        requires { b < rows self.now.blocks.now }
        ensures { (result.number ≡ b) × (result.first ≡ start_of self.now.blocks.now b)
            × (result.code.now ≡ take (head_of self.now.blocks.now b) (drop (start_of self.now.blocks.now b) self.now.code.now)) }
    {
        let first = self.starts[b] as usize;
        let end = self.starts[b + 1] as usize;
        Block {
            code: &self.code[first..end],
            number: b,
            first,
        }
    }
}
