// The machine: a block, and a run with its opening questions.
#![tactic(auto)]

ghost use Rattle.std.specs.Prelude.{◌≡◌, ◌≢◌, ℕ, ◌+◌, ◌-◌, ◌/◌, ◌<◌, ◌≤◌, length, get_or, IfErr};
ghost use Rattle.model.specs.Question.{ok};
ghost use Rattle.model.specs.Table.{Routine, code_of};
ghost use Rattle.model.specs.Machine.{steps, run, run_ask, returned, ready};
ghost use Rattle.instruction.specs.Rows.{opcode_rows};
ghost use Rattle.step.specs.Answer.{at, exit_of};
ghost use Rattle.machine.specs.Run.{Covers, Opened, located, exit_in, offset_of, ran_of};

use model::number::{HALTED, PAUSED};
use model::{Question, Refusal, RunAnswer, limit};
use step::Exit;

// ---- a block

// The offset of the instruction that was asked, and the question that had a no. With the question first, its byte lies over the low byte of
// an exit's block, which is then put together from parts: blocks of a jump alone take an eighth longer.
#[derive(Clone, Copy)]
struct Fault {
    at: usize,
    question: Question,
}

// A no, with the offset of the instruction that was asked: a function, since of a closure given to `map_err` the proof knows no result.
fn located<T>(answer: Result<T, Question>, at: usize) -> Result<T, Fault>
    ensures { result ≡ located at answer }
{
    match answer {
        Ok(x) => Ok(x),
        Err(question) => Err(Fault { at, question }),
    }
}

// A block, whose code is one part of the code table, and the last word of that part.
fn run_block(
    rows: &[[u32; 2]; instruction::OPCODES],
    part: &[u32],
    last_word: u32,
    registers: &mut [u32; 8],
    memory: &mut [u32],
    b: u32,
    count: u32,
) -> Result<Exit, Fault>
    requires { (rows.now ≡ opcode_rows) × (1 ≤ length part.now) × (b < 4294967295) × (last_word ≡ get_or part.now (length part.now - 1) 0) }
    ensures steps { (P : Routine) (f n : ℕ) → P.count ≡ count → Covers P b part.now
        → exit_of (exit_in result) (at b (offset_of part.now result) registers.new memory.new f (n + offset_of part.now result))
        ≡ steps P (P.long b) (at b 0 registers.old memory.old f n) }
    ensures place { IfErr result (λ e. e.at < length part.now) }
{
    let last = part.len() - 1;
    for (i, &w) in part[..last].iter().enumerate() {
        located(step::advance(rows, registers, memory, w), i)?;
    }
    located(step::leave(rows, registers, last_word, b, count), last)
}

// ---- a run

// A run's answer.
fn answer(number: u32, block: u32, index: u32, finished: u64, registers: [u32; 8]) -> RunAnswer
    ensures { result ≡ record { number = number; block = block; index = index; finished = finished; registers = registers } }
{
    RunAnswer {
        number,
        block,
        index,
        finished,
        registers,
    }
}

// A budget of blocks, from the first instruction of a block that exists; starts has where each block starts. The block after another
// starts where that ends: taken from there, a test of data stays a branch, and the next block does not wait for it. A block's last word is found by
// where the block ends: as an index into its part it would be found by where the block starts too, and blocks of a jump alone take an eighth longer.
// The tables stay parameters, since no other function would take a struct of them.
fn run_blocks(
    blocks: &[u32],
    code: &[u32],
    starts: &[u32; limit::BLOCKS + 1],
    memory: &mut [u32],
    block: u32,
    registers: [u32; 8],
    budget: u64,
) -> RunAnswer
    requires { Opened blocks.now code.now starts.now block }
    ensures { (result ≡ returned (ran_of (code_of blocks.now code.now) memory.old (ready block registers) budget))
        × (memory.new ≡ (ran_of (code_of blocks.now code.now) memory.old (ready block registers) budget).memory) }
{
    let rows = instruction::opcode_rows();
    let count = table::rows(blocks) as u32;
    let mut b = block;
    let mut first = starts[block as usize] as usize;
    let mut current = registers;
    for finished in 0..budget {
        let end = starts[b as usize + 1] as usize;
        let exit = match run_block(
            &rows,
            &code[first..end],
            code[end - 1],
            &mut current,
            memory,
            b,
            count,
        ) {
            Ok(exit) => exit,
            Err(fault) => {
                let number = fault.question.number();
                return answer(number, b, (first + fault.at) as u32, finished, current);
            }
        };
        match exit {
            Exit::To(t) => {
                b = t;
                first = starts[t as usize] as usize;
            }
            Exit::Following => {
                b += 1;
                first = end;
            }
            Exit::Halted => return answer(HALTED, b, end as u32 - 1, finished + 1, current),
        }
    }
    answer(PAUSED, b, first as u32, budget, current)
}

// The opening questions; where they pass, starts has where each block starts. Inlined, it would take registers from the loop of `run_blocks`,
// which then is up to a tenth slower.
#[inline(never)]
#[tactic(auto, using(model::proofs::Tests::asked), unfolding(model::specs::Machine::run_ask))]
fn opening(
    blocks: &[u32],
    code: &[u32],
    memory: &[u32],
    block: u32,
    starts: &mut [u32; limit::BLOCKS + 1],
) -> Result<(), Refusal>
    ensures outcome { result ≡ run_ask (code_of blocks.now code.now) memory.now block }
    ensures opened { result ≡ ok tt → Opened blocks.now code.now starts.new block }
{
    table::code_lengths(blocks.len(), code.len())?;
    table::lengths(blocks, code, starts)?;
    table::start_block(blocks, block)?;
    layout::memory_length(memory.len())
}

// A run of a budget of blocks from a start block, over any tables and memory.
pub fn run(
    blocks: &[u32],
    code: &[u32],
    memory: &mut [u32],
    block: u32,
    registers: [u32; 8],
    budget: u64,
) -> RunAnswer
    ensures { (result ≡ returned (run (code_of blocks.now code.now) memory.old (ready block registers) budget))
        × (memory.new ≡ (run (code_of blocks.now code.now) memory.old (ready block registers) budget).memory) }
{
    let mut starts = [0u32; limit::BLOCKS + 1];
    match opening(blocks, code, memory, block, &mut starts) {
        Ok(()) => run_blocks(blocks, code, &starts, memory, block, registers, budget),
        Err(no) => answer(no.question.number(), no.first, no.second, 0, registers),
    }
}
