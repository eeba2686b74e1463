// The six public calls, each with its whole contract and no requirement: check, check with offered rows, filling, memory check, entry check
// and run. README names them, so each keeps a parameter for each table, and answers by the specification's numbers.
// specs/Delivery.antt states demand 3 of them, with relations that proofs/Contracts.antt shows to be these contracts; proofs/Delivered.antt
// proves it.
#![tactic(auto)]

ghost use Rattle.std.specs.Prelude.{◌≡◌};
ghost use Rattle.model.specs.Table.{code_of};
ghost use Rattle.model.specs.Machine.{run, ready, returned};
ghost use Rattle.model.specs.Cost.{check_answer};
ghost use Rattle.model.specs.Blank.{offered_check, filled_after};
ghost use Rattle.model.specs.MemoryCheck.{memory_check, entry_check};

use model::{CheckAnswer, OfferedAnswer, RunAnswer, Verdict};

// Whether a routine is accepted over a type and a tag table; else the number and place of the first question with a no. Either way, how
// many fit questions were put.
pub fn check(types: &[u32], tags: &[u32], blocks: &[u32], code: &[u32]) -> CheckAnswer
    ensures { result ≡ check_answer types.now tags.now (code_of blocks.now code.now) }
{
    verify::check(types, tags, blocks, code)
}

// The same of a routine whose annotations may be blank, with rows offered for them: where it is accepted, the place in the list of the row
// that each blank block takes. With no blank row the list is not read.
pub fn check_offered<'a, 'b: 'a>(
    types: &[u32],
    tags: &[u32],
    blocks: &'a [u32],
    code: &[u32],
    offered: &'b [u32],
) -> OfferedAnswer
    ensures { result ≡ offered_check types.now tags.now (code_of blocks.now code.now) offered.now }
{
    choice::check_offered(types, tags, blocks, code, offered)
}

// The same; and where the routine is accepted, the chosen rows are laid into its block table, which the other calls then take. Else the table
// is left as it was.
pub fn fill(
    types: &[u32],
    tags: &[u32],
    blocks: &mut [u32],
    code: &[u32],
    offered: &[u32],
) -> OfferedAnswer
    ensures { (result ≡ offered_check types.now tags.now (code_of blocks.old code.now) offered.now)
        × (blocks.new ≡ filled_after result blocks.old offered.now) }
{
    choice::fill(types, tags, blocks, code, offered)
}

// Whether memory is in type: each field of each allocated record meets its meaning.
pub fn memory_check(types: &[u32], tags: &[u32], allocations: &[u32], memory: &[u32]) -> Verdict
    ensures { result ≡ memory_check types.now tags.now allocations.now memory.now }
{
    memory::memory_check(types, tags, allocations, memory)
}

// Whether registers are in type for a block of a routine, over these allocations.
pub fn entry_check(
    types: &[u32],
    tags: &[u32],
    allocations: &[u32],
    memory: &[u32],
    blocks: &[u32],
    code: &[u32],
    block: u32,
    registers: [u32; 8],
) -> Verdict
    ensures { result ≡ entry_check types.now tags.now allocations.now memory.now
        (code_of blocks.now code.now) (ready block registers) }
{
    memory::entry_check(
        types,
        tags,
        allocations,
        memory,
        blocks,
        code,
        block,
        registers,
    )
}

// A run of at most a budget of blocks; memory is left as the machine leaves it.
pub fn run(
    blocks: &[u32],
    code: &[u32],
    memory: &mut [u32],
    block: u32,
    registers: [u32; 8],
    budget: u64,
) -> RunAnswer
    ensures { (result ≡ returned (run (code_of blocks.now code.now) memory.old (ready block registers) budget))
        × (memory.new ≡ (run (code_of blocks.now code.now) memory.old (ready block registers) budget).memory) }
{
    machine::run(blocks, code, memory, block, registers, budget)
}
