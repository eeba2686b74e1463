// The memory check (Q20) and the entry check (Q16, Q21).
#![tactic(auto)]

ghost use Rattle.std.specs.Prelude.{◌≡◌, ◌≤◌, length};
ghost use Rattle.model.specs.Question.{ok, first_no};
ghost use Rattle.model.specs.Table.{rows, code_of};
ghost use Rattle.model.specs.Machine.{ready};
ghost use Rattle.model.specs.MemoryCheck.{records_ask, register_ask, layout_ask, memory_ask, memory_check, entry_ask, entry_check, routine_ask};
ghost use Rattle.meaning.specs.Means.{tables};
ghost use Rattle.meaning.specs.Search.{WordsLegible};

use meaning::Meanings;
use meaning::owner::Owners;
use model::{Question, Refusal, Verdict, limit};

// ---- the memory check

// Q20, over allocations that are laid out.
fn records(meanings: &Meanings, memory: &[u32]) -> Result<(), Refusal>
    requires { layout_ask meanings.now.types.now meanings.now.tags.now meanings.now.allocations.now (length memory.now) ≡ ok tt }
    ensures { result ≡ records_ask (tables meanings.now) meanings.now.allocations.now memory.now
        meanings.now.allocations.now 0 }
{
    let count = meanings.allocations.len() / limit::ALLOCATION_WORDS;
    for k in 0..count {
        let start = layout::start(meanings.allocations, k) as usize;
        let t = layout::record_type(meanings.allocations, k) as usize;
        let n = table::head(meanings.types, t) as usize;
        let words = &table::type_words(meanings.types, t)[..n];
        let names = &memory[start..];
        if let Some(f) = meanings.first_unmet(words, names) {
            return Err(Refusal::within(Question::Field, k, f));
        }
    }
    Ok(())
}

// Q1 to Q4 for types and tags, Q17, Q19 and Q20.
#[tactic(auto, using(model::proofs::Tests::asked), unfolding(model::specs::MemoryCheck::memory_ask))]
fn memory_ask(
    types: &[u32],
    tags: &[u32],
    allocations: &[u32],
    memory: &[u32],
) -> Result<(), Refusal>
    ensures { result ≡ memory_ask types.now tags.now allocations.now memory.now }
{
    layout::layout(types, tags, allocations, memory.len())?;
    let mut owners = Owners::empty();
    owners.fill(types, allocations);
    let meanings = Meanings {
        types,
        tags,
        allocations,
        owners: &owners,
    };
    records(&meanings, memory)
}

// Whether memory is laid out as types and allocations say, and each field of each record meets its meaning.
#[tactic(auto, unfolding(model::specs::MemoryCheck::memory_check))]
pub fn memory_check(types: &[u32], tags: &[u32], allocations: &[u32], memory: &[u32]) -> Verdict
    ensures { result ≡ memory_check types.now tags.now allocations.now memory.now }
{
    Verdict::from(memory_ask(types, tags, allocations, memory))
}

// ---- the entry check

// Q1 for blocks and code, Q5, Q6 and Q16.
#[tactic(auto, using(model::proofs::Tests::asked), unfolding(model::specs::MemoryCheck::routine_ask))]
fn routine_ask(types: &[u32], blocks: &[u32], code: &[u32], block: u32) -> Result<(), Refusal>
    requires { length types.now ≤ 576 }
    ensures { result ≡ routine_ask (rows types.now) (code_of blocks.now code.now) block }
{
    table::code_lengths(blocks.len(), code.len())?;
    let mut starts = [0u32; limit::BLOCKS + 1];
    table::lengths(blocks, code, &mut starts)?;
    table::annotations(table::rows(types) as u32, blocks)?;
    table::start_block(blocks, block)
}

// Q21, of the registers under the annotation of their block.
fn registers_met(
    meanings: &Meanings,
    annotation: &[u32],
    registers: &[u32; 8],
) -> Result<(), Refusal>
    requires { WordsLegible (rows meanings.now.types.now) annotation.now registers.now }
    ensures { result ≡ first_no (length annotation.now) 0 (register_ask (tables meanings.now)
        meanings.now.allocations.now annotation.now registers.now) }
{
    match meanings.first_unmet(annotation, registers) {
        Some(r) => Err(Refusal::at(Question::Register, r)),
        None => Ok(()),
    }
}

// The layout of memory, the routine's tables, each register's meaning. The parameters are those of the call, which hands them on once.
#[tactic(auto, using(model::proofs::Tests::asked), unfolding(model::specs::MemoryCheck::entry_ask))]
fn entry_ask(
    types: &[u32],
    tags: &[u32],
    allocations: &[u32],
    memory: &[u32],
    blocks: &[u32],
    code: &[u32],
    block: u32,
    registers: [u32; 8],
) -> Result<(), Refusal>
    ensures { result ≡ entry_ask types.now tags.now allocations.now memory.now
        (code_of blocks.now code.now) (ready block registers) }
{
    layout::layout(types, tags, allocations, memory.len())?;
    routine_ask(types, blocks, code, block)?;
    let mut owners = Owners::empty();
    owners.fill(types, allocations);
    let meanings = Meanings {
        types,
        tags,
        allocations,
        owners: &owners,
    };
    registers_met(
        &meanings,
        table::type_words(blocks, block as usize),
        &registers,
    )
}

// Whether a run may start at a block with these registers.
#[tactic(auto, unfolding(model::specs::MemoryCheck::entry_check))]
pub fn entry_check(
    types: &[u32],
    tags: &[u32],
    allocations: &[u32],
    memory: &[u32],
    blocks: &[u32],
    code: &[u32],
    block: u32,
    registers: [u32; 8],
) -> Verdict
    ensures { result ≡ entry_check types.now tags.now allocations.now memory.now
        (code_of blocks.now code.now) (ready block registers) }
{
    Verdict::from(entry_ask(
        types,
        tags,
        allocations,
        memory,
        blocks,
        code,
        block,
        registers,
    ))
}
