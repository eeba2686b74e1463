// The six calls for C and Rust: a table is a pointer and a length, an answer is a number returned and words that the caller lends. The C
// interface fixes their parameters.
// Each contract is the call's own, with the words that it fills.
#![tactic(auto)]

ghost use Rattle.std.specs.Prelude.{◌≡◌};
ghost use Rattle.model.specs.Table.{code_of};
ghost use Rattle.model.specs.Machine.{run, ready};
ghost use Rattle.model.specs.Cost.{check_answer};
ghost use Rattle.model.specs.Blank.{offered_check};
ghost use Rattle.model.specs.MemoryCheck.{memory_check, entry_check};
ghost use Rattle.embed.specs.Lent.{given, Answers, AnswersCounting, AnswersChoosing, Fills, ended_at, Runs};

use model::{CheckAnswer, OfferedAnswer, RunAnswer, Verdict};

// The place of a verdict in two lent words, and its number.
fn placed(v: Verdict, place: &mut [u32; 2]) -> u32
    ensures { Answers result place v }
{
    *place = [v.first, v.second];
    v.number
}

// The place of a routine's verdict and its count in three lent words, and its number.
fn counted(a: CheckAnswer, verdict: &mut [u32; 3]) -> u32
    ensures { AnswersCounting result verdict a }
{
    *verdict = [a.first, a.second, a.asked];
    a.number
}

// The same of a check with offered rows, and the places chosen in three words more.
fn chosen(a: OfferedAnswer, verdict: &mut [u32; 3], choice: &mut [u32; 3]) -> u32
    ensures { AnswersChoosing result verdict choice a }
{
    *verdict = [a.first, a.second, a.asked];
    let places = a.choice;
    *choice = places;
    a.number
}

// What a run returned, beside its number and registers, in four lent words.
fn ended(r: RunAnswer, answer: &mut [u32; 4])
    ensures { answer.new ≡ ended_at r }
{
    let low = (r.finished % 4294967296) as u32;
    let high = (r.finished / 4294967296) as u32;
    *answer = [r.block, r.index, low, high];
}

#[unsafe(no_mangle)]
pub extern "C" fn ramdulsi_check(
    types: &[u32],
    tags: &[u32],
    blocks: &[u32],
    code: &[u32],
    verdict: &mut [u32; 3],
) -> u32
    ensures { AnswersCounting result verdict (check_answer (given types) (given tags) (code_of (given blocks) (given code))) }
{
    let a = loader::check(types, tags, blocks, code);
    counted(a, verdict)
}

#[unsafe(no_mangle)]
pub extern "C" fn ramdulsi_check_offered<'a, 'b: 'a>(
    types: &[u32],
    tags: &[u32],
    blocks: &'a [u32],
    code: &[u32],
    offered: &'b [u32],
    verdict: &mut [u32; 3],
    choice: &mut [u32; 3],
) -> u32
    ensures { AnswersChoosing result verdict choice
        (offered_check (given types) (given tags) (code_of (given blocks) (given code)) (given offered)) }
{
    let a = loader::check_offered(types, tags, blocks, code, offered);
    chosen(a, verdict, choice)
}

// The block table of an accepted routine is left filled.
#[unsafe(no_mangle)]
pub extern "C" fn ramdulsi_fill(
    types: &[u32],
    tags: &[u32],
    blocks: &mut [u32],
    code: &[u32],
    offered: &[u32],
    verdict: &mut [u32; 3],
    choice: &mut [u32; 3],
) -> u32
    ensures { Fills result blocks offered verdict choice
        (offered_check (given types) (given tags) (code_of blocks.old (given code)) (given offered)) }
{
    let a = loader::fill(types, tags, blocks, code, offered);
    chosen(a, verdict, choice)
}

#[unsafe(no_mangle)]
pub extern "C" fn ramdulsi_memory_check(
    types: &[u32],
    tags: &[u32],
    allocations: &[u32],
    memory: &[u32],
    place: &mut [u32; 2],
) -> u32
    ensures { Answers result place (memory_check (given types) (given tags) (given allocations) (given memory)) }
{
    let v = loader::memory_check(types, tags, allocations, memory);
    placed(v, place)
}

// The registers are eight lent words.
#[unsafe(no_mangle)]
pub extern "C" fn ramdulsi_entry_check(
    types: &[u32],
    tags: &[u32],
    allocations: &[u32],
    memory: &[u32],
    blocks: &[u32],
    code: &[u32],
    block: u32,
    registers: &[u32; 8],
    place: &mut [u32; 2],
) -> u32
    ensures { Answers result place (entry_check (given types) (given tags) (given allocations) (given memory)
        (code_of (given blocks) (given code)) (ready block (given registers))) }
{
    let held = *registers;
    let v = loader::entry_check(types, tags, allocations, memory, blocks, code, block, held);
    placed(v, place)
}

// The registers are eight lent words, and hold the run's at the end.
#[unsafe(no_mangle)]
pub extern "C" fn ramdulsi_run(
    blocks: &[u32],
    code: &[u32],
    memory: &mut [u32],
    block: u32,
    registers: &mut [u32; 8],
    budget: u64,
    answer: &mut [u32; 4],
) -> u32
    ensures { Runs result memory registers answer
        (run (code_of (given blocks) (given code)) memory.old (ready block registers.old) budget) }
{
    let held = *registers;
    let r = loader::run(blocks, code, memory, block, held, budget);
    ended(r, answer);
    let left = r.registers;
    *registers = left;
    r.number
}
