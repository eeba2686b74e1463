// The check of a routine: Q7 to Q15 and Q23 of its blocks, and the public call, which asks Q1 to Q6 before them.
//
// A block's reading is a local of `block`, lent to what reads its instructions.
#![tactic(auto)]

ghost use Rattle.std.specs.Prelude.{◌≡◌, true, List, ℕ, ◌+◌, ◌*◌, ◌≤◌, ◌<◌, length};
ghost use Rattle.model.specs.Question.{ok, verdict_of};
ghost use Rattle.model.specs.declared.questions.Question.{Question};
ghost use Rattle.model.specs.declared.questions.Refusal.{Refusal};
ghost use Rattle.model.specs.Table.{code_of, Routine, tables_ask};
ghost use Rattle.model.specs.Machine.{decode};
ghost use Rattle.model.specs.Check.{read_instruction, block_ask};
ghost use Rattle.model.specs.Cost.{instruction_asked, counting, check_answer};
ghost use Rattle.blank.specs.Force.{Fits};
ghost use Rattle.access.specs.State.{placing, reading};
ghost use Rattle.verify.specs.Tabled.{Starts, Tabled};
ghost use Rattle.verify.specs.Blocks.{tables_lent, first_ask, Annotated, Divided, BlockAt, ReadSoFar, asked_in, judged};

use access::{NO_BASE, Reading, Tables};
use blank::{Annotations, Filling};
use branch::EndAnswer;
use known::Values;
use lent::Block;
use model::{CheckAnswer, Refusal, Verdict, limit, number};

pub mod lent;

// ---- blocks

// Q7, Q8, Q10 to Q12 and Q23 of the instructions before the last of a block. Inlined, its loop would have fewer registers, and a check is up to
// a fifth slower.
#[inline(never)]
fn inside(routine: &lent::Routine, state: &mut Reading, block: &Block) -> Result<(), Refusal>
    requires { state.old.asked ≡ 0 }
    ensures reads { (P : Routine) → BlockAt P block.now.number block.now.first block.now.code.now
        → ReadSoFar (tables_lent routine.now) P block.now.number (length block.now.code.now) (reading state.old)
        result state.new.asked (reading state.new) }
    ensures few { state.new.asked ≤ 256 }
{
    let tables = Tables {
        types: routine.types,
        tags: routine.tags,
    };
    for j in 0..block.code.len() - 1 {
        if let Err(no) = straight::read_inside(routine.rows, state, &tables, block.code[j], j + 1) {
            return block.placed(Err(no), j);
        }
    }
    Ok(())
}

// Q7 to Q9 and Q13 to Q15 of the last instruction of block b, which leads to the rows of its target and of the next block; where there is
// no next block, the last one's row serves, and is of no account.
fn block_end(
    routine: &lent::Routine,
    annotations: &Annotations,
    state: &mut Reading,
    word: u32,
    b: usize,
) -> EndAnswer
    requires { b * 9 + 9 ≤ length annotations.now.blocks.now }
    ensures { ((P : Routine) → Annotated P annotations.now.blocks.now annotations.now.offered.now annotations.now.filling
        → (place : Question → Refusal) (g : ℕ) → placing place result.outcome (reading state.old)
        ≡ read_instruction (tables_lent routine.now) P place b g true (decode word) (reading state.old))
        × ((P : Routine) → Annotated P annotations.now.blocks.now annotations.now.offered.now annotations.now.filling
        → result.asked ≡ instruction_asked (tables_lent routine.now) P b true (decode word) (reading state.old)) }
{
    let total = annotations.blocks.len() / limit::ROW_WORDS;
    if let Err(no) = branch::may_end(routine.rows, word, b as u32, total as u32, state.base) {
        return EndAnswer {
            outcome: Err(no),
            asked: 0,
        };
    }
    let taken = annotations.in_force(instruction::target(word) as usize);
    let untaken = annotations.in_force((b + 1).min(total - 1));
    branch::edges(state, routine.tags, word, taken, untaken)
}

// A row of questions with its count.
pub fn counting(outcome: Result<(), Refusal>, asked: u32) -> CheckAnswer
    ensures { result ≡ counting (verdict_of outcome) asked }
{
    let verdict = Verdict::from(outcome);
    CheckAnswer {
        number: verdict.number,
        first: verdict.first,
        second: verdict.second,
        asked,
    }
}

// Q7 to Q15 and Q23 of a block, with the rows in force. The blocks before it have put so many fit questions: at most 512 each, so that no
// sum overflows.
pub fn block(
    routine: &lent::Routine,
    annotations: &Annotations,
    block: &Block,
    asked: u32,
) -> CheckAnswer
    requires { (block.now.number * 9 + 9 ≤ length annotations.now.blocks.now) × (asked ≤ 131072) }
    ensures { (P : Routine) → Annotated P annotations.now.blocks.now annotations.now.offered.now annotations.now.filling
        → BlockAt P block.now.number block.now.first block.now.code.now
        → result ≡ counting (verdict_of (block_ask (tables_lent routine.now) P block.now.number))
        (asked + asked_in (tables_lent routine.now) P block.now.number) }
{
    let own = annotations.in_force(block.number);
    let mut state = Reading {
        registers: [0, 1, 2, 3, 4, 5, 6, 7],
        values: Values {
            words: [0; 256],
            frames: [0; 32],
            constants: [0; 32],
        },
        views: [0; 256],
        since: 0,
        base: NO_BASE,
        fields: [0; 8],
        asked: 0,
    };
    access::copy_row(&mut state.values.words, own, 0);
    let before = inside(routine, &mut state, block);
    let so_far = asked + state.asked;
    if let Err(no) = before {
        return counting(Err(no), so_far);
    }
    let last = block.code.len() - 1;
    let end = block_end(
        routine,
        annotations,
        &mut state,
        block.code[last],
        block.number,
    );
    counting(block.placed(end.outcome, last), so_far + end.asked)
}

// Q7 to Q15 and Q23 of all blocks, in order, with the rows in force.
pub fn judge<'a, 'b: 'a>(
    routine: &lent::Routine<'a>,
    offered: &'b [u32],
    filling: Filling,
) -> CheckAnswer
    requires { Fits filling offered.now }
    ensures { (P : Routine) → Annotated P routine.now.blocks.now offered.now filling
        → Divided P (code_of routine.now.blocks.now routine.now.code.now)
        → result ≡ judged (tables_lent routine.now) P }
{
    let annotations = Annotations {
        blocks: routine.blocks,
        offered,
        filling,
    };
    let mut asked = 0;
    for b in 0..routine.count() {
        let v = block(routine, &annotations, &routine.block(b), asked);
        if v.number != number::PASSED {
            return v;
        }
        asked = v.asked;
    }
    counting(Ok(()), asked)
}

// ---- the check

// Q1 to Q5. Where they pass, starts has the code index at which each block starts, and the code's length after the last.
#[tactic(auto, using(model::proofs::Tests::asked), unfolding(crate::specs::Blocks::first_ask))]
pub fn first_questions(
    types: &[u32],
    tags: &[u32],
    blocks: &[u32],
    code: &[u32],
    starts: &mut [u32; limit::BLOCKS + 1],
) -> Result<(), Refusal>
    ensures outcome { result ≡ first_ask types.now tags.now (code_of blocks.now code.now) }
    ensures filled { result ≡ ok tt → Starts blocks.now starts.new }
{
    table::type_lengths(types.len(), tags.len())?;
    table::code_lengths(blocks.len(), code.len())?;
    table::types(types, tags)?;
    table::lengths(blocks, code, starts)
}

// Q1 to Q6.
fn tables_ask(
    types: &[u32],
    tags: &[u32],
    blocks: &[u32],
    code: &[u32],
    starts: &mut [u32; limit::BLOCKS + 1],
) -> Result<(), Refusal>
    ensures outcome { result ≡ tables_ask types.now tags.now (code_of blocks.now code.now) }
    ensures tabled { result ≡ ok tt → Tabled types.now (code_of blocks.now code.now) }
    ensures filled { result ≡ ok tt → Starts blocks.now starts.new }
{
    first_questions(types, tags, blocks, code, starts)?;
    table::annotations(table::rows(types) as u32, blocks)
}

// The check of a routine: the first no, with its place, and the fit questions put. No row is filled, and no list read: an empty part of the
// block table stands for it.
pub fn check<'a>(
    types: &'a [u32],
    tags: &'a [u32],
    blocks: &'a [u32],
    code: &'a [u32],
) -> CheckAnswer
    ensures { result ≡ check_answer types.now tags.now (code_of blocks.now code.now) }
{
    let mut starts = [0u32; limit::BLOCKS + 1];
    if let Err(no) = tables_ask(types, tags, blocks, code, &mut starts) {
        return counting(Err(no), 0);
    }
    let rows = instruction::opcode_rows();
    let routine = lent::Routine {
        rows: &rows,
        types,
        tags,
        blocks,
        code,
        starts: &starts,
    };
    judge(&routine, &blocks[..0], blank::unfilled())
}
