// The last instruction of a block: Q7 to Q9 and Q13 to Q15, and what an edge tells.
#![tactic(auto)]

ghost use Rattle.std.specs.Prelude.{◌≡◌, List, ℕ, suc, ◌≤◌, ◌<◌, length, true};
ghost use Rattle.model.specs.declared.questions.Question.{Question};
ghost use Rattle.model.specs.declared.questions.Refusal.{Refusal};
ghost use Rattle.model.specs.Word.{opcode_of, a_of, b_of};
ghost use Rattle.model.specs.Table.{Routine};
ghost use Rattle.model.specs.Machine.{decode, well_formed};
ghost use Rattle.model.specs.Values.{typed};
ghost use Rattle.model.specs.Reading.{below, not_below, row_fits};
ghost use Rattle.model.specs.Check.{read_edges};
ghost use Rattle.model.specs.Cost.{edges_asked};
ghost use Rattle.instruction.specs.Rows.{opcode_rows};
ghost use Rattle.instruction.specs.Form.{end_of};
ghost use Rattle.known.specs.Numbers.{values_of, tables_in, Paired};
ghost use Rattle.access.specs.State.{placing, reading};
ghost use Rattle.branch.specs.End.{end_no, retyped, past_zero, next_kind, equal_by, tested_by, taken_in, untaken_in, Tells, fork_ask, fork_asked, EdgeRows, but_words};

use access::{NO_BASE, Reading};
use fits::Facts;
use known::Values;
use model::{Question, limit};

// What the end of a block comes to: the first no, if there is one, and how many fit questions were put. A no has a count too.
#[derive(Clone, Copy)]
pub struct EndAnswer {
    pub outcome: Result<(), Question>,
    pub asked: u32,
}

// The fit questions that a block's end puts: one for each register on each edge, of which none is left out where an earlier one fails.
const ASKED_BY_JUMP: u32 = 8;

// A branch whose taken edge is missed: the other is not put.
const ASKED_BY_MISSED_BRANCH: u32 = 8;

// A branch whose taken edge is met.
const ASKED_BY_BRANCH: u32 = 16;

// The first no of Q7 to Q9 and Q13 at the last instruction of block b; base is that of the open record.
pub fn may_end(
    rows: &[[u32; 2]; instruction::OPCODES],
    word: u32,
    b: u32,
    count: u32,
    base: u32,
) -> Result<(), Question>
    requires { (rows.now ≡ opcode_rows) × (b < 4294967295) }
    ensures { result ≡ end_no (decode word) b count base }
{
    instruction::form(rows, word, true, b, count)?;
    if base < NO_BASE {
        return Err(Question::OpenRecord);
    }
    Ok(())
}

// ---- what an edge tells

// The type word of v past an untaken opcode 11 with the constant k: past 0, Maybe is Ref and Tagged is Present.
fn not_zero(values: &Values, v: u8, k: u8) -> u32
    ensures { retyped values.now v result ≡ past_zero (values_of values.now 0 0) v k }
{
    let w = values.words[v as usize];
    if k != 0 {
        return w;
    }
    match word::kind(w) {
        word::MAYBE => word::with_kind(word::REF, w),
        word::TAGGED => word::with_kind(word::PRESENT, w),
        _ => w,
    }
}

// The type word of v: of this kind and with u known equal to the dependency x, the next kind.
fn next_kind(values: &Values, v: u8, u: u32, kind: u32, x: u32) -> u32
    requires { (u < 256) × (kind < 8) × (x < 256) }
    ensures { result ≡ next_kind (values_of values.now 0 0) v u kind x }
{
    let w = values.words[v as usize];
    if word::kind(w) == kind && values.known_equal(0, u, values.dependency(v as u32, x)) {
        word::with_kind(kind + 1, w)
    } else {
        w
    }
}

// The type word of v past a taken opcode 12: From with u known equal to its end is In.
fn below(values: &Values, v: u8, u: u32) -> u32
    requires { u < 256 }
    ensures { retyped values.now v result ≡ below (values_of values.now 0 0) v u (typed (values_of values.now 0 0) v) }
{
    let end = word::second_dependency(values.words[v as usize]);
    next_kind(values, v, u, word::FROM, end)
}

// The type word of v past an untaken opcode 12: Run with u known equal to its start is From.
fn not_below(values: &Values, v: u8, u: u32) -> u32
    requires { u < 256 }
    ensures { retyped values.now v result ≡ not_below (values_of values.now 0 0) v u (typed (values_of values.now 0 0) v) }
{
    let start = word::first_dependency(values.words[v as usize]);
    next_kind(values, v, u, word::RUN, start)
}

// What the edges of a branch tell of v, the value that it tests: its type word on each, and the constant that it equals on the taken one.
#[derive(Clone, Copy)]
struct EdgeFacts {
    v: u8,
    taken: u32,
    untaken: u32,
    constant: Option<u8>,
}

// What the edges of a word of opcode 11 or 12 tell.
fn learn(state: &Reading, word: u32) -> EdgeFacts
    requires { (10 < opcode_of word) × (opcode_of word ≤ 12) × (a_of word < 8) × (b_of word < 8) }
    ensures { Tells result state.now.values (end_of word) (reading state.now) }
{
    let values = &state.values;
    let v = state.registers[word::a(word)];
    if word::opcode(word) == instruction::IF_LESS {
        let u = u32::from(state.registers[word::b(word)]);
        return EdgeFacts {
            v,
            taken: below(values, v, u),
            untaken: not_below(values, v, u),
            constant: None,
        };
    }
    let k = (word::c(word) / 256) as u8;
    EdgeFacts {
        v,
        taken: values.words[usize::from(v)],
        untaken: not_zero(values, v, k),
        constant: Some(k),
    }
}

// ---- edges

// What the taken edge tells, as the number that Values::test makes of it; 0 where nothing was tested.
fn test(values: &Values, t: &EdgeFacts) -> u64
    ensures { Paired (values_of values.now (tested_by t.now.constant t.now.v) (equal_by t.now.constant)) result }
{
    match t.constant {
        Some(k) => values.test(t.v, k as u32 + 1),
        None => 0,
    }
}

// Whether the registers meet the row of the block that an edge leads to, past such a test.
fn edge(state: &Reading, tags: &[u32], test: u64, row: &[u32]) -> bool
    requires { 8 ≤ length row.now }
    ensures { (types : List ℕ) (tested equal : ℕ) → Paired (values_of state.now.values tested equal) test
        → result ≡ row_fits (tables_in types tags) (values_of state.now.values tested equal) 8 row.now state.now.registers }
{
    let facts = Facts {
        values: &state.values,
        tags,
        test,
    };
    facts.row_fits(limit::REGISTERS, row, &state.registers)
}

// Q14 and Q15 of a branch, each edge against the row of its block. The block ends here, so its type words need not be put back.
fn fork(
    state: &mut Reading,
    tags: &[u32],
    t: &EdgeFacts,
    taken: &[u32],
    untaken: &[u32],
) -> EndAnswer
    requires { (8 ≤ length taken.now) × (8 ≤ length untaken.now) }
    ensures { ((place : Question → Refusal) (types : List ℕ)
        → placing place result.outcome tt ≡ fork_ask (tables_in types tags) place state.old.registers
        (taken_in t.now state.old.values) taken.now (untaken_in t.now state.old.values) untaken.now)
        × ((types : List ℕ) → result.asked ≡ fork_asked (tables_in types tags) state.old.registers (taken_in t.now state.old.values) taken.now)
        × (state.new ≡ but_words state.old state.new.values.words) }
{
    let i = usize::from(t.v);
    state.values.words[i] = t.taken;
    let test = test(&state.values, t);
    if !edge(state, tags, test, taken) {
        return EndAnswer {
            outcome: Err(Question::TakenEdge),
            asked: ASKED_BY_MISSED_BRANCH,
        };
    }
    state.values.words[i] = t.untaken;
    if !edge(state, tags, 0, untaken) {
        return EndAnswer {
            outcome: Err(Question::UntakenEdge),
            asked: ASKED_BY_BRANCH,
        };
    }
    EndAnswer {
        outcome: Ok(()),
        asked: ASKED_BY_BRANCH,
    }
}

// Q14 and Q15 at a word that ends a block; of the reading only type words change. taken and untaken are the annotations of the blocks that it leads to; where an edge is
// missing, its row is of no account.
pub fn edges(
    state: &mut Reading,
    tags: &[u32],
    word: u32,
    taken: &[u32],
    untaken: &[u32],
) -> EndAnswer
    requires { (well_formed word ≡ true) × (0 < opcode_of word → 9 < opcode_of word) × (8 ≤ length taken.now) × (8 ≤ length untaken.now) }
    ensures { ((P : Routine) (b : ℕ) → EdgeRows P b (end_of word) taken.now untaken.now → (place : Question → Refusal) (types : List ℕ)
        → placing place result.outcome tt ≡ read_edges (tables_in types tags) P place (suc b) (end_of word) (reading state.old))
        × ((P : Routine) (b : ℕ) → EdgeRows P b (end_of word) taken.now untaken.now → (types : List ℕ)
        → result.asked ≡ edges_asked (tables_in types tags) P (end_of word) (reading state.old))
        × (state.new ≡ but_words state.old state.new.values.words) }
{
    match word::opcode(word) {
        instruction::HALT => EndAnswer {
            outcome: Ok(()),
            asked: 0,
        },
        instruction::JUMP => EndAnswer {
            outcome: if edge(state, tags, 0, taken) {
                Ok(())
            } else {
                Err(Question::TakenEdge)
            },
            asked: ASKED_BY_JUMP,
        },
        _ => {
            let t = learn(state, word);
            fork(state, tags, &t, taken, untaken)
        }
    }
}
