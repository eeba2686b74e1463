// How a block is read up to its last instruction: Q7 and Q8, new values, copies and moves. Loads and stores are `access`.
#![tactic(auto)]

ghost use Rattle.std.specs.Prelude.{◌≡◌, List, ℕ, ◌%◌, ◌≤◌, ◌<◌, eqb, false};
ghost use Rattle.model.specs.Question.{◌and◌, ok};
ghost use Rattle.model.specs.Word.{opcode_of, signed};
ghost use Rattle.model.specs.Table.{Routine};
ghost use Rattle.model.specs.Machine.{decode};
ghost use Rattle.model.specs.Reading.{power_of_two, is_size, moved_word};
ghost use Rattle.model.specs.Check.{read_plain, read_instruction};
ghost use Rattle.model.specs.Cost.{plain_asked, instruction_asked};
ghost use Rattle.instruction.specs.Rows.{opcode_rows};
ghost use Rattle.instruction.specs.Form.{plain_of, Inside};
ghost use Rattle.access.specs.State.{tables_by, Reads};

use access::{Reading, Tables};
use model::Question;

// ---- opcode 7

// Whether n is 1, 2, 4 or 8 and divides c.
fn divides(n: u32, c: u32) -> bool
    ensures { result ≡ (power_of_two n and eqb (c % n) 0) }
{
    match n {
        1 => true,
        2 => c % 2 == 0,
        4 => c % 4 == 0,
        8 => c % 8 == 0,
        _ => false,
    }
}

// Whether opcode 7 moves an In pointer by one size. A size is at most 8, so c as it stands is the size exactly where the signed c is.
fn walks(kind: u32, size: u32, c: u32) -> bool
    requires { size ≤ 8 }
    ensures { result ≡ (eqb kind 8 and is_size size (signed c)) }
{
    kind == word::IN && c == size
}

// The type word after opcode 7 on a value of type word w.
fn moved_word(tables: &Tables, w: u32, c: u32) -> u32
    ensures { result ≡ moved_word (tables_by tables.now) w c }
{
    let kind = word::kind(w);
    if kind < word::RUN {
        return 0;
    }
    let size = tables.size(word::record_type(w));
    if walks(kind, size, c) {
        return word::with_kind(word::FROM, w);
    }
    if !divides(size, c) {
        return 0;
    }
    word::with_kind(word::RUN, w)
}

// ---- one instruction

// An instruction before its block's end that is no load or store, of the word at birthplace g: nothing is asked of it.
fn make(reading: &mut Reading, tables: &Tables, word: u32, g: usize)
    requires { Inside 1 word × (opcode_of word < 8) × (g < 32) }
    ensures { Reads reading.old reading.new (ok tt)
        (λ place. read_plain (tables_by tables.now) place g (plain_of word)) (plain_asked (tables_by tables.now) (plain_of word)) }
{
    let a = word::a(word);
    let b = word::b(word);
    let c = word::c(word);
    match word::opcode(word) {
        instruction::CONSTANT => reading.fresh(a, g, 0, 0, c + 1),
        instruction::COPY => reading.registers[a] = reading.registers[b],
        instruction::MOVE => {
            let v = usize::from(reading.registers[b]);
            let w = moved_word(tables, reading.values.words[v], c);
            let frame = reading.values.frames[v / 8];
            reading.fresh(a, g, w, frame, 0);
        }
        _ => reading.fresh(a, g, 0, 0, 0),
    }
}

// One instruction before its block's end, of the word at birthplace g.
fn step(reading: &mut Reading, tables: &Tables, word: u32, g: usize) -> Result<(), Question>
    requires { Inside 1 word × (g < 32) × (reading.old.asked ≤ 256) }
    ensures { Reads reading.old reading.new result
        (λ place. read_plain (tables_by tables.now) place g (plain_of word)) (plain_asked (tables_by tables.now) (plain_of word)) }
{
    if instruction::LOAD <= word::opcode(word) {
        return reading.access(tables, word, g);
    }
    make(reading, tables, word, g);
    Ok(())
}

// Q7 to Q12 and Q23 of an instruction inside a block, of the word at birthplace g. It is not asked Q9, so it is of no account which block
// it is in.
pub fn read_inside(
    rows: &[[u32; 2]; instruction::OPCODES],
    reading: &mut Reading,
    tables: &Tables,
    word: u32,
    g: usize,
) -> Result<(), Question>
    requires { (rows.now ≡ opcode_rows) × (g < 32) × (reading.old.asked ≤ 256) }
    ensures { (P : Routine) (b : ℕ) → Reads reading.old reading.new result
        (λ place. read_instruction (tables_by tables.now) P place b g false (decode word))
        (instruction_asked (tables_by tables.now) P b false (decode word)) }
{
    instruction::form(rows, word, false, 0, 0)?;
    step(reading, tables, word, g)
}
