// The form of an instruction word: Q7, Q8 and Q9, asked alike by the check and by a run.
#![tactic(auto)]

ghost use Rattle.std.specs.Prelude.{◌≡◌, true, ◌<◌};
ghost use Rattle.model.specs.Word.{opcode_of};
ghost use Rattle.model.specs.Machine.{decode, well_formed, targets_exist};
ghost use Rattle.instruction.specs.Rows.{opcode_rows, formed_by_words};
ghost use Rattle.instruction.specs.Form.{form_no, end_of, target_of};

use model::Question;

// The opcodes, told apart by these names in the check and in a run. They stay numbers: before Q7 a word may have any of 256, and a run
// asks the rows below by the number itself.
pub const HALT: u32 = 0;

pub const CONSTANT: u32 = 1;

pub const COPY: u32 = 2;

pub const ADD: u32 = 3;

pub const SUBTRACT: u32 = 4;

pub const MULTIPLY: u32 = 5;

pub const DIVIDE: u32 = 6;

pub const MOVE: u32 = 7;

pub const LOAD: u32 = 8;

pub const STORE: u32 = 9;

pub const JUMP: u32 = 10;

pub const IF_EQUAL: u32 = 11;

pub const IF_LESS: u32 = 12;

// How many there are.
pub const OPCODES: usize = 13;

// How an opcode uses a part of its word, as the bits of the word that must not be set: all of an unused part, all but the low three of
// a register's number, none of a number.
const A_UNUSED: u32 = 0xf00000;

const A_REGISTER: u32 = 0x800000;

const B_UNUSED: u32 = 0xf0000;

const B_REGISTER: u32 = 0x80000;

const C_UNUSED: u32 = 0xffff;

const C_REGISTER: u32 = 0xfff8;

const C_NUMBER: u32 = 0;

// The least c: 0, or 1 for a divisor.
const FROM_0: u32 = 0;

const DIVISOR: u32 = 1;

// A row for each opcode: the bits that must not be set, and the least c.
const USES: [[u32; 2]; OPCODES] = [
    [A_UNUSED + B_UNUSED + C_UNUSED, FROM_0], // halt
    [A_REGISTER + B_UNUSED + C_NUMBER, FROM_0], // constant
    [A_REGISTER + B_REGISTER + C_UNUSED, FROM_0], // copy
    [A_REGISTER + B_REGISTER + C_REGISTER, FROM_0], // add
    [A_REGISTER + B_REGISTER + C_REGISTER, FROM_0], // subtract
    [A_REGISTER + B_REGISTER + C_REGISTER, FROM_0], // multiply
    [A_REGISTER + B_REGISTER + C_NUMBER, DIVISOR], // divide
    [A_REGISTER + B_REGISTER + C_NUMBER, FROM_0], // move
    [A_REGISTER + B_REGISTER + C_NUMBER, FROM_0], // load
    [A_REGISTER + B_REGISTER + C_NUMBER, FROM_0], // store
    [A_UNUSED + B_UNUSED + C_NUMBER, FROM_0], // jump
    [A_REGISTER + B_UNUSED + C_NUMBER, FROM_0], // if equal
    [A_REGISTER + B_REGISTER + C_NUMBER, FROM_0], // if less
];

// The rows, made once by a check or a run and lent down: a constant array is laid out anew wherever it is named.
pub fn opcode_rows() -> [[u32; 2]; OPCODES]
    ensures { result ≡ opcode_rows }
{
    USES
}

// Q7 by the word and the row of its opcode alone, whatever the rows are; an opcode that has no row is refused.
fn well_formed(rows: &[[u32; 2]; OPCODES], w: u32) -> bool
    ensures { result ≡ formed_by_words rows.now w }
{
    let op = (w / 16777216) as usize;
    if OPCODES <= op {
        return false;
    }
    let set = w & rows[op][0];
    if set != 0 {
        return false;
    }
    let least = rows[op][1];
    least <= w % 65536
}

// Q9 of a word whose opcode is 10, 11 or 12.
pub fn targets_exist(w: u32, b: u32, count: u32) -> bool
    requires { (b < 4294967295) × (9 < opcode_of w) × (well_formed w ≡ true) }
    ensures { result ≡ targets_exist count b (end_of w) }
{
    let op = w / 16777216;
    let c = w % 65536;
    if op == JUMP {
        return c < count;
    }
    if count <= b + 1 {
        return false;
    }
    if op == IF_EQUAL {
        return c % 256 < count;
    }
    c < count
}

// The block of the taken edge, 0 for a halt, of a word that is well formed and ends a block.
pub fn target(w: u32) -> u32
    ensures { well_formed w ≡ true → (0 < opcode_of w → 9 < opcode_of w) → result ≡ target_of (end_of w) }
{
    let c = w % 65536;
    if w / 16777216 == IF_EQUAL {
        return c % 256;
    }
    c
}

// The first no of Q7, Q8 and Q9 at an instruction of block b; last: it is the block's last.
pub fn form(
    rows: &[[u32; 2]; OPCODES],
    w: u32,
    last: bool,
    b: u32,
    count: u32,
) -> Result<(), Question>
    requires { (rows.now ≡ opcode_rows) × (b < 4294967295) }
    ensures { result ≡ form_no (decode w) last b count }
{
    if !well_formed(rows, w) {
        return Err(Question::Instruction);
    }
    let op = w / 16777216;
    if op == HALT {
        if last {
            return Ok(());
        }
        return Err(Question::BlockEnd);
    }
    if op < JUMP {
        if last {
            return Err(Question::BlockEnd);
        }
        return Ok(());
    }
    if !last {
        return Err(Question::BlockEnd);
    }
    if !targets_exist(w, b, count) {
        return Err(Question::Target);
    }
    Ok(())
}
