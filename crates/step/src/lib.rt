// One instruction of a run: its questions, then its effect on registers and memory, or the exit that a block's last takes.
#![tactic(auto)]

ghost use Rattle.std.specs.Prelude.{◌≡◌, List, ℕ, suc, ◌<◌, ◌≤◌, length, set, Ok, IfOk, MatchResult};
ghost use Rattle.model.specs.Question.{pick};
ghost use Rattle.model.specs.declared.questions.Question.TheVariants.{Address as q18};
ghost use Rattle.model.specs.Word.{sum, signed, moved};
ghost use Rattle.model.specs.Table.{Routine};
ghost use Rattle.model.specs.Machine.{decode, reg, perform};
ghost use Rattle.instruction.specs.Rows.{opcode_rows};
ghost use Rattle.step.specs.Answer.{at, value_of, register_of, putting, does, handed, step_of, exit_of};
ghost use Rattle.step.specs.declared.Exit.TheVariants.{To, Following};

use instruction::{
    ADD, CONSTANT, DIVIDE, HALT, IF_EQUAL, JUMP, LOAD, MOVE, MULTIPLY, OPCODES, STORE,
};
use model::Question;
use model::limit::REGISTERS;

// How a block is left: to a block, to the one after it, or by a halt.
#[derive(Clone, Copy)]
pub enum Exit {
    To(u32),
    Following,
    Halted,
}

// What an instruction does, known before memory is looked at: v goes into register a; the word at an address does; or v, which is
// register a's own word, goes to an address. So every way puts a word into register a, and no other register is copied.
#[derive(Clone, Copy)]
pub enum Effect {
    Put { a: usize, v: u32 },
    Read { a: usize, at: usize },
    Write { a: usize, at: usize, v: u32 },
}

impl Effect {
    // The one register that can change.
    fn register(&self) -> usize
        ensures { result ≡ register_of self.now }
    {
        match *self {
            Effect::Put { a, .. } | Effect::Read { a, .. } | Effect::Write { a, .. } => a,
        }
    }
}

// x moved by c, which is read as a signed 16-bit number.
fn moved_by(x: u32, c: u32) -> u32
    requires { c < 65536 }
    ensures { result ≡ moved x (signed c) }
{
    word::moved(x, word::signed(c))
}

// The address of a load or store. Here c is not signed.
fn address(base: u32, c: u32) -> usize
    ensures { result ≡ sum base c }
{
    word::sum(base, c) as usize
}

// What opcodes 1 to 5 and 7 put into their register: all are computed and one is chosen, since a branch that is foreseen wrongly costs more.
// Of a `match` or a chain of `else if` the compiler makes branches, and of one `if` for each choice none.
fn value(op: u32, x: u32, y: u32, c: u32) -> u32
    requires { c < 65536 }
    ensures { result ≡ value_of op x y c }
{
    let sum = word::sum(x, y);
    let difference = word::difference(x, y);
    let pair = if op == ADD { sum } else { difference };
    let product = word::product(x, y);
    let three = if op == MULTIPLY { product } else { pair };
    let moved = moved_by(x, c);
    let more = if op == MOVE { moved } else { three };
    let plain = if op == CONSTANT { c } else { x };
    if op < ADD { plain } else { more }
}

// The effect of an instruction that is not its block's last. It is not asked Q9, so it is of no account which block it is in.
pub fn effect_of(
    rows: &[[u32; 2]; OPCODES],
    registers: &[u32; 8],
    w: u32,
) -> Result<Effect, Question>
    requires { rows.now ≡ opcode_rows }
    ensures does { (P : Routine) (b j f n : ℕ) (m : List ℕ) → (suc j ≡ P.long b → ⊥)
        → does result (at b j registers.now m f n) ≡ perform P (decode w) (at b j registers.now m f n) }
    ensures place { IfOk result (λ e. register_of e < 8) }
{
    instruction::form(rows, w, false, 0, 0)?;
    let a = word::a(w);
    let c = word::c(w);
    let x = registers[word::b(w)];
    // The register that c numbers, for the opcodes whose c is one: read before they are told apart, which takes no branch.
    let y = registers[c as usize % REGISTERS];
    let at = address(x, c);
    match word::opcode(w) {
        LOAD => Ok(Effect::Read { a, at }),
        STORE => {
            let v = registers[a];
            Ok(Effect::Write { a, at, v })
        }
        DIVIDE => {
            let v = word::quotient(x, c);
            Ok(Effect::Put { a, v })
        }
        op => {
            let v = value(op, x, y, c);
            Ok(Effect::Put { a, v })
        }
    }
}

// Q18.
fn addressed(memory: &[u32], at: usize) -> Result<(), Question>
    ensures { MatchResult result (λ _. at < length memory.now) (λ no. (no ≡ q18) × (length memory.now ≤ at)) }
{
    if at < memory.len() {
        Ok(())
    } else {
        Err(Question::Address)
    }
}

// Q18, then memory read or written: the word that goes into the effect's register.
fn reached(memory: &mut [u32], e: Effect) -> Result<u32, Question>
    ensures { (b j f n : ℕ) (l : List ℕ)
        → step_of result (at b j (putting e result l) memory.new f n) ≡ does (Ok e) (at b j l memory.old f n) }
{
    match e {
        Effect::Put { v, .. } => Ok(v),
        Effect::Read { at, .. } => {
            addressed(memory, at)?;
            Ok(memory[at])
        }
        Effect::Write { at, v, .. } => {
            addressed(memory, at)?;
            memory[at] = v;
            Ok(v)
        }
    }
}

// The registers after an instruction, and the word in the one that can differ: where `advance` takes that from the array, the array is
// copied at every instruction, and a run takes up to 2.7 times as long.
#[derive(Clone, Copy)]
pub struct Stepped {
    pub word: u32,
    pub registers: [u32; 8],
}

// An effect carried out: Q18, then registers and memory. Only the effect's register can differ from what was handed in.
pub fn carry_out(
    mut registers: [u32; 8],
    memory: &mut [u32],
    e: Effect,
) -> Result<Stepped, Question>
    requires { register_of e < 8 }
    ensures does { (b j f n : ℕ)
        → step_of result (at b j (handed result registers) memory.new f n) ≡ does (Ok e) (at b j registers memory.old f n) }
    ensures others { IfOk result (λ s. s.registers ≡ set registers (register_of e) s.word) }
{
    let word = reached(memory, e)?;
    registers[e.register()] = word;
    Ok(Stepped { word, registers })
}

// One instruction, over lent registers: of what is handed back, the word of the one register that can differ is taken over, so that the
// array is not copied.
pub fn advance(
    rows: &[[u32; 2]; OPCODES],
    registers: &mut [u32; 8],
    memory: &mut [u32],
    w: u32,
) -> Result<(), Question>
    requires { rows.now ≡ opcode_rows }
    ensures { (P : Routine) (b j f n : ℕ) → (suc j ≡ P.long b → ⊥)
        → step_of result (at b j registers.new memory.new f n) ≡ perform P (decode w) (at b j registers.old memory.old f n) }
{
    let e = effect_of(rows, registers, w)?;
    let next = carry_out(*registers, memory, e)?;
    registers[e.register()] = next.word;
    Ok(())
}

// Where a branch leads, taken or not.
fn fork(taken: bool, t: u32) -> Exit
    ensures { result ≡ pick taken (To t) Following }
{
    if taken { Exit::To(t) } else { Exit::Following }
}

// Which exit the block's last instruction takes. It leaves registers and memory as they are.
pub fn leave(
    rows: &[[u32; 2]; OPCODES],
    registers: &[u32; 8],
    w: u32,
    b: u32,
    count: u32,
) -> Result<Exit, Question>
    requires { (rows.now ≡ opcode_rows) × (b < 4294967295) }
    ensures { (P : Routine) (j f n : ℕ) (m : List ℕ) → P.count ≡ count → suc j ≡ P.long b
        → exit_of result (at b j registers.now m f n) ≡ perform P (decode w) (at b j registers.now m f n) }
{
    instruction::form(rows, w, true, b, count)?;
    let c = word::c(w);
    match word::opcode(w) {
        HALT => Ok(Exit::Halted),
        JUMP => Ok(Exit::To(c)),
        IF_EQUAL => Ok(fork(registers[word::a(w)] == c / 256, c % 256)),
        // If less: no other opcode is left. Comparisons are unsigned.
        _ => Ok(fork(registers[word::a(w)] < registers[word::b(w)], c)),
    }
}
