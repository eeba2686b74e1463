// Words of tables and code, made of their parts. A row of a type table or block table is nine words: a field count or a block's length,
// then the type word of each field or register, which is Any where nothing is said.
use model::limit;

// ---- type words: mark of a locked field in bit 31, kind in bits 30 to 24, record type in 23 to 16, dependency in 15 to 8

// Any: every word.
pub const ANY: u32 = 0;

// Ref: the start of a record of this type.
pub fn reference(record_type: u8) -> u32 {
    1 << 24 | u32::from(record_type) << 16
}

// Tagged: 0, or the start of a record of the type that the tag tells of; the tag is in a field or register, or a constant.
pub fn tagged(dependency: u8) -> u32 {
    3 << 24 | u32::from(dependency) << 8
}

// The same type, of a field that no routine may write.
pub fn locked(word: u32) -> u32 {
    word | 1 << 31
}

// The dependency that is a constant, 0 to 247.
pub fn number(constant: u8) -> u8 {
    constant % 248 + 8
}

// ---- rows

fn put(table: &mut [u32], at: usize, word: u32) {
    if let Some(place) = table.get_mut(at) {
        *place = word;
    }
}

// The row's first word.
pub fn row(table: &mut [u32], number: u8, count: u32) {
    put(table, usize::from(number) * limit::ROW_WORDS, count);
}

// The type word of a field or register.
pub fn typed(table: &mut [u32], number: u8, slot: u8, word: u32) {
    put(
        table,
        usize::from(number) * limit::ROW_WORDS + 1 + usize::from(slot),
        word,
    );
}

// ---- instructions: opcode in bits 31 to 24, a in 23 to 20, b in 19 to 16, c in 15 to 0

#[derive(Clone, Copy)]
enum Opcode {
    Constant = 1,
    Subtract = 4,
    Multiply = 5,
    Divide = 6,
    Load = 8,
    Store = 9,
    Jump = 10,
    IfEqual = 11,
}

fn instruction(opcode: Opcode, a: u8, b: u8, c: u16) -> u32 {
    u32::from(opcode as u8) << 24 | u32::from(a % 16) << 20 | u32::from(b % 16) << 16 | u32::from(c)
}

pub const HALT: u32 = 0;

// ra := c
pub fn constant(a: u8, c: u16) -> u32 {
    instruction(Opcode::Constant, a, 0, c)
}

// ra := rb - rc
pub fn subtract(a: u8, b: u8, c: u8) -> u32 {
    instruction(Opcode::Subtract, a, b, u16::from(c))
}

// ra := rb * rc
pub fn multiply(a: u8, b: u8, c: u8) -> u32 {
    instruction(Opcode::Multiply, a, b, u16::from(c))
}

// ra := rb / c
pub fn divide(a: u8, b: u8, c: u16) -> u32 {
    instruction(Opcode::Divide, a, b, c)
}

// ra := the word at rb + c
pub fn load(a: u8, b: u8, c: u16) -> u32 {
    instruction(Opcode::Load, a, b, c)
}

// The word at rb + c := ra
pub fn store(a: u8, b: u8, c: u16) -> u32 {
    instruction(Opcode::Store, a, b, c)
}

pub fn jump(block: u16) -> u32 {
    instruction(Opcode::Jump, 0, 0, block)
}

// If ra is the constant, the block, else the next one.
pub fn if_equal(a: u8, constant: u8, block: u8) -> u32 {
    instruction(
        Opcode::IfEqual,
        a,
        0,
        u16::from(constant) << 8 | u16::from(block),
    )
}
