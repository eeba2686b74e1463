// 32-bit words: sums, differences, products and moves modulo 2^32, the signed offset, and the parts of type words and instructions.
#![tactic(auto)]

ghost use Rattle.std.specs.Prelude.{◌≡◌, ◌/◌, ◌<◌};
ghost use Rattle.model.specs.Word.{kind_of, locked_of, record_of, first_of, second_of, opcode_of, a_of, b_of, c_of, sum, difference, product, signed, moved, with_kind};

// ---- sums, differences and products modulo 2^32: two of the library's operations, each under its own name, and a helper

pub fn sum(x: u32, y: u32) -> u32
    ensures { result ≡ sum x y }
{
    x.wrapping_add(y)
}

pub fn difference(x: u32, y: u32) -> u32
    ensures { result ≡ difference x y }
{
    x.wrapping_sub(y)
}

// The product of two words fits twice their width, and its low half is kept.
#[tactic(auto, unfolding(model::specs::Word::product))]
pub fn product(x: u32, y: u32) -> u32
    ensures { result ≡ product x y }
{
    let whole = (x as u64) * (y as u64);
    (whole % 4294967296) as u32
}

// The remainder is dropped.
pub fn quotient(x: u32, c: u32) -> u32
    requires { 0 < c }
    ensures { result ≡ x / c }
{
    x / c
}

// ---- the signed offset

// The 16-bit number c read as signed. Going round by half of 2^16 and back takes no branch.
pub fn signed(c: u32) -> i32
    requires { c < 65536 }
    ensures { result ≡ signed c }
{
    let round = (c + 32768) % 65536;
    (round as i32) - 32768
}

// x moved by d. Adding 2^32 first makes every move one upwards, so that there is no branch.
pub fn moved(x: u32, d: i32) -> u32
    ensures { result ≡ moved x d }
{
    let up = ((d as i64) + 4294967296) as u64;
    let offset = (up % 4294967296) as u32;
    x.wrapping_add(offset)
}

// ---- parts of a type word

// Kinds of type words. From Tagged on they have a dependency, from Run on they are spans: a record type and two dependencies. They stay
// numbers: before Q3 and Q6 a word may have any of 128 kinds, and the contracts of all that reads kinds hold of all of these.
pub const ANY: u32 = 0;

pub const REF: u32 = 1;

pub const MAYBE: u32 = 2;

pub const TAGGED: u32 = 3;

pub const PRESENT: u32 = 4;

pub const SAME: u32 = 5;

pub const RUN: u32 = 6;

pub const FROM: u32 = 7;

pub const IN: u32 = 8;

// The weight of a kind in its type word.
const KIND: u32 = 16777216;

// The mark of a locked field, above the seven bits of the kind.
pub const LOCKED: u32 = 2147483648;

// Dependency bytes from here on are constants.
pub const CONSTANTS: u32 = 8;

pub fn kind(w: u32) -> u32
    ensures { (result ≡ kind_of w) × (result < 128) }
{
    w / KIND % 128
}

// Whether w has the mark.
pub fn locked(w: u32) -> bool
    ensures { result ≡ locked_of w }
{
    LOCKED <= w
}

// w with another kind, and no mark.
pub fn with_kind(kind: u32, w: u32) -> u32
    requires { kind < 128 }
    ensures { result ≡ with_kind kind w }
{
    kind * KIND + w % KIND
}

pub fn record_type(w: u32) -> u32
    ensures { (result ≡ record_of w) × (result < 256) }
{
    w / 65536 % 256
}

pub fn first_dependency(w: u32) -> u32
    ensures { (result ≡ first_of w) × (result < 256) }
{
    w / 256 % 256
}

pub fn second_dependency(w: u32) -> u32
    ensures { (result ≡ second_of w) × (result < 256) }
{
    w % 256
}

// ---- parts of an instruction

pub fn opcode(w: u32) -> u32
    ensures { (result ≡ opcode_of w) × (result < 256) }
{
    w / 16777216
}

// a and b number registers, so they are given as places of an array.
pub fn a(w: u32) -> usize
    ensures { (result ≡ a_of w) × (result < 16) }
{
    (w / 1048576 % 16) as usize
}

pub fn b(w: u32) -> usize
    ensures { (result ≡ b_of w) × (result < 16) }
{
    (w / 65536 % 16) as usize
}

pub fn c(w: u32) -> u32
    ensures { (result ≡ c_of w) × (result < 65536) }
{
    w % 65536
}
