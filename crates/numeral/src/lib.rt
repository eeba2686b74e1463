// Numbers: the digits, what a digit counts by and leads to, and a number in one piece with the blank that ends it.
#![tactic(auto)]

ghost use Rattle.std.specs.Prelude.{◌≡◌, ◌+◌, ◌*◌, ◌<◌, ◌≤◌, None, Some, length, nat_lt};
ghost use Rattle.model.specs.Question.{pick};
ghost use Rattle.numeral.specs.Digit.{base, digit, digit_to};
ghost use Rattle.numeral.specs.Scan.{scan, scan_hex, scan_number, closed};

use grammar::{Phase, WORD_MOST};

// ---- digits

// The hexadecimal digit that a byte is.
#[tactic(auto, unfolding(crate::specs::Digit::digit, crate::specs::Digit::numeral))]
fn numeral(byte: u8) -> Option<u64>
    ensures { result ≡ digit 16 byte }
{
    match byte {
        b'0'..=b'9' => Some((byte - b'0') as u64),
        b'A'..=b'F' => Some((byte - b'A') as u64 + 10),
        b'a'..=b'f' => Some((byte - b'a') as u64 + 10),
        _ => None,
    }
}

// The digit that a byte is in a radix.
#[tactic(auto, unfolding(crate::specs::Digit::digit))]
pub fn digit(byte: u8, radix: u64) -> Option<u64>
    requires { radix ≤ 16 }
    ensures { result ≡ digit radix byte }
{
    numeral(byte).filter(|d| *d < radix)
}

// What a digit counts by in a phase.
#[tactic(auto, unfolding(crate::specs::Digit::base))]
pub fn base(phase: Phase) -> u64
    ensures { result ≡ base phase }
{
    match phase {
        Phase::Empty | Phase::Name | Phase::Gap | Phase::Zero | Phase::Digits => 10,
        _ => 16,
    }
}

// The phase after a digit.
#[tactic(auto, unfolding(crate::specs::Digit::digit_to))]
pub fn digit_to(phase: Phase, d: u64) -> Phase
    ensures { result ≡ digit_to phase d }
{
    match phase {
        Phase::Gap if d == 0 => Phase::Zero,
        Phase::Empty | Phase::Name | Phase::Gap | Phase::Zero | Phase::Digits => Phase::Digits,
        _ => Phase::Hex,
    }
}

// A value with one more digit, where that is at most the most.
pub fn grown(most: u64, value: u64, base: u64, d: u64) -> Option<u64>
    ensures { result ≡ pick (nat_lt most (value * base + d)) None (Some (value * base + d)) }
{
    value
        .checked_mul(base)?
        .checked_add(d)
        .filter(|grown| *grown <= most)
}

// ---- a number in one piece

// A number and the blank after it: how many bytes, and the value.
#[derive(Clone, Copy)]
pub struct Found {
    pub count: usize,
    pub value: u64,
}

// A number's digits come to a value, and before the byte after them are so many bytes: it is found if that is a blank and there was a digit,
// where so many of the bytes are no digits.
#[tactic(auto, unfolding(crate::specs::Scan::closed))]
fn closed(byte: u8, before: usize, read: usize, value: u64) -> Option<Found>
    requires { read < 18446744073709551615 }
    ensures { result ≡ closed before value read byte }
{
    if read == before || !grammar::is_blank(byte) {
        return None;
    }
    Some(Found {
        count: read + 1,
        value,
    })
}

// The digits of a number and the blank that ends them, after so many bytes that are no digits.
fn digits(bytes: &[u8], before: usize, radix: u64) -> Option<Found>
    requires { (radix ≤ 16) × (before + length bytes.now < 18446744073709551616) }
    ensures { result ≡ scan radix before 0 before bytes.now }
{
    let mut value = 0u64;
    for (i, &byte) in bytes.iter().enumerate() {
        let Some(d) = digit(byte, radix) else {
            return closed(byte, before, before + i, value);
        };
        value = value * radix + d;
        if WORD_MOST < value {
            return None;
        }
    }
    None
}

// A hexadecimal number at the beginning.
#[tactic(auto, unfolding(crate::specs::Scan::scan_hex))]
fn hex(bytes: &[u8]) -> Option<Found>
    ensures { result ≡ scan_hex bytes.now }
{
    match bytes {
        [b'0', b'x', rest @ ..] => digits(rest, 2, 16),
        _ => None,
    }
}

// A number at the beginning. Most are decimal, and what is hexadecimal stops being decimal at its second byte: so decimal is tried first.
#[tactic(auto, unfolding(crate::specs::Scan::scan_number))]
pub fn token(bytes: &[u8]) -> Option<Found>
    ensures { result ≡ scan_number bytes.now }
{
    digits(bytes, 0, 10).or_else(|| hex(bytes))
}
