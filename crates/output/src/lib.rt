// What the program answers, put into a buffer after what the buffer holds already. Nothing is written out here.
#![tactic(auto)]

ghost use Rattle.std.specs.Prelude.{◌≡◌, [], ◌∷◌, ◌++◌, ◌+◌, ◌*◌, ◌≤◌, length};
ghost use Rattle.protocol.specs.Text.{decimal, fields, verdict_text, check_text, run_text, malformed_text};
ghost use Rattle.protocol.specs.Text.{field as fieldText};
ghost use Rattle.output.specs.Room.{buffer};
ghost use Rattle.output.specs.Digits.{last_digits};

use model::{OfferedAnswer, RunAnswer, Verdict};
use std::marker::Model;

// The bytes of a buffer: an answer has at most 135,168 words of ten digits, each after a blank, and some hundred bytes more.
pub const BUFFER: usize = 2097152;

// A text that grows at its end, in memory of a fixed size. It is passed by reference alone: a copy would not fit on the stack beside it.
#[derive(Drop)]
pub struct Buffer {
    bytes: [u8; BUFFER],
    held: usize,
}

// Clauses see the bytes that are held.
impl Model for Buffer {
    ghost use Rattle.std.specs.Prelude.{ℕ, ◌≤◌, List, take};
    ghost use Rattle.output.specs.Room.{buffer};

    ghost Value = { List ℕ };

    ghost view = { λ b. take b.held b.bytes };

    ghost invariant = { λ b. b.held ≤ buffer };
}

impl Buffer {
    // Inlined, so that the bytes are made where the caller has them and are not copied there.
    #[inline(always)]
    pub fn new() -> Self
        ensures { result ≡ [] }
    {
        Buffer {
            bytes: [0; BUFFER],
            held: 0,
        }
    }

    // ---- what is held

    pub fn len(&self) -> usize
        ensures { result ≡ length self.now }
    {
        self.held
    }

    // How many bytes can still be put.
    pub fn room(&self) -> usize
        ensures { length self.now + result ≡ buffer }
    {
        BUFFER - self.held
    }

    pub fn held(&self) -> &[u8]
        ensures { result.now ≡ self.now }
    {
        &self.bytes[..self.held]
    }

    pub fn clear(&mut self)
        ensures { self.new ≡ [] }
    {
        self.held = 0;
    }

    // ---- bytes

    pub fn put(&mut self, byte: u8)
        requires { length self.old + 1 ≤ buffer }
        ensures { self.new ≡ self.old ++ byte ∷ [] }
    {
        let at = self.held;
        self.bytes[at] = byte;
        self.held = at + 1;
    }

    pub fn text(&mut self, bytes: &[u8])
        requires { length self.old + length bytes.now ≤ buffer }
        ensures { self.new ≡ self.old ++ bytes.now }
    {
        let start = self.held;
        let end = start + bytes.len();
        self.bytes[start..end].copy_from_slice(bytes);
        self.held = end;
    }

    pub fn line_end(&mut self)
        requires { length self.old + 1 ≤ buffer }
        ensures { self.new ≡ self.old ++ 10 ∷ [] }
    {
        self.put(b'\n');
    }

    // ---- numbers

    // A number where there is room for just its digits.
    fn digits(&mut self, value: u64)
        requires { length self.old + length (decimal value) ≤ buffer }
        ensures { self.new ≡ self.old ++ decimal value }
    {
        let start = self.held;
        let end = start + places(value);
        fill(&mut self.bytes[start..end], value);
        self.held = end;
    }

    pub fn number(&mut self, value: u64)
        requires { length self.old + 20 ≤ buffer }
        ensures appended { self.new ≡ self.old ++ decimal value }
        ensures upper_bound { length self.new ≤ length self.old + 20 }
    {
        self.digits(value);
    }

    // A blank and a number where there is room for just these.
    fn digits_after_blank(&mut self, value: u64)
        requires { length self.old + length (fieldText value) ≤ buffer }
        ensures { self.new ≡ self.old ++ fieldText value }
    {
        self.put(b' ');
        self.digits(value);
    }

    // A blank and a number.
    pub fn field(&mut self, value: u64)
        requires { length self.old + 21 ≤ buffer }
        ensures appended { self.new ≡ self.old ++ fieldText value }
        ensures upper_bound { length self.new ≤ length self.old + 21 }
    {
        self.digits_after_blank(value);
    }

    // A blank and a word, which has no more than ten digits.
    fn word(&mut self, value: u32)
        requires { length self.old + 11 ≤ buffer }
        ensures appended { self.new ≡ self.old ++ fieldText value }
        ensures upper_bound { length self.new ≤ length self.old + 11 }
    {
        self.digits_after_blank(u64::from(value));
    }

    // A blank before each word of a list.
    pub fn words(&mut self, list: &[u32])
        requires { length self.old + 11 * length list.now ≤ buffer }
        ensures appended { self.new ≡ self.old ++ fields list.now }
        ensures upper_bound { length self.new ≤ length self.old + 11 * length list.now }
    {
        for value in list {
            self.word(*value);
        }
    }

    // ---- answers

    // NUMBER A B
    pub fn verdict(&mut self, v: Verdict)
        requires { length self.old + 42 ≤ buffer }
        ensures appended { self.new ≡ self.old ++ verdict_text v }
        ensures upper_bound { length self.new ≤ length self.old + 42 }
    {
        self.number(u64::from(v.number));
        self.word(v.first);
        self.word(v.second);
    }

    // NUMBER A B ASKED P0 P1 P2
    pub fn check_answer(&mut self, a: OfferedAnswer)
        requires { length self.old + 86 ≤ buffer }
        ensures appended { self.new ≡ self.old ++ check_text a }
        ensures upper_bound { length self.new ≤ length self.old + 86 }
    {
        self.number(u64::from(a.number));
        self.word(a.first);
        self.word(a.second);
        self.word(a.asked);
        self.words(&a.choice);
    }

    // NUMBER BLOCK INDEX FINISHED R0 .. R7 COUNT WORDS..
    pub fn run_answer(&mut self, r: RunAnswer, memory: &[u32])
        requires { length self.old + 172 + 11 * length memory.now ≤ buffer }
        ensures appended { self.new ≡ self.old ++ run_text r memory.now }
        ensures upper_bound { length self.new ≤ length self.old + 172 + 11 * length memory.now }
    {
        self.number(u64::from(r.number));
        self.word(r.block);
        self.word(r.index);
        self.field(r.finished);
        self.words(&r.registers);
        self.field(memory.len() as u64);
        self.words(memory);
    }

    // malformed PLACE
    pub fn malformed(&mut self, place: u64)
        requires { length self.old + 30 ≤ buffer }
        ensures appended { self.new ≡ self.old ++ malformed_text place }
        ensures upper_bound { length self.new ≤ length self.old + 30 }
    {
        self.text(b"malformed");
        self.field(place);
    }
}

// How many digits a number has.
fn places(value: u64) -> usize
    ensures digits { decimal value ≡ last_digits result value }
    ensures count { length (decimal value) ≡ result }
{
    value.max(1).ilog10() as usize + 1
}

// The last digits of a number, as many as there are places for, from the last to the first.
fn fill(places: &mut [u8], value: u64)
    ensures { places.new ≡ last_digits (length places.old) value }
{
    let mut rest = value;
    for at in (0..places.len()).rev() {
        places[at] = b'0' + (rest % 10) as u8;
        rest /= 10;
    }
}
