// The line protocol: a line is read into pools of words, of the places where its parts end and of long numbers. Byte by byte where
// it must be, a whole number at a time where it can be; however the input is cut into pieces, the line is read the same.
#![tactic(auto)]

ghost use Rattle.std.specs.Prelude.{◌≡◌, ◌-◌, ◌<◌, ◌≤◌, true, length, nat_lt, IfSome};
ghost use Rattle.grammar.specs.Grammar.{pool, row_length, word_end};
ghost use Rattle.grammar.specs.Phase.{is_over};
ghost use Rattle.reader.specs.declared.Pools.{Pools};
ghost use Rattle.reader.specs.Reader.{reader, fresh_line, bound_of, reads, at_end, Fine};
ghost use Rattle.protocol.specs.Ahead.{Goes, gone_to, in_words, Here, ended};

pub use grammar::{Form, LONGS_MOST, PARTS_MOST, POOL, Phase};
use numeral::Found;
pub use reader::{Line, Pools};

// A line of which nothing is read yet.
pub fn fresh() -> Line
    ensures { (result ≡ fresh_line) × Fine result }
{
    Line {
        phase: Phase::Empty,
        at: 0,
        stop: 0,
        value: 0,
        form: Form::Check,
        part: 0,
        left: 0,
        used: 0,
        marked: 0,
        stored: 0,
    }
}

// ---- ahead: words and numbers in one piece

// A line, and the place of the bytes up to which it was read.
#[derive(Clone, Copy)]
struct Ahead {
    line: Line,
    at: usize,
}

// Whether more than one word of a part comes next.
#[tactic(auto, unfolding(crate::specs::Ahead::in_words))]
fn in_words(l: Line) -> bool
    ensures { result ≡ in_words l }
{
    l.phase == Phase::Gap && 1 < l.left
}

// Whether a number that was found in one piece may be taken where the line stands.
fn fits(l: Line, value: u64) -> bool
    requires { l.used ≤ pool }
    ensures { result ≡ nat_lt value (bound_of l) }
{
    l.largest().is_some_and(|most| value <= most)
}

// A number in one piece, and the blank that ends it.
fn take_ahead(l: Line, found: Found, pools: &mut Pools) -> Line
    requires { (l.part < row_length) × (found.value < word_end) × (0 < found.count) }
    ensures { reader result pools.new ≡ ended (reader l pools.old) found.value (found.count - 1) }
{
    let count = found.count as u64;
    let last = l.at.wrapping_add(count - 1);
    let t = reader::take(
        Line {
            phase: Phase::Digits,
            value: found.value,
            at: last,
            ..l
        },
        pools,
    );
    Line {
        at: l.at.wrapping_add(count),
        ..t
    }
}

impl Ahead {
    // The line between words at a further place of the bytes.
    fn gone(self, at: usize, used: usize, left: usize) -> Ahead
        requires { self.at ≤ at }
        ensures { (result.line ≡ gone_to self.line (at - self.at) used left) × (result.at ≡ at) }
    {
        let l = self.line;
        let past = l.at.wrapping_add((at - self.at) as u64);
        Ahead {
            line: Line {
                phase: Phase::Gap,
                value: 0,
                at: past,
                used,
                left,
                ..l
            },
            at,
        }
    }

    // The words of a part but its last, as far as they are whole in the bytes.
    fn part_words(self, bytes: &[u8], pools: &mut Pools) -> Ahead
        requires { Fine self.line × (in_words self.line ≡ true) × (self.at ≤ length bytes.now) }
        ensures { Goes bytes.now (reader self.line pools.old) (reader result.line pools.new) self.at result.at }
    {
        let mut at = self.at;
        let mut used = self.line.used;
        let mut left = self.line.left;
        // Each turn moves by the length of the number that it found.
        while 1 < left && used < POOL {
            let Some(found) = numeral::token(&bytes[at..]) else {
                break;
            };
            pools.words[used] = found.value as u32;
            used += 1;
            left -= 1;
            at += found.count;
        }
        self.gone(at, used, left)
    }

    // The words of a part, where the line stands before some.
    fn words_ahead(self, bytes: &[u8], pools: &mut Pools) -> Ahead
        requires { Fine self.line × (self.at ≤ length bytes.now) }
        ensures { Goes bytes.now (reader self.line pools.old) (reader result.line pools.new) self.at result.at }
    {
        if in_words(self.line) {
            self.part_words(bytes, pools)
        } else {
            self
        }
    }

    // The number in one piece that may be taken where the line stands.
    fn number_here(self, bytes: &[u8]) -> Option<Found>
        requires { (self.line.used ≤ pool) × (self.at ≤ length bytes.now) }
        ensures { IfSome result (λ found. Here bytes.now self.at self.line found.count found.value) }
    {
        if self.line.phase != Phase::Gap {
            return None;
        }
        let found = numeral::token(&bytes[self.at..])?;
        if fits(self.line, found.value) {
            Some(found)
        } else {
            None
        }
    }

    // All bytes that are left of a line that is a comment or malformed: they change nothing but the position.
    fn rest(self, bytes: &[u8]) -> Ahead
        requires { Fine self.line × (is_over self.line.phase ≡ true) × (self.at < length bytes.now) }
        ensures { ((p : Pools) → Goes bytes.now (reader self.line p) (reader result.line p) self.at result.at) × (self.at < result.at) }
    {
        let skipped = bytes.len() - self.at;
        let past = self.line.at.wrapping_add(skipped as u64);
        Ahead {
            line: Line {
                at: past,
                ..self.line
            },
            at: bytes.len(),
        }
    }

    // One byte.
    fn byte_ahead(self, bytes: &[u8], pools: &mut Pools) -> Ahead
        requires { Fine self.line × (self.at < length bytes.now) }
        ensures { Goes bytes.now (reader self.line pools.old) (reader result.line pools.new) self.at result.at × (self.at < result.at) }
    {
        Ahead {
            line: reader::next(self.line, bytes[self.at], pools),
            at: self.at + 1,
        }
    }

    // The rest of a line that is over, one number in one piece where there is one that fits, else one byte.
    fn some(self, bytes: &[u8], pools: &mut Pools) -> Ahead
        requires { Fine self.line × (self.at < length bytes.now) }
        ensures { Goes bytes.now (reader self.line pools.old) (reader result.line pools.new) self.at result.at × (self.at < result.at) }
    {
        if self.line.phase.is_over() {
            return self.rest(bytes);
        }
        match self.number_here(bytes) {
            Some(found) => Ahead {
                line: take_ahead(self.line, found, pools),
                at: self.at + found.count,
            },
            None => self.byte_ahead(bytes, pools),
        }
    }

    // As far as one turn goes: the words of a part, and then a number or a byte.
    fn turn(self, bytes: &[u8], pools: &mut Pools) -> Ahead
        requires { Fine self.line × (self.at < length bytes.now) }
        ensures { Goes bytes.now (reader self.line pools.old) (reader result.line pools.new) self.at result.at × (self.at < result.at) }
    {
        let words = self.words_ahead(bytes, pools);
        if words.at < bytes.len() {
            words.some(bytes, pools)
        } else {
            words
        }
    }
}

// The line after more of its bytes, none of which ends it.
pub fn piece(bytes: &[u8], pools: &mut Pools, l: Line) -> Line
    requires { Fine l }
    ensures { (reader result pools.new ≡ reads (reader l pools.old) bytes.now) × Fine result }
{
    let mut ahead = Ahead { line: l, at: 0 };
    // Each turn moves by as much as it could take.
    while ahead.at < bytes.len() {
        ahead = ahead.turn(bytes, pools);
    }
    ahead.line
}

// ---- the line's end

// The line at its end: empty, a comment, malformed, or in the gap after the last number of a whole request.
pub fn end(l: Line, pools: &mut Pools) -> Line
    requires { Fine l }
    ensures { reader result pools.new ≡ at_end (reader l pools.old) }
{
    let m = reader::act(l, b' ', pools);
    m.settled()
}
