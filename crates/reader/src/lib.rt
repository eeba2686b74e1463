// A line, read byte by byte into pools of words, of the places where its parts end and of long numbers.
#![tactic(auto)]

ghost use Rattle.std.specs.Prelude.{◌≡◌, ◌<◌, ◌≤◌, true};
ghost use Rattle.grammar.specs.Grammar.{pool, row_length, word_end, below};
ghost use Rattle.grammar.specs.Phase.{in_parts};
ghost use Rattle.reader.specs.Reader.{reader, placed, kind, bound_of, malformed, digit_read, number_read};
ghost use Rattle.reader.specs.Reader.{after, first_part, finished, word_taken, count_taken, long_taken, taken, name_read, first_read, blank_read};
ghost use Rattle.reader.specs.Reader.{act, step, settled, Fine};

use grammar::{Form, LONGS_MOST, PARTS_MOST, POOL, Part, Phase};

// Letters from this number on could not be followed by one more.
const LETTERS_END: u64 = 0x1000000000000;

#[derive(Clone, Copy)]
pub struct Line {
    pub phase: Phase,
    // the request, whose row is read; it stands beside the phase, since the gap that it leaves before a wider field is slow to copy
    pub form: Form,
    // bytes read, and the byte at which a malformed line stopped
    pub at: u64,
    pub stop: u64,
    // the number being read, or the letters of the name
    pub value: u64,
    // the part of the request's row that is being read, and the words of that part still to come: 0 before a count
    pub part: usize,
    pub left: usize,
    // words in the pool, ends of parts marked, long numbers stored
    pub used: usize,
    pub marked: usize,
    pub stored: usize,
}

// What lines are read into: the words of their tables, the places where the parts end, and long numbers. 540 KB, so it is lent and never moved.
#[derive(Drop)]
pub struct Pools {
    pub words: [u32; POOL],
    pub ends: [usize; PARTS_MOST],
    pub longs: [u64; LONGS_MOST],
}

impl Line {
    // Malformed at the byte being read.
    #[tactic(auto, unfolding(crate::specs::Reader::malformed))]
    pub fn malformed(self) -> Line
        ensures { result ≡ malformed self }
    {
        Line {
            phase: Phase::Malformed,
            stop: self.at,
            ..self
        }
    }

    // The part that is being read.
    fn kind(self) -> Part
        ensures { result ≡ kind self }
    {
        self.form.part_at(self.part)
    }

    // The largest number that may stand where the line stands.
    pub fn largest(self) -> Option<u64>
        requires { self.used ≤ pool }
        ensures { result ≡ below (bound_of self) }
    {
        grammar::largest(self.kind(), self.left, self.used)
    }

    // A request that still wants a number is malformed.
    #[tactic(auto, unfolding(crate::specs::Reader::settled))]
    pub fn settled(self) -> Line
        ensures { result ≡ settled self }
    {
        if self.phase == Phase::Gap && grammar::wants(self.kind(), self.left) {
            return self.malformed();
        }
        self
    }
}

// ---- numbers

// One more digit of the number being read.
#[tactic(auto, unfolding(crate::specs::Reader::digit_read))]
fn digit_read(l: Line, byte: u8) -> Line
    requires { l.used ≤ pool }
    ensures { result ≡ digit_read l byte }
{
    let by = numeral::base(l.phase);
    let Some(d) = numeral::digit(byte, by) else {
        return l.malformed();
    };
    let Some(most) = l.largest() else {
        return l.malformed();
    };
    let Some(value) = numeral::grown(most, l.value, by, d) else {
        return l.malformed();
    };
    Line {
        phase: numeral::digit_to(l.phase, d),
        value,
        ..l
    }
}

// A byte of a number: a digit, or the x after one 0.
#[tactic(auto, unfolding(crate::specs::Reader::number_read))]
fn number_read(l: Line, byte: u8) -> Line
    requires { l.used ≤ pool }
    ensures { result ≡ number_read l byte }
{
    if l.phase == Phase::Zero && byte == b'x' {
        return Line {
            phase: Phase::Prefix,
            value: 0,
            ..l
        };
    }
    digit_read(l, byte)
}

// ---- what is taken

// The line between numbers, in a part, with so much of everything.
fn placed(l: Line, part: usize, left: usize, used: usize, marked: usize, stored: usize) -> Line
    ensures { result ≡ placed l part left used marked stored }
{
    Line {
        phase: Phase::Gap,
        value: 0,
        part,
        left,
        used,
        marked,
        stored,
        ..l
    }
}

// The line at the beginning of the part after the one that is finished.
#[tactic(auto, unfolding(crate::specs::Reader::after))]
fn after(l: Line, used: usize, marked: usize, stored: usize) -> Line
    requires { l.part < row_length }
    ensures { result ≡ after l used marked stored }
{
    let part = l.part + 1;
    let kind = l.form.part_at(part);
    let left = grammar::given(kind);
    placed(l, part, left, used, marked, stored)
}

// Words of a part end at a place of the pool.
#[tactic(auto, unfolding(crate::specs::Reader::finished))]
fn finish(l: Line, used: usize, pools: &mut Pools) -> Line
    requires { l.part < row_length }
    ensures { reader result pools.new ≡ finished (reader l pools.old) used }
{
    let t = l.marked;
    if PARTS_MOST <= t {
        return l.malformed();
    }
    pools.ends[t] = used;
    after(l, used, t + 1, l.stored)
}

// A word of a part is at its end.
#[tactic(auto, unfolding(crate::specs::Reader::word_taken))]
fn take_word(l: Line, pools: &mut Pools) -> Line
    requires { (l.part < row_length) × (l.value < word_end) × (0 < l.left) }
    ensures { reader result pools.new ≡ word_taken (reader l pools.old) }
{
    let at = l.used;
    if POOL <= at {
        return l.malformed();
    }
    pools.words[at] = l.value as u32;
    if l.left < 2 {
        return finish(l, at + 1, pools);
    }
    placed(l, l.part, l.left - 1, at + 1, l.marked, l.stored)
}

// A table's count is at its end; a table of no words is finished at once.
#[tactic(auto, unfolding(crate::specs::Reader::count_taken))]
fn take_count(l: Line, pools: &mut Pools) -> Line
    requires { l.part < row_length }
    ensures { reader result pools.new ≡ count_taken (reader l pools.old) }
{
    let v = l.value;
    if v == 0 {
        return finish(l, l.used, pools);
    }
    placed(l, l.part, v as usize, l.used, l.marked, l.stored)
}

// A long number is at its end.
#[tactic(auto, unfolding(crate::specs::Reader::long_taken))]
fn take_long(l: Line, pools: &mut Pools) -> Line
    requires { l.part < row_length }
    ensures { reader result pools.new ≡ long_taken (reader l pools.old) }
{
    let k = l.stored;
    if LONGS_MOST <= k {
        return l.malformed();
    }
    pools.longs[k] = l.value;
    after(l, l.used, l.marked, k + 1)
}

// The number being read is at its end.
#[tactic(auto, unfolding(crate::specs::Reader::taken))]
pub fn take(l: Line, pools: &mut Pools) -> Line
    requires { (l.part < row_length) × (0 < l.left → l.value < word_end) }
    ensures { reader result pools.new ≡ taken (reader l pools.old) }
{
    if 0 < l.left {
        return take_word(l, pools);
    }
    match l.kind() {
        Part::Table => take_count(l, pools),
        _ => take_long(l, pools),
    }
}

// ---- the name

// The line at the beginning of a request's first part.
fn first_part(l: Line, form: Form) -> Line
    ensures { result ≡ first_part l form }
{
    let kind = form.part_at(0);
    let left = grammar::given(kind);
    Line {
        form,
        ..placed(l, 0, left, 0, 0, 0)
    }
}

// A letter of the name, or the blank that ends it.
#[tactic(auto, unfolding(crate::specs::Reader::name_read))]
fn name_read(l: Line, byte: u8) -> Line
    ensures { result ≡ name_read l byte }
{
    if grammar::is_blank(byte) {
        return match Form::named(l.value) {
            Some(form) => first_part(l, form),
            None => l.malformed(),
        };
    }
    if LETTERS_END <= l.value {
        return l.malformed();
    }
    let letters = l.value * 256 + byte as u64;
    if !grammar::name_begun(letters) {
        return l.malformed();
    }
    Line {
        phase: Phase::Name,
        value: letters,
        ..l
    }
}

// A byte before anything but blanks.
#[tactic(auto, unfolding(crate::specs::Reader::first_read))]
fn first_read(l: Line, byte: u8) -> Line
    ensures { result ≡ first_read l byte }
{
    if grammar::is_blank(byte) {
        l
    } else if byte == b'#' {
        Line {
            phase: Phase::Comment,
            value: 0,
            ..l
        }
    } else {
        name_read(l, byte)
    }
}

// ---- a byte

// A blank between numbers, or after one; 0x alone is none.
#[tactic(auto, unfolding(crate::specs::Reader::blank_read))]
fn blank_read(l: Line, pools: &mut Pools) -> Line
    requires { Fine l × (in_parts l.phase ≡ true) }
    ensures { reader result pools.new ≡ blank_read (reader l pools.old) }
{
    match l.phase {
        Phase::Gap => l,
        Phase::Prefix => l.malformed(),
        _ => take(l, pools),
    }
}

// A byte that is not the line's end, but for the position.
#[tactic(auto, unfolding(crate::specs::Reader::act))]
pub fn act(l: Line, byte: u8, pools: &mut Pools) -> Line
    requires { Fine l }
    ensures { reader result pools.new ≡ act (reader l pools.old) byte }
{
    match l.phase {
        Phase::Empty => first_read(l, byte),
        Phase::Name => name_read(l, byte),
        Phase::Comment | Phase::Malformed => l,
        _ if grammar::is_blank(byte) => blank_read(l, pools),
        _ => number_read(l, byte),
    }
}

// The line after one more byte that is not its end.
#[tactic(auto, unfolding(crate::specs::Reader::step))]
pub fn next(l: Line, byte: u8, pools: &mut Pools) -> Line
    requires { Fine l }
    ensures { reader result pools.new ≡ step (reader l pools.old) byte }
{
    let m = act(l, byte, pools);
    Line {
        at: l.at.wrapping_add(1),
        ..m
    }
}
