// The grammar of a line: the requests as rows of parts, how much a line may hold, the phases of reading it, names and blanks.
#![tactic(auto)]

ghost use Rattle.std.specs.Prelude.{◌≡◌, ◌≤◌};
ghost use Rattle.grammar.specs.Grammar.{pool, part_at, given, wanted, bound, below, name_of, begins, begun, named};
ghost use Rattle.grammar.specs.Phase.{is_over, blank};

// ---- how much a line may hold

// The words of all tables of a line together.
pub const POOL: usize = 135168;

// The parts of words of a line, each of which has its end marked.
pub const PARTS_MOST: usize = 7;

// The long numbers of a line.
pub const LONGS_MOST: usize = 1;

// The largest word, and the largest long number.
pub const WORD_MOST: u64 = 4294967295;

const LONG_MOST: u64 = 18446744073709551615;

// ---- requests

#[derive(Clone, Copy)]
pub enum Form {
    Check,
    Memory,
    Entry,
    Run,
}

const REQUESTS: [Form; 4] = [Form::Check, Form::Memory, Form::Entry, Form::Run];

// ---- parts of a row

#[derive(Clone, Copy)]
pub enum Part {
    // nothing more
    Done,
    // a count, and so many words
    Table,
    // one number below 2^64
    Long,
    // so many words without a count
    Words(u8),
}

use Part::{Done, Long, Table, Words};

// A block and eight registers.
const STATE: Part = Words(9);

// The places of a row.
const ROW_LENGTH: usize = 8;

// TYPES TAGS BLOCKS CODE OFFERED
const CHECK: [Part; ROW_LENGTH] = [Table, Table, Table, Table, Table, Done, Done, Done];

// TYPES TAGS ALLOCATIONS MEMORY
const MEMORY: [Part; ROW_LENGTH] = [Table, Table, Table, Table, Done, Done, Done, Done];

// TYPES TAGS ALLOCATIONS MEMORY BLOCKS CODE and a state
const ENTRY: [Part; ROW_LENGTH] = [Table, Table, Table, Table, Table, Table, STATE, Done];

// BLOCKS CODE MEMORY, a state and BUDGET
const RUN: [Part; ROW_LENGTH] = [Table, Table, Table, STATE, Long, Done, Done, Done];

impl Form {
    // The letters of its name as one number.
    fn name(self) -> u64
        ensures { result ≡ name_of self }
    {
        match self {
            Form::Check => 0x636865636b,
            Form::Memory => 0x6d656d6f7279,
            Form::Entry => 0x656e747279,
            Form::Run => 0x72756e,
        }
    }

    // The request with a name.
    #[tactic(auto, unfolding(crate::specs::Grammar::named))]
    pub fn named(letters: u64) -> Option<Form>
        ensures { result ≡ named letters }
    {
        REQUESTS.iter().copied().find(|form| form.name() == letters)
    }

    // The part at a place of its row.
    #[tactic(auto, unfolding(crate::specs::Grammar::part_at, crate::specs::Grammar::row_of))]
    pub fn part_at(self, part: usize) -> Part
        ensures { result ≡ part_at self part }
    {
        if ROW_LENGTH <= part {
            return Done;
        }
        match self {
            Form::Check => CHECK[part],
            Form::Memory => MEMORY[part],
            Form::Entry => ENTRY[part],
            Form::Run => RUN[part],
        }
    }
}

// ---- phases

// Where in a line a byte is read.
#[derive(Clone, Copy, Debug, PartialEq, Eq, PartialOrd, Ord)]
pub enum Phase {
    // nothing but blanks so far
    Empty,
    // in the request's name
    Name,
    // between numbers
    Gap,
    // in a number whose only digit is one 0: an x may follow
    Zero,
    // in a decimal number
    Digits,
    // after 0x: a digit must follow
    Prefix,
    // in a hexadecimal number
    Hex,
    // a comment: the rest is passed over
    Comment,
    // malformed at stop: the rest is passed over
    Malformed,
}

impl Phase {
    // Whether the rest of the line is passed over.
    pub fn is_over(self) -> bool
        ensures { result ≡ is_over self }
    {
        matches!(self, Phase::Comment | Phase::Malformed)
    }
}

// ---- bytes

// A space, a tab or a carriage return.
#[tactic(auto, unfolding(crate::specs::Phase::blank))]
pub fn is_blank(byte: u8) -> bool
    ensures { result ≡ blank byte }
{
    matches!(byte, b' ' | b'\t' | b'\r')
}

// ---- what may stand in a row

// The words that a part has before any count is read.
pub fn given(part: Part) -> usize
    ensures { result ≡ given part }
{
    match part {
        Words(k) => k as usize,
        _ => 0,
    }
}

// Whether a number is wanted.
#[tactic(auto, unfolding(crate::specs::Grammar::wanted))]
pub fn wants(kind: Part, left: usize) -> bool
    ensures { result ≡ wanted kind left }
{
    0 < left || matches!(kind, Table | Long)
}

// The largest number that may stand in a part, where one is wanted.
#[tactic(auto, unfolding(crate::specs::Grammar::bound))]
pub fn largest(kind: Part, left: usize, used: usize) -> Option<u64>
    requires { used ≤ pool }
    ensures { result ≡ below (bound kind left used) }
{
    if 0 < left {
        return Some(WORD_MOST);
    }
    match kind {
        Table => Some((POOL - used) as u64),
        Long => Some(LONG_MOST),
        _ => None,
    }
}

// ---- names

// Whether letters begin a name.
fn begins(name: u64, letters: u64) -> bool
    ensures { result ≡ begins 8 name letters }
{
    let mut n = name;
    for _ in 0..8u32 {
        if n == letters {
            return 0 < letters;
        }
        n /= 256;
    }
    false
}

// Whether letters begin the name of a request.
#[tactic(auto, unfolding(crate::specs::Grammar::begun))]
pub fn name_begun(letters: u64) -> bool
    ensures { result ≡ begun letters }
{
    REQUESTS.iter().any(|form| begins(form.name(), letters))
}
