// The answer to a line at its end, as text after what the buffer holds already.
#![tactic(auto)]

ghost use Rattle.std.specs.Prelude.{◌≡◌, [], ◌+◌, ◌≤◌, ◌++◌, length};
ghost use Rattle.grammar.specs.Grammar.{pool};
ghost use Rattle.protocol.specs.Said.{said};
ghost use Rattle.calls.specs.Requests.{run_of};
ghost use Rattle.output.specs.Room.{buffer};
ghost use Rattle.reader.specs.Reader.{reader};
ghost use Rattle.telling.specs.Row.{answering};
ghost use Rattle.answers.specs.Answers.{line_number, tally_text, chosen_for, refusal_row, run_row};
ghost use Rattle.answers.specs.Answers.{judged as judgedAnswer, checked as checkedAnswer, unread as unreadAnswer};
ghost use Rattle.answers.specs.Answers.{ran_with as printedAnswer, ran as ranAnswer};
ghost use Rattle.answers.specs.Gives.{Gives, speaks, answer_at, Remarked, Replied};

use calls::{Parts, long};
use model::{OfferedAnswer, RunAnswer, Verdict, number};
use output::Buffer;
use protocol::{Form, Line, Phase, Pools};
use telling::Place;

// What the table of words is asked about an answer: its row and its place, and of a check its tally.
#[derive(Clone, Copy)]
pub struct Given {
    pub row: u32,
    pub place: Place,
    pub tally: Option<Tally>,
}

// What a check cost in fit questions, and for how many blank annotations rows were chosen, and which.
#[derive(Clone, Copy)]
pub struct Tally {
    pub asked: u32,
    pub chosen: usize,
    pub choice: [u32; 3],
}

// How answers are written.
#[derive(Clone, Copy)]
pub struct Style {
    // with words after each
    pub worded: bool,
    // with the number of its line before each
    pub lined: bool,
}

// What lines are read into, a run's memory, and the answers. 3 MB together, so it is lent and never moved.
#[derive(Drop)]
pub struct Room {
    pub pools: Pools,
    pub space: [u32; protocol::POOL],
    pub out: Buffer,
}

impl Room {
    // Inlined, so that the arrays are made where the caller has them and are not copied there.
    #[inline(always)]
    pub fn new() -> Self
        ensures { result.out ≡ [] }
    {
        Room {
            pools: Pools {
                words: [0; protocol::POOL],
                ends: [0; protocol::PARTS_MOST],
                longs: [0; protocol::LONGS_MOST],
            },
            space: [0; protocol::POOL],
            out: Buffer::new(),
        }
    }
}

// The place of an answer, as its words name it.
fn at(first: u32, second: u32) -> Place
    ensures { result ≡ answering first second }
{
    Place {
        first: u64::from(first),
        second: u64::from(second),
    }
}

// What the memory check or the entry check answered.
fn judged(v: Verdict, out: &mut Buffer) -> Given
    requires { length out.old ≤ 65600 }
    ensures { Gives out.old (judgedAnswer v) result out.new }
{
    out.verdict(v);
    Given {
        row: v.number,
        place: at(v.first, v.second),
        tally: None,
    }
}

// For how many blank annotations the answer to a check has rows.
fn chosen_for(number: u32, blanks: usize) -> usize
    ensures { result ≡ chosen_for number blanks }
{
    if number == number::PASSED { blanks } else { 0 }
}

// What the check of a routine with so many blank annotations answered.
fn checked(a: OfferedAnswer, blanks: usize, out: &mut Buffer) -> Given
    requires { length out.old ≤ 65600 }
    ensures { Gives out.old (checkedAnswer a blanks) result out.new }
{
    out.check_answer(a);
    let choice = a.choice;
    let tally = Tally {
        asked: a.asked,
        chosen: chosen_for(a.number, blanks),
        choice,
    };
    Given {
        row: a.number,
        place: at(a.first, a.second),
        tally: Some(tally),
    }
}

// A line that is no request, malformed at a place.
fn unread(place: u64, out: &mut Buffer) -> Given
    requires { length out.old ≤ 65600 }
    ensures { Gives out.old (unreadAnswer place) result out.new }
{
    out.malformed(place);
    Given {
        row: words::MALFORMED,
        place: Place {
            first: place,
            second: 0,
        },
        tally: None,
    }
}

// The row of the table of words for a run's number: its 0 is another than that of a check.
fn run_row(number: u32) -> u32
    ensures { result ≡ run_row number }
{
    if number == number::HALTED {
        words::HALTED
    } else {
        number
    }
}

// What a run answered, and the memory that it left.
fn printed(r: RunAnswer, memory: &[u32], out: &mut Buffer) -> Given
    requires { (length out.old ≤ 65600) × (length memory.now ≤ pool) }
    ensures { Gives out.old (printedAnswer r memory.now) result out.new }
{
    out.run_answer(r, memory);
    Given {
        row: run_row(r.number),
        place: at(r.block, r.index),
        tally: None,
    }
}

// A request to run. The run changes the memory that it is lent, so it is lent a copy of the request's.
fn ran(parts: &Parts, budget: u64, space: &mut [u32; protocol::POOL], out: &mut Buffer) -> Given
    requires { length out.old ≤ 65600 }
    ensures { Gives out.old (ranAnswer (run_of parts.now budget)) result out.new }
{
    let memory = &mut space[..parts.part(2).len()];
    let r = parts.run(memory, budget);
    printed(r, memory, out)
}

// The answer to a line that has one.
fn answered(l: Line, room: &mut Room) -> Given
    requires { length room.old.out ≤ 65600 }
    ensures answer { Gives room.old.out (answer_at l room.old.pools) result room.new.out }
    ensures pools { room.new.pools ≡ room.old.pools }
{
    let out = &mut room.out;
    if l.phase == Phase::Malformed {
        return unread(l.stop, out);
    }
    let parts = Parts::of(&room.pools, l.marked);
    match l.form {
        Form::Check => checked(parts.check(), parts.blanks(), out),
        Form::Memory => judged(parts.memory_check(), out),
        Form::Entry => judged(parts.entry_check(), out),
        Form::Run => ran(&parts, long(&room.pools, l.stored), &mut room.space, out),
    }
}

// The number of the line that is answered, and a blank, where it is asked for.
fn numbered(lined: bool, count: u64, out: &mut Buffer)
    requires { length out.old ≤ 65536 }
    ensures text { out.new ≡ out.old ++ line_number lined count }
    ensures room { length out.new ≤ length out.old + 21 }
{
    if lined {
        out.number(count);
        out.put(b' ');
    }
}

// The count of a check and the rows that it chose, in words.
fn tallied(tally: Option<Tally>, out: &mut Buffer)
    requires { length out.old + 84 ≤ buffer }
    ensures text { out.new ≡ out.old ++ tally_text tally }
    ensures room { length out.new ≤ length out.old + 84 }
{
    let Some(t) = tally else {
        return;
    };
    out.text(b"; fit questions: ");
    out.number(u64::from(t.asked));
    if t.chosen != 0 {
        out.text(b"; rows chosen:");
        // an answer holds no more than three
        out.words(&t.choice[..t.chosen.min(3)]);
    }
}

// What an answer means, where words are asked for.
fn remarked(worded: bool, g: Given, out: &mut Buffer)
    requires { length out.old + 16384 ≤ buffer }
    ensures { Remarked worded g out.old out.new }
{
    if worded {
        words::explain(out, g.row, g.place);
        tallied(g.tally, out);
    }
}

// Whether an answer is other than 0 and 40.
fn is_refusal(row: u32) -> bool
    ensures { result ≡ refusal_row row }
{
    !matches!(row, number::PASSED | number::PAUSED | words::HALTED)
}

// Whether a line at its end is a request or malformed, and not an empty line or a comment.
fn has_answer(phase: Phase) -> bool
    ensures { result ≡ speaks phase }
{
    matches!(phase, Phase::Malformed | Phase::Gap)
}

// A line at its end is answered, and whether otherwise than by 0 and 40; nothing is said to an empty line or a comment.
pub fn answer(l: Line, count: u64, s: Style, room: &mut Room) -> bool
    requires { length room.old.out ≤ 65536 }
    ensures reply { Replied s count (said (reader l room.old.pools)) room.old.out result room.new.out }
    ensures pools { room.new.pools ≡ room.old.pools }
{
    if !has_answer(l.phase) {
        return false;
    }
    numbered(s.lined, count, &mut room.out);
    let g = answered(l, room);
    remarked(s.worded, g, &mut room.out);
    room.out.line_end();
    is_refusal(g.row)
}
