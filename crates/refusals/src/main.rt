// Writes docs/REFUSALS.md: the table of answers in words, then the requests on standard input, each with its answer.
#![tactic(auto)]

ghost use Rattle.std.specs.Prelude.{◌<◌, ◌≤◌, length, IfOk};
ghost use Rattle.service.specs.Filling.{Ready};

use answers::{Room, Style};
use arrayvec::ArrayVec;
use model::number;
use output::Buffer;
use page::Page;
use service::Place;
use std::io;
use std::io::Read;
use telling::Column;

const HEADING: &[u8] = b"# Answers by number\n\
  \n\
  A check answers 0 where no question has a no, else the number of the first question with a no; a run answers 0 where it\n\
  halted, 40 where it paused, else the number of the question that stopped it. Two numbers for the place follow, A and B;\n\
  after a `check` then how many fit questions it put, and three for the offered rows that it chose for blank annotations.\n\
  \n\
  `ramdulsi --words` adds name, meaning and place to each answer, to a check its count, and to one that chose rows these. The\n\
  program `refusals` writes this text from the same table (`crates/words`), and the gate runs it.\n\
  \n";

const TITLES: &[u8] = b"| Number | Name | Meaning | Usual cause | How to mend | Place |\n\
  |---|---|---|---|---|---|\n";

const EXAMPLES: &[u8] = b"\n\
  ## Requests by answer and cause\n\
  \n\
  The requests of `examples/refusals.txt`, each followed by its answer: one for each cause, and one that is mended.\n\
  \n\
  ```\n";

// A row after its number.
fn columns(page: &mut Page, row: u32) {
    for column in [
        Column::Name,
        Column::Meaning,
        Column::Cause,
        Column::Remedy,
        Column::Place,
    ] {
        page.text(b" | ");
        page.add(|buffer: &mut Buffer| words::column(buffer, row, column as u32));
    }
    page.text(b" |\n");
}

fn numbered(page: &mut Page, row: u32) {
    page.text(b"| ");
    page.number(u64::from(row));
    columns(page, row);
}

fn table(page: &mut Page) {
    page.text(TITLES);
    numbered(page, number::PASSED);
    page.text(b"| 0");
    columns(page, words::HALTED);
    for row in number::questions() {
        numbered(page, row);
    }
    numbered(page, number::PAUSED);
    page.text(b"| `malformed`");
    columns(page, words::MALFORMED);
}

// What stands before the requests. Not inlined, so that the page and the room for answers are not on the stack at the same time.
#[inline(never)]
fn before_requests(to: &impl Print) -> io::Result<()> {
    let mut page = Page::new();
    page.text(HEADING);
    table(&mut page);
    page.text(EXAMPLES);
    page.write(to)
}

// ---- the requests

// How many bytes the first line has, with its line end.
fn first_line(bytes: &[u8]) -> usize
    requires { 0 < length bytes.now }
    ensures { (0 < result) × (result ≤ length bytes.now) }
{
    bytes
        .iter()
        .position(|byte| *byte == b'\n')
        .map_or(bytes.len(), |last| last + 1)
}

// A line, and after it what it is answered.
fn with_answer(to: &impl Print, line: &[u8], p: Place, room: &mut Room) -> io::Result<Place>
    requires { Ready p room.old.out × (0 < length line.now) }
    ensures { IfOk result (λ q. Ready q room.new.out) }
{
    let style = Style {
        worded: true,
        lined: false,
    };
    to.write_all(line)?;
    let filled = service::fill(line, 0, p, style, room);
    to.write_all(room.out.held())?;
    room.out.clear();
    Ok(filled.place)
}

// Each line with its answer. A `for` over split_inclusive was tried and got no proof: what the check states of that iterator here has a wrong type.
#[inline(never)]
fn answered(to: &impl Print, bytes: &[u8]) -> io::Result<()> {
    let mut room = Room::new();
    let mut p = service::start(false);
    let mut rest = bytes;
    while !rest.is_empty() {
        let (line, after) = rest.split_at(first_line(rest));
        p = with_answer(to, line, p, &mut room)?;
        rest = after;
    }
    Ok(())
}

// The bytes of requests that are read.
const ASKED: usize = 65536;

// The requests on standard input, as far as there is room for them.
fn requests(rt: &(impl Input + Print)) -> io::Result<()> {
    let mut asked = ArrayVec::<u8, ASKED>::new();
    io::copy(&mut rt.reader().take(ASKED as u64), &mut asked)?;
    answered(rt, asked.as_slice())
}

fn main(rt: HostRuntime) -> io::Result<()> {
    before_requests(&rt)?;
    requests(&rt)?;
    rt.write_all(b"```\n")
}
