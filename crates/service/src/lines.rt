// The lines of some bytes, answered one after the other.
ghost use Rattle.std.specs.Prelude.{◌≡◌, ◌<◌, ◌≤◌, length};
ghost use Rattle.reader.specs.Reader.{Fine, fresh_line};
ghost use Rattle.service.specs.Served.{to_end};
ghost use Rattle.service.specs.Filling.{placed, Ready, standing_at, Answered, Finished, Onward, Fills};

use crate::{Filled, Place};
use answers::{Room, Style};

// The answers that are held before they are to be written out.
pub const HELD: usize = 65536;

// How many bytes stand before the line's end, or before the end of the bytes.
fn before_end(bytes: &[u8]) -> usize
    ensures place { result ≡ to_end bytes.now }
    ensures inside { result ≤ length bytes.now }
{
    bytes
        .iter()
        .position(|byte| *byte == b'\n')
        .unwrap_or(bytes.len())
}

// The line at its end is answered, and the next begins.
fn line_ended(p: Place, s: Style, room: &mut Room) -> Place
    requires { Ready p room.old.out }
    ensures { Answered s (standing_at p room.old.pools) room.old.out (standing_at result room.new.pools) room.new.out }
{
    let l = protocol::end(p.line, &mut room.pools);
    let refused = answers::answer(l, p.count, s, room);
    Place {
        line: protocol::fresh(),
        count: p.count.wrapping_add(1),
        refused: p.refused || refused,
    }
}

// The line that goes on at a place among bytes: to its end, where they have it, and its answer.
fn line(bytes: &[u8], from: usize, p: Place, s: Style, room: &mut Room) -> Filled
    requires { Ready p room.old.out × (from < length bytes.now) }
    ensures same { Fills s bytes.now from p room.old room.new result }
    ensures on { Onward bytes.now from result room.new.out }
{
    let stop = from + before_end(&bytes[from..]);
    let read = Place {
        line: protocol::piece(&bytes[from..stop], &mut room.pools, p.line),
        ..p
    };
    if stop < bytes.len() {
        Filled {
            at: stop + 1,
            place: line_ended(read, s, room),
        }
    } else {
        Filled {
            at: stop,
            place: read,
        }
    }
}

// The lines of bytes from a place on, as long as the buffer does not hold enough to be written out.
pub fn fill(bytes: &[u8], from: usize, p: Place, s: Style, room: &mut Room) -> Filled
    requires { Ready p room.old.out × (from < length bytes.now) }
    ensures same { Fills s bytes.now from p room.old room.new result }
    ensures on { Onward bytes.now from result room.new.out }
{
    let mut f = line(bytes, from, p, s, room);
    // Each turn moves by the line that it answered.
    while f.at < bytes.len() && room.out.len() <= HELD {
        f = line(bytes, f.at, f.place, s, room);
    }
    f
}

// An input at its end: its last line may lack its end; one of which nothing was read is none.
pub fn finish(p: Place, s: Style, room: &mut Room) -> Place
    requires { Ready p room.old.out }
    ensures { Finished s (standing_at p room.old.pools) room.old.out result room.new.out }
{
    if p.line.at == 0 {
        p
    } else {
        line_ended(p, s, room)
    }
}

// Before an input; whether an input before it had an answer other than 0 and 40.
pub fn start(refused: bool) -> Place
    ensures { (result ≡ placed fresh_line 1 refused) × Fine result.line }
{
    Place {
        line: protocol::fresh(),
        count: 1,
        refused,
    }
}
