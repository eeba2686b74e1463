// What failed, said on standard error with the reason that the system gave.
ghost use Rattle.std.specs.Prelude.{◌≡◌, ◌++◌, take};

use arrayvec::{ArrayString, ArrayVec};
use std::fmt::{Display, Write as _};
use std::io;
use std::io::Write;

// The longest line.
const LINE: usize = 4224;

// A line as it is put together. Names are bytes, so it is no text.
type Line = ArrayVec<u8, LINE>;

// Puts bytes at the end of the line; what finds no room is left out.
fn put(line: &mut Line, bytes: &[u8])
    ensures { line.new.items ≡ take LINE (line.old.items ++ bytes.now) }
{
    let room = line.remaining_capacity().min(bytes.len());
    let _ = line.try_extend_from_slice(&bytes[..room]);
}

// The system's words for a reason, without the number that std puts after them.
fn words(shown: &str) -> &str {
    match shown.split_once(" (os error ") {
        Some((before, _)) => before,
        None => shown,
    }
}

// ramdulsi: NAME, PLACE and WHAT: REASON, as one line.
fn said(err: &impl Print, name: &[u8], place: impl Display + Drop, what: &[u8], why: io::Error) {
    let mut shown = ArrayString::<LINE>::new();
    let _ = write!(shown, "{why}");
    let reason = words(shown.as_str());
    let mut line = Line::new();
    put(&mut line, b"ramdulsi: ");
    put(&mut line, name);
    let _ = write!(line, "{place}");
    put(&mut line, what);
    let _ = writeln!(line, ": {reason}");
    let _ = err.write_all(line.as_slice());
}

// ramdulsi: NAME: REASON
pub fn of(err: &impl Print, name: &[u8], why: io::Error) {
    said(err, name, "", b"", why);
}

// ramdulsi: NAME, line LINE: REASON, with a word on what it was that failed
pub fn at_line(err: &impl Print, name: &[u8], line: u64, what: &[u8], why: io::Error) {
    said(err, name, format_args!(", line {line}"), what, why);
}
