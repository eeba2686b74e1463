// Reads and writes, made again where they were interrupted or would have to wait; the caller says what failed. A proved loop has to end, so
// they count their tries up to a number that none reaches.
ghost use Rattle.std.specs.Io.{ReadsAtMost};

use std::io::{ErrorKind, Read};
use std::{io, thread};

// Whether a call that failed is to be made again. One that would have to wait on a stream that does not wait by itself lets others run
// first.
fn again(why: &io::Error) -> bool {
    match why.kind() {
        ErrorKind::Interrupted => true,
        ErrorKind::WouldBlock => {
            thread::yield_now();
            true
        }
        _ => false,
    }
}

// A read: bytes at the start of the buffer, 0 at the end of the input.
pub fn read(from: &mut impl Read, buffer: &mut [u8]) -> io::Result<usize>
    ensures { ReadsAtMost result buffer.new }
{
    for _ in 0..u64::MAX {
        match from.read(buffer) {
            Err(why) if again(&why) => {}
            done => return done,
        }
    }
    Err(io::Error::from(ErrorKind::TimedOut))
}

// Writes all bytes, or as many as could be written; an error where it was not all.
pub fn write(to: &impl Print, bytes: &[u8]) -> io::Result<()> {
    let mut left = bytes;
    for _ in 0..u64::MAX {
        if left.is_empty() {
            return Ok(());
        }
        match to.write_some(left) {
            Ok(0) => return Err(io::Error::from(ErrorKind::WriteZero)),
            Ok(count) => left = &left[count..],
            Err(why) if again(&why) => {}
            Err(why) => return Err(why),
        }
    }
    Err(io::Error::from(ErrorKind::TimedOut))
}
