// A page that a program prints: texts and numbers go into a buffer as long as it is not nearly full, so that nobody has to count them, and
// the page is written out at the end.
#![tactic(auto)]

ghost use Rattle.std.specs.Prelude.{◌≡◌, [], ◌∷◌, ◌++◌, ◌≤◌, length};
ghost use Rattle.std.specs.Fn.{FnOnceReturnsAtMut};
ghost use Rattle.protocol.specs.Text.{decimal, fields, verdict_text};

use model::Verdict;
use output::Buffer;
use std::io;

// Half of the buffer: what is put at one time is no longer, and nothing is put after as much.
pub const HALF: usize = 1000000;

// The words that are put at one time: eleven bytes each.
const WORDS: usize = 90000;

#[derive(Drop)]
pub struct Page {
    pub buffer: Buffer,
}

impl Page {
    // Inlined, as the buffer's own.
    #[inline(always)]
    pub fn new() -> Self
        ensures { result.buffer ≡ [] }
    {
        Page {
            buffer: Buffer::new(),
        }
    }

    // Puts what is put at one time, if no more than half of the buffer is held.
    pub fn add<F: FnOnce(&mut Buffer)>(&mut self, put: F)
        requires { (b : _) → length b.now ≤ 1000000 → F.pre put b }
        ensures { length self.old.buffer ≤ 1000000 → FnOnceReturnsAtMut F.FnOnce put self.old.buffer tt self.new.buffer }
    {
        if self.buffer.len() <= HALF {
            put(&mut self.buffer);
        }
    }

    pub fn text(&mut self, bytes: &[u8])
        ensures { length self.old.buffer ≤ 1000000 → length bytes.now ≤ 1000000 → self.new.buffer ≡ self.old.buffer ++ bytes.now }
    {
        if bytes.len() <= HALF {
            self.add(|buffer: &mut Buffer| buffer.text(bytes));
        }
    }

    pub fn put(&mut self, byte: u8)
        ensures { length self.old.buffer ≤ 1000000 → self.new.buffer ≡ self.old.buffer ++ byte ∷ [] }
    {
        self.add(|buffer: &mut Buffer| buffer.put(byte));
    }

    pub fn line_end(&mut self)
        ensures { length self.old.buffer ≤ 1000000 → self.new.buffer ≡ self.old.buffer ++ 10 ∷ [] }
    {
        self.put(b'\n');
    }

    pub fn number(&mut self, value: u64)
        ensures { length self.old.buffer ≤ 1000000 → self.new.buffer ≡ self.old.buffer ++ decimal value }
    {
        self.add(|buffer: &mut Buffer| buffer.number(value));
    }

    // NUMBER A B
    pub fn verdict(&mut self, v: Verdict)
        ensures { length self.old.buffer ≤ 1000000 → self.new.buffer ≡ self.old.buffer ++ verdict_text v }
    {
        self.add(|buffer: &mut Buffer| buffer.verdict(v));
    }

    // A blank before each word of a list.
    pub fn words(&mut self, list: &[u32])
        ensures { length self.old.buffer ≤ 1000000 → length list.now ≤ 90000 → self.new.buffer ≡ self.old.buffer ++ fields list.now }
    {
        if list.len() <= WORDS {
            self.add(|buffer: &mut Buffer| buffer.words(list));
        }
    }

    // Writes the page out.
    pub fn write(&self, to: &impl Print) -> io::Result<()> {
        to.write_all(self.buffer.held())
    }
}
