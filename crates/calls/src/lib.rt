// The calls of the loader that requests ask for, each at the parts of a request that was read into the pools.
#![tactic(auto)]

ghost use Rattle.std.specs.Prelude.{◌≡◌, length};
ghost use Rattle.calls.specs.Requests.{part, check_of, blanks_in, memory_verdict, entry_verdict, Ran};

use model::{OfferedAnswer, RunAnswer, Verdict};
use parts::{registers, word};

mod annotations;
mod parts;

pub use parts::{Parts, long};

impl Parts<'_> {
    // TYPES TAGS BLOCKS CODE OFFERED
    pub fn check(&self) -> OfferedAnswer
        ensures { result ≡ check_of self.now }
    {
        let types = self.part(0);
        let tags = self.part(1);
        let blocks = self.part(2);
        let code = self.part(3);
        let offered = self.part(4);
        loader::check_offered(types, tags, blocks, code, offered)
    }

    // How many annotations of BLOCKS are blank.
    pub fn blanks(&self) -> usize
        ensures { result ≡ blanks_in self.now }
    {
        annotations::blanks(self.part(2))
    }

    // TYPES TAGS ALLOCATIONS MEMORY
    pub fn memory_check(&self) -> Verdict
        ensures { result ≡ memory_verdict self.now }
    {
        let types = self.part(0);
        let tags = self.part(1);
        let allocations = self.part(2);
        let memory = self.part(3);
        loader::memory_check(types, tags, allocations, memory)
    }

    // TYPES TAGS ALLOCATIONS MEMORY BLOCKS CODE BLOCK R0 .. R7
    pub fn entry_check(&self) -> Verdict
        ensures { result ≡ entry_verdict self.now }
    {
        let types = self.part(0);
        let tags = self.part(1);
        let allocations = self.part(2);
        let memory = self.part(3);
        let blocks = self.part(4);
        let code = self.part(5);
        let row = self.part(6);
        loader::entry_check(
            types,
            tags,
            allocations,
            memory,
            blocks,
            code,
            word(row, 0),
            registers(row),
        )
    }

    // BLOCKS CODE MEMORY BLOCK R0 .. R7 BUDGET. The run changes what it is lent, so that is a copy of MEMORY.
    pub fn run(&self, memory: &mut [u32], budget: u64) -> RunAnswer
        requires { length memory.old ≡ length (part self.now 2) }
        ensures { Ran self.now budget result memory.new }
    {
        let blocks = self.part(0);
        let code = self.part(1);
        let row = self.part(3);
        memory.copy_from_slice(self.part(2));
        loader::run(blocks, code, memory, word(row, 0), registers(row), budget)
    }
}
