// The table of owners: for each address the record type that starts there, and where the run of that type from there ends.
ghost use Rattle.std.specs.Prelude.{◌≡◌, ◌%◌, ◌≤◌, ◌<◌, leb, replicate};
ghost use Rattle.model.specs.Question.{◌and◌};
ghost use Rattle.model.specs.Table.{head_of};
ghost use Rattle.meaning.specs.Owners.{owner_at, starts_at, entry_of, owners_of, CanBeLaid};

use model::limit;
use std::marker::Model;

// An entry is 0 where no record starts. Else it has the record type + 1 above this place, and the end of the run below.
const PLACE: u32 = 65536;

// As many entries as memory may have words: 64 KiB, so that it is lent and never passed on.
#[derive(Drop)]
pub struct Owners {
    entries: [u32; limit::MEMORY],
}

impl Model for Owners {
    ghost use Rattle.std.specs.Prelude.{List, ℕ};

    ghost Value = { List ℕ };

    ghost view = { λ o. o.entries };
}

impl Owners {
    // The table of no allocations.
    #[inline(always)]
    pub fn empty() -> Owners
        ensures { result ≡ replicate 16384 0 }
    {
        Owners {
            entries: [0; limit::MEMORY],
        }
    }

    // The entry of address x.
    fn owner(&self, x: u32) -> u32
        ensures { result ≡ owner_at self.now x }
    {
        self.entries.get(x as usize).copied().unwrap_or(0)
    }

    // Whether a record of type t starts at x. The sum is taken in 64 bits, where no t makes it wrap.
    pub fn starts(&self, x: u32, t: u32) -> bool
        ensures { result ≡ starts_at self.now x t }
    {
        (self.owner(x) / PLACE) as u64 == (t as u64) + 1
    }

    // Whether a record of type t starts at x, and a run of them goes from there to e or beyond.
    pub fn reaches(&self, x: u32, t: u32, e: u32) -> bool
        ensures { result ≡ (starts_at self.now x t and leb e (owner_at self.now x % 65536)) }
    {
        self.starts(x, t) && e <= self.owner(x) % PLACE
    }

    // The entry of a record of type t that ends at x: the run that starts there goes on, or ends with it.
    fn entry(&self, x: u32, t: u32) -> u32
        requires { (x ≤ 16384) × (t < 64) }
        ensures { result ≡ entry_of self.now x t }
    {
        if self.starts(x, t) {
            self.owner(x)
        } else {
            (t + 1) * PLACE + x
        }
    }

    // Lays the allocations into the table, the last first, so that each record finds the entry of what starts at its end.
    pub fn fill(&mut self, types: &[u32], allocations: &[u32])
        requires { CanBeLaid types.now allocations.now }
        ensures { self.new ≡ owners_of (λ t. head_of types.now t) allocations.now self.old }
    {
        for k in (0..allocations.len() / limit::ALLOCATION_WORDS).rev() {
            let p = layout::start(allocations, k);
            let t = layout::record_type(allocations, k);
            let n = table::head(types, t as usize);
            let own = self.entry(p + n, t);
            self.entries[p as usize] = own;
        }
    }
}
