// The record types of the trial database, and a memory with two plots.

use super::assembly;
use model::Verdict;

// Weight, moisture, both locked: they stay as they were weighed.
pub const RAW: u8 = 0;

// Weight.
pub const CORRECTED: u8 = 1;

// Stage, pointer that the stage tells of.
pub const PLOT: u8 = 2;

#[derive(Drop)]
pub struct Plots {
    pub types: [u32; 27],
    pub tags: [u32; 2],
    pub allocations: [u32; 10],
    pub memory: [u32; 9],
}

impl Plots {
    // Whether every record of a memory fits its type.
    pub fn memory_check(&self, memory: &[u32]) -> Verdict {
        loader::memory_check(&self.types, &self.tags, &self.allocations, memory)
    }
}

fn types() -> [u32; 27] {
    let mut types = [0; 27];
    assembly::row(&mut types, RAW, 2);
    assembly::typed(&mut types, RAW, 0, assembly::locked(assembly::ANY));
    assembly::typed(&mut types, RAW, 1, assembly::locked(assembly::ANY));
    assembly::row(&mut types, CORRECTED, 1);
    assembly::row(&mut types, PLOT, 2);
    assembly::typed(&mut types, PLOT, 1, assembly::tagged(0));
    types
}

// Stage 0 is raw, stage 1 corrected. Plots lie at 1 and 3; the corrected weight of the first at 5, the raw one of the second at 6, a
// corrected record for it at 8.
pub fn two_plots() -> Plots {
    Plots {
        types: types(),
        tags: [0, 1],
        allocations: [1, 2, 3, 2, 5, 1, 6, 0, 8, 1],
        memory: [0, 1, 5, 0, 6, 8000, 8600, 22, 0],
    }
}
