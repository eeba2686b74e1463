// The routines of the example: a correction for moisture, one that is hasty, one that overwrites what was weighed, and a ranking. In all of
// them r1 is the plot, r2 its stage and r3 its pointer.
use super::assembly::{
    HALT, constant, divide, if_equal, jump, load, multiply, number, reference, row, store,
    subtract, tagged, typed,
};
use super::plots::{CORRECTED, PLOT, RAW};
use model::RunAnswer;

// A block table of B words, a code of N, and the registers of a start at block 0.
#[derive(Drop)]
pub struct Routine<const B: usize, const N: usize> {
    pub blocks: [u32; B],
    pub code: [u32; N],
    pub registers: [u32; 8],
}

impl<const B: usize, const N: usize> Routine<B, N> {
    // Before its first turn.
    pub fn start(&self, memory: &mut [u32]) -> RunAnswer {
        loader::run(&self.blocks, &self.code, memory, 0, self.registers, 0)
    }

    // A turn of one block; a routine that has halted has none.
    pub fn turn(&self, waiting: RunAnswer, memory: &mut [u32]) -> RunAnswer {
        if waiting.number != model::number::PAUSED {
            return waiting;
        }
        loader::run(
            &self.blocks,
            &self.code,
            memory,
            waiting.block,
            waiting.registers,
            1,
        )
    }
}

// The row of a block of a correction: r1 is the plot, r4 the corrected record.
fn correcting(blocks: &mut [u32], block: u8, length: u32) {
    row(blocks, block, length);
    typed(blocks, block, 1, reference(PLOT));
    typed(blocks, block, 4, reference(CORRECTED));
}

// What both corrections begin with: block 0 reads stage and pointer, block 1 halts, block 2 tests the pointer of a raw plot, and block 3
// has the raw record in r3.
fn begun(blocks: &mut [u32]) {
    correcting(blocks, 0, 3);
    row(blocks, 1, 1);
    correcting(blocks, 2, 1);
    typed(blocks, 2, 3, tagged(number(0)));
    typed(blocks, 3, 3, reference(RAW));
}

// The second plot in r1, the corrected record in r4.
const CORRECTING: [u32; 8] = [0, 3, 0, 0, 8, 0, 0, 0];

// The second plot in r1.
const RANKING: [u32; 8] = [0, 3, 0, 0, 0, 0, 0, 0];

// Reads the stage; where it is 0 and the pointer is not, takes the raw weight times the dry share over 86, puts it in the corrected
// record of r4, and sets stage and pointer in one block. The last block: two loads, 100 less the moisture, times, over 86, a store, then
// stage and pointer.
pub fn correction() -> Routine<36, 16> {
    let mut blocks = [0; 36];
    begun(&mut blocks);
    correcting(&mut blocks, 3, 11);
    let code = [
        load(2, 1, 0),
        load(3, 1, 1),
        if_equal(2, 0, 2),
        HALT,
        if_equal(3, 0, 1),
        load(5, 3, 0),
        load(6, 3, 1),
        constant(7, 100),
        subtract(6, 7, 6),
        multiply(5, 5, 6),
        divide(5, 5, 86),
        store(5, 4, 0),
        constant(7, 1),
        store(7, 1, 0),
        store(4, 1, 1),
        HALT,
    ];
    Routine {
        blocks,
        code,
        registers: CORRECTING,
    }
}

// The same with the corrected weight stored over the raw one, and not in the corrected record.
pub fn overwriting() -> Routine<36, 16> {
    let mut routine = correction();
    routine.code[11] = store(5, 3, 0);
    routine
}

// The correction with the pointer set in a block of its own, after the stage: the stage is stored, then block 4 is jumped to.
pub fn hasty() -> Routine<45, 17> {
    let mut blocks = [0; 45];
    begun(&mut blocks);
    correcting(&mut blocks, 3, 10);
    correcting(&mut blocks, 4, 2);
    let code = [
        load(2, 1, 0),
        load(3, 1, 1),
        if_equal(2, 0, 2),
        HALT,
        if_equal(3, 0, 1),
        load(5, 3, 0),
        load(6, 3, 1),
        constant(7, 100),
        subtract(6, 7, 6),
        multiply(5, 5, 6),
        divide(5, 5, 86),
        store(5, 4, 0),
        constant(7, 1),
        store(7, 1, 0),
        jump(4),
        store(4, 1, 1),
        HALT,
    ];
    Routine {
        blocks,
        code,
        registers: CORRECTING,
    }
}

// Reads the stage; where it is 1 and the pointer is not 0, loads the corrected weight into r4: two loads and a test, a halt, a test, a load
// and a halt.
pub fn ranking() -> Routine<36, 7> {
    let mut blocks = [0; 36];
    row(&mut blocks, 0, 3);
    typed(&mut blocks, 0, 1, reference(PLOT));
    row(&mut blocks, 1, 1);
    row(&mut blocks, 2, 1);
    typed(&mut blocks, 2, 3, tagged(number(1)));
    row(&mut blocks, 3, 2);
    typed(&mut blocks, 3, 3, reference(CORRECTED));
    let code = [
        load(2, 1, 0),
        load(3, 1, 1),
        if_equal(2, 1, 2),
        HALT,
        if_equal(3, 0, 1),
        load(4, 3, 0),
        HALT,
    ];
    Routine {
        blocks,
        code,
        registers: RANKING,
    }
}
