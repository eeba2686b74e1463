// The numbers of documents 01 and 02: of each question, and of the answers where no question has a no. A question's name is the one that
// the table of words gives its answer.
ghost use Rattle.std.specs.Prelude.{◌≡◌, map};
ghost use Rattle.model.specs.Question.{number_of, questions};

// 'A check without a no gives 0 at 0, 0': no question has a no.
pub const PASSED: u32 = 0;

// A run's '0 is halted, at the halt'.
pub const HALTED: u32 = 0;

// A run's '40 is paused, at the next block's first instruction'.
pub const PAUSED: u32 = 40;

// ---- the tables

// Q1 'Are lengths whole rows within bounds?'
pub const TABLE_LENGTH: u32 = 1;

// Q2 'Is each field count 1 to 8?'
pub const FIELD_COUNT: u32 = 2;

// Q3 'Is each record's type word well made, T existing, those past n zero?'
pub const FIELD_TYPE: u32 = 3;

// Q4 'Does each tag name a type?'
pub const TAG: u32 = 4;

// Q5 'Are block lengths 1 to 32 and their sum the code length?'
pub const BLOCK_LENGTH: u32 = 5;

// Q6 'Are annotations well made, T existing?'
pub const ANNOTATION: u32 = 6;

// 02, card 12: '32, at the fourth blank block, else at row 0 for an offered list of wrong length, else at the first offered row badly made'
pub const OFFERED_ROWS: u32 = 32;

// 02, card 12: '33, at the lowest blank block, exactly when no choice is accepted'
pub const NO_CHOICE: u32 = 33;

// ---- the code

// Q7 'Known opcode, parts in range, divisor not 0?'
pub const INSTRUCTION: u32 = 7;

// Q8 'Block-ending opcode at the block's end and only there?'
pub const BLOCK_END: u32 = 8;

// Q9 'Do the target of 10 to 12 and the block after 11 or 12 exist?'
pub const TARGET: u32 = 9;

// Q10 'Does the base of a load or store hold a reference?'
pub const REFERENCE: u32 = 10;

// Q11 'c below the size?'
pub const OFFSET: u32 = 11;

// 02, card 1: '23, a store to a locked field, asked after Q11 and before Q12'
pub const LOCKED_FIELD: u32 = 23;

// Q12 'No record open, or base the very value that opened it?'
pub const OTHER_RECORD: u32 = 12;

// Q13 'No record open?', at a block's end.
pub const OPEN_RECORD: u32 = 13;

// Q14 'Does the taken edge meet its block's annotation?'
pub const TAKEN_EDGE: u32 = 14;

// Q15 'The untaken edge?'
pub const UNTAKEN_EDGE: u32 = 15;

// ---- a run, memory and registers

// Q16 'start block exists?'
pub const START_BLOCK: u32 = 16;

// Q17 'memory length in bounds?'
pub const MEMORY_LENGTH: u32 = 17;

// Q18 'address below the memory length?'
pub const ADDRESS: u32 = 18;

// Q19 'are allocations whole rows in bounds, types existing, starts at least 1 and at or above the end of the record before, inside memory?'
pub const ALLOCATION: u32 = 19;

// Q20 'Does every field's word meet its meaning?'
pub const FIELD: u32 = 20;

// Q21 'does each register meet that block's annotation?'
pub const REGISTER: u32 = 21;

// Document 02 took question 22 out: 22 is the number of none, and is given to no other.

// ---- all of them

// The numbers of the questions, each after the lesser ones.
pub fn questions() -> [u32; 24]
    ensures { result ≡ map number_of questions }
{
    [
        TABLE_LENGTH,
        FIELD_COUNT,
        FIELD_TYPE,
        TAG,
        BLOCK_LENGTH,
        ANNOTATION,
        INSTRUCTION,
        BLOCK_END,
        TARGET,
        REFERENCE,
        OFFSET,
        OTHER_RECORD,
        OPEN_RECORD,
        TAKEN_EDGE,
        UNTAKEN_EDGE,
        START_BLOCK,
        MEMORY_LENGTH,
        ADDRESS,
        ALLOCATION,
        FIELD,
        REGISTER,
        LOCKED_FIELD,
        OFFERED_ROWS,
        NO_CHOICE,
    ]
}
