// The bounds of documents 01 and 02. One that a length or a place is held against is a usize, one that a word of a table is held against a u32.

// ---- rows

// 'rows of 9 words': a row of the type table or of the block table.
pub const ROW_WORDS: usize = 9;

// 'then 8 type words': one for each field or register.
pub const TYPE_WORDS: usize = 8;

// 02, card 12: 'annotation rows of eight words': a row of an offered list.
pub const OFFERED_WORDS: usize = 8;

// 'rows of 2 words: start, record type': a row of the allocations.
pub const ALLOCATION_WORDS: usize = 2;

// ---- the most that a table may have

// 'Record types: 1 to 64 rows of 9 words'
pub const TYPES: usize = 64;

// 'Tags: 0 to 64 words'
pub const TAGS: usize = 64;

// 'Blocks: 1 to 256 rows of 9 words'
pub const BLOCKS: usize = 256;

// 'Code: 1 to 8,192 instructions'
pub const CODE: usize = 8192;

// 'Allocations: 0 to 4,096 rows of 2 words'
pub const ALLOCATIONS: usize = 4096;

// 'Memory: 1 to 16,384 words'
pub const MEMORY: usize = 16384;

// 02, card 12: 'Up to 3 rows' may be blank.
pub const BLANKS: usize = 3;

// 02, card 12: 'a second list offers 0 to 8 annotation rows'
pub const OFFERED: usize = 8;

// ---- the most that a row may say

// 'field count n (1 to 8)'
pub const FIELDS: u32 = 8;

// 'length 1 to 32'
pub const BLOCK_LENGTH: u32 = 32;

// ---- memory and registers

// 'starts at least 1': no record starts at address 0.
pub const FIRST_START: usize = 1;

// 'Eight registers r0 to r7'
pub const REGISTERS: usize = 8;
