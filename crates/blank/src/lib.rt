// Blank annotations: the blank blocks, the offered list and its questions, and the annotation row in force.
#![tactic(auto)]

ghost use Rattle.std.specs.Prelude.{◌≡◌, ℕ, ◌+◌, ◌*◌, ◌≤◌, ◌<◌, List, length, slice_get, IfSome};
ghost use Rattle.model.specs.Question.{◌or◌};
ghost use Rattle.model.specs.Blank.{blanks_of, offered_row, in_force, open_annotations_ask, offered_length_ask, offered_rows_ask};
ghost use Rattle.blank.specs.Force.{annotated, blank, unfilled, NextBlank, Lists, Fits, offer_ask};

use model::{Question, Refusal, limit};

// A word of a blank row. It is no type word.
pub const BLANK_WORD: u32 = 4294967295;

// In place of a block where there is none: one past the last that a routine can have. In a list of blank blocks it stands for an Option's None:
// no block of a table has that number, so whether a block is blank is one comparison with each of the list, however many there are.
pub const NO_BLOCK: usize = limit::BLOCKS;

// The blank blocks of a routine, the lowest first, and a fourth, which is one too many.
#[derive(Clone, Copy)]
pub struct Blanks {
    pub three: [usize; limit::BLANKS],
    pub fourth: Option<usize>,
}

// Blank blocks, and the places in the offered list of the rows that they take.
#[derive(Clone, Copy)]
pub struct Filling {
    pub blanks: [usize; limit::BLANKS],
    pub places: [usize; limit::BLANKS],
}

// No block is blank.
pub fn unfilled() -> Filling
    ensures { result ≡ unfilled }
{
    Filling {
        blanks: [NO_BLOCK; limit::BLANKS],
        places: [0; limit::BLANKS],
    }
}

// ---- blank rows

// Whether the words of a row are those of a blank one.
pub fn is_blank(words: &[u32]) -> bool
    requires { length words.now ≡ 8 }
    ensures { result ≡ blank words.now }
{
    words.iter().all(|word| *word == BLANK_WORD)
}

// The first blank block from a block on.
fn next_blank(blocks: &[u32], from: usize) -> Option<usize>
    requires { length blocks.now ≤ 2304 }
    ensures { NextBlank blocks.now from result }
{
    for b in from..table::rows(blocks) {
        if is_blank(table::type_words(blocks, b)) {
            return Some(b);
        }
    }
    None
}

// The blank blocks.
pub fn blank_blocks(blocks: &[u32]) -> Blanks
    requires { length blocks.now ≤ 2304 }
    ensures { Lists (blanks_of blocks.now) result }
{
    let mut three = [NO_BLOCK; limit::BLANKS];
    let mut from = 0;
    for k in 0..limit::BLANKS {
        let Some(b) = next_blank(blocks, from) else {
            return Blanks {
                three,
                fourth: None,
            };
        };
        three[k] = b;
        from = b + 1;
    }
    let fourth = next_blank(blocks, from);
    Blanks { three, fourth }
}

// ---- questions

// Whether the words of a row are an annotation over count record types, or blank. Few rows are blank, so that is asked last.
fn may_stand(words: &[u32], count: u32) -> bool
    requires { length words.now ≡ 8 }
    ensures { result ≡ (annotated count words.now or blank words.now) }
{
    table::annotation_well(words, count) || is_blank(words)
}

// Q6 of the rows that are not blank, over count record types.
pub fn open_annotations(count: u32, blocks: &[u32]) -> Result<(), Refusal>
    requires { length blocks.now ≤ 2304 }
    ensures { result ≡ open_annotations_ask count blocks.now }
{
    for b in 0..table::rows(blocks) {
        if !may_stand(table::type_words(blocks, b), count) {
            return Err(Refusal::at(Question::Annotation, b));
        }
    }
    Ok(())
}

// Q32 of the length of an offered list.
#[tactic(auto, using(model::proofs::Tests::decided), unfolding(model::specs::Blank::offered_length_ask))]
pub fn offered_length(n: usize) -> Result<(), Refusal>
    ensures { result ≡ offered_length_ask n }
{
    if n % limit::OFFERED_WORDS != 0 || limit::OFFERED_WORDS * limit::OFFERED < n {
        return Err(Refusal::at(Question::OfferedRows, 0));
    }
    Ok(())
}

// Row k of an offered list, as a part of it.
pub fn offered_row(offered: &[u32], k: usize) -> &[u32]
    requires { k * 8 + 8 ≤ length offered.now }
    ensures { result.now ≡ offered_row offered.now k }
{
    let at = k * limit::OFFERED_WORDS;
    let end = at + limit::OFFERED_WORDS;
    &offered[at..end]
}

// Q32 of the rows of an offered list, over count record types.
pub fn offered_rows(count: u32, offered: &[u32]) -> Result<(), Refusal>
    requires { length offered.now ≤ 64 }
    ensures { result ≡ offered_rows_ask count offered.now }
{
    for k in 0..offered.len() / limit::OFFERED_WORDS {
        if !table::annotation_well(offered_row(offered, k), count) {
            return Err(Refusal::at(Question::OfferedRows, k));
        }
    }
    Ok(())
}

// Q32: of the blank blocks, the fourth of which may be one, then of the offered list.
pub fn offered_questions(count: u32, fourth: Option<usize>, offered: &[u32]) -> Result<(), Refusal>
    requires { IfSome fourth (λ b. b ≤ 256) }
    ensures { (blocks : List ℕ) → length blocks ≤ 2304 → fourth ≡ slice_get (blanks_of blocks) 3
        → result ≡ offer_ask count blocks offered.now }
{
    if let Some(block) = fourth {
        return Err(Refusal::at(Question::OfferedRows, block));
    }
    offered_length(offered.len())?;
    offered_rows(count, offered)
}

// ---- the row in force

// The annotations of a routine: the rows of its block table, the rows that are offered for the blank ones, and which block takes which.
#[derive(Clone, Copy)]
pub struct Annotations<'a, 'b: 'a> {
    pub blocks: &'a [u32],
    pub offered: &'b [u32],
    pub filling: Filling,
    pub ghost most: { length blocks.now ≤ 2304 },
    pub ghost fits: { Fits filling offered.now },
}

// The slice s, taken for the shorter lifetime of near.
fn nearer<'a, 'b: 'a>(near: &'a [u32], s: &'b [u32]) -> &'a [u32]
    ensures { result.now ≡ s.now }
{
    s
}

impl<'a, 'b: 'a> Annotations<'a, 'b> {
    // The annotation of block b: the offered row that it takes where it is blank, else its own of the table.
    pub fn in_force(&self, b: usize) -> &'a [u32]
        requires { b * 9 + 9 ≤ length self.now.blocks.now }
        ensures { result.now ≡ in_force self.now.blocks.now self.now.offered.now self.now.filling.blanks self.now.filling.places b }
    {
        match self.filling.blanks.iter().position(|blank| *blank == b) {
            Some(k) => offered_row(nearer(self.blocks, self.offered), self.filling.places[k]),
            None => table::type_words(self.blocks, b),
        }
    }
}
