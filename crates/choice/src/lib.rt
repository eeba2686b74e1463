// The check of a routine with blank annotations: the first choice of offered rows that makes it accepted.
//
// Choices go by number: that of places p, q and r for the three blank blocks is p * 64 + q * 8 + r, so that an earlier choice has a lesser
// number. Judging a block reads no rows but its own, its target's and the next block's. So a block is judged once for each choice of these,
// and not once for each choice; a no strikes out all choices with the same of these rows.
#![tactic(auto)]

ghost use Rattle.std.specs.Prelude.{◌≡◌, true, Bool, [], List, ℕ, ◌+◌, ◌*◌, ◌≤◌, ◌<◌, length, get_or, ltb, Option};
ghost use Rattle.model.specs.Question.{pick, refusing};
ghost use Rattle.model.specs.Table.{code_of, Routine};
ghost use Rattle.model.specs.Cost.{counting};
ghost use Rattle.model.specs.Reading.{laid_at};
ghost use Rattle.model.specs.Blank.{offered_row, offered_check, choosing, filled_after};
ghost use Rattle.blank.specs.Force.{Fits};
ghost use Rattle.verify.specs.Blocks.{tables_lent, Annotated, Divided, BlockAt, judged};
ghost use Rattle.choice.specs.Choices.{places_of, filling_of, mosts_of, is_choice, weight_of, weights_of, alike, passes, Offers, Weighs};
ghost use Rattle.choice.specs.Choices.{answered, BlockOf, Routines, Tried, Struck, Narrows, First, Searches, Opened};

use blank::{Annotations, Filling, NO_BLOCK};
use model::{CheckAnswer, OfferedAnswer, Question, Refusal, limit, number};
use verify::lent::{self, Block};

const CHOICES: usize = 512;

// What a choice is made of: the rows offered, the blank blocks, and how many places each has to choose from.
#[derive(Clone, Copy)]
struct Offer<'b> {
    offered: &'b [u32],
    blanks: [usize; limit::BLANKS],
    most: [usize; limit::BLANKS],
    ghost offers: { Offers blanks most offered.now },
}

// ---- choices by number

// The places of choice i.
fn places(i: usize) -> [usize; limit::BLANKS]
    ensures { result ≡ places_of i }
{
    [i / 64, i / 8 % 8, i % 8]
}

// How many rows each blank block has to choose from; a block that there is not has one place, 0.
fn mosts(blanks: [usize; limit::BLANKS], offers: usize) -> [usize; limit::BLANKS]
    ensures { result ≡ mosts_of blanks offers }
{
    blanks.map(|blank| if blank == NO_BLOCK { 1 } else { offers })
}

// ---- what a block reads

// What the place of a blank block weighs in a choice's number for block b: the whole where it is b, the next block or the target of b's last
// word, whether b leads there or not; else nothing, as its row is then not read.
fn weight(blank: usize, b: usize, target: usize, whole: usize) -> usize
    requires { b < 256 }
    ensures { result ≡ weight_of blank b target whole }
{
    if blank == b || blank == b + 1 || blank == target {
        whole
    } else {
        0
    }
}

// The least of the choices that a block cannot tell from choice i, by the weight of each blank block's place.
fn least_alike(weights: &[usize; limit::BLANKS], i: usize) -> usize
    requires { (i < 512) × Weighs weights.now }
    ensures { (result ≡ alike weights.now i) × (result < 512) }
{
    i / 64 * weights[0] + i / 8 % 8 * weights[1] + i % 8 * weights[2]
}

impl<'b> Offer<'b> {
    // Whether i is the number of a choice.
    fn has(&self, i: usize) -> bool
        ensures { result ≡ is_choice self.now.most i }
    {
        i / 64 < self.most[0] && i / 8 % 8 < self.most[1] && i % 8 < self.most[2]
    }

    // The blank blocks with the places of choice i.
    fn filling(&self, i: usize) -> Filling
        ensures { result ≡ filling_of self.now.blanks i }
    {
        Filling {
            blanks: self.blanks,
            places: places(i),
        }
    }

    // The weights of the blank blocks for block b.
    fn weights(&self, b: usize, target: usize) -> [usize; limit::BLANKS]
        requires { b < 256 }
        ensures { (result ≡ weights_of self.now.blanks b target) × Weighs result }
    {
        [
            weight(self.blanks[0], b, target, 64),
            weight(self.blanks[1], b, target, 8),
            weight(self.blanks[2], b, target, 1),
        ]
    }
}

// ---- judging

// Whether a block has no no with the rows of choice i.
fn block_passes<'a, 'b: 'a>(
    routine: &lent::Routine<'a>,
    offer: &Offer<'b>,
    block: &Block,
    i: usize,
) -> bool
    requires { (block.now.number * 9 + 9 ≤ length routine.now.blocks.now) × (is_choice offer.now.most i ≡ true) }
    ensures { (P : Routine) → Annotated P routine.now.blocks.now offer.now.offered.now (filling_of offer.now.blanks i)
        → BlockAt P block.now.number block.now.first block.now.code.now
        → result ≡ passes (tables_lent routine.now) P block.now.number }
{
    let annotations = Annotations {
        blocks: routine.blocks,
        offered: offer.offered,
        filling: offer.filling(i),
    };
    verify::block(routine, &annotations, block, 0).number == number::PASSED
}

// Whether block b has no no with choice i, where that is a choice and the least of those alike; else a no.
fn tried<'a, 'b: 'a>(
    routine: &lent::Routine<'a>,
    offer: &Offer<'b>,
    block: &Block,
    weights: &[usize; limit::BLANKS],
    i: usize,
) -> bool
    requires { (block.now.number * 9 + 9 ≤ length routine.now.blocks.now) × Weighs weights.now × (i < 512) }
    ensures { (P : ℕ → Routine)
        → BlockOf P routine.now.blocks.now offer.now.offered.now offer.now.blanks offer.now.most block.now.number block.now.first block.now.code.now
        → is_choice offer.now.most i ≡ true → alike weights.now i ≡ i → result ≡ passes (tables_lent routine.now) (P i) block.now.number }
{
    least_alike(weights, i) == i && offer.has(i) && block_passes(routine, offer, block, i)
}

// What a block comes to with each choice that is the least of those alike.
fn try_choices<'a, 'b: 'a>(
    routine: &lent::Routine<'a>,
    offer: &Offer<'b>,
    block: &Block,
    weights: &[usize; limit::BLANKS],
    passed: &mut [bool; CHOICES],
)
    requires { (block.now.number * 9 + 9 ≤ length routine.now.blocks.now) × Weighs weights.now × (length passed.old ≡ 512) }
    ensures { (length passed.new ≡ 512)
        × ((P : ℕ → Routine)
        → BlockOf P routine.now.blocks.now offer.now.offered.now offer.now.blanks offer.now.most block.now.number block.now.first block.now.code.now
        → Tried (tables_lent routine.now) P offer.now.most weights.now block.now.number passed.new 512) }
{
    for i in 0..CHOICES {
        passed[i] = tried(routine, offer, block, weights, i);
    }
}

// Strikes out each choice where the least of those alike did not pass.
fn strike(left: &mut [bool; CHOICES], passed: &[bool; CHOICES], weights: &[usize; limit::BLANKS])
    requires { (length left.old ≡ 512) × (length passed.now ≡ 512) × Weighs weights.now }
    ensures { Struck weights.now passed.now left.old left.new 512 }
{
    for i in 0..CHOICES {
        left[i] = left[i] && passed[least_alike(weights, i)];
    }
}

// Strikes out the choices with which a block has a no. Where it can read no blank row, all choices are alike: the answer is false if it then
// has a no, and no choice is left.
fn narrow<'a, 'b: 'a>(
    routine: &lent::Routine<'a>,
    offer: &Offer<'b>,
    block: &Block,
    left: &mut [bool; CHOICES],
) -> bool
    requires { (block.now.number * 9 + 9 ≤ length routine.now.blocks.now) × (length left.old ≡ 512) }
    ensures { (length left.new ≡ 512)
        × ((P : ℕ → Routine)
        → BlockOf P routine.now.blocks.now offer.now.offered.now offer.now.blanks offer.now.most block.now.number block.now.first block.now.code.now
        → Narrows (tables_lent routine.now) P offer.now.most block.now.number left.old left.new result) }
{
    let last = block.code[block.code.len() - 1];
    let weights = offer.weights(block.number, instruction::target(last) as usize);
    if weights[0] + weights[1] + weights[2] == 0 {
        return block_passes(routine, offer, block, 0);
    }
    let mut passed = [false; CHOICES];
    try_choices(routine, offer, block, &weights, &mut passed);
    strike(left, &passed, &weights);
    true
}

// ---- the search

// The number of the first choice that is left.
fn first_left(offer: &Offer, left: &[bool; CHOICES]) -> Option<usize>
    requires { length left.now ≡ 512 }
    ensures { First offer.now.most left.now result }
{
    for i in 0..CHOICES {
        if left[i] && offer.has(i) {
            return Some(i);
        }
    }
    None
}

// The number of the first choice with which all blocks pass.
fn search<'a, 'b: 'a>(routine: &lent::Routine<'a>, offer: &Offer<'b>) -> Option<usize>
    ensures { (P : ℕ → Routine)
        → Routines P (code_of routine.now.blocks.now routine.now.code.now) offer.now.offered.now offer.now.blanks offer.now.most
        → Searches (tables_lent routine.now) P offer.now.most result }
{
    let mut left = [true; CHOICES];
    for b in 0..routine.count() {
        if !narrow(routine, offer, &routine.block(b), &mut left) {
            return None;
        }
    }
    first_left(offer, &left)
}

// ---- the check

// A check's answer, and the places of choice i, which was made.
fn chosen(a: CheckAnswer, i: usize) -> OfferedAnswer
    requires { i < 512 }
    ensures { result ≡ choosing a (places_of i) }
{
    let [first, second, third] = places(i);
    OfferedAnswer {
        number: a.number,
        first: a.first,
        second: a.second,
        asked: a.asked,
        choice: [first as u32, second as u32, third as u32],
    }
}

// A no before any choice, or for want of one: nothing is counted, and nothing chosen.
#[tactic(auto, unfolding(model::specs::Question::verdict_of))]
fn refused(no: Refusal) -> OfferedAnswer
    ensures { result ≡ choosing (counting (refusing no) 0) [] }
{
    chosen(verify::counting(Err(no), 0), 0)
}

// The answer of choice i: number, place and count of its own check.
fn with_choice<'a, 'b: 'a>(
    routine: &lent::Routine<'a>,
    offer: &Offer<'b>,
    i: usize,
) -> OfferedAnswer
    requires { (i < 512) × (is_choice offer.now.most i ≡ true) }
    ensures { (P : Routine) → Annotated P routine.now.blocks.now offer.now.offered.now (filling_of offer.now.blanks i)
        → Divided P (code_of routine.now.blocks.now routine.now.code.now)
        → result ≡ choosing (judged (tables_lent routine.now) P) (places_of i) }
{
    chosen(verify::judge(routine, offer.offered, offer.filling(i)), i)
}

// The first choice that is accepted, past the questions before it, or Q33's no. Often number 0 is, which then costs one check.
fn choose<'a, 'b: 'a>(
    routine: &lent::Routine<'a>,
    offered: &'b [u32],
    blanks: [usize; limit::BLANKS],
) -> Result<OfferedAnswer, Refusal>
    requires { Opened routine.now.types.now routine.now.tags.now (code_of routine.now.blocks.now routine.now.code.now) offered.now blanks }
    ensures { answered result ≡ offered_check routine.now.types.now routine.now.tags.now
        (code_of routine.now.blocks.now routine.now.code.now) offered.now }
{
    let none = Refusal::at(Question::NoChoice, blanks[0]);
    let offers = offered.len() / limit::OFFERED_WORDS;
    if offers == 0 {
        return Err(none);
    }
    let offer = Offer {
        offered,
        blanks,
        most: mosts(blanks, offers),
    };
    let first = with_choice(routine, &offer, 0);
    if first.number == number::PASSED {
        return Ok(first);
    }
    match search(routine, &offer) {
        Some(i) => Ok(with_choice(routine, &offer, i)),
        None => Err(none),
    }
}

// The questions of the tables, then the blocks: with no blank row as they are, and the list is not read; else with the rows chosen.
fn offered_ask<'a, 'b: 'a>(
    types: &'a [u32],
    tags: &'a [u32],
    blocks: &'a [u32],
    code: &'a [u32],
    offered: &'b [u32],
) -> Result<OfferedAnswer, Refusal>
    ensures { answered result ≡ offered_check types.now tags.now (code_of blocks.now code.now) offered.now }
{
    let mut starts = [0u32; limit::BLOCKS + 1];
    verify::first_questions(types, tags, blocks, code, &mut starts)?;
    let count = table::rows(types) as u32;
    blank::open_annotations(count, blocks)?;
    let rows = instruction::opcode_rows();
    let routine = lent::Routine {
        rows: &rows,
        types,
        tags,
        blocks,
        code,
        starts: &starts,
    };
    let blanks = blank::blank_blocks(blocks);
    if blanks.three[0] == NO_BLOCK {
        let answer = verify::judge(&routine, offered, blank::unfilled());
        return Ok(chosen(answer, 0));
    }
    blank::offered_questions(count, blanks.fourth, offered)?;
    choose(&routine, offered, blanks.three)
}

// The check of a routine whose annotations may be blank, with rows offered for them.
pub fn check_offered<'a, 'b: 'a>(
    types: &'a [u32],
    tags: &'a [u32],
    blocks: &'a [u32],
    code: &'a [u32],
    offered: &'b [u32],
) -> OfferedAnswer
    ensures { result ≡ offered_check types.now tags.now (code_of blocks.now code.now) offered.now }
{
    match offered_ask(types, tags, blocks, code, offered) {
        Ok(answer) => answer,
        Err(no) => refused(no),
    }
}

// ---- filling

// Lays row k of an offered list over the type words of block b; nothing where there is no such block.
fn lay(blocks: &mut [u32], offered: &[u32], b: usize, k: u32)
    requires { b < 256 → (b * 9 + 9 ≤ length blocks.old) × (k * 8 + 8 ≤ length offered.now) }
    ensures laid { blocks.new
        ≡ pick (ltb b 256) (laid_at blocks.old (b * 9 + 1) (offered_row offered.now k)) blocks.old }
    ensures long { length blocks.new ≡ length blocks.old }
{
    if NO_BLOCK <= b {
        return;
    }
    let first = b * limit::ROW_WORDS + 1;
    let end = first + limit::OFFERED_WORDS;
    blocks[first..end].copy_from_slice(blank::offered_row(offered, k as usize));
}

// The check with offered rows; and where it accepts the routine, the chosen rows are laid into its block table, for the other calls.
pub fn fill(
    types: &[u32],
    tags: &[u32],
    blocks: &mut [u32],
    code: &[u32],
    offered: &[u32],
) -> OfferedAnswer
    ensures answer { result
        ≡ offered_check types.now tags.now (code_of blocks.old code.now) offered.now }
    ensures filled { blocks.new ≡ filled_after result blocks.old offered.now }
{
    let a = check_offered(types, tags, blocks, code, offered);
    if a.number != number::PASSED {
        return a;
    }
    let blanks = blank::blank_blocks(blocks);
    for k in 0..limit::BLANKS {
        lay(blocks, offered, blanks.three[k], a.choice[k]);
    }
    a
}
