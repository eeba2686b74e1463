// The tables: rows, lengths (Q1), field counts, type words and tags (Q2 to Q4), block lengths and annotations (Q5, Q6), start block (Q16).
#![tactic(auto)]

ghost use Rattle.std.specs.Prelude.{◌≡◌, List, ℕ, ◌+◌, ◌*◌, ◌≤◌, ◌<◌, length, get_or, ltb, leb, eqb};
ghost use Rattle.model.specs.Question.{◌and◌, pick, every, first_no, ok};
ghost use Rattle.model.specs.Word.{kind_of};
ghost use Rattle.model.specs.Table.{row_of, rows, head_of, words_of, tables_of, start_of, whole_rows, type_lengths_ask, code_lengths_ask, count_ask, uses_record};
ghost use Rattle.model.specs.Table.{dependency, well_made, fields_ask, tag_ask, types_ask, lengths_ask, annotation_well, annotations_ask, start_ask};
ghost use Rattle.table.specs.Row.{place_well, row_well};

use model::{Question, Refusal, limit};

// The names in an annotation are the registers.
const NAMES: u32 = limit::REGISTERS as u32;

// ---- rows

// How many rows a table has.
pub fn rows(table: &[u32]) -> usize
    ensures { result ≡ rows table.now }
{
    table.len() / limit::ROW_WORDS
}

// Row k, as a part of the table.
pub fn row(table: &[u32], k: usize) -> &[u32]
    requires { k * 9 + 9 ≤ length table.now }
    ensures { result.now ≡ row_of table.now k }
{
    let at = k * limit::ROW_WORDS;
    let end = at + limit::ROW_WORDS;
    &table[at..end]
}

// The number of row k: a field count, or a block's length.
pub fn head(table: &[u32], k: usize) -> u32
    requires { k * 9 + 9 ≤ length table.now }
    ensures { result ≡ head_of table.now k }
{
    row(table, k)[0]
}

// Type word j of row k.
pub fn type_word(table: &[u32], k: usize, j: usize) -> u32
    requires { (k * 9 + 9 ≤ length table.now) × (j < 8) }
    ensures { result ≡ get_or (words_of table.now k) j 0 }
{
    row(table, k)[j + 1]
}

// The type words of row k, as a part of the table.
pub fn type_words(table: &[u32], k: usize) -> &[u32]
    requires { k * 9 + 9 ≤ length table.now }
    ensures { result.now ≡ words_of table.now k }
{
    &row(table, k)[1..]
}

// ---- Q1

// Whether n words are whole rows, from one row to the most.
#[tactic(auto, using(model::proofs::Tests::decided))]
fn whole_rows(most: usize, n: usize) -> bool
    requires { most ≤ 65536 }
    ensures { result ≡ whole_rows most n }
{
    n % limit::ROW_WORDS == 0 && limit::ROW_WORDS <= n && n <= limit::ROW_WORDS * most
}

// Q1 for the type table, 0, and the tag table, 1.
#[tactic(auto, using(model::proofs::Tests::decided), unfolding(model::specs::Table::type_lengths_ask))]
pub fn type_lengths(types: usize, tags: usize) -> Result<(), Refusal>
    ensures { result ≡ type_lengths_ask types tags }
{
    if !whole_rows(limit::TYPES, types) {
        return Err(Refusal::at(Question::TableLength, 0));
    }
    if limit::TAGS < tags {
        return Err(Refusal::at(Question::TableLength, 1));
    }
    Ok(())
}

// Q1 for the block table, 2, and the code table, 3.
#[tactic(auto, using(model::proofs::Tests::decided), unfolding(model::specs::Table::code_lengths_ask))]
pub fn code_lengths(blocks: usize, code: usize) -> Result<(), Refusal>
    ensures { result ≡ code_lengths_ask blocks code }
{
    if !whole_rows(limit::BLOCKS, blocks) {
        return Err(Refusal::at(Question::TableLength, 2));
    }
    if !(1..=limit::CODE).contains(&code) {
        return Err(Refusal::at(Question::TableLength, 3));
    }
    Ok(())
}

// ---- type words

#[tactic(auto, using(model::proofs::Tests::decided))]
fn uses_record(kind: u32) -> bool
    ensures { result ≡ uses_record kind }
{
    kind == word::REF || kind == word::MAYBE || word::RUN <= kind
}

// A record type t of a kind that uses it exists; of another kind it is zero.
#[tactic(auto, using(model::proofs::Tests::decided))]
fn record_well(count: u32, kind: u32, t: u32) -> bool
    ensures { result ≡ pick (uses_record kind) (ltb t count) (eqb t 0) }
{
    if uses_record(kind) { t < count } else { t == 0 }
}

// A dependency byte x of a kind that uses it is a name below n or a constant; of another kind it is zero.
#[tactic(auto, using(model::proofs::Tests::decided))]
fn dependency_well(used: bool, n: u32, x: u32) -> bool
    ensures { result ≡ pick used (dependency n x) (eqb x 0) }
{
    if used {
        x < n || word::CONSTANTS <= x
    } else {
        x == 0
    }
}

// Whether w, of kind Run, From or In, is a type word over count record types and n names. Each of its parts is in use.
#[tactic(auto, using(model::proofs::Tests::decided), unfolding(model::specs::Table::well_made))]
fn span_well(count: u32, n: u32, w: u32) -> bool
    requires { (6 ≤ kind_of w) × (kind_of w ≤ 8) }
    ensures { result ≡ well_made count n w }
{
    word::record_type(w) < count
        && dependency_well(true, n, word::first_dependency(w))
        && dependency_well(true, n, word::second_dependency(w))
}

// Whether w is a type word over count record types and n names, be it marked or not. Any, the word 0, is by far the most common.
#[tactic(auto, using(model::proofs::Tests::decided), unfolding(model::specs::Table::well_made))]
pub fn well_made(count: u32, n: u32, w: u32) -> bool
    ensures { result ≡ well_made count n w }
{
    if w == 0 {
        return true;
    }
    let kind = word::kind(w);
    if word::IN < kind {
        return false;
    }
    if word::RUN <= kind {
        return span_well(count, n, w);
    }
    record_well(count, kind, word::record_type(w))
        && dependency_well(word::TAGGED <= kind, n, word::first_dependency(w))
        && word::second_dependency(w) == 0
}

// Whether word w of place f is well made, and marked only where marks are allowed, or zero past the n places in use.
#[tactic(auto, using(model::proofs::Tests::decided), unfolding(crate::specs::Row::place_well))]
fn place_well(count: u32, n: u32, marks: bool, f: usize, w: u32) -> bool
    ensures { result ≡ place_well count n marks f w }
{
    if (n as usize) <= f {
        return w == 0;
    }
    (marks || !word::locked(w)) && well_made(count, n, w)
}

// Whether the eight type words of a row are well made.
fn words_well(words: &[u32], count: u32, n: u32, marks: bool) -> bool
    requires { length words.now ≡ 8 }
    ensures { result ≡ every 8 0 (row_well count n marks words.now) }
{
    for (f, &w) in words.iter().enumerate() {
        if !place_well(count, n, marks, f, w) {
            return false;
        }
    }
    true
}

// ---- Q2 to Q4

// Whether a record type may have n fields.
#[tactic(auto, using(model::proofs::Tests::decided))]
fn count_well(n: u32) -> bool
    ensures { result ≡ (leb 1 n and leb n 8) }
{
    (1..=limit::FIELDS).contains(&n)
}

// Q2. The contract holds for any tags: they have no part in Q2 and Q3.
fn field_counts(types: &[u32]) -> Result<(), Refusal>
    requires { length types.now ≤ 576 }
    ensures { (tags : List ℕ) → result ≡ first_no (rows types.now) 0 (count_ask (tables_of types.now tags)) }
{
    for t in 0..rows(types) {
        if !count_well(head(types, t)) {
            return Err(Refusal::at(Question::FieldCount, t));
        }
    }
    Ok(())
}

// Q3. It allows the mark of a locked field.
fn field_words(types: &[u32]) -> Result<(), Refusal>
    requires { length types.now ≤ 576 }
    ensures { (tags : List ℕ) → result ≡ first_no (rows types.now) 0 (fields_ask (tables_of types.now tags)) }
{
    let count = rows(types);
    for t in 0..count {
        if !words_well(type_words(types, t), count as u32, head(types, t), true) {
            return Err(Refusal::at(Question::FieldType, t));
        }
    }
    Ok(())
}

// Q4.
fn tag_types(types: &[u32], tags: &[u32]) -> Result<(), Refusal>
    requires { (length types.now ≤ 576) × (length tags.now ≤ 64) }
    ensures { result ≡ first_no (length tags.now) 0 (tag_ask (tables_of types.now tags.now)) }
{
    let count = rows(types) as u32;
    for k in 0..tags.len() {
        if count <= tags[k] {
            return Err(Refusal::at(Question::Tag, k));
        }
    }
    Ok(())
}

// Q2 to Q4, each over all rows before the next.
#[tactic(auto, using(model::proofs::Tests::asked), unfolding(model::specs::Table::types_ask))]
pub fn types(types: &[u32], tags: &[u32]) -> Result<(), Refusal>
    requires { (length types.now ≤ 576) × (length tags.now ≤ 64) }
    ensures { result ≡ types_ask types.now tags.now }
{
    field_counts(types)?;
    field_words(types)?;
    tag_types(types, tags)
}

// ---- Q5 and Q6

// Whether a block of n instructions from code index i on is in range and inside the code. Asked by `contains`, the range would be two tests
// for each block and not one, with which a run of no blocks takes up to a half longer.
#[tactic(auto, using(model::proofs::Tests::decided))]
fn length_well(n: u32, i: u32, total: u32) -> bool
    requires { i ≤ 8192 }
    ensures { result ≡ (leb 1 n and leb n 32 and leb (i + n) total) }
{
    1 <= n && n <= limit::BLOCK_LENGTH && i + n <= total
}

// Q5. Where it passes, starts has the code index at which each block starts, and the code's length after the last.
pub fn lengths(
    blocks: &[u32],
    code: &[u32],
    starts: &mut [u32; limit::BLOCKS + 1],
) -> Result<(), Refusal>
    requires { (length blocks.now ≤ 2304) × (length code.now ≤ 8192) }
    ensures outcome { result ≡ lengths_ask blocks.now (length code.now) }
    ensures filled { length starts.old ≡ 257 → result ≡ ok tt
        → (b : ℕ) → b ≤ rows blocks.now → get_or starts.new b 0 ≡ start_of blocks.now b }
{
    let count = rows(blocks);
    let total = code.len() as u32;
    starts[0] = 0;
    let mut i = 0;
    for b in 0..count {
        let n = head(blocks, b);
        if !length_well(n, i, total) {
            return Err(Refusal::at(Question::BlockLength, b));
        }
        i += n;
        starts[b + 1] = i;
    }
    if i != total {
        return Err(Refusal::at(Question::BlockLength, count));
    }
    Ok(())
}

// Whether eight type words are an annotation over count record types. A register is no field, and its word has no mark.
pub fn annotation_well(words: &[u32], count: u32) -> bool
    requires { length words.now ≡ 8 }
    ensures { result ≡ every 8 0 (λ f. annotation_well count (get_or words.now f 0)) }
{
    words_well(words, count, NAMES, false)
}

// Q6, over count record types.
pub fn annotations(count: u32, blocks: &[u32]) -> Result<(), Refusal>
    requires { length blocks.now ≤ 2304 }
    ensures { result ≡ annotations_ask count blocks.now }
{
    for b in 0..rows(blocks) {
        if !annotation_well(type_words(blocks, b), count) {
            return Err(Refusal::at(Question::Annotation, b));
        }
    }
    Ok(())
}

// Q16.
#[tactic(auto, using(model::proofs::Tests::decided), unfolding(model::specs::Table::start_ask))]
pub fn start_block(blocks: &[u32], block: u32) -> Result<(), Refusal>
    ensures { result ≡ start_ask blocks.now block }
{
    if rows(blocks) <= block as usize {
        return Err(Refusal::at(Question::StartBlock, 0));
    }
    Ok(())
}
