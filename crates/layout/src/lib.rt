// The layout of memory: its length (Q17) and the allocations (Q19), asked after Q1 to Q4.
#![tactic(auto)]

ghost use Rattle.std.specs.Prelude.{◌≡◌, List, ℕ, ◌+◌, ◌*◌, ◌%◌, ◌≤◌, ◌<◌, length, get_or};
ghost use Rattle.model.specs.Table.{tables_of, memory_length_ask};
ghost use Rattle.model.specs.Allocation.{laid, rows_ask, allocations_ask};
ghost use Rattle.model.specs.MemoryCheck.{layout_ask};

use model::{Question, Refusal, limit};

// The most words that the allocation rows may have.
const MOST_WORDS: usize = limit::ALLOCATIONS * limit::ALLOCATION_WORDS;

// Q17.
#[tactic(auto, using(model::proofs::Tests::decided), unfolding(model::specs::Table::memory_length_ask))]
pub fn memory_length(n: usize) -> Result<(), Refusal>
    ensures { result ≡ memory_length_ask n }
{
    if !(1..=limit::MEMORY).contains(&n) {
        return Err(Refusal::at(Question::MemoryLength, 0));
    }
    Ok(())
}

// Where the record of allocation row k starts.
pub fn start(allocations: &[u32], k: usize) -> u32
    requires { k * 2 + 1 < length allocations.now }
    ensures { result ≡ get_or allocations.now (k * 2) 0 }
{
    allocations[k * limit::ALLOCATION_WORDS]
}

// The record type of allocation row k.
pub fn record_type(allocations: &[u32], k: usize) -> u32
    requires { k * 2 + 1 < length allocations.now }
    ensures { result ≡ get_or allocations.now (k * 2 + 1) 0 }
{
    allocations[k * limit::ALLOCATION_WORDS + 1]
}

// Whether the record of type t at p is at or above low, and with all its words below top.
#[tactic(auto, using(model::proofs::Tests::decided), unfolding(model::specs::Allocation::laid, model::specs::Table::tables_of))]
fn is_laid(types: &[u32], top: usize, low: usize, p: u32, t: u32) -> bool
    ensures { (tags : List ℕ) → result ≡ laid (tables_of types.now tags) top low p t }
{
    let start = p as usize;
    (t as usize) < table::rows(types)
        && low <= start
        && start + table::head(types, t as usize) as usize <= top
}

// Q19 of whole rows. The contract holds for any tags: they have no part in Q19.
fn rows(types: &[u32], allocations: &[u32], top: usize) -> Result<(), Refusal>
    requires { (length allocations.now % 2 ≡ 0) × (length allocations.now ≤ 8192) }
    ensures { (tags : List ℕ) → result ≡ rows_ask (tables_of types.now tags) top allocations.now 0 1 }
{
    let mut low = limit::FIRST_START;
    for k in 0..allocations.len() / limit::ALLOCATION_WORDS {
        let p = start(allocations, k);
        let t = record_type(allocations, k);
        if !is_laid(types, top, low, p, t) {
            return Err(Refusal::at(Question::Allocation, k));
        }
        low = p as usize + table::head(types, t as usize) as usize;
    }
    Ok(())
}

// Q19.
#[tactic(auto, using(model::proofs::Tests::decided), unfolding(model::specs::Allocation::allocations_ask))]
fn allocations(types: &[u32], allocations: &[u32], top: usize) -> Result<(), Refusal>
    ensures { (tags : List ℕ) → result ≡ allocations_ask (tables_of types.now tags) top allocations.now }
{
    if allocations.len() % limit::ALLOCATION_WORDS != 0 || MOST_WORDS < allocations.len() {
        return Err(Refusal::at(Question::Allocation, 0));
    }
    rows(types, allocations, top)
}

// Q1 to Q4 for types and tags, Q17 and Q19, over memory of top words.
#[tactic(auto, using(model::proofs::Tests::asked), unfolding(model::specs::MemoryCheck::layout_ask))]
pub fn layout(types: &[u32], tags: &[u32], allocations: &[u32], top: usize) -> Result<(), Refusal>
    ensures { result ≡ layout_ask types.now tags.now allocations.now top }
{
    table::type_lengths(types.len(), tags.len())?;
    table::types(types, tags)?;
    memory_length(top)?;
    self::allocations(types, allocations, top)
}
