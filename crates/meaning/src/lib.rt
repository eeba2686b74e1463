// The meanings: whether a word meets its type word, and the first word of a record or of the registers that does not.
#![tactic(auto)]

ghost use Rattle.std.specs.Prelude.{◌≡◌, List, ℕ, ◌-◌, ◌%◌, ◌≤◌, ◌<◌, eqb, length, get_or};
ghost use Rattle.model.specs.Word.{difference, first_of, second_of};
ghost use Rattle.model.specs.Types.{type_of, dep_of, word_of};
ghost use Rattle.model.specs.Table.{Tables, tables_of, rows, head_of};
ghost use Rattle.model.specs.MemoryCheck.{run_test, rank_test, tag_test, meets};
ghost use Rattle.meaning.specs.Owners.{Owned};
ghost use Rattle.meaning.specs.Search.{first_false, place_meets, Legible, EachHasField, WordsLegible};

use owner::Owners;

pub mod owner;

// What words mean: the record types and the tags, the allocations, and the table of owners that tells of them.
#[derive(Clone, Copy)]
pub struct Meanings<'a> {
    pub types: &'a [u32],
    pub tags: &'a [u32],
    pub allocations: &'a [u32],
    pub owners: &'a Owners,
    pub ghost fields: { EachHasField types.now },
    pub ghost owned: { Owned (tables_of types.now tags.now) allocations.now owners.now },
}

// The word that dependency byte x stands for: one of the names' words, or a constant.
fn dependency(names: &[u32], x: u32) -> u32
    requires { x < 8 → x < length names.now }
    ensures { result ≡ word_of (λ g. get_or names.now g 0) (dep_of x) }
{
    if x < word::CONSTANTS {
        names[x as usize]
    } else {
        x - word::CONSTANTS
    }
}

// The words that the two dependencies of type word w stand for: two functions, as `word` has two.
fn first(names: &[u32], w: u32) -> u32
    requires { first_of w < 8 → first_of w < length names.now }
    ensures { result ≡ word_of (λ g. get_or names.now g 0) (dep_of (first_of w)) }
{
    dependency(names, word::first_dependency(w))
}

fn second(names: &[u32], w: u32) -> u32
    requires { second_of w < 8 → second_of w < length names.now }
    ensures { result ≡ word_of (λ g. get_or names.now g 0) (dep_of (second_of w)) }
{
    dependency(names, word::second_dependency(w))
}

// What From and In ask beyond Run.
fn is_placed(kind: u32, d: u32, e: u32, p: u32) -> bool
    requires { (6 ≤ kind) × (kind ≤ 8) }
    ensures { (𝒯 : Tables) (allocations : List ℕ) → result ≡ rank_test 𝒯 allocations (kind - 6) d e p }
{
    match kind {
        word::RUN => true,
        word::FROM => d <= p,
        _ => d <= p && p < e,
    }
}

// How far p is from d, upwards. Below d this wraps, so that p = d - n is in step with records of n words from d on only where
// n divides 2^32.
fn distance(d: u32, p: u32) -> u32
    ensures { result ≡ difference p d }
{
    word::difference(p, d)
}

impl Meanings<'_> {
    ghost use Rattle.meaning.specs.Means.{tables};

    // Whether d is a tag in the table and p a reference to that tag's type.
    fn is_tagged(&self, d: u32, p: u32) -> bool
        ensures { result ≡ tag_test (tables self.now) self.now.allocations.now d p }
    {
        let k = d as usize;
        k < self.tags.len() && self.owners.starts(p, self.tags[k])
    }

    // Whether x words are whole records of type t.
    fn is_whole(&self, t: u32, x: u32) -> bool
        requires { t < rows self.now.types.now }
        ensures { result ≡ eqb (x % head_of self.now.types.now t) 0 }
    {
        x % table::head(self.types, t as usize) == 0
    }

    // Whether records of type t stand from d to e without a gap and p is in step with them. The table of owners has the end of
    // the run from d, so that no element is looked at.
    fn is_run(&self, t: u32, d: u32, e: u32, p: u32) -> bool
        requires { t < rows self.now.types.now }
        ensures { result ≡ run_test (tables self.now) self.now.allocations.now t d e p }
    {
        d < e
            && self.owners.reaches(d, t, e)
            && self.is_whole(t, e - d)
            && self.is_whole(t, distance(d, p))
    }

    // Whether word p meets type word w, whose names stand for the words of names. It and the search lie in the loop over the records:
    // with a call for each record the memory check took a quarter more time.
    #[inline(always)]
    fn is_met(&self, names: &[u32], w: u32, p: u32) -> bool
        requires { Legible (rows self.now.types.now) (length names.now) w }
        ensures { result ≡ meets (tables self.now) self.now.allocations.now (type_of w) (λ g. get_or names.now g 0) p }
    {
        let kind = word::kind(w);
        // Any, by far the most common, is tested before the match: that is a jump through a table, which took half as much again.
        if kind == word::ANY {
            return true;
        }
        let t = word::record_type(w);
        match kind {
            word::REF => self.owners.starts(p, t),
            word::MAYBE => p == 0 || self.owners.starts(p, t),
            word::TAGGED => p == 0 || self.is_tagged(first(names, w), p),
            word::PRESENT => p != 0 && self.is_tagged(first(names, w), p),
            word::SAME => p == first(names, w),
            _ => {
                let d = first(names, w);
                let e = second(names, w);
                is_placed(kind, d, e, p) && self.is_run(t, d, e, p)
            }
        }
    }

    // The first of the words of names that does not meet its type word, if any does not.
    #[inline(always)]
    pub fn first_unmet(&self, words: &[u32], names: &[u32]) -> Option<usize>
        requires { WordsLegible (rows self.now.types.now) words.now names.now }
        ensures { result ≡ first_false (length words.now) 0 (place_meets (tables self.now) self.now.allocations.now words.now names.now) }
    {
        for (i, w) in words.iter().enumerate() {
            if !self.is_met(names, *w, names[i]) {
                return Some(i);
            }
        }
        None
    }
}
