// The parts of a request: words of the pool, each from where the part before it ends to its own end.
ghost use Rattle.std.specs.Prelude.{◌≡◌, ◌≤◌, length, get_or, take};
ghost use Rattle.grammar.specs.Grammar.{pool};
ghost use Rattle.protocol.specs.Said.{slice, parts_in};
ghost use Rattle.calls.specs.Requests.{part as part_of, registers_of};

use protocol::Pools;
use std::array;
use std::marker::Model;

// The words of a pool, and where each part of them ends. Contracts see the list of the parts.
#[derive(Drop)]
pub struct Parts<'a> {
    words: &'a [u32],
    ends: &'a [usize],
}

impl<'a> Model for Parts<'a> {
    ghost use Rattle.std.specs.Prelude.{ℕ, ◌≤◌, List, length};
    ghost use Rattle.grammar.specs.Grammar.{pool};
    ghost use Rattle.protocol.specs.Said.{cuts};

    ghost Value = { List (List ℕ) };

    ghost view = { λ p. cuts 0 p.ends.now p.words.now };

    ghost invariant = { λ p. length p.words.now ≤ pool };
}

impl<'a> Parts<'a> {
    // The parts of which so many ends are marked.
    pub fn of(pools: &'a Pools, marked: usize) -> Parts<'a>
        ensures { result ≡ parts_in pools.now.words pools.now.ends marked }
    {
        Parts {
            words: &pools.words,
            ends: first(&pools.ends, marked),
        }
    }

    // Part i; of a part that the request does not have, no words.
    pub fn part(&self, i: usize) -> &'a [u32]
        ensures place { result.now ≡ part_of self.now i }
        ensures short { length result.now ≤ pool }
    {
        let from = if i == 0 { 0 } else { end_of(self.ends, i - 1) };
        let to = end_of(self.ends, i);
        between(self.words, from, to)
    }
}

// The first so many of some ends, or all.
fn first(ends: &[usize], marked: usize) -> &[usize]
    ensures { result.now ≡ take marked ends.now }
{
    ends.get(..marked).unwrap_or(ends)
}

// Where part i ends; 0 for a part that the request does not have.
fn end_of(ends: &[usize], i: usize) -> usize
    ensures { result ≡ get_or ends.now i 0 }
{
    ends.get(i).copied().unwrap_or(0)
}

// The words between two places, none past the last.
fn between(words: &[u32], from: usize, to: usize) -> &[u32]
    ensures { result.now ≡ slice from to words.now }
{
    words.get(from..to.min(words.len())).unwrap_or(&[])
}

// Word i of a row, 0 past its end.
pub fn word(row: &[u32], i: usize) -> u32
    ensures { result ≡ get_or row.now i 0 }
{
    row.get(i).copied().unwrap_or(0)
}

// The eight words after a row's first.
pub fn registers(row: &[u32]) -> [u32; 8]
    ensures { result ≡ registers_of row.now }
{
    array::from_fn(|i| word(row, i + 1))
}

// The long number of a request, 0 where it has none.
pub fn long(pools: &Pools, stored: usize) -> u64
    ensures { result ≡ get_or (take stored pools.now.longs) 0 0 }
{
    if stored == 0 { 0 } else { pools.longs[0] }
}
