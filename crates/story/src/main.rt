// Two barley lines, one plot each, and a moisture reading of 22 per cent on the second plot: a correction routine that sets the stage
// before the weight is refused, and so is one that writes over what was weighed; the right one takes turns with a ranking, which sees the
// old plot or the new one and nothing between.
#![tactic(auto)]

mod assembly;
mod plots;
mod routines;

use model::{RunAnswer, Verdict};
use page::Page;
use plots::Plots;
use routines::Routine;
use std::io;

#[derive(Clone, Copy)]
enum Who {
    Correction,
    Ranking,
}

impl Who {
    fn letter(self) -> u8 {
        match self {
            Who::Correction => b'c',
            Who::Ranking => b'r',
        }
    }
}

const C: Who = Who::Correction;

const R: Who = Who::Ranking;

// Whose turn it is, turn after turn: the ranking first, in turn from the one and from the other, two and two, the correction first.
const ORDERS: [[Who; 8]; 5] = [
    [R, R, R, R, C, C, C, C],
    [R, C, R, C, R, C, R, C],
    [C, R, C, R, C, R, C, R],
    [C, C, R, R, C, C, R, R],
    [C, C, C, C, R, R, R, R],
];

fn say(page: &mut Page, words: &[u8], v: Verdict) {
    page.text(words);
    page.put(b' ');
    page.verdict(v);
}

fn counted(page: &mut Page, words: &[u8], count: u32) {
    page.text(words);
    page.number(u64::from(count));
}

// The verdict on one routine, and what it cost.
fn judged<const B: usize, const N: usize>(
    page: &mut Page,
    words: &[u8],
    plots: &Plots,
    routine: &Routine<B, N>,
) {
    let answer = loader::check(&plots.types, &plots.tags, &routine.blocks, &routine.code);
    let v = Verdict {
        number: answer.number,
        first: answer.first,
        second: answer.second,
    };
    say(page, words, v);
    counted(page, b" after ", answer.asked);
    page.text(b" fit questions");
    page.line_end();
}

fn remembered(page: &mut Page, plots: &Plots) {
    say(page, b"memory:", plots.memory_check(&plots.memory));
    page.line_end();
}

// Whether a routine may start at its block 0.
fn entered<const B: usize, const N: usize>(
    page: &mut Page,
    words: &[u8],
    plots: &Plots,
    routine: &Routine<B, N>,
) {
    let v = loader::entry_check(
        &plots.types,
        &plots.tags,
        &plots.allocations,
        &plots.memory,
        &routine.blocks,
        &routine.code,
        0,
        routine.registers,
    );
    say(page, words, v);
    page.line_end();
}

// Whose turn it was, and whether every record fits after it.
fn turn_taken(page: &mut Page, plots: &Plots, who: Who, memory: &[u32]) {
    page.put(who.letter());
    if !model::passes(plots.memory_check(memory)) {
        page.text(b"(half written)");
    }
}

// What the ranking saw: the stage, and the weight where the stage is 1.
fn seen(page: &mut Page, ranking: RunAnswer) {
    counted(page, b": ranking answers ", ranking.number);
    counted(page, b" with stage ", ranking.registers[2]);
    counted(page, b", weight ", ranking.registers[4]);
}

fn left(page: &mut Page, correction: RunAnswer, memory: &[u32]) {
    counted(page, b"; correction answers ", correction.number);
    page.text(b" and leaves");
    page.words(memory);
    page.line_end();
}

// Eight turns of one block each, in this order.
fn taken_in<const B: usize, const N: usize, const D: usize, const M: usize>(
    page: &mut Page,
    plots: &Plots,
    correction: &Routine<B, N>,
    ranking: &Routine<D, M>,
    order: [Who; 8],
) {
    let mut memory = plots.memory;
    let mut corrected = correction.start(&mut memory);
    let mut ranked = ranking.start(&mut memory);
    page.text(b"turns ");
    for who in order {
        match who {
            Who::Correction => corrected = correction.turn(corrected, &mut memory),
            Who::Ranking => ranked = ranking.turn(ranked, &mut memory),
        }
        turn_taken(page, plots, who, &memory);
    }
    seen(page, ranked);
    left(page, corrected, &memory);
}

fn main(rt: HostRuntime) -> io::Result<()> {
    let plots = plots::two_plots();
    let hasty = routines::hasty();
    let overwriting = routines::overwriting();
    let correction = routines::correction();
    let ranking = routines::ranking();
    let mut page = Page::new();
    judged(
        &mut page,
        b"stage first, weight in a later block:",
        &plots,
        &hasty,
    );
    judged(
        &mut page,
        b"corrected weight over the raw one:",
        &plots,
        &overwriting,
    );
    judged(
        &mut page,
        b"stage and weight in one block:",
        &plots,
        &correction,
    );
    judged(&mut page, b"ranking:", &plots, &ranking);
    remembered(&mut page, &plots);
    entered(&mut page, b"correction enters:", &plots, &correction);
    entered(&mut page, b"ranking enters:", &plots, &ranking);
    for order in ORDERS {
        taken_in(&mut page, &plots, &correction, &ranking, order);
    }
    page.write(&rt)
}
