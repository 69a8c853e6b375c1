// How long quiet charts take to make and to ask, on rings of up to 128 states whose moves are silent but the last.
// Standard output has what was found, and is compared; standard error has the times.
#![tactic(auto)]

ghost use Rattle.std.specs.Prelude.{◌≤◌};

use charts::chart::Chart;
use charts::move_list::{Move, MoveList};
use dialogues::chain::chain;
use layers::quiet::Quiet;
use std::alloc::{AllocError, Global};
use std::io;
use std::rt::Clock;
use std::time::Instant;
use words::contains;

// The label of silent moves.
const SILENT: u8 = 0;

// A label of visible moves.
const VISIBLE: u8 = 1;

// A ring of n states: each moves silently to the next, and the last one visibly to the first.
fn ring(alloc: Global, n: usize) -> Result<Vec<Move>, AllocError> {
    let mut moves = chain(alloc, n, SILENT)?;
    moves.push(Move {
        from: n.saturating_sub(1),
        label: VISIBLE,
        to: 0,
    })?;
    Ok(moves)
}

// How many words from p have the label.
fn words_from<C: Chart>(chart: &C, p: usize, label: u8) -> usize
    ensures few { result ≤ 128 }
{
    (0..chart.count())
        .filter(|&q| contains(chart.word(p, q), label))
        .count()
}

// How many words have the label.
fn words_with<C: Chart>(chart: &C, label: u8) -> usize {
    (0..chart.count())
        .map(|p| words_from(chart, p, label))
        .sum()
}

// Makes the quiet chart of a ring, and asks for every word of it, once for each label.
fn run(rt: &(impl Print + Eprint + Clock), alloc: Global, n: usize) -> io::Result<()> {
    let moves = ring(alloc, n)?;
    let list = MoveList {
        count: n,
        moves: &moves,
    };
    let below = list.chart();
    let start = Instant::now(rt)?;
    let quiet = Quiet::over(alloc, &below)?;
    let made = start.elapsed(rt)?.as_micros();
    let silent = words_with(&quiet, SILENT);
    let visible = words_with(&quiet, VISIBLE);
    let asked = start.elapsed(rt)?.as_micros();
    println!(rt; "count {n}: label 0 in {silent} words, label 1 in {visible}")?;
    eprintln!(rt; "count {n}: made after {made} microseconds, asked after {asked}")
}

fn main(rt: HostRuntime) -> io::Result<()> {
    for n in [1usize, 2, 16, 127, 128] {
        run(&rt, rt.alloc(), n)?;
    }
    Ok(())
}
