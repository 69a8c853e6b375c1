// Settles pairs of states: of the scan dialogue of a station, where in the first version the volunteer picks chill or shelf and in the second
// the handheld has picked already, and of chains of visible moves, which take the most rounds.
// Standard output has what was found, and is compared; standard error has the times.
#![tactic(auto)]

mod lists;

use charts::move_list::MoveList;
use dialogues::chain::chain;
use dialogues::checked::{Checked, Size, Verdict};
use likeness::rounds::settle;
use lists::both_versions;
use std::alloc::Global;
use std::io;
use std::rt::Clock;
use std::time::Instant;

// A limit of rounds that suffices for every chart.
const ROUNDS: usize = 128;

// A sheet of so many places suffices for every chart.
const PLACES: usize = 128 * 128;

// A label of visible moves.
const VISIBLE: u8 = 1;

// Prints what settling two states of a list's chart answers, on two sheets in the form that settling takes.
fn tell_settled(
    rt: &impl Print,
    list: MoveList,
    p: usize,
    q: usize,
    moves: &mut [u32],
    levels: &mut [u8],
) -> io::Result<()> {
    // No type for the verdict: the new form is no plainer, because here and in the trials other text stands round the two words.
    match settle(&list.chart(), p, q, ROUNDS, moves, levels) {
        Ok((depth, rounds)) => {
            let verdict = if depth == 0 { "like" } else { "unlike" };
            println!(rt; "  States {p} and {q} are {verdict}: depth {depth}, rounds {rounds}.")
        }
        Err(refusal) => println!(rt; "  States {p} and {q} are {refusal}."),
    }
}

// Settles the first state of a chain of visible moves with itself, which takes the most rounds.
fn run_rounds(rt: &(impl Print + Eprint + Clock), alloc: Global, n: usize) -> io::Result<()> {
    let steps = chain(alloc, n, VISIBLE)?;
    let list = MoveList {
        count: n,
        moves: &steps,
    };
    let chart = list.chart();
    let mut moves = vec![in alloc; 0u32; PLACES]?;
    let mut levels = vec![in alloc; 0u8; PLACES]?;
    let start = Instant::now(rt)?;
    let answer = settle(&chart, 0, 0, ROUNDS, &mut moves, &mut levels);
    let settled = start.elapsed(rt)?.as_micros();
    match answer {
        Ok((depth, rounds)) => println!(rt; "count {n}: depth {depth} after {rounds} rounds")?,
        Err(refusal) => println!(rt; "count {n}: {refusal}")?,
    }
    eprintln!(rt; "count {n}: settled after {settled} microseconds")
}

fn main(rt: HostRuntime) -> io::Result<()> {
    let list = MoveList {
        count: 9,
        moves: &both_versions(),
    };
    let title = "Both versions";
    rt.println(Size(Checked { title, list }))?;
    rt.println(Verdict(list))?;
    let mut moves = [0u32; 81];
    let mut levels = [0u8; 81];
    tell_settled(&rt, list, 0, 4, &mut moves, &mut levels)?;
    tell_settled(&rt, list, 2, 7, &mut moves, &mut levels)?;
    println!(rt; "Chains of visible moves:")?;
    for n in [1usize, 2, 16, 127, 128] {
        run_rounds(&rt, rt.alloc(), n)?;
    }
    Ok(())
}
