// Settles many pairs of states, strongly and weakly, for a comparison with another program's answers.
// Each line of the input is a trial: count, two states, a limit of rounds, and then moves, three numbers each. A line of the output has
// the strong answer and the weak one.
#![tactic(auto)]

use charts::chart::Chart;
use charts::move_list::{Move, MoveList};
use layers::quiet::Quiet;
use likeness::rounds::settle;
use std::alloc::{AllocError, Global};
use std::io::{BufRead, BufReader};

// A sheet of so many places suffices for every chart.
const PLACES: usize = 128 * 128;

// The two sheets that a trial is settled on, in the form that settling takes.
#[derive(Drop)]
struct Sheets {
    moves: Vec<u32>,
    levels: Vec<u8>,
}

impl Sheets {
    // Sheets of zeros.
    fn new(alloc: Global) -> Result<Sheets, AllocError> {
        Ok(Sheets {
            moves: vec![in alloc; 0u32; PLACES]?,
            levels: vec![in alloc; 0u8; PLACES]?,
        })
    }
}

// The numbers of a line.
fn numbers(alloc: Global, line: &str) -> anyhow::Result<Vec<usize>> {
    line.split_whitespace()
        .map(|word| word.parse::<usize>().map_err(anyhow::Error::from))
        .try_collect(alloc)
}

// The move that is told by three numbers.
fn told_move(from: usize, label: usize, to: usize) -> anyhow::Result<Move> {
    let label = u8::try_from(label)?;
    Ok(Move { from, label, to })
}

// The moves that are told by three numbers each; numbers left over tell none.
fn moves_of(alloc: Global, told: &[usize]) -> anyhow::Result<Vec<Move>> {
    told.chunks(3)
        .filter_map(|part| match part {
            &[from, label, to] => Some(told_move(from, label, to)),
            _ => None,
        })
        .try_collect(alloc)
}

// What settling answers, as it is printed. Neither this nor `run` is inlined: within `main` the loops of a long list lay so that they took up to
// 1.7 times as long.
#[inline(never)]
fn answer<C: Chart>(
    alloc: Global,
    chart: &C,
    p: usize,
    q: usize,
    limit: usize,
    sheets: &mut Sheets,
) -> Result<String, AllocError> {
    // No type for the verdict: the new form is no plainer, because here and in settling other text stands round the two words.
    match settle(chart, p, q, limit, &mut sheets.moves, &mut sheets.levels) {
        Ok((0, rounds)) => format!(in alloc; "like {rounds}"),
        Ok((depth, rounds)) => format!(in alloc; "unlike {depth} {rounds}"),
        Err(refusal) => format!(in alloc; "refused {}", u8::from(refusal)),
    }
}

// Runs the trial that a line tells; a line of fewer than four numbers tells none.
#[inline(never)]
fn run(rt: &impl Print, alloc: Global, line: &str, sheets: &mut Sheets) -> anyhow::Result<()> {
    let told = numbers(alloc, line)?;
    let &[count, p, q, limit, ref rest @ ..] = told.as_slice() else {
        return Ok(());
    };
    let moves = moves_of(alloc, rest)?;
    let list = MoveList {
        count,
        moves: &moves,
    };
    let chart = list.chart();
    let strong = answer(alloc, &chart, p, q, limit, sheets)?;
    let quiet = Quiet::over(alloc, &chart)?;
    let weak = answer(alloc, &quiet, p, q, limit, sheets)?;
    println!(rt; "{strong}, weakly {weak}")?;
    Ok(())
}

fn main(rt: HostRuntime) -> anyhow::Result<()> {
    let alloc = rt.alloc();
    let mut sheets = Sheets::new(alloc)?;
    for line in BufReader::new(alloc, rt.stdin())?.lines(alloc) {
        run(&rt, alloc, line?.as_str(), &mut sheets)?;
    }
    Ok(())
}
