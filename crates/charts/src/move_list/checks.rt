// The check of a move list.
ghost use Rattle.std.specs.Prelude.{◌≡◌, ◌↔◌, IsErr};
ghost use Rattle.std.specs.List.{list_any};
ghost use Rattle.charts.specs.Refusals.{told_by, refusal_told};
ghost use Rattle.charts.specs.MoveList.{bad_move, repeats, list_refusal, Fault};

use super::{Move, MoveList};
use crate::refusal::Refusal;
use crate::same::first_same;

// A chart has at most so many states.
const MOST_STATES: usize = 128;

// A word has so many labels.
const LABELS: u8 = 32;

impl MoveList<'_> {
    // Refuses the list where it has over 128 states, a state not below its count, a label over 31 or a repeated move.
    #[tactic(auto, unfolding(crate::specs::MoveList::faulty))]
    pub fn check(&self) -> Result<(), Refusal>
        ensures answer { refusal_told told_by result ≡ list_refusal self.now.count self.now.moves.now }
        ensures refused_exactly_for_a_fault { IsErr result ↔ Fault self.now.count self.now.moves.now }
    {
        if self.count > MOST_STATES
            || has_bad_move(self.moves, self.count)
            || has_repeat(self.moves)
        {
            return Err(Refusal::ImproperList);
        }
        Ok(())
    }
}

// The move has a state not below the count, or a label over 31.
#[tactic(auto, unfolding(crate::specs::MoveList::bad_move))]
fn is_bad(m: &Move, count: usize) -> bool
    ensures value { result ≡ bad_move count m.now }
{
    m.from >= count || m.to >= count || m.label >= LABELS
}

// Some move is bad.
fn has_bad_move(moves: &[Move], count: usize) -> bool
    ensures value { result ≡ list_any (bad_move count) moves.now }
{
    moves.iter().any(|m| is_bad(m, count))
}

// Some move is the same as one before it. Never inlined: within its caller, in one of five programs, the loop of the search lay so that it took
// 1.4 to 1.8 times as long.
#[tactic(auto, using(crate::proofs::Faults::repeats_none, crate::proofs::Faults::found_before), unfolding(crate::specs::MoveList::same_move))]
#[inline(never)]
fn has_repeat(moves: &[Move]) -> bool
    ensures value { result ≡ repeats moves.now }
{
    for (i, m) in moves.iter().enumerate() {
        if first_same(&moves[0..i], m).is_some() {
            return true;
        }
    }
    false
}
