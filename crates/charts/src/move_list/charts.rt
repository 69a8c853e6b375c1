// The chart of a move list.
ghost use Rattle.std.specs.Prelude.{◌≡◌};
ghost use Rattle.words.specs.Bits.{word_of};
ghost use Rattle.charts.specs.Meaning.{ChartsHaveTheirMoves};
ghost use Rattle.charts.specs.MoveList.{listed, list_chart, stands_for, MovesAsListed};

use super::{ListChart, Move, MoveList};
use crate::chart::Chart;
use words::{singleton, union};

impl<'a> MoveList<'a> {
    // The chart of the list: exactly the listed moves, or no states where the list is refused. The list is checked here, once.
    #[tactic(auto, using(crate::proofs::Meanings::moves_decides))]
    pub fn chart(self) -> ListChart<'a>
        ensures meaning { stands_for result ≡ list_chart self.entry.count self.entry.moves.now }
        ensures moves_as_listed { MovesAsListed (stands_for result) self.entry.count self.entry.moves.now }
        ensures charts_have_their_moves { ChartsHaveTheirMoves }
    {
        let count = match self.check() {
            Ok(()) => self.count,
            Err(_) => 0,
        };
        ListChart {
            list: MoveList { count, ..self },
        }
    }
}

impl Chart for ListChart<'_> {
    ghost meaning = { stands_for };

    #[tactic(auto, using(crate::proofs::Meanings::count_is))]
    fn count(&self) -> usize {
        self.list.count
    }

    #[tactic(auto, using(crate::proofs::Meanings::word_inside, crate::proofs::Meanings::word_outside))]
    fn word(&self, p: usize, q: usize) -> u32 {
        if p >= self.list.count || q >= self.list.count {
            return 0;
        }
        labels_between(self.list.moves, p, q)
    }
}

// The labels of the moves from p to q.
fn labels_between(moves: &[Move], p: usize, q: usize) -> u32
    ensures value { result ≡ word_of (λ a. listed moves.now p a q) }
{
    let mut word = 0;
    for m in moves {
        if m.from == p && m.to == q {
            word = union(word, singleton(m.label));
        }
    }
    word
}
