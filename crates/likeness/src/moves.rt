// The move sheet of a chart: for n states n × n words, the word from p to q at p × n + q.
ghost use Rattle.std.specs.Prelude.{◌≡◌};
ghost use Rattle.charts.specs.Refusals.{refusal_told};
ghost use Rattle.likeness.specs.Refusals.{told_by};
ghost use Rattle.likeness.specs.Settle.{filling_refused, filled};
ghost use Rattle.likeness.specs.Sheet.{PairsStandInPlace};

use crate::refusal::Refusal;
use charts::chart::Chart;

// Fills a lent move sheet with the words of a chart. A longer sheet keeps its tail; a shorter one is refused, and nothing is written.
#[tactic(auto, using(crate::proofs::Laying::pairs_in_place))]
pub fn fill_moves<C: Chart>(chart: &C, moves: &mut [u32]) -> Result<(), Refusal>
    ensures answer { refusal_told told_by result ≡ filling_refused (C.Chart.meaning chart.now) moves.old }
    ensures moves_after { moves.new ≡ filled (C.Chart.meaning chart.now) moves.old }
    ensures pairs_stand_in_place { PairsStandInPlace }
{
    let n = chart.count();
    if moves.len() < n * n {
        return Err(Refusal::ShortSheet);
    }
    for (i, place) in moves[..n * n].iter_mut().enumerate() {
        *place = chart.word(i / n, i % n);
    }
    Ok(())
}
