// Whether a pair of states has an attack under a sheet of levels.
ghost use Rattle.std.specs.Prelude.{ℕ, ◌<◌, ◌↔◌, true, false, IsTrue, IsFalse};
ghost use Rattle.words.specs.Bits.{bit};
ghost use Rattle.charts.specs.Meaning.{has_move};
ghost use Rattle.likeness.specs.Attack.{Lower, AttackBy, Attack};
ghost use Rattle.likeness.specs.Bisimulation.{Answered};
ghost use Rattle.likeness.specs.Reading.{chart_on, levels_on};

use crate::sheets::Sheets;
use charts::chart::Chart;
use words::{contains, union};

impl Sheets<'_, '_> {
    // The pair has an attack of level k. Whichever state moves, the level that counts is that of the pair with the first one's target first.
    pub(crate) fn has_attack(&self, p: usize, q: usize, k: u8) -> bool
        ensures tells { IsTrue result ↔ Attack (chart_on self.now) (levels_on self.now) k p q }
    {
        attacks(&self.moves, p, q, |t, u| self.is_lower(t, u, k))
            || attacks(&self.moves, q, p, |u, t| self.is_lower(t, u, k))
    }

    // The level of the pair is 1 to k - 1.
    fn is_lower(&self, p: usize, q: usize, k: u8) -> bool
        ensures tells { IsTrue result ↔ Lower k (levels_on self.now p q) }
    {
        let level = self.level_of(p, q);
        0 < level && level < k
    }
}

// Some move of the mover leads, with each answer by the same label, to states at which `lower` answers true, the mover's first.
fn attacks<C: Chart, L: Fn(usize, usize) -> bool>(
    chart: &C,
    mover: usize,
    answerer: usize,
    lower: L,
) -> bool
    requires { L.IsAlwaysCallable lower }
    ensures attack { IsTrue result → AttackBy (C.Chart.meaning chart.now) (λ t u. L.post lower t u true) mover answerer }
    ensures no_attack { IsFalse result → Answered (C.Chart.meaning chart.now) (C.Chart.meaning chart.now) (λ t u. L.post lower t u false) mover answerer }
{
    let n = chart.count();
    let offered = labels_of(chart, mover);
    // Three nested loops, left by their labels: the form is a rule of the project (docs/DECISIONS.md, 38).
    'labels: for a in 0u8..32 {
        if !contains(offered, a) {
            continue 'labels;
        }
        'targets: for t in 0..n {
            if !contains(chart.word(mover, t), a) {
                continue 'targets;
            }
            'answers: for u in 0..n {
                if contains(chart.word(answerer, u), a) && !lower(t, u) {
                    continue 'targets;
                }
            }
            return true;
        }
    }
    false
}

// The labels by which p moves.
fn labels_of<C: Chart>(chart: &C, p: usize) -> u32
    ensures tells { (a : ℕ) → a < 32 → (IsTrue (bit result a) ↔ ((t : ℕ) × IsTrue (has_move (C.Chart.meaning chart.now) p a t))) }
{
    (0..chart.count()).fold(0, |labels, t| union(labels, chart.word(p, t)))
}
