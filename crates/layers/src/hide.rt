// The layer that makes the labels of a set silent. It asks the chart below at each question.
ghost use Rattle.std.specs.Prelude.{◌≡◌};
ghost use Rattle.layers.specs.Hide.{hide, HideKeepsTheStates, SilentOnceHidden, VisibleOnceHidden};

use crate::SILENT;
use charts::chart::Chart;
use words::{complement, intersection, union};

// A chart, and the set of labels to hide.
#[derive(Drop)]
pub struct Hide<C> {
    below: C,
    set: u32,
}

impl<C: Chart> Hide<C> {
    // The layer over a chart.
    #[tactic(auto, using(crate::proofs::Hiding::hide_count, crate::proofs::Hiding::silent_once_hidden, crate::proofs::Hiding::visible_once_hidden))]
    pub fn over(below: C, set: u32) -> Hide<C>
        ensures meaning { hide result.set (C.Chart.meaning result.below) ≡ hide set (C.Chart.meaning below) }
        ensures hide_keeps_the_states { HideKeepsTheStates }
        ensures silent_once_hidden { SilentOnceHidden }
        ensures visible_once_hidden { VisibleOnceHidden }
    {
        Hide { below, set }
    }
}

impl<C: Chart> Chart for Hide<C> {
    ghost meaning = { λ h. hide h.set (C.Chart.meaning h.below) };

    #[tactic(auto, using(crate::proofs::Hiding::hide_count))]
    fn count(&self) -> usize {
        self.below.count()
    }

    fn word(&self, p: usize, q: usize) -> u32 {
        let word = self.below.word(p, q);
        let hidden = intersection(self.set, complement(SILENT));
        let told = if intersection(word, hidden) != 0 {
            union(word, SILENT)
        } else {
            word
        };
        intersection(told, complement(hidden))
    }
}
