// The layer that takes silent moves together. It is made once, and a question is a look-up.
ghost use Rattle.std.specs.Prelude.{◌≡◌, IfOk};
ghost use Rattle.layers.specs.Quiet.{quiet_move, quiet, QuietKeepsTheStates, SilentByQuietPaths, VisibleBetweenQuietPaths, QuietOfQuiet};
ghost use Rattle.layers.specs.Sheet.{sheet_chart};
ghost use Rattle.layers.specs.Made.{IsSheet};

use crate::sheet::Sheet;
use charts::chart::Chart;
use std::alloc::{AllocError, Global};

// The words of a quiet chart.
#[derive(Drop)]
pub struct Quiet {
    sheet: Sheet,
}

impl Quiet {
    // The quiet chart of a chart, whose words are each read once. It fails only for want of memory.
    #[tactic(auto, using(crate::proofs::Quieting::quiet_count, crate::proofs::Quieting::silent_by_quiet_paths, crate::proofs::Quieting::visible_between_quiet_paths, crate::proofs::Quieting::quiet_of_quiet, crate::proofs::Quieting::quiet_kept))]
    pub fn over<C: Chart>(heap: Global, below: &C) -> Result<Quiet, AllocError>
        ensures meaning { IfOk result (λ q. sheet_chart q.sheet.count q.sheet.words.items ≡ quiet (C.Chart.meaning below.now)) }
        ensures quiet_keeps_the_states { QuietKeepsTheStates }
        ensures silent_by_quiet_paths { SilentByQuietPaths }
        ensures visible_between_quiet_paths { VisibleBetweenQuietPaths }
        ensures quiet_of_quiet { QuietOfQuiet }
    {
        let sheet = quiet_sheet(heap, below)?;
        Ok(Quiet { sheet })
    }
}

// The sheet of the quiet chart: along silent moves, by a move of the chart or by staying, and along silent moves.
#[tactic(auto, using(crate::proofs::Quieting::quiet_made))]
fn quiet_sheet<C: Chart>(heap: Global, below: &C) -> Result<Sheet, AllocError>
    ensures made { IfOk result (IsSheet (C.Chart.meaning below.now).count (quiet_move (C.Chart.meaning below.now))) }
{
    let moves = Sheet::of_moves(heap, below)?;
    let reach = moves.silent_reach(heap)?;
    let before = reach.followed_by(heap, &moves)?;
    before.followed_by(heap, &reach)
}

impl Chart for Quiet {
    ghost meaning = { λ q. sheet_chart q.sheet.count q.sheet.words.items };

    fn count(&self) -> usize {
        self.sheet.count()
    }

    fn word(&self, p: usize, q: usize) -> u32 {
        self.sheet.word(p, q)
    }
}
