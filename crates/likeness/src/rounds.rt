// The rounds that give the pairs of states their levels, and the call that settles a pair.
ghost use Rattle.std.specs.Prelude.{◌≡◌, ℕ, suc, ◌<◌, min};
ghost use Rattle.charts.specs.Refusals.{answer_told};
ghost use Rattle.likeness.specs.Attack.{AttackedLevelsNeverLie, LevelsAreAttacked, LevelsGrowByAttacks};
ghost use Rattle.likeness.specs.Bisimulation.{WeakIsStrongWhenQuiet};
ghost use Rattle.likeness.specs.Formula.{AfterIsTold, UnevenIsDistinguished};
ghost use Rattle.likeness.specs.Levels.{level_to, some_level_after, EvenIsTold, EvenIsAnEquivalence, EvenShrinks, ClosedForGood, ClosedIsABisimulation, BisimulationsAreEven, LevelIsTold, ClosingDepthIsTold, LevelsAreBelowTheCount, ClosingDepthIsBelowTheCount, AlikeAtLevel0};
ghost use Rattle.likeness.specs.Reading.{chart_on, levels_on, SameSheets};
ghost use Rattle.likeness.specs.Refusals.{told_by};
ghost use Rattle.likeness.specs.Settle.{rounds_needed, settled_answer, settling, RoundsAreAtMostTheCount, VerdictsAreTrue};
ghost use Rattle.likeness.specs.Sheet.{by_pairs, laid, level_sheet};

use crate::moves::fill_moves;
use crate::refusal::Refusal;
use crate::sheets::Sheets;
use charts::chart::Chart;
use layers::sheet::LentSheet;

// Settles two states of a chart: their depth, which is their level and 0 where they are alike, and the rounds that were run to find it.
// Both are plain numbers, since the format of the answer is fixed so.
pub fn settle<C: Chart>(
    chart: &C,
    p: usize,
    q: usize,
    limit: usize,
    moves: &mut [u32],
    levels: &mut [u8],
) -> Result<(u8, u8), Refusal>
    ensures answer { answer_told told_by result ≡ (settling (C.Chart.meaning chart.now) p q limit moves.old levels.old).answer }
    ensures moves_after { moves.new ≡ (settling (C.Chart.meaning chart.now) p q limit moves.old levels.old).moves }
    ensures levels_after { levels.new ≡ (settling (C.Chart.meaning chart.now) p q limit moves.old levels.old).levels }
    ensures verdicts_are_true { VerdictsAreTrue }
    ensures even_is_told { EvenIsTold }
    ensures even_is_an_equivalence { EvenIsAnEquivalence }
    ensures even_shrinks { EvenShrinks }
    ensures closed_for_good { ClosedForGood }
    ensures closed_is_a_bisimulation { ClosedIsABisimulation }
    ensures bisimulations_are_even { BisimulationsAreEven }
    ensures alike_at_level_0 { AlikeAtLevel0 }
    ensures level_is_told { LevelIsTold }
    ensures closing_depth_is_told { ClosingDepthIsTold }
    ensures levels_are_below_the_count { LevelsAreBelowTheCount }
    ensures closing_depth_is_below_the_count { ClosingDepthIsBelowTheCount }
    ensures rounds_are_at_most_the_count { RoundsAreAtMostTheCount }
    ensures after_is_told { AfterIsTold }
    ensures uneven_is_distinguished { UnevenIsDistinguished }
    ensures levels_are_attacked { LevelsAreAttacked }
    ensures levels_grow_by_attacks { LevelsGrowByAttacks }
    ensures attacked_levels_never_lie { AttackedLevelsNeverLie }
    ensures weak_is_strong_when_quiet { WeakIsStrongWhenQuiet }
{
    let n = chart.count();
    if p >= n || q >= n {
        return Err(Refusal::NoSuchState);
    }
    if levels.len() < n * n {
        return Err(Refusal::ShortSheet);
    }
    fill_moves(chart, moves)?;
    let moves = LentSheet {
        count: n,
        values: moves,
    };
    let mut sheets = Sheets { moves, levels };
    sheets.run_rounds(p, q, limit)
}

// Each of these methods keeps the two lent sheets, and has to say so (`same_sheets`), since no type of a method that is lent them can.
impl Sheets<'_, '_> {
    // Clears the level sheet, and runs rounds until the pair has a level, a round gives no pair one, or the limit is reached.
    fn run_rounds(&mut self, p: usize, q: usize, limit: usize) -> Result<(u8, u8), Refusal>
        requires p_below { p < self.old.moves.count }
        requires q_below { q < self.old.moves.count }
        ensures answer { answer_told told_by result ≡ settled_answer (chart_on self.old) p q limit }
        ensures levels_after { self.new.levels.now ≡ laid (level_sheet (chart_on self.old) (min limit (rounds_needed (chart_on self.old) p q))) self.old.levels.now }
        ensures same_sheets { SameSheets self.old self.new }
    {
        self.clear();
        // No pair takes more rounds than there are states.
        let most = limit.min(self.moves.count) as u8;
        for rounds in 0..most {
            let given = self.run_round(rounds);
            let depth = self.level_of(p, q);
            if depth > 0 || !given {
                return Ok((depth, rounds + 1));
            }
        }
        Err(Refusal::LimitTooSmall)
    }

    // Sets the levels of all pairs to 0.
    fn clear(&mut self)
        ensures levels_after { self.new.levels.now ≡ laid (by_pairs self.old.moves.count (λ _ _. 0)) self.old.levels.now }
        ensures same_sheets { SameSheets self.old self.new }
    {
        let n = self.moves.count;
        self.levels[..n * n].fill(0);
    }

    // One round more: the pairs whose level is one more than the rounds before it are given it. Answers whether there is such a pair.
    #[tactic(auto, using(crate::proofs::Laying::count_kept, crate::proofs::Turning::turned_none, crate::proofs::Turning::round_given, crate::proofs::Turning::round_levels))]
    fn run_round(&mut self, rounds: u8) -> bool
        requires level_fits { rounds < 255 }
        requires levels_before { (p q : ℕ) → p < self.old.moves.count → q < self.old.moves.count → levels_on self.old p q ≡ level_to (chart_on self.old) rounds p q }
        ensures given { result ≡ some_level_after (chart_on self.old) rounds }
        ensures levels_after { self.new.levels.now ≡ laid (level_sheet (chart_on self.old) (suc rounds)) self.old.levels.now }
        ensures same_sheets { SameSheets self.old self.new }
    {
        let n = self.moves.count;
        let level = rounds + 1;
        let mut given = false;
        // The memory is fixed: the round writes the sheet that it reads, so it goes by places.
        for i in 0..n * n {
            if self.levels[i] == 0 && self.has_attack(i / n, i % n, level) {
                self.levels[i] = level;
                given = true;
            }
        }
        given
    }
}
