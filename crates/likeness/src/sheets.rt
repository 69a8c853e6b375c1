// The two sheets that a call is lent, each with a place for every pair of n states: the moves as words, and the levels.
ghost use Rattle.std.specs.Prelude.{◌≡◌, ◌*◌, ◌≤◌, length};

use layers::sheet::LentSheet;

// A filled move sheet and a level sheet for its states.
#[derive(Drop)]
pub(crate) struct Sheets<'m, 'l> {
    pub(crate) moves: LentSheet<'m, u32>,
    // A byte for each pair, 0 for no level: the format of a lent sheet is fixed so.
    pub(crate) levels: &'l mut [u8],
    ghost levels_suffice: { moves.count * moves.count ≤ length levels.now },
}

impl Sheets<'_, '_> {
    ghost use Rattle.likeness.specs.Reading.{levels_on};

    // The level of the pair, and 0 where either is no state.
    pub(crate) fn level_of(&self, p: usize, q: usize) -> u8
        ensures value { result ≡ levels_on self.now p q }
    {
        let levels = LentSheet {
            count: self.moves.count,
            values: &*self.levels,
        };
        levels.at(p, q).unwrap_or(0)
    }
}
