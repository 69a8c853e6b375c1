// How the tests tell moves.
use charts::move_list::Move;

// The move from p by a label to q.
pub(crate) fn to(from: usize, label: u8, to: usize) -> Move {
    Move { from, label, to }
}
