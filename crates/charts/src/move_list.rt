// Moves, and lists of moves over so many states.
ghost use Rattle.std.specs.Prelude.{◌≤◌};

mod charts;
mod checks;
pub mod sameness;

// A move from a state, by a label, to a state.
#[derive(Clone, Copy, PartialEq, Eq, Debug)]
pub struct Move {
    pub from: usize,
    pub label: u8,
    pub to: usize,
}

// A count of states and moves among them, as told: nothing is checked yet.
#[derive(Clone, Copy)]
pub struct MoveList<'a> {
    pub count: usize,
    pub moves: &'a [Move],
}

// The chart of a move list: it has the list's count, or 0 where the list is refused.
#[derive(Clone, Copy)]
pub struct ListChart<'a> {
    list: MoveList<'a>,
    ghost few: { list.count ≤ 128 },
}
