// The acts of the station's dialogues. specs/Act.antt says which label stands for each one, and its name.
ghost use Rattle.std.specs.Prelude.{◌≡◌, ◌++◌, Some, codes, decimal};
ghost use Rattle.charts.specs.MoveList.{move};
ghost use Rattle.dialogues.specs.Act.{label_of, name_of, IsActOf};

use charts::move_list::Move;
use std::error::Error;
use std::fmt;

// What is done in a move; tau is silent.
#[derive(Clone, Copy, PartialEq, Eq, Debug)]
pub enum Act {
    Tau = 0,
    Scan = 1,
    Chill = 2,
    Shelf = 3,
    Check = 4,
    Key = 5,
}

// A label that stands for no act.
#[derive(Clone, Copy, PartialEq, Eq, Debug)]
pub struct UnknownLabel(pub u8);

// The label of the act.
impl From<Act> for u8 {
    ghost from_gives = { λ act label. label ≡ label_of act };

    fn from(act: Act) -> u8 {
        act as u8
    }
}

// The act of the label.
impl TryFrom<u8> for Act {
    type Error = UnknownLabel;

    ghost try_from_gives = { IsActOf };

    fn try_from(label: u8) -> Result<Act, UnknownLabel> {
        match label {
            0 => Ok(Act::Tau),
            1 => Ok(Act::Scan),
            2 => Ok(Act::Chill),
            3 => Ok(Act::Shelf),
            4 => Ok(Act::Check),
            5 => Ok(Act::Key),
            _ => Err(UnknownLabel(label)),
        }
    }
}

impl fmt::Display for Act {
    ghost output = { λ act. Some (name_of act) };

    fn fmt<W: fmt::Write>(&self, f: &mut fmt::Formatter<W>) -> fmt::Result {
        f.write_str(match self {
            Act::Tau => "tau",
            Act::Scan => "scan",
            Act::Chill => "chill",
            Act::Shelf => "shelf",
            Act::Check => "check",
            Act::Key => "key",
        })
    }
}

impl fmt::Display for UnknownLabel {
    ghost output = { λ unknown. Some (codes "label " ++ (decimal unknown.0 ++ codes " stands for no act")) };

    fn fmt<W: fmt::Write>(&self, f: &mut fmt::Formatter<W>) -> fmt::Result {
        write!(f, "label {} stands for no act", self.0)
    }
}

impl Error for UnknownLabel {}

// The move from a state, by the label of an act, to a state.
pub fn step(from: usize, act: Act, to: usize) -> Move
    ensures value { result ≡ move from (label_of act) to }
{
    Move {
        from,
        label: u8::from(act),
        to,
    }
}
