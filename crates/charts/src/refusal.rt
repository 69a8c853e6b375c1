// The refusals of this crate's calls. specs/Refusals.antt says which number and values each case stands for.
ghost use Rattle.std.specs.Prelude.{◌≡◌, ◌++◌, Some, codes, decimal};
ghost use Rattle.charts.specs.Refusals.{told_by};

use std::error::Error;
use std::fmt;

#[derive(Clone, Copy, PartialEq, Eq, Debug)]
pub enum Refusal {
    // A list has over 128 states, a state not below its count, a label over 31 or a repeated move.
    ImproperList,
}

// The number of the refusal.
impl From<Refusal> for u8 {
    ghost from_gives = { λ refusal number. number ≡ (told_by refusal).number };

    fn from(refusal: Refusal) -> u8 {
        match refusal {
            Refusal::ImproperList => 20,
        }
    }
}

impl fmt::Display for Refusal {
    ghost output = { λ refusal. Some (codes "refused, number " ++ decimal (told_by refusal).number) };

    fn fmt<W: fmt::Write>(&self, f: &mut fmt::Formatter<W>) -> fmt::Result {
        write!(f, "refused, number {}", u8::from(*self))
    }
}

impl Error for Refusal {}
