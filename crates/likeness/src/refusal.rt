// The refusals of this crate's calls. specs/Refusals.antt says which number and values each case stands for.
ghost use Rattle.std.specs.Prelude.{◌≡◌};
ghost use Rattle.likeness.specs.Refusals.{told_by};

use std::error::Error;
use std::fmt;

#[derive(Clone, Copy, PartialEq, Eq, Debug)]
pub enum Refusal {
    // A state is not below the count.
    NoSuchState,
    // A sheet is too short.
    ShortSheet,
    // The limit is too small.
    LimitTooSmall,
}

// The number of a refusal.
impl From<Refusal> for u8 {
    ghost from_gives = { λ refusal number. number ≡ (told_by refusal).number };

    fn from(refusal: Refusal) -> u8 {
        match refusal {
            Refusal::NoSuchState => 11,
            Refusal::ShortSheet => 12,
            Refusal::LimitTooSmall => 16,
        }
    }
}

// The words are those of every refusal; each enum has an impl of its own, since one impl is of one type.
impl fmt::Display for Refusal {
    ghost use Rattle.std.specs.Prelude.{◌++◌, Some, codes, decimal};

    ghost output = { λ refusal. Some (codes "refused, number " ++ decimal (told_by refusal).number) };

    fn fmt<W: fmt::Write>(&self, f: &mut fmt::Formatter<W>) -> fmt::Result {
        write!(f, "refused, number {}", u8::from(*self))
    }
}

impl Error for Refusal {}
