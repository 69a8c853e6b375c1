// Records whose sameness is coarser than their equality.
ghost use Rattle.examples.specs.Visits.{same_volunteer, by_volunteer};

use charts::same::Same;

// A visit of a volunteer on a day.
#[derive(Clone, Copy, PartialEq, Eq, Debug)]
pub struct Visit {
    pub volunteer: u8,
    pub day: u8,
}

// Visits of one volunteer are the same, on whatever days.
impl Same for Visit {
    ghost same = { same_volunteer };

    ghost lawful = { by_volunteer };

    fn is_same(&self, other: &Visit) -> bool {
        self.volunteer == other.volunteer
    }
}
