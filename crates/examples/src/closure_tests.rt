// Examples of the closure.
ghost use Rattle.std.specs.Prelude.{nat_lt};

use closure::{Steps, reached_from};

// A step to every larger number.
#[derive(Clone, Copy)]
struct Upward;

impl Steps for Upward {
    ghost step = { λ _ p q. nat_lt p q };

    fn has_step(&self, p: usize, q: usize) -> bool {
        p < q
    }
}

#[test]
fn no_state_past_the_count_or_127_is_reached(rt: HostRuntime) {
    let marks = reached_from(&Upward, 200, 126);
    assert_eq!(rt; marks[125], false);
    assert_eq!(rt; marks[126], true);
    assert_eq!(rt; marks[127], true);
    let marks = reached_from(&Upward, 4, 2);
    assert_eq!(rt; marks[1], false);
    assert_eq!(rt; marks[3], true);
    assert_eq!(rt; marks[4], false);
}

#[test]
fn what_is_no_state_reaches_nothing(rt: HostRuntime) {
    let marks = reached_from(&Upward, 4, 4);
    assert_eq!(rt; marks[4], false);
    assert_eq!(rt; marks[5], false);
}
