// The dialogues of a station, told by moves.
use charts::move_list::Move;
use dialogues::act::Act::{Check, Chill, Key, Scan, Shelf};
use dialogues::act::step;

// After the scan both choices are open.
pub(crate) fn volunteer_picks() -> [Move; 3] {
    [step(0, Scan, 1), step(1, Chill, 2), step(1, Shelf, 3)]
}

// There are two scans, and each leaves one choice.
pub(crate) fn handheld_picks() -> [Move; 4] {
    [
        step(0, Scan, 1),
        step(0, Scan, 2),
        step(1, Chill, 3),
        step(2, Shelf, 4),
    ]
}

// Between the scan and the key the handheld makes a check of its own.
pub(crate) fn handheld_checks() -> [Move; 3] {
    [step(0, Scan, 1), step(1, Check, 2), step(2, Key, 3)]
}
