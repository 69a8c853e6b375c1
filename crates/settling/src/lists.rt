// The scan dialogue of a station in two versions, told by moves in one list.
use charts::move_list::Move;
use dialogues::act::Act::{Chill, Scan, Shelf};
use dialogues::act::step;

// Both versions in one list: states 0 to 3 are the volunteer's, states 4 to 8 the handheld's.
pub(crate) fn both_versions() -> [Move; 7] {
    [
        step(0, Scan, 1),
        step(1, Chill, 2),
        step(1, Shelf, 3),
        step(4, Scan, 5),
        step(4, Scan, 6),
        step(5, Chill, 7),
        step(6, Shelf, 8),
    ]
}
