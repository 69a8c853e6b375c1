// The scan dialogue of a food bank's station, told by move lists in two versions, a list with a slip, and a dialogue with a silent step.
// In the first version the volunteer picks chill or shelf after the scan; in the second the handheld has picked already.
#![tactic(auto)]

mod lists;
mod telling;

use charts::move_list::MoveList;
use dialogues::act::Act;
use lists::{handheld_checks, handheld_picks, volunteer_picks};
use std::io;
use telling::{tell, tell_layers};

fn main(rt: HostRuntime) -> io::Result<()> {
    let volunteer = MoveList {
        count: 4,
        moves: &volunteer_picks(),
    };
    tell(&rt, "The volunteer picks", volunteer)?;
    let handheld = MoveList {
        count: 5,
        moves: &handheld_picks(),
    };
    tell(&rt, "The handheld picks", handheld)?;
    // The volunteer's moves among one state too few.
    let slip = MoveList {
        count: 3,
        ..volunteer
    };
    tell(&rt, "A slip", slip)?;
    let checks = MoveList {
        count: 4,
        moves: &handheld_checks(),
    };
    tell(&rt, "The handheld checks", checks)?;
    tell_layers(&rt, rt.alloc(), checks, Act::Check)
}
