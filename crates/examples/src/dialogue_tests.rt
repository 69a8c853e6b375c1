// Examples of acts, of chains and of what is told of a checked list.
use crate::telling::to;
use charts::move_list::MoveList;
use dialogues::act::{Act, UnknownLabel, step};
use dialogues::chain::chain;
use dialogues::checked::{Checked, Size, Verdict};
use std::test::Fail;

#[test]
fn each_act_has_its_label_and_its_name(rt: HostRuntime) -> Result<(), Fail> {
    let acts = [
        (Act::Tau, 0u8, "tau"),
        (Act::Scan, 1, "scan"),
        (Act::Chill, 2, "chill"),
        (Act::Shelf, 3, "shelf"),
        (Act::Check, 4, "check"),
        (Act::Key, 5, "key"),
    ];
    for (act, label, name) in acts {
        assert_eq!(rt; u8::from(act), label);
        assert_eq!(rt; Act::try_from(label), Ok(act));
        assert_eq!(rt; format!(in rt.alloc(); "{act}")?.as_str(), name);
    }
    Ok(())
}

#[test]
fn a_label_past_the_acts_is_unknown(rt: HostRuntime) -> Result<(), Fail> {
    assert_eq!(rt; Act::try_from(6), Err(UnknownLabel(6)));
    assert_eq!(rt; Act::try_from(255), Err(UnknownLabel(255)));
    let told = format!(in rt.alloc(); "{}", UnknownLabel(6))?;
    assert_eq!(rt; told.as_str(), "label 6 stands for no act");
    Ok(())
}

#[test]
fn a_step_is_a_move_by_the_label_of_its_act(rt: HostRuntime) {
    assert_eq!(rt; step(4, Act::Shelf, 7), to(4, 3, 7));
}

#[test]
fn a_chain_leads_from_each_state_to_the_next(rt: HostRuntime) -> Result<(), Fail> {
    let moves = chain(rt.alloc(), 4, 9)?;
    let wanted = [to(0, 9, 1), to(1, 9, 2), to(2, 9, 3)];
    assert_eq!(rt; moves.as_slice(), wanted.as_slice());
    assert_eq!(rt; chain(rt.alloc(), 1, 9)?.len(), 0);
    assert_eq!(rt; chain(rt.alloc(), 0, 9)?.len(), 0);
    Ok(())
}

#[test]
fn a_checked_list_is_told_with_its_verdict(rt: HostRuntime) -> Result<(), Fail> {
    let moves = [to(0, 1, 1), to(1, 2, 2), to(1, 3, 3)];
    let accepted = Checked {
        title: "The volunteer picks",
        list: MoveList {
            count: 4,
            moves: &moves,
        },
    };
    assert_eq!(rt;
        format!(in rt.alloc(); "{accepted}")?.as_str(),
        "The volunteer picks: a list of 4 states and 3 moves.\n  The list is accepted."
    );
    let refused = Checked {
        title: "A slip",
        list: MoveList {
            count: 3,
            moves: &moves,
        },
    };
    assert_eq!(rt;
        format!(in rt.alloc(); "{refused}")?.as_str(),
        "A slip: a list of 3 states and 3 moves.\n  The list is refused, number 20."
    );
    Ok(())
}

#[test]
fn a_checked_list_is_told_line_by_line(rt: HostRuntime) -> Result<(), Fail> {
    let moves = [to(0, 1, 1)];
    let list = MoveList {
        count: 1,
        moves: &moves,
    };
    let title = "One move";
    assert_eq!(rt;
        format!(in rt.alloc(); "{}", Size(Checked { title, list }))?.as_str(),
        "One move: a list of 1 states and 1 moves."
    );
    assert_eq!(rt;
        format!(in rt.alloc(); "{}", Verdict(list))?.as_str(),
        "  The list is refused, number 20."
    );
    Ok(())
}
