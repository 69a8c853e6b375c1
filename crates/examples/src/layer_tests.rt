// Examples of the layers.
use crate::telling::to;
use charts::chart::Chart;
use charts::move_list::MoveList;
use layers::hide::Hide;
use layers::quiet::Quiet;
use layers::sheet::LentSheet;
use std::test::Fail;

#[test]
fn hidden_labels_are_silent_and_label_0_in_the_set_means_nothing(rt: HostRuntime) {
    let moves = [
        to(0, 0, 1),
        to(0, 4, 1),
        to(0, 31, 2),
        to(1, 4, 2),
        to(2, 0, 0),
    ];
    let list = MoveList {
        count: 3,
        moves: &moves,
    };
    let below = list.chart();
    let hidden = Hide::over(&below, 0x8000_0001);
    assert_eq!(rt; hidden.count(), 3);
    assert_eq!(rt; hidden.word(0, 1), 17);
    assert_eq!(rt; hidden.word(0, 2), 1);
    assert_eq!(rt; hidden.word(1, 2), 16);
    assert_eq!(rt; hidden.word(2, 0), 1);
    assert_eq!(rt; hidden.word(2, 2), 0);
    assert_eq!(rt; hidden.word(3, 0), 0);
}

#[test]
fn silent_moves_count_before_and_after_the_visible_one(rt: HostRuntime) -> Result<(), Fail> {
    let moves = [to(0, 0, 1), to(1, 3, 2), to(2, 0, 3)];
    let list = MoveList {
        count: 4,
        moves: &moves,
    };
    let quiet = Quiet::over(rt.alloc(), &list.chart())?;
    assert_eq!(rt; quiet.count(), 4);
    assert_eq!(rt; quiet.word(0, 0), 1);
    assert_eq!(rt; quiet.word(0, 1), 1);
    assert_eq!(rt; quiet.word(0, 2), 8);
    assert_eq!(rt; quiet.word(0, 3), 8);
    assert_eq!(rt; quiet.word(1, 3), 8);
    assert_eq!(rt; quiet.word(2, 3), 1);
    assert_eq!(rt; quiet.word(3, 0), 0);
    assert_eq!(rt; quiet.word(4, 4), 0);
    Ok(())
}

#[test]
fn a_pile_takes_the_layers_in_turn(rt: HostRuntime) -> Result<(), Fail> {
    let moves = [to(0, 5, 1), to(1, 3, 2)];
    let list = MoveList {
        count: 3,
        moves: &moves,
    };
    let hidden = Hide::over(list.chart(), 1 << 5);
    let quiet = Quiet::over(rt.alloc(), &hidden)?;
    assert_eq!(rt; quiet.word(0, 1), 1);
    assert_eq!(rt; quiet.word(0, 2), 8);
    let silent = Hide::over(quiet, 1 << 3);
    assert_eq!(rt; silent.word(0, 2), 1);
    assert_eq!(rt; silent.word(2, 2), 1);
    Ok(())
}

#[test]
fn a_silent_loop_reaches_both_ways(rt: HostRuntime) -> Result<(), Fail> {
    let moves = [to(0, 0, 1), to(1, 0, 0), to(1, 31, 1)];
    let list = MoveList {
        count: 2,
        moves: &moves,
    };
    let quiet = Quiet::over(rt.alloc(), &list.chart())?;
    assert_eq!(rt; quiet.word(0, 0), 0x8000_0001);
    assert_eq!(rt; quiet.word(0, 1), 0x8000_0001);
    assert_eq!(rt; quiet.word(1, 0), 0x8000_0001);
    assert_eq!(rt; quiet.word(1, 1), 0x8000_0001);
    Ok(())
}

#[test]
fn the_quiet_chart_of_a_refused_list_is_empty(rt: HostRuntime) -> Result<(), Fail> {
    let list = MoveList {
        count: 129,
        moves: &[],
    };
    let quiet = Quiet::over(rt.alloc(), &list.chart())?;
    assert_eq!(rt; quiet.count(), 0);
    assert_eq!(rt; quiet.word(0, 0), 0);
    Ok(())
}

#[test]
fn a_lent_sheet_is_read_by_place(rt: HostRuntime) {
    let words = [1u32, 2, 4, 8, 16];
    let sheet = LentSheet {
        count: 2,
        values: &words,
    };
    assert_eq!(rt; sheet.count(), 2);
    assert_eq!(rt; sheet.word(0, 1), 2);
    assert_eq!(rt; sheet.word(1, 0), 4);
    assert_eq!(rt; sheet.word(1, 2), 0);
    assert_eq!(rt; sheet.at(2, 0), None);
    let levels = LentSheet {
        count: 2,
        values: &[0u8, 3, 5, 0],
    };
    assert_eq!(rt; levels.at(0, 1), Some(3));
}
