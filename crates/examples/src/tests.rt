// Examples at the edges of what is allowed.
use crate::telling::to;
use crate::visits::Visit;
use charts::chart::Chart;
use charts::move_list::{Move, MoveList};
use charts::refusal::Refusal;
use charts::same::first_same;

// Moves between the least and the greatest of the states, by the least, some and the greatest of the labels.
fn edges() -> [Move; 4] {
    [
        to(0, 0, 127),
        to(127, 31, 0),
        to(127, 4, 0),
        to(127, 4, 127),
    ]
}

#[test]
fn the_largest_list_is_accepted(rt: HostRuntime) {
    let list = MoveList {
        count: 128,
        moves: &edges(),
    };
    assert_eq!(rt; list.check(), Ok(()));
    let chart = list.chart();
    assert_eq!(rt; chart.count(), 128);
    assert_eq!(rt; chart.word(0, 127), 1);
    assert_eq!(rt; chart.word(127, 0), 0x8000_0010);
    assert_eq!(rt; chart.word(127, 127), 16);
    assert_eq!(rt; chart.word(0, 0), 0);
    assert_eq!(rt; chart.word(128, 0), 0);
}

// The check of a list with one move.
fn check_one(count: usize, from: usize, label: u8, to: usize) -> Result<(), Refusal> {
    let moves = [Move { from, label, to }];
    let list = MoveList {
        count,
        moves: &moves,
    };
    list.check()
}

#[test]
fn each_fault_is_refused(rt: HostRuntime) {
    let refused = Err(Refusal::ImproperList);
    assert_eq!(rt; check_one(129, 0, 0, 0), refused);
    assert_eq!(rt; check_one(1, 0, 0, 1), refused);
    assert_eq!(rt; check_one(1, 1, 0, 0), refused);
    assert_eq!(rt; check_one(1, 0, 32, 0), refused);
    assert_eq!(rt; check_one(1, 0, 31, 0), Ok(()));
    assert_eq!(rt; check_one(128, 127, 31, 127), Ok(()));
}

#[test]
fn a_repeat_is_refused_and_its_chart_is_empty(rt: HostRuntime) {
    let [a, b, ..] = edges();
    let twice = [b, a, b];
    let list = MoveList {
        count: 128,
        moves: &twice,
    };
    assert_eq!(rt; list.check(), Err(Refusal::ImproperList));
    let chart = list.chart();
    assert_eq!(rt; chart.count(), 0);
    assert_eq!(rt; chart.word(127, 0), 0);
}

#[test]
fn the_first_equal_record_is_found(rt: HostRuntime) {
    let [a, b, c, _] = edges();
    let twice = [b, a, b, a];
    assert_eq!(rt; first_same(&twice, &a), Some(1));
    assert_eq!(rt; first_same(&twice, &c), None);
}

#[test]
fn the_first_record_that_is_the_same_need_not_be_equal(rt: HostRuntime) {
    let visits = [
        Visit {
            volunteer: 7,
            day: 1,
        },
        Visit {
            volunteer: 8,
            day: 1,
        },
        Visit {
            volunteer: 8,
            day: 2,
        },
    ];
    let wanted = Visit {
        volunteer: 8,
        day: 3,
    };
    assert_eq!(rt; first_same(&visits, &wanted), Some(1));
    assert_eq!(rt; first_same(&visits[..1], &wanted), None);
}

// The count of any chart.
fn count_of<C: Chart + Drop>(chart: C) -> usize {
    chart.count()
}

#[test]
fn a_lent_chart_answers_the_same(rt: HostRuntime) {
    let chart = MoveList {
        count: 2,
        moves: &[],
    }
    .chart();
    assert_eq!(rt; count_of(&chart), 2);
}
