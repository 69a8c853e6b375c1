// Examples of settling pairs of states. In the dialogues a, b and c are the labels 1, 2 and 3, and tau is 0.
use crate::telling::to;
use charts::chart::Chart;
use charts::move_list::MoveList;
use layers::quiet::Quiet;
use likeness::moves::fill_moves;
use likeness::refusal::Refusal;
use likeness::rounds::settle;
use std::alloc::Global;
use std::test::Fail;

// Settles two states of a chart, on sheets of their own.
fn settled<C: Chart>(chart: &C, p: usize, q: usize, limit: usize) -> Result<(u8, u8), Refusal> {
    let mut moves = [0u32; 256];
    let mut levels = [0u8; 256];
    settle(chart, p, q, limit, &mut moves, &mut levels)
}

// The same in the quiet chart, without the rounds.
fn weak_depth<C: Chart>(alloc: Global, chart: &C, p: usize, q: usize) -> Result<u8, Fail> {
    let quiet = Quiet::over(alloc, chart)?;
    let (depth, _) = settled(&quiet, p, q, 128)?;
    Ok(depth)
}

// a.b.0 + a.0 from 0, and a.b.0 from 4: each can do what the other does, and yet they are unlike.
#[test]
fn one_side_that_imitates_is_not_enough(rt: HostRuntime) {
    let moves = [
        to(0, 1, 1),
        to(0, 1, 2),
        to(1, 2, 3),
        to(4, 1, 5),
        to(5, 2, 6),
    ];
    let list = MoveList {
        count: 7,
        moves: &moves,
    };
    assert_eq!(rt; settled(&list.chart(), 0, 4, 128), Ok((2, 2)));
    assert_eq!(rt; settled(&list.chart(), 4, 0, 128), Ok((2, 2)));
}

// A ring of two moves by a from 0, and one of three from 2.
#[test]
fn rings_of_one_label_are_like_after_one_round(rt: HostRuntime) {
    let moves = [
        to(0, 1, 1),
        to(1, 1, 0),
        to(2, 1, 3),
        to(3, 1, 4),
        to(4, 1, 2),
    ];
    let list = MoveList {
        count: 5,
        moves: &moves,
    };
    assert_eq!(rt; settled(&list.chart(), 0, 2, 1), Ok((0, 1)));
}

// a.0 from 0, and a.0 from 2.
#[test]
fn a_limit_below_the_rounds_is_refused(rt: HostRuntime) {
    let moves = [to(0, 1, 1), to(2, 1, 3)];
    let list = MoveList {
        count: 4,
        moves: &moves,
    };
    assert_eq!(rt;
        settled(&list.chart(), 0, 2, 0),
        Err(Refusal::LimitTooSmall)
    );
    assert_eq!(rt;
        settled(&list.chart(), 0, 2, 1),
        Err(Refusal::LimitTooSmall)
    );
    assert_eq!(rt; settled(&list.chart(), 0, 2, 2), Ok((0, 2)));
}

// a.a.0 from 0, and a.a.a.0 from 3.
#[test]
fn a_refused_limit_leaves_the_levels_up_to_it(rt: HostRuntime) {
    let steps = [
        to(0, 1, 1),
        to(1, 1, 2),
        to(3, 1, 4),
        to(4, 1, 5),
        to(5, 1, 6),
    ];
    let list = MoveList {
        count: 7,
        moves: &steps,
    };
    let mut moves = [9u32; 50];
    let mut levels = [9u8; 50];
    assert_eq!(rt;
        settle(&list.chart(), 0, 3, 2, &mut moves, &mut levels),
        Err(Refusal::LimitTooSmall)
    );
    assert_eq!(rt;
        (levels[3], levels[14], levels[7], levels[20]),
        (0, 1, 2, 0)
    );
    assert_eq!(rt; (moves[1], moves[2], levels[49], moves[49]), (2, 0, 9, 9));
    assert_eq!(rt;
        settle(&list.chart(), 0, 3, 3, &mut moves, &mut levels),
        Ok((3, 3))
    );
    assert_eq!(rt;
        (levels[3], levels[14], levels[7], levels[20]),
        (3, 1, 2, 0)
    );
}

#[test]
fn what_is_refused_at_once_writes_nothing(rt: HostRuntime) {
    let steps = [to(0, 1, 1)];
    let list = MoveList {
        count: 2,
        moves: &steps,
    };
    let mut moves = [9u32; 4];
    let mut levels = [9u8; 3];
    assert_eq!(rt;
        settle(&list.chart(), 0, 2, 128, &mut moves, &mut levels),
        Err(Refusal::NoSuchState)
    );
    assert_eq!(rt;
        settle(&list.chart(), 0, 1, 128, &mut moves, &mut levels),
        Err(Refusal::ShortSheet)
    );
    assert_eq!(rt;
        fill_moves(&list.chart(), &mut moves[1..4]),
        Err(Refusal::ShortSheet)
    );
    assert_eq!(rt; (moves[0], moves[3], levels[0], levels[2]), (9, 9, 9, 9));
    assert_eq!(rt; fill_moves(&list.chart(), &mut moves), Ok(()));
    assert_eq!(rt; (moves[0], moves[1], moves[2], moves[3]), (0, 2, 0, 0));
}

// a.tau.b.0 from 0, and a.b.0 from 4.
#[test]
fn a_silent_step_between_is_weakly_like(rt: HostRuntime) -> Result<(), Fail> {
    let moves = [
        to(0, 1, 1),
        to(1, 0, 2),
        to(2, 2, 3),
        to(4, 1, 5),
        to(5, 2, 6),
    ];
    let list = MoveList {
        count: 7,
        moves: &moves,
    };
    assert_eq!(rt; settled(&list.chart(), 0, 4, 128), Ok((2, 2)));
    assert_eq!(rt; weak_depth(rt.alloc(), &list.chart(), 0, 4)?, 0);
    Ok(())
}

// a.0 + b.0 from 0, and tau.a.0 + b.0 from 2: the silent step takes b away.
#[test]
fn a_silent_step_that_takes_a_choice_away_is_weakly_unlike(rt: HostRuntime) -> Result<(), Fail> {
    let moves = [
        to(0, 1, 1),
        to(0, 2, 1),
        to(2, 0, 3),
        to(3, 1, 1),
        to(2, 2, 1),
    ];
    let list = MoveList {
        count: 4,
        moves: &moves,
    };
    assert_eq!(rt; weak_depth(rt.alloc(), &list.chart(), 0, 2)?, 2);
    Ok(())
}

// A silent loop at 0, and a state without moves at 1.
#[test]
fn a_silent_loop_is_weakly_like_a_stop(rt: HostRuntime) -> Result<(), Fail> {
    let moves = [to(0, 0, 0)];
    let list = MoveList {
        count: 2,
        moves: &moves,
    };
    assert_eq!(rt; settled(&list.chart(), 0, 1, 128), Ok((1, 1)));
    assert_eq!(rt; weak_depth(rt.alloc(), &list.chart(), 0, 1)?, 0);
    Ok(())
}

#[test]
fn a_refusal_has_its_number_and_its_text(rt: HostRuntime) -> Result<(), Fail> {
    assert_eq!(rt; u8::from(Refusal::NoSuchState), 11);
    assert_eq!(rt; u8::from(Refusal::LimitTooSmall), 16);
    let refusal = Refusal::ShortSheet;
    let text = format!(in rt.alloc(); "{refusal}")?;
    assert_eq!(rt; text.as_str(), "refused, number 12");
    Ok(())
}
