//! Single steps. Wanted values are from the rules, by hand.

use crate::expect::expect_eq;
use cmh_process::laws::law_stale;
use cmh_process::{Action, Proc};

fn state(latest: u32, engager: Option<u32>, num: u32, wait: bool) -> Proc {
    Proc {
        latest,
        engager,
        num,
        wait,
    }
}

#[test]
fn starts(rt: HostRuntime) {
    let table = [
        (0, 2, Action::Engage),
        (0, 0, Action::Declare),
        (1, 2, Action::Engage),
        // A computation may have the greatest number, and is started from the one before it.
        (u32::MAX - 1, u32::MAX, Action::Engage),
    ];
    for (latest, size, action) in table {
        assert!(rt; latest < u32::MAX);
        let mut proc = Proc {
            latest,
            ..Proc::new()
        };
        expect_eq(&rt, proc.start(size), action);
        expect_eq(&rt, proc, state(latest + 1, None, size, true));
    }
}

#[test]
fn takes_queries(rt: HostRuntime) {
    let engaged = state(1, Some(5), 2, true);
    let asked_out = state(1, Some(5), 0, true);
    let alone = state(1, Some(4), 0, true);
    let table = [
        (Proc::new(), (1, 5, 2), Action::Engage, engaged),
        (engaged, (1, 7, 2), Action::ReplyTo(7), engaged),
        (engaged, (0, 7, 2), Action::Nothing, engaged),
        (asked_out, (1, 8, 2), Action::ReplyTo(8), asked_out),
        (Proc::new(), (1, 4, 0), Action::ReplyTo(4), alone),
    ];
    for (before, (number, from, size), action, after) in table {
        let mut proc = before;
        assert_eq!(rt; proc.on_query(number, from, size), action, "at {before:?}");
        assert_eq!(rt; proc, after, "at {before:?}");
    }
}

#[test]
fn takes_replies(rt: HostRuntime) {
    let table = [
        (state(1, Some(5), 2, true), Action::Nothing, 1),
        (state(1, Some(5), 1, true), Action::ReplyTo(5), 0),
        (state(1, Some(5), 0, true), Action::Nothing, 0),
        (state(1, None, 1, true), Action::Declare, 0),
        (state(2, None, 2, true), Action::Nothing, 2),
    ];
    for (before, action, num) in table {
        let mut proc = before;
        assert_eq!(rt; proc.on_reply(1), action, "at {before:?}");
        assert_eq!(rt; proc, Proc { num, ..before }, "at {before:?}");
    }
}

/// Every other public call, as a caller writes it.
#[test]
fn surface(rt: HostRuntime) {
    let mut proc = Proc::new();
    expect_eq(&rt, proc, state(0, None, 0, false));
    expect_eq(&rt, proc.is_engaged_by(1), true);
    expect_eq(&rt, proc.on_query(1, 0, 1), Action::Engage);
    expect_eq(&rt, proc.is_engaged_by(1), false);
    expect_eq(&rt, proc.answer(1, 7), Action::ReplyTo(7));
    law_stale();
}
