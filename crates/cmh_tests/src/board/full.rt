//! A board with as many processes as there may be.

ghost use Rattle.std.specs.Prelude.{◌≡◌, IfOk};
ghost use Rattle.cmh_board.specs.Board.{board_graph, SitsAt, IsAway};

use super::rings::rings;
use super::runs::try_post_run;
use super::{expect, expect_eq};
use crate::graphs::graph_of;
use cmh_board::{Board, BoardSeat, Entry, Post, Row, Snap};
use cmh_graph::{Verdict, WaitGraph};
use cmh_run::{NoHints, run};
use std::alloc::Global;
use std::process::Abort;
use std::test::Fail;

/// A board on which the run of this process is posted.
fn posted_run<R: Abort>(
    rt: &R,
    alloc: Global,
    graph: &WaitGraph,
    initiator: u32,
) -> Result<(Board, BoardSeat), Fail>
    ensures sits { IfOk result (λ r. SitsAt r.0 r.1 × IsAway r.1) }
    ensures graph { IfOk result (λ r. board_graph r.0 ≡ graph.now) }
{
    let (board, mut seat) = Board::open(alloc, graph)?;
    let run = run(alloc, graph, initiator, &[], &mut NoHints)?;
    expect(rt, try_post_run(&board, &mut seat, &run) == Post::Done);
    Ok((board, seat))
}

/// Whether the snapshot shows each of 4,096 processes as deadlocked.
fn shows_all_deadlocked(snap: &Snap) -> bool {
    for p in 0..4_096 {
        if snap.get(p) != Some(Verdict::Deadlocked) {
            return false;
        }
    }
    true
}

#[test]
fn a_posting_of_4096_processes(rt: HostRuntime) -> Result<(), Fail> {
    let alloc = rt.alloc();
    let graph = rings(alloc, 4_096)?;
    assert!(rt; graph.len() == 4_096);
    let (board, mut seat) = posted_run(&rt, alloc, &graph, 0)?;
    let deadlocked = Some(Verdict::Deadlocked);
    let Entry::Held = board.hold(&mut seat) else {
        panic!(rt; "nobody posts")
    };
    expect_eq(&rt, board.held_verdict(&mut seat, 4_095), deadlocked);
    board.release(&mut seat);
    let snap = board.snapshot(alloc, &mut seat)?;
    expect(&rt, shows_all_deadlocked(&snap));
    expect_eq(&rt, snap.get(4_096), None);
    let rows = board.history(alloc, &mut seat)?;
    let last = Row {
        process: 4_095,
        verdict: Verdict::Deadlocked,
        last: true,
    };
    expect_eq(&rt, (rows.len(), rows.last()), (4_096, Some(&last)));
    expect_eq(&rt, board.close(alloc, seat)?, rows);
    Ok(())
}

/// The row of the greatest number: the last process is free, and posted alone.
#[test]
fn the_greatest_row(rt: HostRuntime) -> Result<(), Fail> {
    let mut waits: [Option<&[u32]>; 4_096] = [None; 4_096];
    waits[4_095] = Some(&[0]);
    let graph = graph_of(rt.alloc(), &waits, &[])?;
    let (board, seat) = posted_run(&rt, rt.alloc(), &graph, 4_095)?;
    let greatest = Row {
        process: 4_095,
        verdict: Verdict::Free,
        last: true,
    };
    let rows = board.close(rt.alloc(), seat)?;
    expect(&rt, rows.as_slice() == [greatest].as_slice());
    Ok(())
}
