//! A board by two seats of one thread.

ghost use Rattle.std.specs.Prelude.{IfOk};
ghost use Rattle.cmh_board.specs.Board.{SitsAt, IsAway};

use super::expect;
use super::runs::{run_with_hints, try_post_run};
use crate::graphs::{CYCLE_AND_FOLLOWER, ONE_FREE_ONE_STUCK, graph_of};
use cmh_board::{Board, BoardFault, BoardSeat, Entry, Look, Post, Posting, Row};
use cmh_graph::{Verdict, WaitGraph};
use cmh_process::Kind;
use cmh_run::{Ending, NoHints, RunLog, run};
use std::alloc::Global;
use std::process::Abort;
use std::test::Fail;

const DEADLOCKED: Option<Verdict> = Some(Verdict::Deadlocked);

fn row(process: u32, last: bool) -> Row {
    Row {
        process,
        verdict: Verdict::Deadlocked,
        last,
    }
}

/// Whether the run sent a query from r to p, with the hint that p is deadlocked, and then a reply back, and was
/// declared.
fn is_hinted_run(run: &RunLog) -> bool {
    let log = run.log();
    if log.len() != 2 || run.ending() != Ending::Declared {
        return false;
    }
    let query = log[0].message;
    let reply = log[1].message;
    (query.kind, reply.kind) == (Kind::Query, Kind::Reply)
        && (query.number, query.from, query.to) == (1, 2, 0)
        && (reply.number, reply.from, reply.to) == (1, 0, 2)
        && log[0].hint == DEADLOCKED
        && log[1].hint.is_none()
}

/// The board of the cycle and its follower after two seats have posted p and q, and then r, each call with the answer
/// that the rules give. The two seats are one again.
fn posted_by_two<R: Abort>(
    rt: &R,
    alloc: Global,
    graph: &WaitGraph,
) -> Result<(Board, BoardSeat), Fail>
    ensures { IfOk result (λ r. SitsAt r.0 r.1 × IsAway r.1) }
{
    assert!(rt; graph.len() == 3);
    let (board, mut x) = Board::open(alloc, graph)?;
    let Some(mut y) = board.split(&mut x) else {
        panic!(rt; "a seat with the whole share is split")
    };
    let run_of_p = run(alloc, graph, 0, &[], &mut NoHints)?;
    let Entry::Held = board.hold(&mut y) else {
        panic!(rt; "nobody posts")
    };
    expect(rt, try_post_run(&board, &mut x, &run_of_p) == Post::Busy(1));
    expect(rt, board.history(alloc, &mut x)?.is_empty());
    board.release(&mut y);
    expect(rt, try_post_run(&board, &mut x, &run_of_p) == Post::Done);
    expect(
        rt,
        board.look(&mut y, 1) == Look::Known(Verdict::Deadlocked),
    );
    expect(rt, board.look(&mut y, 2) == Look::Unknown);
    expect(rt, try_post_run(&board, &mut x, &run_of_p) == Post::Done);
    expect(rt, board.history(alloc, &mut x)?.len() == 2);
    let run_of_r = run_with_hints(alloc, graph, &board, &mut x, 2)?;
    expect(rt, is_hinted_run(&run_of_r));
    expect(rt, try_post_run(&board, &mut x, &run_of_r) == Post::Done);
    let snap = board.snapshot(alloc, &mut y)?;
    expect(
        rt,
        snap.get(0) == DEADLOCKED && snap.get(1) == DEADLOCKED && snap.get(2) == DEADLOCKED,
    );
    expect(rt, board.snapshot(alloc, &mut x)? == snap);
    board.join(&mut x, y);
    Ok((board, x))
}

#[test]
fn board_by_two_seats(rt: HostRuntime) -> Result<(), Fail> {
    let graph = graph_of(rt.alloc(), &CYCLE_AND_FOLLOWER, &[])?;
    let (board, seat) = posted_by_two(&rt, rt.alloc(), &graph)?;
    let rows = board.close(rt.alloc(), seat)?;
    expect(
        &rt,
        rows.as_slice() == [row(0, false), row(1, true), row(2, true)].as_slice(),
    );
    Ok(())
}

/// The initiator of a run that isn't declared is posted alone, as free, though q is engaged: q is deadlocked. A seat
/// that isn't the last one closes the board: what the other has posted is there.
#[test]
fn one_free_one_stuck_posts(rt: HostRuntime) -> Result<(), Fail> {
    let graph = graph_of(rt.alloc(), &ONE_FREE_ONE_STUCK, &[])?;
    let (board, mut x) = Board::open(rt.alloc(), &graph)?;
    assert!(rt; graph.len() == 3);
    let Some(mut y) = board.split(&mut x) else {
        panic!(rt; "a seat with the whole share is split")
    };
    let run_of_p = run(rt.alloc(), &graph, 0, &[], &mut NoHints)?;
    expect(&rt, run_of_p.engaged() == [0, 1].as_slice());
    expect(&rt, try_post_run(&board, &mut x, &run_of_p) == Post::Done);
    expect(&rt, board.look(&mut x, 0) == Look::Known(Verdict::Free));
    expect(&rt, board.look(&mut x, 1) == Look::Unknown);
    let run_of_q = run(rt.alloc(), &graph, 1, &[], &mut NoHints)?;
    board.post(&rt, &mut y, &Posting::of_run(&run_of_q));
    let free = Row {
        process: 0,
        verdict: Verdict::Free,
        last: true,
    };
    let rows = board.close(rt.alloc(), x)?;
    expect(&rt, rows.as_slice() == [free, row(1, true)].as_slice());
    Ok(())
}

#[test]
fn texts_of_the_faults(rt: HostRuntime) -> Result<(), Fail> {
    let busy = BoardFault::Busy(4_294_967_296);
    let shown = format!(in rt.alloc(); "{busy}, {}", BoardFault::Memory)?;
    expect(
        &rt,
        shown.as_str() == "busy at lock word 4294967296, out of memory",
    );
    Ok(())
}
