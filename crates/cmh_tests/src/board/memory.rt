//! A board while memory is short. The contracts say what each answer is.

ghost use Rattle.std.specs.Prelude.{IfOk};
ghost use Rattle.cmh_board.specs.Board.{SitsAt, IsAway};

use super::runs::try_post_run;
use super::{expect, expect_eq};
use crate::graphs::{CYCLE_AND_FOLLOWER, graph_of};
use crate::shortage::take_all_but;
use cmh_board::{Board, BoardFault, BoardSeat, Post};
use cmh_graph::WaitGraph;
use cmh_run::{NoHints, run};
use std::alloc::Global;
use std::test::Fail;

/// The most bytes that are left for calls that read the board.
const ROOM: usize = 2_048;

/// The most bytes that are left for the opening of a board.
const OPENING_ROOM: usize = 131_072;

/// Whether a call succeeded at some time, and whether memory was refused to it at some time.
type Seen = (bool, bool);

fn note<T>(seen: &mut Seen, answer: &Result<T, BoardFault>) {
    seen.0 = seen.0 || answer.is_ok();
    seen.1 = seen.1 || matches!(answer, Err(BoardFault::Memory));
}

#[test]
fn out_of_memory_at_the_opening(rt: HostRuntime) -> Result<(), Fail> {
    let alloc = rt.alloc();
    let graph = graph_of(alloc, &CYCLE_AND_FOLLOWER, &[])?;
    let shortage = take_all_but(alloc, OPENING_ROOM)?;
    let mut seen = (false, false);
    for k in 0..OPENING_ROOM / 1_024 {
        let taken: Result<Vec<u8>, _> = Vec::with_capacity(alloc, OPENING_ROOM - 1_024 * k);
        note(&mut seen, &Board::open(alloc, &graph));
        drop(taken);
    }
    drop(shortage);
    expect_eq(&rt, seen, (true, true));
    Ok(())
}

/// A board on which p and q are posted.
fn with_p_and_q(alloc: Global, graph: &WaitGraph) -> Result<(Board, BoardSeat), Fail>
    ensures { IfOk result (λ r. SitsAt r.0 r.1 × IsAway r.1) }
{
    let (board, mut seat) = Board::open(alloc, graph)?;
    let run = run(alloc, graph, 0, &[], &mut NoHints)?;
    let _done = try_post_run(&board, &mut seat, &run) == Post::Done;
    Ok((board, seat))
}

/// Takes a snapshot and the history of a board, and closes it, with 16·k bytes left for each.
fn read_with_little(
    alloc: Global,
    graph: &WaitGraph,
    k: usize,
    seen: &mut [Seen; 3],
) -> Result<(), Fail> {
    let (board, mut seat) = with_p_and_q(alloc, graph)?;
    let _shortage = take_all_but(alloc, ROOM)?;
    let taken: Result<Vec<u8>, _> = Vec::with_capacity(alloc, ROOM.saturating_sub(16 * k.min(64)));
    note(&mut seen[0], &board.snapshot(alloc, &mut seat));
    note(&mut seen[1], &board.history(alloc, &mut seat));
    note(&mut seen[2], &board.close(alloc, seat));
    drop(taken);
    Ok(())
}

/// Whether a board is read and closed where memory is ample.
fn is_read(alloc: Global, graph: &WaitGraph) -> Result<bool, Fail> {
    let (board, mut seat) = with_p_and_q(alloc, graph)?;
    let has_snapshot = board.snapshot(alloc, &mut seat).is_ok();
    let has_history = board.history(alloc, &mut seat).is_ok();
    Ok(has_snapshot && has_history && board.close(alloc, seat).is_ok())
}

/// Memory is ample at first, so that the stack has grown as far as it needs.
#[test]
fn out_of_memory_at_reading(rt: HostRuntime) -> Result<(), Fail> {
    let graph = graph_of(rt.alloc(), &CYCLE_AND_FOLLOWER, &[])?;
    expect(&rt, is_read(rt.alloc(), &graph)?);
    let mut seen = [(false, false); 3];
    for k in 0..16 {
        read_with_little(rt.alloc(), &graph, k, &mut seen)?;
    }
    expect_eq(&rt, seen, [(true, true); 3]);
    Ok(())
}
