//! Several threads at one board.

ghost use Rattle.std.specs.Prelude.{◌<◌};
ghost use Rattle.std.specs.Thread.{IsSync};
ghost use Rattle.cmh_graph.specs.Graph.{process_count};
ghost use Rattle.cmh_run.specs.Run.{TellsTruth};
ghost use Rattle.cmh_board.specs.Board.{board_graph, SitsAt, IsAway};

use super::expect;
use super::runs::post_run;
use crate::graphs::{CYCLE_AND_FOLLOWER, graph_of};
use cmh_board::{Board, BoardFault, BoardSeat, Entry};
use cmh_run::{NoHints, RunLog, run};
use std::alloc::Global;
use std::sync::Wait;
use std::sync::atomic::{AtomicBool, Ordering};
use std::test::Fail;
use std::thread::{Threads, join};

/// How often a test looks for what another thread does before it fails.
const TURNS: u32 = 1_000_000_000;

/// Holds the board, says so, and ends the hold only once the other thread holds it too. Answers whether it came to that
/// and process 0 wasn't posted.
fn meets(board: &Board, seat: BoardSeat, mine: &AtomicBool, other: &AtomicBool) -> (BoardSeat, bool)
    requires sits { SitsAt board.now seat × IsAway seat }
    requires process { 0 < process_count (board_graph board.now) }
    ensures { SitsAt board.now result.0 × IsAway result.0 }
{
    let mut seat = seat;
    if let Entry::Busy(_) = board.hold(&mut seat) {
        return (seat, false);
    }
    mine.store(true, Ordering::SeqCst);
    let has_met = is_set(other);
    let is_unposted = board.held_verdict(&mut seat, 0).is_none();
    board.release(&mut seat);
    (seat, has_met && is_unposted)
}

/// Turns until the flag is set, up to a limit.
fn is_set(flag: &AtomicBool) -> bool {
    for _ in 0..TURNS {
        if flag.load(Ordering::SeqCst) {
            return true;
        }
    }
    false
}

/// Two threads hold the board at once.
fn both_hold<R: Threads + Sync>(
    rt: &R,
    board: &Board,
    x: BoardSeat,
    y: BoardSeat,
) -> ((BoardSeat, bool), (BoardSeat, bool))
    requires sits { SitsAt board.now x × SitsAt board.now y }
    requires away { IsAway x × IsAway y }
    requires process { 0 < process_count (board_graph board.now) }
    ensures first { SitsAt board.now result.0.0 × IsAway result.0.0 }
    ensures second { SitsAt board.now result.1.0 × IsAway result.1.0 }
{
    let first = AtomicBool::new(false);
    let second = AtomicBool::new(false);
    join(
        rt,
        || -> (BoardSeat, bool)
            requires { SitsAt board.now x × IsAway x × (0 < process_count (board_graph board.now)) }
            ensures { SitsAt board.entry.now result.0 × IsAway result.0 }
        { meets(board, x, &first, &second) },
        || -> (BoardSeat, bool)
            requires { SitsAt board.now y × IsAway y × (0 < process_count (board_graph board.now)) }
            ensures { SitsAt board.entry.now result.0 × IsAway result.0 }
        { meets(board, y, &second, &first) },
    )
}

#[test]
fn two_threads_hold_at_once(rt: HostRuntime) -> Result<(), Fail> {
    let graph = graph_of(rt.alloc(), &CYCLE_AND_FOLLOWER, &[])?;
    assert!(rt; graph.len() == 3);
    let (board, mut x) = Board::open(rt.alloc(), &graph)?;
    let Some(y) = board.split(&mut x) else {
        panic!(rt; "a seat with the whole share is split")
    };
    let ((_x, x_met), (_y, y_met)) = both_hold(&rt, &board, x, y);
    expect(&rt, x_met && y_met);
    Ok(())
}

/// Takes snapshots until one answers for p, up to a limit. Answers whether one did, and each answered for both p and q
/// or for neither.
fn sees_whole_postings(board: &Board, alloc: Global, seat: BoardSeat) -> (BoardSeat, bool)
    requires { SitsAt board.now seat × IsAway seat }
    ensures { SitsAt board.now result.0 × IsAway result.0 }
{
    let mut seat = seat;
    for _ in 0..TURNS {
        match board.snapshot(alloc, &mut seat) {
            Err(BoardFault::Busy(_)) => {}
            Err(BoardFault::Memory) => return (seat, false),
            Ok(snap) => match (snap.get(0), snap.get(1)) {
                (None, None) => {}
                (p, q) => return (seat, p.is_some() && q.is_some()),
            },
        }
    }
    (seat, false)
}

/// One thread posts a run while another takes snapshots.
fn post_beside_snapshots<R: Threads + Wait + Sync>(
    rt: &R,
    board: &Board,
    alloc: Global,
    x: BoardSeat,
    y: BoardSeat,
    run: &RunLog,
) -> (BoardSeat, (BoardSeat, bool))
    requires sits { SitsAt board.now x × SitsAt board.now y }
    requires away { IsAway x × IsAway y }
    requires truth { TellsTruth (board_graph board.now) run.now }
    ensures first { SitsAt board.now result.0 × IsAway result.0 }
    ensures second { SitsAt board.now result.1.0 × IsAway result.1.0 }
{
    join(
        rt,
        || -> BoardSeat
            requires { SitsAt board.now x × IsAway x × IsSync R.row
                × TellsTruth (board_graph board.now) run.now }
            ensures { SitsAt board.entry.now result × IsAway result }
        { post_run(rt, board, x, run) },
        || -> (BoardSeat, bool)
            requires { SitsAt board.now y × IsAway y }
            ensures { SitsAt board.entry.now result.0 × IsAway result.0 }
        { sees_whole_postings(board, alloc, y) },
    )
}

#[test]
fn snapshots_have_whole_postings(rt: HostRuntime) -> Result<(), Fail> {
    let alloc = rt.alloc();
    let graph = graph_of(alloc, &CYCLE_AND_FOLLOWER, &[])?;
    let run = run(alloc, &graph, 0, &[], &mut NoHints)?;
    for _ in 0..200 {
        let (board, mut x) = Board::open(alloc, &graph)?;
        let Some(y) = board.split(&mut x) else {
            panic!(rt; "a seat with the whole share is split")
        };
        let (_x, (_y, is_whole)) = post_beside_snapshots(&rt, &board, alloc, x, y, &run);
        expect(&rt, is_whole);
    }
    Ok(())
}
