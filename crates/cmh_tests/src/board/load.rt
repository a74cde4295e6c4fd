//! Four threads at a board of 4,096 processes, for a hundred million turns in all.

ghost use Rattle.std.specs.Prelude.{◌≡◌, ◌<◌, ◌+◌};
ghost use Rattle.std.specs.Thread.{IsSync};
ghost use Rattle.cmh_graph.specs.Graph.{process_count};
ghost use Rattle.cmh_board.specs.Board.{board_graph, SitsAt, IsAway};

use super::expect;
use super::rings::rings;
use super::runs::post_run;
use cmh_board::{Board, BoardSeat, Entry, Row};
use cmh_graph::{Verdict, WaitGraph};
use cmh_run::{NoHints, run};
use std::alloc::{AllocError, Global};
use std::sync::Wait;
use std::test::Fail;
use std::thread::{Threads, join};

/// The number of rings, and the number of processes in each.
const RINGS: u32 = 16;

const SIZE: u32 = 256;

/// The number of boards, one after the other, and the number of turns that each thread has at each. A turn is a look at
/// the first and the last process of a ring, in one hold.
const BOARDS: u32 = 100;

const TURNS: u32 = 250_000;

/// The number of turns between two runs that a thread posts.
const POSTED_IN: u32 = 1_024;

/// How many of the first and the last process of a ring one hold shows as deadlocked. None where the board was held for
/// writing.
fn look_at_ring(board: &Board, seat: BoardSeat, ring: u32) -> (BoardSeat, Option<u32>)
    requires sits { SitsAt board.now seat × IsAway seat }
    requires full { process_count (board_graph board.now) ≡ 4096 }
    requires ring { ring < 16 }
    ensures { SitsAt board.now result.0 × IsAway result.0 }
{
    let mut seat = seat;
    if let Entry::Busy(_) = board.hold(&mut seat) {
        return (seat, None);
    }
    let deadlocked = Some(Verdict::Deadlocked);
    let first = board.held_verdict(&mut seat, SIZE * ring) == deadlocked;
    let last = board.held_verdict(&mut seat, SIZE * ring + (SIZE - 1)) == deadlocked;
    board.release(&mut seat);
    (seat, Some(u32::from(first) + u32::from(last)))
}

/// Runs the first process of a ring, and posts the run.
fn post_ring<R: Wait>(
    rt: &R,
    alloc: Global,
    graph: &WaitGraph,
    board: &Board,
    seat: BoardSeat,
    ring: u32,
) -> (BoardSeat, bool)
    requires graph { board_graph board.now ≡ graph.now }
    requires sits { SitsAt board.now seat × IsAway seat }
    requires ring { ring < 16 }
    ensures { SitsAt board.now result.0 × IsAway result.0 }
{
    match run(alloc, graph, SIZE * ring, &[], &mut NoHints) {
        Ok(run) => (post_run(rt, board, seat, &run), true),
        Err(_) => (seat, false),
    }
}

/// One thread's turns, from some ring on. Answers whether each look showed both processes or neither, and both where an
/// earlier one did.
fn take_turns<R: Wait>(
    rt: &R,
    alloc: Global,
    graph: &WaitGraph,
    board: &Board,
    seat: BoardSeat,
    start: u32,
) -> (BoardSeat, bool)
    requires graph { board_graph board.now ≡ graph.now }
    requires sits { SitsAt board.now seat × IsAway seat }
    requires full { process_count graph.now ≡ 4096 }
    requires low { start < 16 }
    ensures { SitsAt board.now result.0 × IsAway result.0 }
{
    let mut seat = seat;
    let mut is_posted = [false; 16];
    for turn in 0..TURNS {
        if turn % POSTED_IN == 0 {
            let ring = (start + turn / POSTED_IN) % RINGS;
            let (next, is_run) = post_ring(rt, alloc, graph, board, seat, ring);
            seat = next;
            if !is_run {
                return (seat, false);
            }
        }
        let ring = (start + turn) % RINGS;
        let (next, look) = look_at_ring(board, seat, ring);
        seat = next;
        if look == Some(1) || look == Some(0) && is_posted[ring as usize] {
            return (seat, false);
        }
        is_posted[ring as usize] = is_posted[ring as usize] || look == Some(2);
    }
    (seat, true)
}

/// `others` more threads and this one take their turns, each from another ring on.
fn take_turns_by<R: Threads + Wait + Sync>(
    rt: &R,
    alloc: Global,
    graph: &WaitGraph,
    board: &Board,
    seat: BoardSeat,
    others: u32,
) -> (BoardSeat, bool)
    requires graph { board_graph board.now ≡ graph.now }
    requires sits { SitsAt board.now seat × IsAway seat }
    requires full { process_count graph.now ≡ 4096 }
    requires few { others < 4 }
    ensures { SitsAt board.now result.0 × IsAway result.0 }
{
    if others == 0 {
        return take_turns(rt, alloc, graph, board, seat, 0);
    }
    let fewer = others - 1;
    let mut rest = seat;
    let Some(one) = board.split(&mut rest) else {
        return (rest, false);
    };
    let ((one, one_is_right), (mut rest, rest_is_right)) = join(
        rt,
        || -> (BoardSeat, bool)
            requires { SitsAt board.now one × IsAway one × IsSync R.row
                × (board_graph board.now ≡ graph.now) × (process_count graph.now ≡ 4096) × (fewer < 3) }
            ensures { SitsAt board.entry.now result.0 × IsAway result.0 }
        { take_turns(rt, alloc, graph, board, one, 4 * fewer + 4) },
        || -> (BoardSeat, bool)
            requires { SitsAt board.now rest × IsAway rest × IsSync R.row
                × (board_graph board.now ≡ graph.now) × (process_count graph.now ≡ 4096) × (fewer < 3) }
            ensures { SitsAt board.entry.now result.0 × IsAway result.0 }
        { take_turns_by(rt, alloc, graph, board, rest, fewer) },
    );
    board.join(&mut rest, one);
    (rest, one_is_right && rest_is_right)
}

/// Whether each process stands in the rows once.
fn is_each_once(alloc: Global, rows: &[Row]) -> Result<bool, AllocError> {
    let mut stands = vec![in alloc; false; 4_096]?;
    for row in rows {
        match stands.get_mut(row.process as usize) {
            Some(place) if !*place => *place = true,
            _ => return Ok(false),
        }
    }
    Ok(rows.len() == 4_096)
}

#[test]
fn four_threads_take_a_hundred_million_turns(rt: HostRuntime) -> Result<(), Fail> {
    let alloc = rt.alloc();
    let graph = rings(alloc, SIZE)?;
    assert!(rt; graph.len() == 4_096);
    for _ in 0..BOARDS {
        let (board, seat) = Board::open(alloc, &graph)?;
        let (seat, is_right) = take_turns_by(&rt, alloc, &graph, &board, seat, 3);
        expect(&rt, is_right);
        expect(&rt, is_each_once(alloc, &board.close(alloc, seat)?)?);
    }
    Ok(())
}
