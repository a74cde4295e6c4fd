//! Runs that the board gives hints to, and what they post.

ghost use Rattle.std.specs.Prelude.{◌≡◌, ℕ, ◌<◌, IfOk};
ghost use Rattle.cmh_run.specs.Run.{TellsTruth};
ghost use Rattle.cmh_rw.specs.declared.machine.SeatState.TheVariants.{Away};
ghost use Rattle.cmh_rw.specs.View.{view_after_try};
ghost use Rattle.cmh_board.specs.Board.{board_view, board_graph, SitsAt, IsAway, SeesMore, Posts};
ghost use Rattle.cmh_board.specs.Posting.{posting_of};

use cmh_board::{Board, BoardHints, BoardSeat, Post, Posting};
use cmh_graph::WaitGraph;
use cmh_run::{RunFault, RunLog, run};
use std::alloc::Global;
use std::sync::Wait;

/// The run of `p` with the board's hints.
pub(super) fn run_with_hints(
    alloc: Global,
    graph: &WaitGraph,
    board: &Board,
    seat: &mut BoardSeat,
    p: u32,
) -> Result<RunLog, RunFault>
    requires graph { board_graph board.now ≡ graph.now }
    requires sits { SitsAt board.now seat.old × IsAway seat.old }
    ensures sits { SitsAt board.now seat.new × IsAway seat.new }
    ensures sees { SeesMore (board_view seat.old) (board_view seat.new) }
    ensures truth { IfOk result (TellsTruth graph.now) }
{
    let mut hints = BoardHints::new(board, seat);
    run(alloc, graph, p, &[], &mut hints)
}

/// One try to post a run.
pub(super) fn try_post_run(board: &Board, seat: &mut BoardSeat, run: &RunLog) -> Post
    requires sits { SitsAt board.now seat.old × IsAway seat.old }
    requires truth { TellsTruth (board_graph board.now) run.now }
    ensures sits { SitsAt board.now seat.new × IsAway seat.new }
    ensures written { result ≡ Post.Done → ((board_view seat.new).lock.found ≡ 0)
        × ((board_view seat.old).loads < (board_view seat.new).loads) }
    ensures posts { result ≡ Post.Done
        → Posts (posting_of run.now) (board_view seat.old) (board_view seat.new) }
    ensures busy { (n : ℕ) → result ≡ Post.Busy n
        → (0 < n) × (board_view seat.new ≡ view_after_try (board_view seat.old) Away n) }
{
    board.try_post(seat, &Posting::of_run(run))
}

/// Posts a run.
pub(super) fn post_run<R: Wait>(rt: &R, board: &Board, seat: BoardSeat, run: &RunLog) -> BoardSeat
    requires sits { SitsAt board.now seat × IsAway seat }
    requires truth { TellsTruth (board_graph board.now) run.now }
    ensures { SitsAt board.now result × IsAway result }
{
    let mut seat = seat;
    board.post(rt, &mut seat, &Posting::of_run(run));
    seat
}
