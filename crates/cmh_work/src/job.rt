//! What all workers of an analysis share, and what one of them holds.
//!
//! Each part is lent to a worker by itself: the toolchain says nothing of the result of a task that captures one value
//! with a lifetime.

ghost use Rattle.std.specs.Prelude.{◌≡◌, ◌+◌, length};
ghost use Rattle.cmh_graph.specs.Graph.{idle_list};
ghost use Rattle.cmh_board.specs.Board.{board_graph};
ghost use Rattle.cmh_work.specs.Cutting.{bounds_of};
ghost use Rattle.cmh_plan.specs.TicketSeats.{chunk_count};

use crate::shapes::Shapes;
use cmh_board::{Board, BoardSeat};
use cmh_graph::WaitGraph;
use cmh_plan::{Plan, TicketSeat, Tickets};

/// What is made for an analysis, and shared by its workers.
#[derive(Drop)]
pub(crate) struct Shared {
    pub(crate) idle: Vec<u32>,
    /// Where each chunk of the idle processes begins, and where the last one ends.
    pub(crate) bounds: Vec<usize>,
    pub(crate) shapes: Shapes,
    pub(crate) board: Board,
    pub(crate) tickets: Tickets,
}

/// What a worker reads.
#[derive(Drop)]
pub(crate) struct Job<'a> {
    pub(crate) graph: &'a WaitGraph,
    pub(crate) plan: &'a Plan,
    pub(crate) shared: &'a Shared,
    ghost initiators: { shared.now.idle.items ≡ idle_list graph.now },
    ghost bounds: { shared.now.bounds.items ≡ bounds_of plan.now.cuts (length shared.now.idle.items) },
    ghost named: { board_graph shared.now.board ≡ graph.now },
    ghost counted: { chunk_count shared.now.tickets ≡ length plan.now.cuts + 1 },
}

/// The two seats of a worker.
#[derive(Drop)]
pub(crate) struct Seats {
    pub(crate) board: BoardSeat,
    pub(crate) tickets: TicketSeat,
}
