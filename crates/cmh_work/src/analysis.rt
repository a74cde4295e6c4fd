//! The analysis of a wait graph by workers.

ghost use Rattle.std.specs.Prelude.{◌≡◌, ◌+◌, ◌<◌, length, IfOk, IfErr};
ghost use Rattle.cmh_work.specs.Analysis.{IsAnalysisOf};
ghost use Rattle.cmh_plan.specs.TicketSeats.{ticket_view, IsTicketSeatOf, chunk_count};
ghost use Rattle.cmh_plan.specs.Tickets.{ticket_opening_view};
ghost use Rattle.cmh_work.specs.Working.{IsMadeFor, AreSeated, AreNew};
ghost use Rattle.cmh_plan.specs.declared.TheConstants.{MAX_WORKERS};
ghost use Rattle.cmh_rw.specs.declared.TheConstants.{MAX_SEATS};
ghost use Rattle.cmh_board.specs.Board.{board_view};

use crate::chunks::chunk_bounds;
use crate::job::{Seats, Shared};
use crate::number::number_all;
use crate::record::Analysis;
use crate::shapes::Shapes;
use crate::workers::workers;
use crate::{Gate, WorkFault};
use cmh_board::Board;
use cmh_graph::WaitGraph;
use cmh_graph::laws::law_built_graph;
use cmh_memory::{Allocated, refusal_of};
use cmh_plan::{Plan, TicketSeat, Tickets};
use cmh_run::{Log, ProcessList, RunLog};
use std::alloc::Global;
use std::sync::Wait;
use std::thread::Threads;

/// Finds the verdict and the shape of each idle process of the graph, by as many workers as the plan says. Each draws
/// chunks of initiators until none is left. For each initiator in order it calls the gate and looks at the board. If
/// the board doesn't answer, it runs the initiator's computation and posts what the run says. Each worker has a thread
/// of its own, where one can be had; the last works in this thread. All are joined before the answer.
///
/// One run may serve all members of a deadlocked knot. A run takes time linear in dependencies at choice 0. Besides,
/// the graph is searched twice. Each worker searches a core that isn't seen to be one process, at most once. The path
/// of a free process takes time for its length.
///
/// # Errors
///
/// `Memory`, where memory is refused. `WorkerLost` isn't answered today.
pub fn analyse<R: Threads + Wait + Sync, G: Gate>(
    rt: &R,
    alloc: Global,
    graph: &WaitGraph,
    plan: &Plan,
    gate: &G,
) -> Result<Analysis, WorkFault>
    ensures ok { IfOk result (IsAnalysisOf (λ path. path.items) graph.now plan.now.choices) }
    ensures memory { IfErr result (λ e. e ≡ WorkFault.Memory) }
{
    analyse_with(rt, alloc, graph, plan, gate)
}

/// `analyse`, where an `L` keeps the deliveries of each run, an `E` the processes that engaged in it, and a `P` the
/// path of each free process. `analyse_with::<NoLog, BriefList, BriefList, _, _>` keeps no delivery, and of each list
/// the second process and the number of processes.
///
/// # Errors
///
/// As `analyse`.
pub fn analyse_with<
    L: Log + Send,
    E: ProcessList + Send,
    P: ProcessList + Send,
    R: Threads + Wait + Sync,
    G: Gate,
>(
    rt: &R,
    alloc: Global,
    graph: &WaitGraph,
    plan: &Plan,
    gate: &G,
) -> Result<Analysis<RunLog<L, E>, P>, WorkFault>
    ensures ok { IfOk result (IsAnalysisOf P.processes graph.now plan.now.choices) }
    ensures memory { IfErr result (λ e. e ≡ WorkFault.Memory) }
{
    let idle = graph.idle_list(alloc).map_err(|fault| refusal_of(fault))?;
    let bounds = chunk_bounds(alloc, plan.cuts(), idle.len())?;
    let shapes = Shapes::of_graph(alloc, graph)?;
    let (board, board_seat) = Board::open(alloc, graph).map_err(|fault| refusal_of(fault))?;
    let (tickets, ticket_seat) = open_tickets(alloc, plan)?;
    let shared = Shared {
        idle,
        bounds,
        shapes,
        board,
        tickets,
    };
    let seats = Seats {
        board: board_seat,
        tickets: ticket_seat,
    };
    Ok(finish(rt, alloc, graph, plan, shared, gate, seats)?)
}

/// Tickets for the chunks of the plan, of which there is one more than cuts.
fn open_tickets(alloc: Global, plan: &Plan) -> Allocated<(Tickets, TicketSeat)>
    ensures { IfOk result (λ r.
        IsTicketSeatOf r.0 r.1 × (chunk_count r.0 ≡ length plan.now.cuts + 1)
        × (ticket_view r.1 ≡ ticket_opening_view (length plan.now.cuts + 1))) }
{
    let chunks = plan.cuts().len() as u32 + 1;
    Tickets::open(alloc, chunks).map_err(|fault| refusal_of(fault))
}

/// The analysis, by workers that share this.
fn finish<
    L: Log + Send,
    E: ProcessList + Send,
    P: ProcessList + Send,
    R: Threads + Wait + Sync,
    G: Gate,
>(
    rt: &R,
    alloc: Global,
    graph: &WaitGraph,
    plan: &Plan,
    shared: Shared,
    gate: &G,
    seats: Seats,
) -> Allocated<Analysis<RunLog<L, E>, P>>
    requires made { IsMadeFor graph.now plan.now shared }
    requires sit { AreSeated shared seats }
    requires new { AreNew seats }
    requires tickets { (ticket_view seats.tickets).share ≡ MAX_WORKERS }
    requires board { (board_view seats.board).lock.share ≡ MAX_SEATS }
    ensures { IfOk result (IsAnalysisOf P.processes graph.now plan.now.choices) }
{
    law_built_graph(graph);
    let others = plan.workers() - 1;
    let (seats, found) = workers(rt, alloc, graph, plan, &shared, gate, seats, others);
    let mut found = found?;
    found.sort_unstable_by_key(|finding| finding.initiator);
    let history = shared
        .board
        .close(alloc, seats.board)
        .map_err(|fault| refusal_of(fault))?;
    let records = number_all(alloc, &history, graph, found)?;
    Ok(Analysis { records, history })
}
