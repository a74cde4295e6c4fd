//! Workers, each in a thread of its own but the last, which works in the thread of the caller.

ghost use Rattle.std.specs.Prelude.{◌≡◌, ◌+◌, ◌<◌, ◌≤◌, ◌++◌, IfOk, IfSome, IfNone, IsOkAnd};
ghost use Rattle.std.specs.Thread.{IsSync};
ghost use Rattle.cmh_rw.specs.History.{StartsWith};
ghost use Rattle.cmh_rw.specs.View.{joined_view};
ghost use Rattle.cmh_board.specs.Board.{board_view};
ghost use Rattle.cmh_plan.specs.TicketSeats.{ticket_view};
ghost use Rattle.cmh_plan.specs.Tickets.{joined_views};
ghost use Rattle.cmh_work.specs.Working.{IsMadeFor, AreSeated, AreNew, AreBack, IsWorked};

use crate::Gate;
use crate::finding::Finding;
use crate::job::{Seats, Shared};
use crate::worker::work;
use cmh_graph::WaitGraph;
use cmh_memory::Allocated;
use cmh_plan::Plan;
use cmh_run::{Log, ProcessList, RunLog};
use std::alloc::Global;
use std::sync::Wait;
use std::thread::{Threads, join};

/// What both found, or the fault of one.
fn concat_findings<L: Log, E: ProcessList, P: ProcessList>(
    first: Allocated<Vec<Finding<RunLog<L, E>, P>>>,
    second: Allocated<Vec<Finding<RunLog<L, E>, P>>>,
) -> Allocated<Vec<Finding<RunLog<L, E>, P>>>
    ensures { IfOk result (λ v.
        IsOkAnd first (λ a. IsOkAnd second (λ b. v.items ≡ a.items ++ b.items))) }
{
    let mut all = first?;
    let mut more = second?;
    all.append(&mut more)?;
    Ok(all)
}

/// A seat at the board and one for tickets, with share 1 each, for another worker.
fn split_off(shared: &Shared, seats: &mut Seats) -> Option<Seats>
    requires sit { AreSeated shared.now seats.old }
    requires new { AreNew seats.old }
    requires share { (board_view seats.old.board).lock.share
        ≡ (ticket_view seats.old.tickets).share }
    ensures sit { AreSeated shared.now seats.new × AreNew seats.new }
    ensures share { (board_view seats.new.board).lock.share
        ≡ (ticket_view seats.new.tickets).share }
    ensures new { IfSome result (λ s. AreSeated shared.now s × AreNew s
        × ((board_view s.board).lock.share ≡ 1) × ((ticket_view s.tickets).share ≡ 1)) }
    ensures less { IfSome result (λ s.
        (ticket_view seats.new.tickets).share + 1 ≡ (ticket_view seats.old.tickets).share) }
    ensures none { IfNone result (((ticket_view seats.old.tickets).share ≤ 1)
        × ((ticket_view seats.new.tickets).share ≡ (ticket_view seats.old.tickets).share)) }
{
    if seats.tickets.share() <= 1 {
        return None;
    }
    let tickets = shared.tickets.split(&mut seats.tickets)?;
    let board = shared.board.split(&mut seats.board)?;
    Some(Seats { board, tickets })
}

/// Joins the seats of another worker to these.
fn take_back(shared: &Shared, seats: &mut Seats, other: Seats)
    requires sit { AreSeated shared.now seats.old × AreSeated shared.now other }
    ensures sit { AreSeated shared.now seats.new }
    ensures tickets { ticket_view seats.new.tickets
        ≡ joined_views (ticket_view seats.old.tickets) (ticket_view other.tickets) }
    ensures board { board_view seats.new.board
        ≡ joined_view (board_view seats.old.board) (board_view other.board) }
    ensures begins { StartsWith (board_view seats.new.board).seen (board_view seats.old.board).seen
        × StartsWith (board_view seats.new.board).seen (board_view other.board).seen }
{
    let Seats { board, tickets } = other;
    shared.tickets.join(&mut seats.tickets, tickets);
    shared.board.join(&mut seats.board, board);
}

/// `others` workers in threads of their own, and one in this thread. All are joined on every path, and their seats come
/// back.
pub(crate) fn workers<
    L: Log + Send,
    E: ProcessList + Send,
    P: ProcessList + Send,
    R: Threads + Wait + Sync,
    G: Gate,
>(
    rt: &R,
    alloc: Global,
    graph: &WaitGraph,
    plan: &Plan,
    shared: &Shared,
    gate: &G,
    seats: Seats,
    others: u32,
) -> (Seats, Allocated<Vec<Finding<RunLog<L, E>, P>>>)
    requires made { IsMadeFor graph.now plan.now shared.now }
    requires sit { AreSeated shared.now seats }
    requires same { (board_view seats.board).lock.share ≡ (ticket_view seats.tickets).share }
    requires new { AreNew seats }
    requires share { others < (ticket_view seats.tickets).share }
    ensures back { AreBack shared.now seats result.0 }
    ensures worked { IfOk result.1 (λ found.
        IsWorked P.processes graph.now plan.now shared.now result.0 found.items) }
{
    if others == 0 {
        return work(rt, alloc, graph, plan, shared, gate, seats);
    }
    let fewer = others - 1;
    let mut left = seats;
    let Some(next) = split_off(shared, &mut left) else {
        return work(rt, alloc, graph, plan, shared, gate, left);
    };
    let ((next, next_found), (mut left, left_found)) = join(
        rt,
        || -> (Seats, Allocated<Vec<Finding<RunLog<L, E>, P>>>)
            requires { IsSync R.row × IsMadeFor graph.now plan.now shared.now
                × AreSeated shared.now next × AreNew next }
            ensures { AreBack shared.entry.now next result.0
                × IfOk result.1 (λ found. IsWorked P.processes
                graph.entry.now plan.entry.now shared.entry.now result.0 found.items) }
        { work(rt, alloc, graph, plan, shared, gate, next) },
        || -> (Seats, Allocated<Vec<Finding<RunLog<L, E>, P>>>)
            requires { IsSync R.row × IsMadeFor graph.now plan.now shared.now
                × AreSeated shared.now left
                × ((board_view left.board).lock.share ≡ (ticket_view left.tickets).share)
                × AreNew left × (fewer < (ticket_view left.tickets).share) }
            ensures { AreBack shared.entry.now left result.0
                × IfOk result.1 (λ found. IsWorked P.processes
                graph.entry.now plan.entry.now shared.entry.now result.0 found.items) }
        { workers(rt, alloc, graph, plan, shared, gate, left, fewer) },
    );
    take_back(shared, &mut left, next);
    (left, concat_findings(left_found, next_found))
}
