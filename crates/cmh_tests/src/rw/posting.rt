//! A posting of two processes, store by store.

ghost use Rattle.std.specs.Prelude.{◌≡◌, ◌≢◌, ◌+◌, ◌<◌, ◌≤◌, true, [], None, IsTrue, length};
ghost use Rattle.cmh_graph.specs.declared.TheConstants.{MAX_PROCESSES};
ghost use Rattle.cmh_graph.specs.Graph.{process_count, is_idle};
ghost use Rattle.cmh_graph.specs.Verdict.{verdict, verdicts};
ghost use Rattle.cmh_rw.specs.declared.machine.SeatState.TheVariants.{Writing};
ghost use Rattle.cmh_rw.specs.History.{fold_at};
ghost use Rattle.cmh_rw.specs.Seats.{rw_view, IsSeatOf, IsRwSeatAway};

use cmh_graph::{Verdict, WaitGraph};
use cmh_rw::{Entry, FIRST_VERDICT, RwSeat, RwWords};

/// The verdict of process `p`, by those of all processes.
fn verdict_of(graph: &WaitGraph, all: &[Verdict], p: u32) -> Verdict
    requires all { all.now ≡ verdicts graph.now }
    requires within { p < process_count graph.now }
    ensures { result ≡ verdict graph.now p }
{
    all[p as usize]
}

/// Whether no row names the process. The seat is a writer that has staged nothing.
fn is_new(words: &RwWords, seat: &mut RwSeat, p: u32) -> bool
    requires own { IsSeatOf words.now seat.old }
    requires writing { (rw_view seat.old).lock.state ≡ Writing }
    requires loaded { IsTrue (rw_view seat.old).loaded }
    requires clear { (rw_view seat.old).told ≡ [] }
    requires within { p < MAX_PROCESSES }
    ensures own { IsSeatOf words.now seat.new }
    ensures view { rw_view seat.new
        ≡ record (rw_view seat.old) { loaded = true; loads = (rw_view seat.old).loads + 1 } }
    ensures new { IsTrue result → fold_at (rw_view seat.old).seen p ≡ None }
{
    words.load(seat, FIRST_VERDICT + p as usize) == 0
}

/// The five stores that post two processes, where there are `n` rows.
fn store_two(
    words: &RwWords,
    seat: &mut RwSeat,
    n: usize,
    first: (u32, Verdict),
    second: (u32, Verdict),
)
    requires own { IsSeatOf words.now seat.old }
    requires writing { (rw_view seat.old).lock.state ≡ Writing }
    requires loaded { IsTrue (rw_view seat.old).loaded }
    requires count { n ≡ length (rw_view seat.old).seen }
    requires few { n ≤ MAX_PROCESSES }
    requires clear { ((rw_view seat.old).staged ≡ []) × ((rw_view seat.old).told ≡ []) }
    requires idle { IsTrue (is_idle (rw_view seat.old).lock.graph first.0)
        × IsTrue (is_idle (rw_view seat.old).lock.graph second.0) }
    requires verdicts { (first.1 ≡ verdict (rw_view seat.old).lock.graph first.0)
        × (second.1 ≡ verdict (rw_view seat.old).lock.graph second.0) }
    requires new { (fold_at (rw_view seat.old).seen first.0 ≡ None)
        × (fold_at (rw_view seat.old).seen second.0 ≡ None) }
    requires two { first.0 ≢ second.0 }
    ensures own { IsSeatOf words.now seat.new }
    ensures counted { (rw_view seat.new).staged ≡ [] }
    ensures lock { (rw_view seat.new).lock ≡ (rw_view seat.old).lock }
{
    words.store_row(seat, n, first.0, first.1, false);
    words.store_verdict(seat, first.0, first.1);
    words.store_row(seat, n + 1, second.0, second.1, true);
    words.store_verdict(seat, second.0, second.1);
    words.store_count(seat, n + 2);
}

/// Posts two processes together, unless the lock is busy or one of them isn't idle or has a row.
pub(super) fn post_two(
    words: &RwWords,
    seat: &mut RwSeat,
    graph: &WaitGraph,
    all: &[Verdict],
    p: u32,
    q: u32,
)
    requires own { IsSeatOf words.now seat.old }
    requires away { IsRwSeatAway seat.old }
    requires graph { (rw_view seat.old).lock.graph ≡ graph.now }
    requires all { all.now ≡ verdicts graph.now }
    ensures own { IsSeatOf words.now seat.new }
    ensures away { IsRwSeatAway seat.new }
    ensures graph { (rw_view seat.new).lock.graph ≡ graph.now }
{
    let count = graph.len();
    if p >= count || q >= count || p == q || !graph.is_idle(p) || !graph.is_idle(q) {
        return;
    }
    let v = verdict_of(graph, all, p);
    let w = verdict_of(graph, all, q);
    if words.try_write(seat) != Entry::Held {
        return;
    }
    let n = words.load(seat, 1) as usize;
    if is_new(words, seat, p) && is_new(words, seat, q) {
        store_two(words, seat, n, (p, v), (q, w));
    }
    words.end_write(seat);
}
