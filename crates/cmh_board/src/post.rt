//! Adding the rows of a posting, in a hold for writing. A pass of loads counts the new rows before any is stored, so
//! the last one is known when it is stored.

ghost use Rattle.std.specs.Prelude.{◌≡◌, ℕ, ◌+◌, ◌<◌, ◌++◌, length, is_none, true, Contains, IsTrue};
ghost use Rattle.cmh_graph.specs.declared.TheConstants.{MAX_PROCESSES};
ghost use Rattle.cmh_graph.specs.Graph.{is_idle};
ghost use Rattle.cmh_rw.specs.declared.machine.SeatState.TheVariants.{Writing};
ghost use Rattle.cmh_rw.specs.History.{fold_at};
ghost use Rattle.cmh_rw.specs.Seats.{rw_view, IsSeatOf};
ghost use Rattle.cmh_board.specs.Board.{unposted_in};
ghost use Rattle.cmh_board.specs.Adding.{CanPost, IsWriter, OnlyLoads, Stages, Adds};

use crate::Posting;
use cmh_graph::Verdict;
use cmh_rw::{FIRST_VERDICT, ROW_COUNT, RwSeat, RwWords};

/// Adds the posting's new rows to the history, if there are any.
pub(crate) fn add_posting(words: &RwWords, seat: &mut RwSeat, posting: &Posting)
    requires own { IsSeatOf words.now seat.old }
    requires writer { IsWriter (rw_view seat.old) }
    requires can { CanPost (rw_view seat.old).lock.graph posting.now.verdict posting.now.processes }
    ensures own { IsSeatOf words.now seat.new }
    ensures adds { Adds posting.now (rw_view seat.old) (rw_view seat.new) }
{
    let processes = posting.processes();
    let count = words.load(seat, ROW_COUNT) as usize;
    let new = count_unposted(words, seat, processes);
    if new > 0 {
        let end = count + new;
        stage_rows(words, seat, processes, posting.verdict(), count, end);
        words.store_count(seat, end);
    }
}

/// How many of the processes stand in no row.
fn count_unposted(words: &RwWords, seat: &mut RwSeat, processes: &[u32]) -> usize
    requires own { IsSeatOf words.now seat.old }
    requires writer { IsWriter (rw_view seat.old) }
    requires loaded { (rw_view seat.old).loaded ≡ true }
    requires idle { (p : ℕ) → Contains processes.now p
        → IsTrue (is_idle (rw_view seat.old).lock.graph p) }
    ensures own { IsSeatOf words.now seat.new }
    ensures loads { OnlyLoads (length processes.now) (rw_view seat.old) (rw_view seat.new) }
    ensures count { result ≡ length (unposted_in (rw_view seat.old).seen processes.now) }
{
    let mut count = 0;
    for p in processes {
        if is_unposted(words, seat, *p) {
            count += 1;
        }
    }
    count
}

/// Stages a row for each of the processes that stand in none, from row `count` on. The row before row `end` is the last
/// one.
fn stage_rows(
    words: &RwWords,
    seat: &mut RwSeat,
    processes: &[u32],
    verdict: Verdict,
    count: usize,
    end: usize,
)
    requires own { IsSeatOf words.now seat.old }
    requires writer { IsWriter (rw_view seat.old) }
    requires loaded { (rw_view seat.old).loaded ≡ true }
    requires can { CanPost (rw_view seat.old).lock.graph verdict processes.now }
    requires count { count ≡ length (rw_view seat.old).seen }
    requires end { end ≡ count + length (unposted_in (rw_view seat.old).seen processes.now) }
    ensures own { IsSeatOf words.now seat.new }
    ensures stages { Stages verdict processes.now (rw_view seat.old) (rw_view seat.new) }
{
    let mut n = count;
    for p in processes {
        if is_unposted(words, seat, *p) {
            words.store_row(seat, n, *p, verdict, n + 1 == end);
            words.store_verdict(seat, *p, verdict);
            n += 1;
        }
    }
}

/// Whether a process stands in no row, nor has had its verdict stored.
fn is_unposted(words: &RwWords, seat: &mut RwSeat, p: u32) -> bool
    requires own { IsSeatOf words.now seat.old }
    requires writing { (rw_view seat.old).lock.state ≡ Writing }
    requires loaded { (rw_view seat.old).loaded ≡ true }
    requires process { p < MAX_PROCESSES }
    ensures own { IsSeatOf words.now seat.new }
    ensures loads { OnlyLoads 1 (rw_view seat.old) (rw_view seat.new) }
    ensures answer { result
        ≡ is_none (fold_at ((rw_view seat.old).seen ++ (rw_view seat.old).told) p) }
{
    words.load(seat, FIRST_VERDICT + p as usize) == 0
}
