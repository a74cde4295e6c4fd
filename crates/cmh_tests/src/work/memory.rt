//! Analyses while memory is short.

use super::expect;
use crate::graphs::{CYCLE_AND_FOLLOWER, graph_of};
use crate::shortage::take_all_but;
use cmh_work::{Gate, NoGate, Plan, analyse};
use std::alloc::Global;
use std::sync::Wait;
use std::sync::atomic::{AtomicU64, Ordering};
use std::test::Fail;
use std::thread::{Threads, join};

/// The most bytes that are left for an analysis.
const ROOM: usize = 98_304;

/// Counts how often it is passed.
#[derive(Drop)]
struct Counted {
    times: AtomicU64,
}

impl Gate for Counted {
    fn pass(&self, _initiator: u32) {
        self.times.fetch_add(1, Ordering::SeqCst);
    }
}

/// What came of the analyses: whether one succeeded, whether memory was refused to one, and whether that was after some
/// of the processes had passed the gate, but not all.
#[derive(Clone, Copy, Debug)]
struct Seen {
    succeeded: bool,
    refused: bool,
    in_midst: bool,
}

/// Analyses the cycle and its follower with ample memory, so that the stack has grown as far as it needs, then with
/// more and more of it, up to `ROOM` bytes, and at last with ample memory again. The contract says what each answer is.
fn sweep<R: Threads + Wait + Sync>(rt: &R, alloc: Global, workers: u32) -> Result<Seen, Fail> {
    let graph = graph_of(alloc, &CYCLE_AND_FOLLOWER, &[])?;
    let plan = Plan::new(alloc, workers, &[1, 1], &[])?;
    let gate = Counted {
        times: AtomicU64::new(0),
    };
    // Threads take memory of their own the first time.
    let _ = join(rt, || 0u8, || 0u8);
    analyse(rt, alloc, &graph, &plan, &NoGate)?;
    let shortage = take_all_but(alloc, ROOM)?;
    let mut seen = Seen {
        succeeded: false,
        refused: false,
        in_midst: false,
    };
    for k in 0..ROOM / 16 {
        let taken: Result<Vec<u8>, _> = Vec::with_capacity(alloc, ROOM - 16 * k);
        gate.times.store(0, Ordering::SeqCst);
        let succeeded = analyse(rt, alloc, &graph, &plan, &gate).is_ok();
        let times = gate.times.load(Ordering::SeqCst);
        seen.succeeded = seen.succeeded || succeeded;
        seen.refused = seen.refused || !succeeded;
        seen.in_midst = seen.in_midst || !succeeded && (times == 1 || times == 2);
        drop(taken);
    }
    drop(shortage);
    analyse(rt, alloc, &graph, &plan, &NoGate)?;
    Ok(seen)
}

/// A worker to which memory was refused draws no more chunks.
#[test]
fn out_of_memory_with_one_worker(rt: HostRuntime) -> Result<(), Fail> {
    let seen = sweep(&rt, rt.alloc(), 1)?;
    expect(&rt, seen.succeeded && seen.refused && seen.in_midst);
    Ok(())
}

/// One of them works in a thread of its own. Once all memory was taken, the C library may have no part of it left from
/// which another thread is served, and then none of these analyses succeeds; the one with ample memory has.
#[test]
fn out_of_memory_with_two_workers(rt: HostRuntime) -> Result<(), Fail> {
    let seen = sweep(&rt, rt.alloc(), 2)?;
    expect(&rt, seen.refused);
    Ok(())
}
