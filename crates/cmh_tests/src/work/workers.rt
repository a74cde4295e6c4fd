//! The number of workers, and that each idle process passes the gate once.

use crate::expect::expect_eq;
use crate::graphs::{graph_of, part};
use cmh_graph::WaitGraph;
use cmh_work::{Analysis, Gate, Origin, Plan, analyse};
use std::alloc::Global;
use std::sync::Wait;
use std::sync::atomic::{AtomicU64, Ordering};
use std::test::Fail;
use std::thread::{Threads, yield_now};

/// The most turns that a gate waits for.
const TURNS: u64 = 20_000_000;

/// Opens once this many workers stand at it, or one came in vain. It notes which of 64 processes passed.
#[derive(Drop)]
struct Together {
    wanted: u64,
    came: AtomicU64,
    passed: AtomicU64,
    late: AtomicU64,
}

impl Gate for Together {
    fn pass(&self, initiator: u32) {
        self.passed
            .fetch_or(1u64.wrapping_shl(initiator), Ordering::SeqCst);
        self.came.fetch_add(1, Ordering::SeqCst);
        for _ in 0..TURNS {
            let is_late = self.late.load(Ordering::SeqCst) != 0;
            if is_late || self.came.load(Ordering::SeqCst) >= self.wanted {
                return;
            }
            yield_now();
        }
        self.late.store(1, Ordering::SeqCst);
    }
}

/// Each worker stands at the gate with a chunk of one process, for each number of workers.
#[test]
fn as_many_workers_as_the_plan_says(rt: HostRuntime) -> Result<(), Fail> {
    let alone: Option<&[u32]> = Some(&[]);
    let graph = graph_of(rt.alloc(), &[alone; 64], &[])?;
    for workers in 1..=64u32 {
        let plan = Plan::new(rt.alloc(), workers, &[1; 64], &[])?;
        let gate = Together {
            wanted: u64::from(workers),
            came: AtomicU64::new(0),
            passed: AtomicU64::new(0),
            late: AtomicU64::new(0),
        };
        analyse(&rt, rt.alloc(), &graph, &plan, &gate)?;
        assert_eq!(rt; gate.late.load(Ordering::SeqCst), 0, "{workers} workers");
        assert_eq!(rt; gate.came.load(Ordering::SeqCst), 64, "{workers} workers");
        assert_eq!(rt;
            gate.passed.load(Ordering::SeqCst),
            u64::MAX,
            "{workers} workers"
        );
    }
    Ok(())
}

/// Opens for all but the first two processes once these have come, and as many others as there are workers.
#[derive(Drop)]
struct Followers {
    workers: u64,
    came: AtomicU64,
    second_came: AtomicU64,
    late: AtomicU64,
}

impl Gate for Followers {
    fn pass(&self, initiator: u32) {
        self.came.fetch_add(1, Ordering::SeqCst);
        if initiator == 1 {
            self.second_came.store(1, Ordering::SeqCst);
        }
        if initiator < 2 {
            return;
        }
        for _ in 0..TURNS {
            let are_here = self.came.load(Ordering::SeqCst) >= self.workers.saturating_add(2)
                && self.second_came.load(Ordering::SeqCst) != 0;
            if are_here || self.late.load(Ordering::SeqCst) != 0 {
                return;
            }
            yield_now();
        }
        self.late.store(1, Ordering::SeqCst);
    }
}

/// 200 processes in a ring.
fn ring(alloc: Global) -> Result<WaitGraph, Fail> {
    let mut parts = Vec::with_capacity(alloc, 200)?;
    for p in 0..200u32 {
        parts.push(part(alloc, Some(&[p.saturating_add(1) % 200]))?)?;
    }
    Ok(WaitGraph::build(alloc, parts)?)
}

fn run_count(analysis: &Analysis) -> u32 {
    let mut runs = 0u32;
    for record in analysis.records() {
        if matches!(record.source, Origin::FromRun(_)) {
            runs = runs.saturating_add(1);
        }
    }
    runs
}

/// How many came late to the gate, how many came, and how many runs were made, by as many workers and choices.
fn followed<R: Threads + Wait + Sync + AllocGlobal>(
    rt: &R,
    graph: &WaitGraph,
    workers: u32,
    choices: usize,
) -> Result<(u64, u64, u32), Fail> {
    let mut cuts = vec![in rt.alloc(); 1u64; 198]?;
    cuts[0] = 2;
    let choices = vec![in rt.alloc(); 1u64; choices]?;
    let plan = Plan::new(rt.alloc(), workers, &cuts, &choices)?;
    let gate = Followers {
        workers: u64::from(workers),
        came: AtomicU64::new(0),
        second_came: AtomicU64::new(0),
        late: AtomicU64::new(0),
    };
    let analysis = analyse(rt, rt.alloc(), graph, &plan, &gate)?;
    let late = gate.late.load(Ordering::SeqCst);
    let came = gate.came.load(Ordering::SeqCst);
    Ok((late, came, run_count(&analysis)))
}

/// Once the second process of the ring comes, the run of the first is posted, which knows all of them; so no other run is
/// made, whatever the number of workers and the choices.
#[test]
fn all_workers_look_at_the_board(rt: HostRuntime) -> Result<(), Fail> {
    let graph = ring(rt.alloc())?;
    for workers in [4u32, 16] {
        for choices in [0usize, 300] {
            let found = followed(&rt, &graph, workers, choices)?;
            expect_eq(&rt, found, (0, 200, 1));
        }
    }
    Ok(())
}
