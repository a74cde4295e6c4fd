//! Analyses of as many processes as there may be.

use super::wanted::{delivery, is_from_row, is_from_run};
use super::{expect, expect_eq};
use crate::graphs::part;
use cmh_graph::{GraphFault, Verdict, WaitGraph};
use cmh_process::Kind;
use cmh_work::{Gate, NoGate, Plan, Record, Shape, analyse};
use std::alloc::Global;
use std::sync::atomic::{AtomicU64, Ordering};
use std::test::Fail;

/// 4,096 processes, four by four. The first two of each four wait for each other, and the third for the first. The
/// fourth of the first four is active; the fourth of each next four waits for the one of the four before.
fn fours(alloc: Global) -> Result<WaitGraph, GraphFault> {
    let mut parts = Vec::new(alloc);
    for p in 0..4_096u32 {
        let dependents = match p % 4 {
            0 => [p.saturating_add(1)],
            1 => [p.saturating_sub(1)],
            2 => [p.saturating_sub(2)],
            _ => [p.saturating_sub(4)],
        };
        parts.push(part(alloc, if p == 3 { None } else { Some(&dependents) })?)?;
    }
    WaitGraph::build(alloc, parts)
}

/// Whether a process of `fours` is found as the rules say where those before it are posted. The first of each four
/// finds nothing on the board, and the second itself. The third hears that the first is deadlocked, and the fourth that
/// the one before is free. The active process has no row.
fn is_found(record: &Record) -> bool {
    let p = record.initiator;
    let (next, first) = (p.saturating_add(1), p.saturating_sub(2));
    let before = p.saturating_sub(4);
    let row = if p > 3 { p.saturating_sub(1) } else { p };
    let free = (before != 3).then_some(Verdict::Free);
    match p % 4 {
        0 => {
            let log = [
                delivery(Kind::Query, p, (p, next), None),
                delivery(Kind::Query, p, (next, p), None),
                delivery(Kind::Reply, p, (p, next), None),
                delivery(Kind::Reply, p, (next, p), None),
            ];
            is_from_run(record, &log)
        }
        1 => is_from_row(record, row),
        2 => {
            let query = delivery(Kind::Query, p, (p, first), Some(Verdict::Deadlocked));
            is_from_run(record, &[query, delivery(Kind::Reply, p, (first, p), None)])
        }
        _ => is_from_run(record, &[delivery(Kind::Query, p, (p, before), free)]),
    }
}

/// Counts those who come after ones of lower numbers, and adds up the numbers.
#[derive(Drop)]
struct Ascending {
    next: AtomicU64,
    came: AtomicU64,
    sum: AtomicU64,
}

impl Gate for Ascending {
    fn pass(&self, initiator: u32) {
        let p = initiator as u64;
        if self.next.swap(p.saturating_add(1), Ordering::SeqCst) <= p {
            self.came.fetch_add(1, Ordering::SeqCst);
        }
        self.sum.fetch_add(p, Ordering::SeqCst);
    }
}

/// One worker waits for no other, so the gate hears of each process in order, but for the active one, and the board and
/// its hints serve each up to the last.
#[test]
fn the_board_serves_the_last_process(rt: HostRuntime) -> Result<(), Fail> {
    let alloc = rt.alloc();
    let graph = fours(alloc)?;
    let plan = Plan::new(alloc, 1, &[60, 0, 1_000], &[])?;
    let gate = Ascending {
        next: AtomicU64::new(0),
        came: AtomicU64::new(0),
        sum: AtomicU64::new(0),
    };
    let analysis = analyse(&rt, alloc, &graph, &plan, &gate)?;
    expect_eq(&rt, gate.came.load(Ordering::SeqCst), 4_095);
    expect_eq(&rt, gate.sum.load(Ordering::SeqCst), 8_386_557);
    expect_eq(&rt, analysis.records().len(), 4_095);
    for record in analysis.records() {
        assert!(rt; is_found(record), "record of {}", record.initiator);
    }
    Ok(())
}

/// A process that waits for the one before it, and so on, down to an active one: the longest paths.
#[test]
fn a_chain_at_the_limits(rt: HostRuntime) -> Result<(), Fail> {
    let alloc = rt.alloc();
    let mut parts = Vec::with_capacity(alloc, 4_096)?;
    parts.push(part(alloc, None)?)?;
    for p in 0..4_095 {
        parts.push(part(alloc, Some(&[p]))?)?;
    }
    let graph = WaitGraph::build(alloc, parts)?;
    let plan = Plan::new(alloc, 4, &[1; 512], &[])?;
    let analysis = analyse(&rt, alloc, &graph, &plan, &NoGate)?;
    let Some(Shape::Path(path)) = analysis.records().last().map(|record| &record.shape) else {
        panic!(rt; "the last process is free")
    };
    expect(&rt, path.len() == 4_096 && path.first() == Some(&4_095));
    Ok(())
}

/// 4,096 processes with 65,536 dependencies, 64 workers, 512 cuts and 65,536 choices.
#[test]
fn a_knot_at_the_limits(rt: HostRuntime) -> Result<(), Fail> {
    let alloc = rt.alloc();
    let mut parts = Vec::with_capacity(alloc, 4_096)?;
    for p in 0..4_096u32 {
        let mut dependents = [0u32; 16];
        for (k, dependent) in dependents.iter_mut().enumerate() {
            *dependent = p.saturating_add(k as u32).saturating_add(1) % 4_096;
        }
        parts.push(part(alloc, Some(&dependents))?)?;
    }
    let graph = WaitGraph::build(alloc, parts)?;
    let choices = vec![in alloc; 1u64; 65_536]?;
    let plan = Plan::new(alloc, 64, &[8; 512], &choices)?;
    let analysis = analyse(&rt, alloc, &graph, &plan, &NoGate)?;
    expect_eq(&rt, analysis.history().len(), 4_096);
    Ok(())
}
