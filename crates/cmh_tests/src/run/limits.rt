//! Calls at their limits: as many processes, dependencies and restarts as there may be, and a long script.

use super::{Step, delivery, expect_eq};
use crate::graphs::part;
use cmh_graph::{MAX_PROCESSES, Verdict, WaitGraph};
use cmh_run::{Ending, NoHints, RunFault, Scripted, check_run, run, run_again};
use std::alloc::{AllocError, Global};

const COUNT: u32 = MAX_PROCESSES as u32;

/// Each process waits for the next one, and the last for none.
fn chain(alloc: Global) -> Result<WaitGraph, RunFault> {
    let mut parts = Vec::new(alloc);
    for p in 1..COUNT {
        parts.push(part(alloc, Some(&[p]))?)?;
    }
    parts.push(part(alloc, Some(&[]))?)?;
    WaitGraph::build(alloc, parts).map_err(|_| RunFault::Memory)
}

/// The numbers from `first` up to, but not with, `end`.
fn numbers(alloc: Global, first: u32, end: u32) -> Result<Vec<u32>, AllocError> {
    let mut list = Vec::new(alloc);
    for n in first..end {
        list.push(n)?;
    }
    Ok(list)
}

/// 256 processes that each wait for all 256: as many dependencies as there may be.
fn knot(alloc: Global) -> Result<WaitGraph, RunFault> {
    let all = numbers(alloc, 0, 256)?;
    let mut parts = Vec::new(alloc);
    for _ in 0..256u32 {
        parts.push(part(alloc, Some(&all))?)?;
    }
    WaitGraph::build(alloc, parts).map_err(|_| RunFault::Memory)
}

/// The first process waits for all others, and each of them for the first.
fn wheel(alloc: Global) -> Result<WaitGraph, RunFault> {
    let spokes = numbers(alloc, 1, COUNT)?;
    let mut parts = Vec::new(alloc);
    parts.push(part(alloc, Some(&spokes))?)?;
    for _ in 1..COUNT {
        parts.push(part(alloc, Some(&[0]))?)?;
    }
    WaitGraph::build(alloc, parts).map_err(|_| RunFault::Memory)
}

/// A chain asks and replies once along each dependency.
#[test]
fn a_chain_of_all_processes(rt: HostRuntime) -> Result<(), RunFault> {
    let alloc = rt.alloc();
    let graph = chain(alloc)?;
    let run = run(alloc, &graph, 0, &[], &mut NoHints)?;
    expect_eq(&rt, run.ending(), Ending::Declared);
    expect_eq(&rt, run.log().len(), 8_190);
    expect_eq(&rt, run.engaged().len(), 4_096);
    expect_eq(
        &rt,
        check_run(alloc, &graph, 0, run.log()),
        Ok(Ending::Declared),
    );
    Ok(())
}

/// In a knot each dependency carries a query and a reply.
#[test]
fn a_knot_of_all_dependencies(rt: HostRuntime) -> Result<(), RunFault> {
    let alloc = rt.alloc();
    let graph = knot(alloc)?;
    let run = run(alloc, &graph, 255, &[5, 1_000, u64::MAX], &mut NoHints)?;
    expect_eq(&rt, run.ending(), Ending::Declared);
    expect_eq(&rt, run.log().len(), 131_072);
    expect_eq(&rt, run.engaged().len(), 256);
    expect_eq(
        &rt,
        check_run(alloc, &graph, 255, run.log()),
        Ok(Ending::Declared),
    );
    Ok(())
}

/// A computation of the wheel takes 16,380 deliveries, a query and a reply for each dependency.
#[test]
fn sixteen_restarts_of_a_wheel(rt: HostRuntime) -> Result<(), RunFault> {
    let alloc = rt.alloc();
    let graph = wheel(alloc)?;
    let restarts = [
        0, 1, 2, 1_000, 2_000, 3_000, 4_000, 5_000, 6_000, 7_000, 8_000, 9_000, 10_000, 11_000,
        12_000, 13_000,
    ];
    let run = run_again(alloc, &graph, 0, &[], &mut NoHints, &restarts)?;
    expect_eq(&rt, run.restarted(), 16);
    expect_eq(&rt, run.ending(), Ending::Declared);
    expect_eq(&rt, run.engaged().len(), 4_096);
    Ok(())
}

/// Process 1 asks the hub, which waits for 4,095 others and is known: it replies at once.
#[test]
fn a_hint_about_the_hub_of_a_wheel(rt: HostRuntime) -> Result<(), RunFault> {
    let alloc = rt.alloc();
    let graph = wheel(alloc)?;
    let script = [(0, 0, Verdict::Deadlocked)];
    let mut hints = Scripted::new(alloc, &graph, &script).map_err(|_| RunFault::Memory)?;
    let run = run(alloc, &graph, 1, &[], &mut hints)?;
    expect_eq(&rt, run.ending(), Ending::Declared);
    expect_eq(&rt, run.log().len(), 2);
    expect_eq(&rt, run.engaged(), [1, 0].as_slice());
    Ok(())
}

/// The last of 5,001 lines answers ask 4,000, about process 4,001, which replies at once. Those before it are about
/// process 0, about which no hint is asked.
#[test]
fn a_script_of_many_lines(rt: HostRuntime) -> Result<(), RunFault> {
    let alloc = rt.alloc();
    let graph = chain(alloc)?;
    let mut lines = Vec::new(alloc);
    for ask in 0..5_000u32 {
        lines.push((ask, 0u32, Verdict::Deadlocked))?;
    }
    lines.push((4_000, 4_001, Verdict::Deadlocked))?;
    let mut hints = Scripted::new(alloc, &graph, &lines).map_err(|_| RunFault::Memory)?;
    let run = run(alloc, &graph, 0, &[], &mut hints)?;
    expect_eq(&rt, run.ending(), Ending::Declared);
    expect_eq(&rt, run.log().len(), 8_002);
    expect_eq(
        &rt,
        run.log().get(4_000),
        Some(&delivery(0, Step::Query(1, 4_000, 4_001), Some(Verdict::Deadlocked))),
    );
    Ok(())
}
