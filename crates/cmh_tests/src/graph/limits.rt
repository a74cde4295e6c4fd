//! Graphs with as many processes, dependents and messages in transit as there may be.

use super::reaches::reaches_by_each;
use super::{expect, expect_eq, expect_list};
use cmh_graph::{
    GraphFault, MAX_IN_TRANSIT, MAX_PROCESSES, Part, Predecessors, State, Verdict, WaitGraph,
};
use std::alloc::{AllocError, Global};

const COUNT: u32 = MAX_PROCESSES as u32;

fn part(alloc: Global, state: State, dependents: &[u32]) -> Result<Part, AllocError> {
    Ok(Part {
        name: String::new(alloc),
        site: 0,
        state,
        dependents: Vec::from_slice(alloc, dependents)?,
    })
}

/// `count` idle processes, each with these dependents.
fn alike(alloc: Global, count: usize, dependents: &[u32]) -> Result<Vec<Part>, AllocError> {
    let mut parts = Vec::new(alloc);
    for _ in 0..count {
        parts.push(part(alloc, State::Idle, dependents)?)?;
    }
    Ok(parts)
}

/// Each process waits for the next one. The last is given.
fn row_before(
    alloc: Global,
    last: Part,
    in_transit: &[(u32, u32)],
) -> Result<WaitGraph, GraphFault> {
    let mut parts = Vec::new(alloc);
    for next in 1..COUNT {
        parts.push(part(alloc, State::Idle, &[next])?)?;
    }
    parts.push(last)?;
    WaitGraph::build_with(alloc, parts, in_transit)
}

/// The first `count` processes.
fn first_of(alloc: Global, count: u32) -> Result<Vec<u32>, AllocError> {
    let mut list = Vec::new(alloc);
    for p in 0..count {
        list.push(p)?;
    }
    Ok(list)
}

/// The first of `count` processes waits for all, itself among them. The last is active, and the others wait for the
/// first.
fn star(alloc: Global, count: u32) -> Result<WaitGraph, GraphFault> {
    let mut parts = alike(alloc, 1, &first_of(alloc, count)?)?;
    parts.extend(alike(alloc, count.saturating_sub(2) as usize, &[0])?)?;
    parts.push(part(alloc, State::Active, &[])?)?;
    WaitGraph::build(alloc, parts)
}

#[test]
fn most_processes(rt: HostRuntime) -> Result<(), GraphFault> {
    let alloc = rt.alloc();
    let graph = WaitGraph::build(alloc, alike(alloc, MAX_PROCESSES, &[])?)?;
    expect_list(&rt, &graph.idle_list(alloc)?, &first_of(alloc, COUNT)?);
    let verdicts = graph.verdicts_plain(alloc)?;
    let wanted = vec![in alloc; Verdict::Deadlocked; 4_096]?;
    expect_list(&rt, &verdicts, &wanted);
    let refused = WaitGraph::build(alloc, alike(alloc, MAX_PROCESSES + 1, &[])?).err();
    expect_eq(&rt, refused, Some(GraphFault::TooManyProcesses));
    Ok(())
}

#[test]
fn most_dependencies(rt: HostRuntime) -> Result<(), GraphFault> {
    let alloc = rt.alloc();
    let all = first_of(alloc, 256)?;
    let graph = WaitGraph::build(alloc, alike(alloc, 256, &all)?)?;
    assert_eq!(rt; graph.len(), 256);
    expect_list(&rt, &graph.core_of(alloc, 255)?, &all);
    let mut parts = alike(alloc, 256, &all)?;
    parts.extend(alike(alloc, 1, &[0])?)?;
    let refused = WaitGraph::build(alloc, parts).err();
    expect_eq(&rt, refused, Some(GraphFault::TooManyDependencies));
    Ok(())
}

#[test]
fn a_chain_with_its_last_active(rt: HostRuntime) -> Result<(), GraphFault> {
    let alloc = rt.alloc();
    let graph = row_before(alloc, part(alloc, State::Active, &[])?, &[])?;
    assert_eq!(rt; graph.len(), 4_096);
    let all = first_of(alloc, COUNT)?;
    let path = graph.chosen_path(alloc, 0)?.expect(&rt, "a path");
    expect_list(&rt, &path, &all);
    expect_list(&rt, &graph.reach_of(alloc, 0)?, &all);
    expect_list(&rt, &graph.core_of(alloc, 2_000)?, &[2_000]);
    let distances = graph.distances(alloc)?;
    for p in 0..COUNT {
        expect_eq(
            &rt,
            distances.get(p as usize),
            Some(&4_095u32.checked_sub(p)),
        );
    }
    Ok(())
}

/// Each question goes over the 4,096 dependents of one process, or over its 4,095 predecessors.
#[test]
fn one_waits_for_all(rt: HostRuntime) -> Result<(), GraphFault> {
    let alloc = rt.alloc();
    let all = first_of(alloc, COUNT)?;
    let graph = star(alloc, COUNT)?;
    assert_eq!(rt; graph.len(), 4_096);
    expect_list(&rt, graph.dependents(0), &all);
    expect_list(&rt, &graph.idle_list(alloc)?, &first_of(alloc, COUNT - 1)?);
    expect_list(&rt, &graph.reach_of(alloc, 0)?, &all);
    expect_list(&rt, &graph.core_of(alloc, 0)?, &first_of(alloc, COUNT - 1)?);
    let path = graph.chosen_path(alloc, 7)?.expect(&rt, "a path");
    expect_list(&rt, &path, &[7, 0, COUNT - 1]);
    Ok(())
}

#[test]
fn marks_where_one_waits_for_all(rt: HostRuntime) -> Result<(), GraphFault> {
    let alloc = rt.alloc();
    let graph = star(alloc, COUNT)?;
    assert_eq!(rt; graph.len(), 4_096);
    let mut distances = vec![in alloc; Some(2); 4_096]?;
    distances[0] = Some(1);
    distances[4_095] = Some(0);
    expect_list(&rt, &graph.distances(alloc)?, &distances);
    let verdicts = vec![in alloc; Verdict::Free; 4_096]?;
    expect_list(&rt, &graph.verdicts_plain(alloc)?, &verdicts);
    let mut alone = vec![in alloc; false; 4_096]?;
    alone[4_095] = true;
    let predecessors = Predecessors::of_graph(alloc, &graph)?;
    expect_list(&rt, &graph.singleton_marks(alloc, &predecessors)?, &alone);
    Ok(())
}

/// By what each of its dependents reaches. That takes the square of their number, so they are 300.
#[test]
fn reaches_of_one_that_waits_for_all(rt: HostRuntime) -> Result<(), GraphFault> {
    let alloc = rt.alloc();
    let graph = star(alloc, 300)?;
    assert_eq!(rt; graph.len(), 300);
    expect(&rt, reaches_by_each(alloc, &graph, 0, &[true; 300])?);
    Ok(())
}

/// Each even process has two messages in transit from the one after it, for which it waits.
#[test]
fn most_messages(rt: HostRuntime) -> Result<(), GraphFault> {
    let alloc = rt.alloc();
    let mut messages = Vec::new(alloc);
    for n in 0..COUNT {
        let to = 2 * n % COUNT;
        messages.push((to + 1, to))?;
    }
    assert_eq!(rt; messages.len(), MAX_IN_TRANSIT);
    let graph = row_before(alloc, part(alloc, State::Idle, &[0])?, &messages)?;
    assert_eq!(rt; graph.len(), 4_096);
    expect_list(&rt, graph.in_transit(), &messages);
    let distances = graph.distances(alloc)?;
    for p in 0..4_096u32 {
        assert_eq!(rt; graph.is_awake(p), p % 2 == 0, "at {p}");
        assert_eq!(rt; distances.get(p as usize), Some(&Some(p % 2)), "at {p}");
    }
    Ok(())
}
