//! Worked graphs. Wanted values are from the rules, by hand.

mod cores;
mod limits;
mod reaches;

use crate::expect::{expect, expect_eq, expect_list};
use cmh_graph::laws::{
    law_built_graph, law_chosen_path, law_chosen_path_exists, law_closed_set, law_core,
    law_distance, law_group_number, law_leader, law_leaders, law_path_length, law_reach, law_rest,
    law_rising, law_verdict, law_well_formed,
};
use cmh_graph::{GraphFault, MAX_IN_TRANSIT, Part, Predecessors, State, Verdict, WaitGraph};
use std::alloc::{AllocError, Global};

/// A process by its name, its site, its state and its dependents.
type Row<'a> = (&'a str, u32, State, &'a [u32]);

fn parts_of(alloc: Global, rows: &[Row]) -> Result<Vec<Part>, AllocError> {
    let mut parts = Vec::new(alloc);
    for (name, site, state, dependents) in rows {
        let name = String::from_str(alloc, name)?;
        let dependents = Vec::from_slice(alloc, dependents)?;
        parts.push(Part {
            name,
            site: *site,
            state: *state,
            dependents,
        })?;
    }
    Ok(parts)
}

fn graph_of(alloc: Global, rows: &[Row]) -> Result<WaitGraph, GraphFault> {
    WaitGraph::build(alloc, parts_of(alloc, rows)?)
}

const TWO_IN_A_CYCLE: [Row; 2] = [("p", 0, State::Idle, &[1]), ("q", 0, State::Idle, &[0])];

const CYCLE_AND_FOLLOWER: [Row; 3] = [
    ("p", 0, State::Idle, &[1]),
    ("q", 0, State::Idle, &[0]),
    ("r", 1, State::Idle, &[0]),
];

/// p waits for b or a, and both for z.
const TWO_SHORTEST_PATHS: [Row; 4] = [
    ("p", 0, State::Idle, &[2, 1]),
    ("a", 0, State::Idle, &[3]),
    ("b", 0, State::Idle, &[3]),
    ("z", 0, State::Active, &[]),
];

#[test]
fn values_of_a_graph(rt: HostRuntime) -> Result<(), GraphFault> {
    let graph = graph_of(rt.alloc(), &CYCLE_AND_FOLLOWER)?;
    law_built_graph(&graph);
    assert_eq!(rt; (graph.len(), graph.is_empty()), (3, false));
    expect_eq(&rt, (graph.name(2), graph.site(2)), ("r", 1));
    expect_eq(&rt, (graph.is_idle(2), graph.is_awake(2)), (true, false));
    expect_list(&rt, graph.dependents(2), &[0]);
    expect_list(&rt, graph.in_transit(), &[]);
    Ok(())
}

#[test]
fn cycle_and_follower(rt: HostRuntime) -> Result<(), GraphFault> {
    let alloc = rt.alloc();
    let graph = graph_of(alloc, &CYCLE_AND_FOLLOWER)?;
    assert_eq!(rt; graph.len(), 3);
    expect_list(&rt, &graph.idle_list(alloc)?, &[0, 1, 2]);
    expect_list(
        &rt,
        &graph.verdicts_plain(alloc)?,
        &[Verdict::Deadlocked; 3],
    );
    expect_list(&rt, &graph.reach_of(alloc, 2)?, &[0, 1, 2]);
    expect_list(&rt, &graph.reach_marks(alloc, 1)?, &[true, true, false]);
    expect_list(&rt, &graph.core_of(alloc, 2)?, &[2]);
    expect(&rt, graph.chosen_path(alloc, 2)?.is_none());
    expect_list(&rt, &graph.distances(alloc)?, &[None; 3]);
    Ok(())
}

#[test]
fn two_shortest_paths(rt: HostRuntime) -> Result<(), GraphFault> {
    let alloc = rt.alloc();
    let graph = graph_of(alloc, &TWO_SHORTEST_PATHS)?;
    assert_eq!(rt; graph.len(), 4);
    let path = graph.chosen_path(alloc, 0)?.expect(&rt, "a path");
    expect_list(&rt, &path, &[0, 1, 3]);
    let predecessors = Predecessors::of_graph(alloc, &graph)?;
    let distances = graph.distances(alloc)?;
    expect_list(&rt, &distances, &[Some(2), Some(1), Some(1), Some(0)]);
    expect_list(&rt, &graph.distances_by(alloc, &predecessors)?, &distances);
    let path = graph.path_by(alloc, &distances, 3)?.expect(&rt, "a path");
    expect_list(&rt, &path, &[3]);
    let verdicts = graph.verdicts_by(alloc, &distances)?;
    expect_list(&rt, &verdicts, &[Verdict::Free; 4]);
    Ok(())
}

#[test]
fn empty(rt: HostRuntime) -> Result<(), GraphFault> {
    let graph = graph_of(rt.alloc(), &[])?;
    expect_eq(&rt, (graph.len(), graph.is_empty()), (0, true));
    expect(&rt, graph.verdicts_plain(rt.alloc())?.is_empty());
    Ok(())
}

#[test]
fn refused_parts(rt: HostRuntime) {
    let table: [(Row, GraphFault); 3] = [
        (
            ("p", 0, State::Idle, &[5]),
            GraphFault::DependentOutOfRange(0, 0),
        ),
        (
            ("p", 0, State::Idle, &[0, 0]),
            GraphFault::RepeatedDependent(0, 1),
        ),
        (
            ("p", 0, State::Active, &[0]),
            GraphFault::ActiveWithDependents(0),
        ),
    ];
    for (row, fault) in table {
        expect_eq(&rt, graph_of(rt.alloc(), &[row]).err(), Some(fault));
    }
}

#[test]
fn in_transit(rt: HostRuntime) -> Result<(), GraphFault> {
    let alloc = rt.alloc();
    let table: [(&[Row], (u32, u32), &[bool]); 3] = [
        (&TWO_IN_A_CYCLE, (1, 0), &[true, false]),
        // The sender q is no dependent of the receiver r.
        (&CYCLE_AND_FOLLOWER, (1, 2), &[false, false, false]),
        (&CYCLE_AND_FOLLOWER, (0, 2), &[false, false, true]),
    ];
    for (rows, message, awake) in table {
        let graph = WaitGraph::build_with(alloc, parts_of(alloc, rows)?, &[message])?;
        for p in 0..graph.len() {
            expect(&rt, awake.get(p as usize) == Some(&graph.is_awake(p)));
        }
    }
    Ok(())
}

#[test]
fn refused_messages(rt: HostRuntime) -> Result<(), GraphFault> {
    let alloc = rt.alloc();
    let many = vec![in alloc; (0, 0); MAX_IN_TRANSIT + 1]?;
    let table: [(&[(u32, u32)], GraphFault); 2] = [
        (&many, GraphFault::TooManyInTransit),
        (&[(0, 2)], GraphFault::TransitOutOfRange(0)),
    ];
    for (messages, fault) in table {
        let parts = parts_of(alloc, &TWO_IN_A_CYCLE)?;
        let refused = WaitGraph::build_with(alloc, parts, messages).err();
        expect_eq(&rt, refused, Some(fault));
    }
    Ok(())
}

#[test]
fn laws() {
    law_closed_set();
    law_reach();
    law_verdict();
    law_chosen_path();
    law_chosen_path_exists();
    law_distance();
    law_path_length();
    law_core();
    law_rest();
    law_rising();
    law_leader();
    law_leaders();
    law_group_number();
    law_well_formed();
}
