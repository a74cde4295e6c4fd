//! Cores by predecessors that are listed once. Wanted values are from the rules, by hand.

use super::{Row, expect_list, graph_of};
use cmh_graph::{GraphFault, Predecessors, State};

/// Four in a ring, each of which waits for a sink of its own too.
const KNOT_WITH_SINKS: [Row; 8] = [
    ("knot", 0, State::Idle, &[1, 4]),
    ("knot", 0, State::Idle, &[2, 5]),
    ("knot", 0, State::Idle, &[6, 3]),
    ("knot", 0, State::Idle, &[7, 0]),
    ("sink", 1, State::Idle, &[]),
    ("sink", 1, State::Idle, &[]),
    ("sink", 1, State::Idle, &[]),
    ("sink", 1, State::Idle, &[]),
];

/// Two rings of two, of which the first waits for the second, and one process that waits for itself.
const RINGS: [Row; 5] = [
    ("first", 0, State::Idle, &[3]),
    ("second", 0, State::Idle, &[4]),
    ("alone", 0, State::Idle, &[2]),
    ("first", 0, State::Idle, &[0, 1]),
    ("second", 0, State::Idle, &[1, 2]),
];

/// Each waits for the next, and the last for none.
const CHAIN: [Row; 3] = [
    ("first", 0, State::Idle, &[1]),
    ("second", 0, State::Idle, &[2]),
    ("last", 0, State::Idle, &[]),
];

#[test]
fn a_ring_that_waits_for_another(rt: HostRuntime) -> Result<(), GraphFault> {
    let alloc = rt.alloc();
    let graph = graph_of(alloc, &RINGS)?;
    assert_eq!(rt; graph.len(), 5);
    let predecessors = Predecessors::of_graph(alloc, &graph)?;
    let cores: [&[u32]; 5] = [&[0, 3], &[1, 4], &[2], &[0, 3], &[1, 4]];
    for p in 0..5 {
        let core = graph.core_by(alloc, &predecessors, p)?;
        expect_list(&rt, &core, cores[p as usize]);
    }
    Ok(())
}

#[test]
fn marks_of_lone_processes(rt: HostRuntime) -> Result<(), GraphFault> {
    let alloc = rt.alloc();
    let table: [(&[Row], &[bool]); 3] = [
        // The last waits for none, and each of the others for one that is marked.
        (&CHAIN, &[true; 3]),
        (
            &KNOT_WITH_SINKS,
            &[false, false, false, false, true, true, true, true],
        ),
        // 2 is a core by itself, but waits for itself, which isn't marked.
        (&RINGS, &[false; 5]),
    ];
    for (rows, wanted) in table {
        let graph = graph_of(alloc, rows)?;
        let predecessors = Predecessors::of_graph(alloc, &graph)?;
        expect_list(&rt, &graph.singleton_marks(alloc, &predecessors)?, wanted);
    }
    Ok(())
}
