//! What a process reaches, by what its dependents reach. Wanted marks are from the rules, by hand.

ghost use Rattle.std.specs.Prelude.{◌<◌};
ghost use Rattle.cmh_graph.specs.Graph.{process_count};

use super::{TWO_SHORTEST_PATHS, expect, graph_of};
use cmh_graph::laws::law_built_graph;
use cmh_graph::{GraphFault, WaitGraph};
use std::alloc::Global;

/// Whether the process reaches just these, by what any one of its dependents reaches.
pub(super) fn reaches_by_each(
    alloc: Global,
    graph: &WaitGraph,
    p: u32,
    wanted: &[bool],
) -> Result<bool, GraphFault>
    requires { p < process_count graph.now }
{
    law_built_graph(graph);
    let mut right = true;
    for q in graph.dependents(p) {
        let known = graph.reach_marks(alloc, *q)?;
        right &= graph.reach_marks_by(alloc, p, *q, &known)?.as_slice() == wanted;
    }
    Ok(right)
}

#[test]
fn reaches_by_those_of_dependents(rt: HostRuntime) -> Result<(), GraphFault> {
    let alloc = rt.alloc();
    let graph = graph_of(alloc, &TWO_SHORTEST_PATHS)?;
    assert_eq!(rt; graph.len(), 4);
    expect(&rt, reaches_by_each(alloc, &graph, 0, &[true; 4])?);
    let marks = [false, false, true, true];
    expect(&rt, reaches_by_each(alloc, &graph, 2, &marks)?);
    Ok(())
}
