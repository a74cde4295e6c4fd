//! The leader of the group of a deadlocked process: the least of those that it reaches and that reach it.
//!
//! Each worker keeps a table of the leaders that it has found. No table is shared: that would spare a second search
//! where members of one group fall to several workers, and would need a lock and its proofs.

ghost use Rattle.std.specs.Prelude.{◌≡◌, ◌<◌, length, All, IfOk, OnOk};
ghost use Rattle.cmh_graph.specs.Core.{leader_of};
ghost use Rattle.cmh_graph.specs.Graph.{process_count};
ghost use Rattle.cmh_work.specs.Leaders.{KeepsCore, KnowsLeaders, LeadsEach};
ghost use Rattle.cmh_work.specs.Shape.{AreShapesOf};

use crate::shapes::Shapes;
use cmh_graph::WaitGraph;
use cmh_graph::laws::law_built_graph;
use cmh_memory::{Allocated, copies};
use std::alloc::Global;

/// A table in which no process has a leader yet.
pub(crate) fn no_leaders(alloc: Global, graph: &WaitGraph) -> Allocated<Vec<Option<u32>>>
    ensures { IfOk result (λ leaders. KnowsLeaders graph.now leaders.items) }
{
    Ok(copies(alloc, None, graph.len() as usize, graph)?)
}

/// The leader of a process: what stands in the table, or the process itself where it is seen to be a core alone. Else
/// its core is searched, in the time of a reach, and its least member goes to each member's place. So each core is
/// searched at most once.
pub(crate) fn find_leader(
    alloc: Global,
    graph: &WaitGraph,
    shapes: &Shapes,
    leaders: &mut Vec<Option<u32>>,
    p: u32,
) -> Allocated<u32>
    requires within { p < process_count graph.now }
    requires shapes { AreShapesOf graph.now shapes.now }
    requires leaders { KnowsLeaders graph.now leaders.old.items }
    ensures leaders { KnowsLeaders graph.now leaders.new.items }
    ensures leader { IfOk result (λ leader. leader ≡ leader_of graph.now p) }
    ensures kept { OnOk result (KeepsCore graph.now p shapes.now.alone.items
        leaders.old.items leaders.new.items) }
{
    law_built_graph(graph);
    if let Some(leader) = leaders[p as usize] {
        return Ok(leader);
    }
    if shapes.alone[p as usize] {
        return Ok(p);
    }
    let core = graph.core_by(alloc, &shapes.predecessors, p)?;
    let leader = core[0];
    assign_leader(leader, &core, leaders);
    Ok(leader)
}

/// Makes the process the leader of each member.
fn assign_leader(leader: u32, members: &[u32], leaders: &mut [Option<u32>])
    requires { All (λ p. p < length leaders.old) members.now }
    ensures { LeadsEach leader members.now leaders.old leaders.new }
{
    for p in members {
        leaders[*p as usize] = Some(leader);
    }
}
