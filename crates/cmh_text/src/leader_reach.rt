//! What a leader reaches. Another group that waits for this one reaches the same, so its search continues from here,
//! and often its line does.
//!
//! A comparison of marks shows that a group is one process and its rest all that the other one reaches. So no process
//! is picked out by itself.

ghost use Rattle.std.specs.Prelude.{◌≡◌, ◌<◌, map, slice_index, IfOk, IsTrue};
ghost use Rattle.cmh_graph.specs.Graph.{indices, process_count};
ghost use Rattle.cmh_graph.specs.Path.{reach_of, reaches};
ghost use Rattle.cmh_text.specs.LeaderReach.{AreGroupPartsOf, HasOneMore, IsLeaderReachOf, IsOneBeyond};

use cmh_graph::laws::law_built_graph;
use cmh_graph::{WaitGraph, marked_indices};
use cmh_memory::{Allocated, refusal_of, room};
use std::alloc::Global;

/// What a leader reaches.
#[derive(Drop)]
pub(crate) struct LeaderReach {
    pub(crate) leader: u32,
    /// For each process whether the leader reaches it.
    pub(crate) marks: Vec<bool>,
    /// Those that it reaches, by rising index.
    pub(crate) reach: Vec<u32>,
}

/// What a leader reaches, and which of it is the core of its group and which the rest.
#[derive(Drop)]
pub(crate) struct GroupParts {
    pub(crate) leader_reach: LeaderReach,
    pub(crate) core: Vec<u32>,
    pub(crate) rest: Vec<u32>,
}

/// Searches the graph for what a leader reaches.
pub(crate) fn leader_reach_of(
    alloc: Global,
    graph: &WaitGraph,
    leader: u32,
) -> Allocated<LeaderReach>
    requires { leader < process_count graph.now }
    ensures { IfOk result (IsLeaderReachOf graph.now) }
{
    let marks = graph.reach_marks(alloc, leader)?;
    let reach = reach_of(alloc, graph, leader, &marks)?;
    Ok(LeaderReach {
        leader,
        marks,
        reach,
    })
}

/// The parts of a leader that reaches itself and what the base does. It is a group by itself, and its rest is all that
/// the base reaches.
pub(crate) fn parts_beyond(
    alloc: Global,
    graph: &WaitGraph,
    leader: u32,
    base: &LeaderReach,
    marks: Vec<bool>,
) -> Allocated<GroupParts>
    requires { IsOneBeyond graph.now leader base.now marks.items }
    ensures { IfOk result (AreGroupPartsOf graph.now leader) }
{
    law_built_graph(graph);
    let reach = reach_beyond(alloc, graph, leader, base, &marks)?;
    let rest = Vec::from_slice(alloc, &base.reach)?;
    let mut core = Vec::new(alloc);
    core.push(leader)?;
    Ok(GroupParts {
        leader_reach: LeaderReach {
            leader,
            marks,
            reach,
        },
        core,
        rest,
    })
}

/// The processes that such a leader reaches, by rising index.
fn reach_beyond(
    alloc: Global,
    graph: &WaitGraph,
    leader: u32,
    base: &LeaderReach,
    marks: &[bool],
) -> Allocated<Vec<u32>>
    requires { IsOneBeyond graph.now leader base.now marks.now }
    ensures { IfOk result (λ reach. reach.items ≡ reach_of graph.now leader) }
{
    law_built_graph(graph);
    if is_before(leader, &base.reach) {
        let mut reach = room(
            alloc,
            base.reach.len().saturating_add(1),
            base.reach.as_slice(),
        )?;
        reach.push(leader)?;
        reach.extend_from_slice(&base.reach)?;
        return Ok(reach);
    }
    reach_of(alloc, graph, leader, marks)
}

/// Whether `p` is less than the first of the list.
fn is_before(p: u32, list: &[u32]) -> bool
    ensures { IsTrue result → p < slice_index list.now 0 }
{
    !list.is_empty() && p < list[0]
}

/// Whether the new marks are the old ones and that of `p`.
pub(crate) fn has_one_more(p: u32, old: &[bool], new: &[bool]) -> bool
    ensures { IsTrue result → HasOneMore p old.now new.now }
{
    let at = p as usize;
    if at >= old.len() || old.len() != new.len() {
        return false;
    }
    if old[at] {
        return false;
    }
    if are_same(&old[..at], &new[..at]) {
        return are_same(&old[at + 1..], &new[at + 1..]);
    }
    false
}

/// Whether two lists of marks are the same.
fn are_same(old: &[bool], new: &[bool]) -> bool
    ensures { IsTrue result → old.now ≡ new.now }
{
    old == new
}

/// The marked processes, which a leader reaches, by rising index. One without dependents reaches itself alone, so it
/// needs no look at all marks.
pub(crate) fn reach_of(
    alloc: Global,
    graph: &WaitGraph,
    leader: u32,
    marks: &[bool],
) -> Allocated<Vec<u32>>
    requires within { leader < process_count graph.now }
    requires marks { marks.now ≡ map (reaches graph.now leader) (indices graph.now) }
    ensures { IfOk result (λ reach. reach.items ≡ reach_of graph.now leader) }
{
    if graph.dependents(leader).is_empty() {
        return graph
            .reach_of(alloc, leader)
            .map_err(|fault| refusal_of(fault));
    }
    law_built_graph(graph);
    marked_indices(alloc, marks)
}
