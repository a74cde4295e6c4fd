//! The group whose reach is searched once for all lines: many groups may wait for it.
//!
//! Two reaches are kept: for all lines that of the group with the most members, and that of the group whose line was
//! made last. To keep that of each group would take memory by the square of the processes.

ghost use Rattle.std.specs.Prelude.{Contains, IfOk, IfSome};
ghost use Rattle.cmh_text.specs.Group.{AreGroupsOf};
ghost use Rattle.cmh_text.specs.LeaderReach.{IsLeaderReachOf};

use crate::groups::Groups;
use crate::leader_reach::{LeaderReach, leader_reach_of};
use crate::summary::Summary;
use cmh_graph::WaitGraph;
use cmh_memory::{Allocated, copies};
use std::alloc::Global;

/// What the leader of the greatest group reaches, if there is one. The graph is searched once.
pub(crate) fn greatest_reach(
    alloc: Global,
    graph: &WaitGraph,
    groups: &Groups,
) -> Allocated<Option<LeaderReach>>
    requires { AreGroupsOf graph.now groups.now }
    ensures { IfOk result (λ known. IfSome known (IsLeaderReachOf graph.now)) }
{
    match leader_of_most(alloc, groups)? {
        Some(leader) => Ok(Some(leader_reach_of(alloc, graph, leader)?)),
        None => Ok(None),
    }
}

/// The leader of the most processes, if there is one.
fn leader_of_most(alloc: Global, groups: &Groups) -> Allocated<Option<u32>>
    ensures { IfOk result (λ leader. IfSome leader (λ l. Contains groups.now.list.items l)) }
{
    let counts = led_counts(alloc, &groups.summaries)?;
    let mut best = None;
    let mut most = 0;
    for leader in &groups.list {
        let count = counts.get(*leader as usize).copied().unwrap_or(0);
        if count > most {
            most = count;
            best = Some(*leader);
        }
    }
    Ok(best)
}

/// For each process how many it leads.
fn led_counts(alloc: Global, summaries: &[Summary]) -> Allocated<Vec<u32>> {
    let mut counts = copies(alloc, 0u32, summaries.len(), summaries)?;
    for summary in summaries {
        if let Some(leader) = summary.leader() {
            if let Some(count) = counts.get_mut(leader as usize) {
                *count = count.saturating_add(1);
            }
        }
    }
    Ok(counts)
}
