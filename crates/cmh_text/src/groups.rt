//! The groups of deadlocked processes: the leader of each, its number, its members and their sites.

ghost use Rattle.std.specs.Prelude.{◌≡◌, ◌<◌, map, length, filter, not, All, IfOk};
ghost use Rattle.cmh_graph.specs.Core.{leaders as all_leaders, group_leader};
ghost use Rattle.cmh_graph.specs.Graph.{indices};
ghost use Rattle.cmh_text.specs.Group.{is_led_by, leaders_up_to, AreGroupsOf};
ghost use Rattle.cmh_text.specs.Summary.{AreSummariesOf, leaders_in};

use crate::summary::Summary;
use cmh_graph::WaitGraph;
use cmh_graph::laws::law_built_graph;
use cmh_memory::Allocated;
use std::alloc::Global;

/// The leader of each process, and the numbers of the groups.
#[derive(Drop)]
pub(crate) struct Groups {
    /// For each process what its line is made of.
    pub(crate) summaries: Vec<Summary>,
    /// For each process how many leaders there are up to it: for a leader the number of its group.
    pub(crate) numbers: Vec<u32>,
    /// The leaders, by rising index.
    pub(crate) list: Vec<u32>,
}

impl Groups {
    /// The groups by these summaries. The graph isn't searched.
    pub(crate) fn of_summaries(
        alloc: Global,
        graph: &WaitGraph,
        summaries: Vec<Summary>,
    ) -> Allocated<Groups>
        requires { AreSummariesOf graph.now summaries.items }
        ensures { IfOk result (AreGroupsOf graph.now) }
    {
        law_built_graph(graph);
        let (numbers, list) = numbers_and_leaders(alloc, graph, &summaries)?;
        Ok(Groups {
            summaries,
            numbers,
            list,
        })
    }
}

/// For each process how many leaders there are up to it, and the leaders by rising index.
fn numbers_and_leaders(
    alloc: Global,
    graph: &WaitGraph,
    summaries: &[Summary],
) -> Allocated<(Vec<u32>, Vec<u32>)>
    requires { leaders_in summaries.now ≡ map (group_leader graph.now) (indices graph.now) }
    ensures numbers { IfOk result (λ made.
        made.0.items ≡ map (leaders_up_to graph.now) (indices graph.now)) }
    ensures leaders { IfOk result (λ made. made.1.items ≡ all_leaders graph.now) }
{
    let mut numbers = Vec::new(alloc);
    let mut leaders = Vec::new(alloc);
    for p in 0..graph.len() {
        if is_led_by(summaries, p, p) {
            leaders.push(p)?;
        }
        numbers.push(leaders.len() as u32)?;
    }
    Ok((numbers, leaders))
}

/// Whether that leader leads the process.
pub(crate) fn is_led_by(summaries: &[Summary], leader: u32, p: u32) -> bool
    requires { p < length summaries.now }
    ensures { result ≡ is_led_by (leaders_in summaries.now) leader p }
{
    summaries[p as usize].leader() == Some(leader)
}

/// What the line of a group says beside its number.
#[derive(Drop)]
pub(crate) struct Group {
    pub(crate) core: Vec<u32>,
    pub(crate) rest: Vec<u32>,
    pub(crate) site_count: usize,
}

/// The core and the rest of a group, by the processes that its leader reaches.
pub(crate) fn core_and_rest(
    alloc: Global,
    summaries: &[Summary],
    leader: u32,
    reach: &[u32],
) -> Allocated<(Vec<u32>, Vec<u32>)>
    requires { All (λ p. p < length summaries.now) reach.now }
    ensures core { IfOk result (λ parts.
        parts.0.items ≡ filter (is_led_by (leaders_in summaries.now) leader) reach.now) }
    ensures rest { IfOk result (λ parts.
        parts.1.items ≡ filter (λ p. not (is_led_by (leaders_in summaries.now) leader p)) reach.now) }
{
    let mut core = Vec::new(alloc);
    let mut rest = Vec::new(alloc);
    for p in reach {
        if is_led_by(summaries, leader, *p) {
            core.push(*p)?;
        } else {
            rest.push(*p)?;
        }
    }
    Ok((core, rest))
}
