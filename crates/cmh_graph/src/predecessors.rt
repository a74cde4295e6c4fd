//! The processes that depend on each process.
//!
//! Each has a list of its own: flat arrays would gain less than their proof takes.

ghost use Rattle.std.specs.Prelude.{◌≡◌, ◌<◌, ℕ, [], length, All, IfOk, OnOk};
ghost use Rattle.cmh_graph.specs.Graph.{process_count};
ghost use Rattle.cmh_graph.specs.Search.{list_at, predecessors_at, ArePredecessors, JoinsEach};

use crate::WaitGraph;
use cmh_memory::{Allocated, copies, room};
use std::alloc::Global;
use std::marker::Model;

/// For each process of a graph those that depend on it. A search against the dependencies uses them, and many such
/// searches can share them. They take memory linear in processes and dependencies.
#[derive(Debug, Drop)]
pub struct Predecessors {
    lists: Vec<Vec<u32>>,
}

impl Model for Predecessors {
    ghost use Rattle.std.specs.Prelude.{List, ℕ, map};

    ghost Value = { List (List ℕ) };

    ghost view = { λ w. map (λ v. v.items) w.lists.items };
}

impl Predecessors {
    /// The predecessors of each process of the graph. It takes time and memory linear in processes and dependencies.
    pub fn of_graph(alloc: Global, graph: &WaitGraph) -> Allocated<Predecessors>
        ensures { IfOk result (λ predecessors. ArePredecessors graph.now predecessors) }
    {
        let counts = predecessor_counts(alloc, graph)?;
        let mut lists = empty_lists(alloc, &counts)?;
        for p in 0..graph.len() {
            join_each(p, graph.dependents(p), &mut lists)?;
        }
        Ok(Predecessors { lists })
    }

    /// Those that depend on this process.
    pub(crate) fn at(&self, p: u32) -> &[u32]
        requires { p < length self.now }
        ensures { result.now ≡ predecessors_at self.now p }
    {
        &self.lists[p as usize]
    }
}

/// How many predecessors each process of the graph has.
fn predecessor_counts(alloc: Global, graph: &WaitGraph) -> Allocated<Vec<usize>>
    ensures { IfOk result (λ counts. length counts.items ≡ process_count graph.now) }
{
    let mut counts = copies(alloc, 0, graph.len() as usize, graph)?;
    for p in 0..graph.len() {
        count_each(graph.dependents(p), &mut counts);
    }
    Ok(counts)
}

/// Counts one more at each of these places.
fn count_each(places: &[u32], counts: &mut [usize])
    requires { All (λ r. r < length counts.old) places.now }
    ensures { length counts.new ≡ length counts.old }
{
    for r in places {
        counts[*r as usize] = counts[*r as usize].saturating_add(1);
    }
}

/// An empty list for each count, with room for as many. So a list isn't moved as it grows, and one that needs more room
/// gets it.
fn empty_lists(alloc: Global, counts: &[usize]) -> Allocated<Vec<Vec<u32>>>
    ensures size { IfOk result (λ lists. length lists.items ≡ length counts.now) }
    ensures empty { IfOk result (λ lists. (r : ℕ) → list_at lists.items r ≡ []) }
{
    let mut lists = room(alloc, counts.len(), counts)?;
    for count in counts {
        lists.push(room(alloc, (*count).min(counts.len()), counts)?)?;
    }
    Ok(lists)
}

/// Adds `p` to the list of each of these processes.
fn join_each(p: u32, places: &[u32], lists: &mut [Vec<u32>]) -> Allocated<()>
    requires { All (λ r. r < length lists.old) places.now }
    ensures { OnOk result (JoinsEach p places.now lists.old lists.new) }
{
    for r in places {
        lists[*r as usize].push(p)?;
    }
    Ok(())
}
