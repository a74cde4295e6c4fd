//! Lists of processes, kept whole or in brief.

ghost use Rattle.std.specs.Prelude.{◌≡◌, ◌<◌, ℕ, List, Some, length, map, slice_get, IsSome, IfOk};
ghost use Rattle.cmh_graph.specs.ChosenPath.{chosen_path, distance_of};
ghost use Rattle.cmh_graph.specs.Graph.{indices};
ghost use Rattle.cmh_run.specs.Prelude.{process_count};

use crate::tape::Tape;
use cmh_graph::WaitGraph;
use cmh_graph::laws::law_built_graph;
use cmh_memory::Allocated;
use std::alloc::Global;

/// A list of processes that says which is the second and how many there are. A `Vec` keeps it whole, a `BriefList` no
/// more than that. The chosen path of a process is the process, and then the chosen path of the second one on it. So
/// whole paths can be walked from list to list.
pub trait ProcessList: Drop + Sized {
    /// The processes that are listed, in their order.
    ghost processes: { Self → List ℕ };

    /// The same list, kept in this way.
    fn of(list: Vec<u32>) -> Self
        ensures { processes result ≡ list.items };

    /// The chosen path of a process that has one, by the distances of all processes.
    fn path_by(
        alloc: Global,
        graph: &WaitGraph,
        distances: &[Option<u32>],
        p: u32,
    ) -> Allocated<Self>
        requires within { p < process_count graph.now }
        requires known { distances.now ≡ map (distance_of graph.now) (indices graph.now) }
        requires some { IsSome (chosen_path graph.now p) }
        ensures { IfOk result (λ path. chosen_path graph.now p ≡ Some (processes path)) };

    /// The second process, if there is one.
    fn next(&self) -> Option<u32>
        ensures { result ≡ slice_get (processes self.now) 1 };

    /// The number of processes.
    fn count(&self) -> usize
        ensures { result ≡ length (processes self.now) };
}

impl ProcessList for Vec<u32> {
    ghost processes = { λ list. list.items };

    fn of(list: Vec<u32>) -> Vec<u32> {
        list
    }

    fn path_by(
        alloc: Global,
        graph: &WaitGraph,
        distances: &[Option<u32>],
        p: u32,
    ) -> Allocated<Vec<u32>> {
        Ok(graph.path_by(alloc, distances, p)?.unwrap())
    }

    fn next(&self) -> Option<u32> {
        self.get(1).copied()
    }

    fn count(&self) -> usize {
        self.len()
    }
}

/// Keeps the second process of a list, and the number of processes. Which ones they are is known in proofs alone.
#[derive(Drop)]
pub struct BriefList {
    next: Option<u32>,
    count: usize,
    tape: Tape<u32>,
    ghost second: { next ≡ slice_get tape.items 1 },
    ghost size: { count ≡ length tape.items },
}

impl ProcessList for BriefList {
    ghost processes = { λ list. list.tape.items };

    fn of(list: Vec<u32>) -> BriefList {
        BriefList {
            next: list.get(1).copied(),
            count: list.len(),
            tape: Tape::of(&list),
        }
    }

    /// It takes time linear in the dependents of `p`.
    fn path_by(
        _alloc: Global,
        graph: &WaitGraph,
        distances: &[Option<u32>],
        p: u32,
    ) -> Allocated<BriefList> {
        let distance = distances[p as usize].unwrap();
        Ok(BriefList {
            next: next_by(graph, distances, p, distance),
            count: distance as usize + 1,
            tape: Tape::chosen_path(graph, &p),
        })
    }

    fn next(&self) -> Option<u32> {
        self.next
    }

    fn count(&self) -> usize {
        self.count
    }
}

/// The process after `p` on its chosen path, if `p` isn't its end.
fn next_by(graph: &WaitGraph, distances: &[Option<u32>], p: u32, distance: u32) -> Option<u32>
    requires within { p < process_count graph.now }
    requires known { distances.now ≡ map (distance_of graph.now) (indices graph.now) }
    requires distance { distance_of graph.now p ≡ Some distance }
    ensures { (path : List ℕ) → chosen_path graph.now p ≡ Some path → result ≡ slice_get path 1 }
{
    law_built_graph(graph);
    if distance == 0 {
        return None;
    }
    Some(graph.next_at(distance - 1, p, distances))
}
