//! The shapes of records, by what is found once for all workers.

ghost use Rattle.std.specs.Prelude.{◌<◌, IfOk};
ghost use Rattle.cmh_graph.specs.Graph.{process_count};

use crate::leaders::find_leader;
use crate::record::Shape;
use cmh_graph::laws::law_built_graph;
use cmh_graph::{Predecessors, Verdict, WaitGraph};
use cmh_memory::Allocated;
use cmh_run::ProcessList;
use std::alloc::Global;

/// What the shapes of all records are read from. It is found once, and the workers share it.
#[derive(Drop)]
pub(crate) struct Shapes {
    pub(crate) predecessors: Predecessors,
    /// For each process its distance to an awake one, if it reaches any.
    pub(crate) distances: Vec<Option<u32>>,
    /// For each process whether it is seen to be a core alone.
    pub(crate) alone: Vec<bool>,
}

impl Shapes {
    ghost use Rattle.cmh_graph.specs.Verdict.{IsVerdict};
    ghost use Rattle.cmh_work.specs.Leaders.{KnowsLeaders};
    ghost use Rattle.cmh_work.specs.Shape.{IsShape, AreShapesOf};

    /// Searches the graph once for all distances, and once for cores that are one process. It takes time and memory
    /// linear in processes and dependencies.
    pub(crate) fn of_graph(alloc: Global, graph: &WaitGraph) -> Allocated<Shapes>
        ensures { IfOk result (AreShapesOf graph.now) }
    {
        let predecessors = Predecessors::of_graph(alloc, graph)?;
        let distances = graph.distances_by(alloc, &predecessors)?;
        let alone = graph.singleton_marks(alloc, &predecessors)?;
        Ok(Shapes {
            predecessors,
            distances,
            alone,
        })
    }

    /// The shape of a process with this verdict. A path that is kept takes time linear in the dependencies of the
    /// processes on it, its first step in those of the process alone, and a leader that the worker hasn't found yet a
    /// search of its core.
    pub(crate) fn shape_of<P: ProcessList>(
        &self,
        alloc: Global,
        graph: &WaitGraph,
        leaders: &mut Vec<Option<u32>>,
        p: u32,
        known: Verdict,
    ) -> Allocated<Shape<P>>
        requires shapes { AreShapesOf graph.now self.now }
        requires leaders { KnowsLeaders graph.now leaders.old.items }
        requires within { p < process_count graph.now }
        requires known { IsVerdict graph.now p known }
        ensures leaders { KnowsLeaders graph.now leaders.new.items }
        ensures shape { IfOk result (IsShape P.processes graph.now p known) }
    {
        law_built_graph(graph);
        match known {
            Verdict::Deadlocked => Ok(Shape::Leader(find_leader(alloc, graph, self, leaders, p)?)),
            Verdict::Free => { Ok(Shape::Path(P::path_by(alloc, graph, &self.distances, p)?)) }
        }
    }
}
