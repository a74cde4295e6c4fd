//! The paths of free processes. Each is walked when its line is written, and only the last one is kept.

ghost use Rattle.std.specs.Prelude.{◌≡◌, [], Some, IfOk, OnOk};
ghost use Rattle.cmh_graph.specs.ChosenPath.{chosen_path};
ghost use Rattle.cmh_text.specs.Report.{names_of, spaced_words};
ghost use Rattle.cmh_text.specs.Summary.{AreSummariesOf, summary_of};

use crate::names::LastNames;
use crate::summary::Summary;
use cmh_graph::WaitGraph;
use cmh_graph::laws::law_built_graph;
use cmh_memory::{Allocated, room};
use std::alloc::Global;
use std::marker::Model;

/// The path of the last free process, and the names on it.
#[derive(Drop)]
pub(crate) struct LastPath<'a> {
    graph: &'a WaitGraph,
    summaries: &'a [Summary],
    names: LastNames<'a>,
}

impl<'a> Model for LastPath<'a> {
    ghost use Rattle.cmh_text.specs.Processes.{Processes};

    ghost Value = { Processes };

    ghost use Rattle.cmh_text.specs.LastPath.{IsPathByFirst};

    ghost view = { λ l. record { graph = l.graph.now; list = l.names.list } };

    ghost invariant = { IsPathByFirst };
}

impl<'a> LastPath<'a> {
    /// No path yet, which takes no memory.
    pub(crate) fn new(alloc: Global, graph: &'a WaitGraph, summaries: &'a [Summary]) -> LastPath<'a>
        requires { AreSummariesOf graph.now summaries.now }
        ensures { result ≡ record { graph = graph.now; list = [] } }
    {
        LastPath {
            graph,
            summaries,
            names: LastNames::new(alloc, graph),
        }
    }

    /// Goes over to the chosen path of a free process, by the process after it and the number of processes on the path.
    /// Where the last path is that of the process after it, it isn't walked. It takes time linear in the names.
    pub(crate) fn go_to(
        &mut self,
        alloc: Global,
        p: u32,
        next: Option<u32>,
        count: usize,
    ) -> Allocated<()>
        requires { summary_of self.old.graph p ≡ Summary.Free next count }
        ensures graph { self.new.graph ≡ self.old.graph }
        ensures path { OnOk result (chosen_path self.old.graph p ≡ Some self.new.list) }
    {
        law_built_graph(self.graph);
        if let Some(q) = next {
            if self.names.begins_with(q) {
                self.names.put_before(alloc, p)?;
                return Ok(());
            }
        }
        let path = self.path_of(alloc, p, next, count)?;
        self.names.renew(alloc, &path)?;
        Ok(())
    }

    /// The chosen path of a free process: the process, and then the path of the one after it.
    fn path_of(&self, alloc: Global, p: u32, next: Option<u32>, count: usize) -> Allocated<Vec<u32>>
        requires { summary_of self.now.graph p ≡ Summary.Free next count }
        ensures { IfOk result (λ path. chosen_path self.now.graph p ≡ Some path.items) }
    {
        law_built_graph(self.graph);
        let mut path = room(alloc, count.min(self.summaries.len()), self.summaries)?;
        path.push(p)?;
        let mut next = next;
        while path.len() < count {
            let q = next.unwrap();
            path.push(q)?;
            next = self.summaries[q as usize].next();
        }
        Ok(path)
    }

    /// The names on the path, each after a space.
    pub(crate) fn names(&self) -> &str
        ensures { result.now ≡ spaced_words (names_of self.now.graph self.now.list) }
    {
        self.names.text()
    }
}
