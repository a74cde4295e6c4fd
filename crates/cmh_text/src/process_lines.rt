//! The lines of idle processes, each by the graph and the path that the line before has left.

ghost use Rattle.std.specs.Prelude.{◌≡◌, All, IfOk, IsTrue, flat_map, string_bytes};
ghost use Rattle.cmh_graph.specs.Graph.{is_idle};
ghost use Rattle.cmh_text.specs.Group.{AreGroupsOf};
ghost use Rattle.cmh_text.specs.Report.{line, process_line};

use crate::backward_text::BackwardText;
use crate::groups::Groups;
use crate::lines::{push_deadlocked, push_free};
use crate::paths::LastPath;
use crate::summary::Summary;
use cmh_graph::WaitGraph;
use cmh_memory::Allocated;
use cmh_stream::Pieces;
use std::alloc::Global;
use std::marker::Model;

/// What the lines of idle processes are made of.
#[derive(Drop)]
pub(crate) struct ProcessLines<'a> {
    graph: &'a WaitGraph,
    groups: &'a Groups,
    last_path: LastPath<'a>,
}

impl<'a> Model for ProcessLines<'a> {
    ghost use Rattle.cmh_graph.specs.Graph.{Graph};

    ghost Value = { Graph };

    ghost use Rattle.cmh_text.specs.ProcessLines.{AreMadeForProcesses};

    ghost view = { λ l. l.graph.now };

    ghost invariant = { AreMadeForProcesses };
}

impl<'a> ProcessLines<'a> {
    /// No line yet, which takes no memory.
    pub(crate) fn new(alloc: Global, graph: &'a WaitGraph, groups: &'a Groups) -> ProcessLines<'a>
        requires { AreGroupsOf graph.now groups.now }
        ensures { result ≡ graph.now }
    {
        ProcessLines {
            graph,
            groups,
            last_path: LastPath::new(alloc, graph, &groups.summaries),
        }
    }

    /// The lines of these idle processes.
    pub(crate) fn text_of(&mut self, alloc: Global, chunk: &[u32]) -> Allocated<Pieces>
        requires { All (λ p. IsTrue (is_idle self.old p)) chunk.now }
        ensures { IfOk result (λ text.
            text ≡ flat_map (λ p. line (process_line self.old p)) chunk.now) }
    {
        let mut text = BackwardText::new(alloc);
        for n in (0..chunk.len()).rev() {
            let line = self.line_of(alloc, chunk[n])?;
            text.push(alloc, line)?;
        }
        text.into_pieces(alloc)
    }

    /// The line of an idle process.
    fn line_of(&mut self, alloc: Global, p: u32) -> Allocated<String>
        requires { IsTrue (is_idle self.old p) }
        ensures same { self.new ≡ self.old }
        ensures text { IfOk result (λ text. string_bytes text ≡ line (process_line self.old p)) }
    {
        let mut text = String::new(alloc);
        match self.groups.summaries[p as usize] {
            Summary::Deadlocked(leader) => {
                let number = self.groups.numbers[leader as usize];
                push_deadlocked(&mut text, self.graph.name(p), number)?;
            }
            Summary::Free(next, count) => {
                self.last_path.go_to(alloc, p, next, count)?;
                push_free(&mut text, self.graph.name(p), self.last_path.names())?;
            }
            Summary::Active => unreachable!(),
        }
        Ok(text)
    }
}
