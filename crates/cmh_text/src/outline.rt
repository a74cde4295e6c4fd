//! What the text of a report takes from an analysis.

ghost use Rattle.std.specs.Prelude.{◌≡◌, length, IfOk, string_bytes};
ghost use Rattle.cmh_graph.specs.Graph.{idle_list};
ghost use Rattle.cmh_text.specs.Report.{line, counts_line, deadlocked_count};
ghost use Rattle.cmh_text.specs.Summary.{AreSummariesOf};

use crate::groups::Groups;
use crate::summary::Summary;
use cmh_graph::WaitGraph;
use cmh_memory::Allocated;
use std::alloc::Global;

/// What the text takes from an analysis: the groups of deadlocked processes, and the counts of the first line. The
/// analysis isn't needed once this is made.
#[derive(Drop)]
pub struct Outline {
    /// The first line.
    pub(crate) totals: String,
    deadlocked: u32,
    pub(crate) groups: Groups,
}

impl Outline {
    ghost use Rattle.cmh_text.specs.Outline.{IsOutlineOf};

    /// Takes a summary of each process, and how many processes are idle and deadlocked. The graph isn't searched: it
    /// takes time and memory linear in the processes.
    ///
    /// # Errors
    ///
    /// Where memory is refused.
    #[tactic(auto, using(crate::proofs::Counts::active_and_idle))]
    pub fn new(
        alloc: Global,
        graph: &WaitGraph,
        summaries: Vec<Summary>,
        idle: u32,
        deadlocked: u32,
    ) -> Allocated<Outline>
        requires summaries { AreSummariesOf graph.now summaries.items }
        requires idle { idle ≡ length (idle_list graph.now) }
        requires deadlocked { deadlocked ≡ deadlocked_count graph.now }
        ensures { IfOk result (IsOutlineOf graph.now) }
    {
        let all = graph.len();
        let totals = counts(alloc, all, all - idle, idle, deadlocked)?;
        let groups = Groups::of_summaries(alloc, graph, summaries)?;
        Ok(Outline {
            totals,
            deadlocked,
            groups,
        })
    }

    /// How many processes are deadlocked.
    pub fn deadlocked_count(&self) -> u32
        ensures { result ≡ self.now.deadlocked }
    {
        self.deadlocked
    }
}

/// A line of counts.
fn counts(alloc: Global, all: u32, active: u32, idle: u32, deadlocked: u32) -> Allocated<String>
    ensures { IfOk result (λ text.
        string_bytes text ≡ line (counts_line all active idle deadlocked)) }
{
    format!(in alloc; "processes {all} active {active} idle {idle} deadlocked {deadlocked}\n")
}
