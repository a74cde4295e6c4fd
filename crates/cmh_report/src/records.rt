//! What the text of a report takes from the records of an analysis.
//!
//! It is a summary of each process, and the numbers of idle and of deadlocked processes.

ghost use Rattle.std.specs.Prelude.{◌≡◌, ◌<◌, ◌^◌, length, replicate, IfOk, count_by};
ghost use Rattle.cmh_graph.specs.Graph.{process_count};
ghost use Rattle.cmh_text.specs.Outline.{IsOutlineOf};
ghost use Rattle.cmh_text.specs.Summary.{AreSummariesOf};
ghost use Rattle.cmh_report.specs.Records.{AreRecordsOf, summary_in, tells_deadlocked};

use cmh_graph::laws::law_built_graph;
use cmh_graph::{Verdict, WaitGraph};
use cmh_memory::{Allocated, copies};
use cmh_run::{Log, ProcessList, RunLog};
use cmh_text::{Outline, Summary};
use cmh_work::{Record, Shape};
use std::alloc::Global;

/// What the text takes from the records, which can be given back then. Each record is read twice, and the graph isn't
/// searched.
pub(crate) fn outline_of<L: Log, E: ProcessList, P: ProcessList>(
    alloc: Global,
    graph: &WaitGraph,
    records: &[Record<RunLog<L, E>, P>],
) -> Allocated<Outline>
    requires { AreRecordsOf P.processes graph.now records.now }
    ensures { IfOk result (IsOutlineOf graph.now) }
{
    law_built_graph(graph);
    let summaries = summaries_of(alloc, graph, records)?;
    let deadlocked = count_deadlocked(records);
    Outline::new(alloc, graph, summaries, records.len() as u32, deadlocked)
}

/// The summary of each process, from which its line is made.
fn summaries_of<L: Log, E: ProcessList, P: ProcessList>(
    alloc: Global,
    graph: &WaitGraph,
    records: &[Record<RunLog<L, E>, P>],
) -> Allocated<Vec<Summary>>
    requires { AreRecordsOf P.processes graph.now records.now }
    ensures { IfOk result (λ list. AreSummariesOf graph.now list.items) }
{
    law_built_graph(graph);
    let mut summaries = active_summaries(alloc, graph)?;
    for record in records {
        summaries[record.initiator as usize] = summary_in(&record.shape);
    }
    Ok(summaries)
}

/// A table in which each process is active.
fn active_summaries(alloc: Global, graph: &WaitGraph) -> Allocated<Vec<Summary>>
    ensures { IfOk result (λ list. list.items
        ≡ replicate (process_count graph.now) Summary.Active) }
{
    Ok(copies(alloc, Summary::Active, graph.len() as usize, graph)?)
}

/// What the text takes from a process with this shape.
fn summary_in<P: ProcessList>(shape: &Shape<P>) -> Summary
    ensures { result ≡ summary_in P.processes shape.now }
{
    match shape {
        Shape::Leader(leader) => Summary::Deadlocked(*leader),
        Shape::Path(path) => Summary::Free(path.next(), path.count()),
    }
}

/// The number of processes that are deadlocked by the records.
fn count_deadlocked<L: Log, E: ProcessList, P: ProcessList>(
    records: &[Record<RunLog<L, E>, P>],
) -> u32
    requires { length records.now < 2 ^ 32 }
    ensures { result ≡ count_by tells_deadlocked records.now }
{
    let mut count = 0;
    for record in records {
        match record.verdict {
            Verdict::Deadlocked => count += 1,
            Verdict::Free => {}
        }
    }
    count
}
