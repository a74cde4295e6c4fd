//! The report on a graph that was analysed, as one text.

ghost use Rattle.std.specs.Prelude.{◌≡◌, IfOk, string_bytes};
ghost use Rattle.cmh_text.specs.Report.{report_text};
ghost use Rattle.cmh_report.specs.Records.{AreRecordsOf, IsSomeAnalysisOf};

use crate::ReportFault;
use crate::records::outline_of;
use cmh_graph::WaitGraph;
use cmh_memory::Allocated;
use cmh_run::{Log, ProcessList, RunLog};
use cmh_text::text_of;
use cmh_work::{Analysis, Record};
use std::alloc::Global;
use std::thread::Threads;

/// The report on a graph that was analysed: a line of counts, a line for each idle process, and a line for each group
/// of deadlocked processes. The cost is that of `cmh_text::text_of`, and linear in the records and in the text besides.
///
/// # Errors
///
/// `Memory` where memory is refused.
pub fn report<L: Log, E: ProcessList, P: ProcessList, R: Threads + Sync>(
    rt: &R,
    alloc: Global,
    graph: &WaitGraph,
    analysis: &Analysis<RunLog<L, E>, P>,
) -> Result<String, ReportFault>
    requires { IsSomeAnalysisOf P.processes graph.now analysis.now }
    ensures { IfOk result (λ text. string_bytes text ≡ report_text graph.now) }
{
    Ok(text_of_records(rt, alloc, graph, analysis.records())?)
}

/// The report, by the records.
fn text_of_records<L: Log, E: ProcessList, P: ProcessList, R: Threads + Sync>(
    rt: &R,
    alloc: Global,
    graph: &WaitGraph,
    records: &[Record<RunLog<L, E>, P>],
) -> Allocated<String>
    requires { AreRecordsOf P.processes graph.now records.now }
    ensures { IfOk result (λ text. string_bytes text ≡ report_text graph.now) }
{
    let outline = outline_of(alloc, graph, records)?;
    text_of(rt, alloc, graph, &outline)?.into_string(alloc)
}
