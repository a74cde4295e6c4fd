//! An analysis from end to end: a dump comes in, and its report goes out.

ghost use Rattle.std.specs.Prelude.{◌≡◌, IfOk, IfErr};
ghost use Rattle.cmh_text.specs.Outline.{IsOutlineOf};
ghost use Rattle.cmh_text.specs.Report.{IsCountedReport, IsReport, report_text, deadlocked_count};
ghost use Rattle.cmh_report.specs.Ends.{IsAnswer, IsCutShort, LeavesEnds};
ghost use Rattle.cmh_report.specs.Fault.{IfNoSuchProcess, IfRun, IfWriteFault};
ghost use Rattle.cmh_report.specs.Records.{IsSomeAnalysisOf};

use crate::fault::{AppFault, ReportFault};
use crate::input::read_graph;
use crate::records::outline_of;
use cmh_graph::WaitGraph;
use cmh_memory::Allocated;
use cmh_run::{BriefList, NoLog, ProcessList, RunLog};
use cmh_stream::{Pieces, Sink, Source, put_pieces};
use cmh_text::{Outline, text_of};
use cmh_work::{Analysis, Gate, Plan, WorkFault, analyse_with};
use std::alloc::Global;
use std::sync::Wait;
use std::thread::Threads;

/// The report on a graph, in pieces, and the number of its deadlocked processes.
#[derive(Drop)]
struct CountedText {
    text: Pieces,
    deadlocked: u32,
}

/// The analysis of a graph by workers. Memory that is refused is reported as their fault.
fn run_analysis<R: Threads + Wait + Sync, G: Gate>(
    rt: &R,
    alloc: Global,
    graph: &WaitGraph,
    plan: &Plan,
    gate: &G,
) -> Result<Analysis<RunLog<NoLog, BriefList>, BriefList>, AppFault>
    ensures analysis { IfOk result
        (IsSomeAnalysisOf ⟦<BriefList as ProcessList>⟧.processes graph.now) }
    ensures memory { IfErr result (λ e. e ≡ AppFault.Work WorkFault.Memory) }
{
    Ok(analyse_with(rt, alloc, graph, plan, gate)?)
}

/// What the text takes from the analysis. The analysis is given back.
fn make_outline(
    alloc: Global,
    graph: &WaitGraph,
    analysis: Analysis<RunLog<NoLog, BriefList>, BriefList>,
) -> Allocated<Outline>
    requires { IsSomeAnalysisOf ⟦<BriefList as ProcessList>⟧.processes graph.now analysis }
    ensures { IfOk result (IsOutlineOf graph.now) }
{
    outline_of(alloc, graph, analysis.records())
}

/// The text of an analysis. The analysis is given back before the text is made, so both aren't held at once.
fn text_and_count<R: Threads + Sync>(
    rt: &R,
    alloc: Global,
    graph: &WaitGraph,
    analysis: Analysis<RunLog<NoLog, BriefList>, BriefList>,
) -> Allocated<CountedText>
    requires { IsSomeAnalysisOf ⟦<BriefList as ProcessList>⟧.processes graph.now analysis }
    ensures text { IfOk result (λ r. r.text ≡ report_text graph.now) }
    ensures deadlocked { IfOk result (λ r. r.deadlocked ≡ deadlocked_count graph.now) }
{
    let outline = make_outline(alloc, graph, analysis)?;
    let text = text_of(rt, alloc, graph, &outline)?;
    Ok(CountedText {
        text,
        deadlocked: outline.deadlocked_count(),
    })
}

/// The report on a graph that was analysed. Memory that is refused is reported as the fault of the text.
fn render_report<R: Threads + Sync>(
    rt: &R,
    alloc: Global,
    graph: &WaitGraph,
    analysis: Analysis<RunLog<NoLog, BriefList>, BriefList>,
) -> Result<CountedText, AppFault>
    requires { IsSomeAnalysisOf ⟦<BriefList as ProcessList>⟧.processes graph.now analysis }
    ensures text { IfOk result (λ r. r.text ≡ report_text graph.now) }
    ensures deadlocked { IfOk result (λ r. r.deadlocked ≡ deadlocked_count graph.now) }
    ensures memory { IfErr result (λ e. e ≡ AppFault.Report ReportFault.Memory) }
{
    match text_and_count(rt, alloc, graph, analysis) {
        Ok(text) => Ok(text),
        Err(refusal) => Err(AppFault::Report(ReportFault::from(refusal))),
    }
}

/// Reads a dump from the source up to its end, analyses it by the plan, writes its report to the sink, and answers the
/// number of deadlocked processes. No plan, gate or timing changes a byte of the report. Nothing is written before the
/// whole text is ready. The cost is that of `analyse` and of `report`, and close to linear in the bytes of the dump
/// besides.
///
/// # Errors
///
/// `Dump` where the source gives no dump, `Work` where memory is refused to the workers, `Report` where it is refused
/// to the text, and `WriteFault` where the sink fails.
pub fn analyse_bytes<R: Threads + Wait + Sync, S: Source, K: Sink, G: Gate>(
    rt: &R,
    alloc: Global,
    source: &mut S,
    sink: &mut K,
    plan: &Plan,
    gate: &G,
) -> Result<u32, AppFault>
    ensures answer { IfOk result (λ deadlocked. IsAnswer (IsCountedReport deadlocked)
        (S.state source.old) (S.state source.new) (K.state sink.old) (K.state sink.new)) }

    ensures memory { IfErr result (λ e.
        (fault : WorkFault) → e ≡ AppFault.Work fault → fault ≡ WorkFault.Memory) }
    ensures nobody { IfErr result (λ e. IfNoSuchProcess e ⊥) }
    ensures no_run { IfErr result (λ e. IfRun e (λ _. ⊥)) }
    ensures cut_short { IfErr result (λ e. IfWriteFault e (IsCutShort IsReport
        (S.state source.old) (S.state source.new) (K.state sink.old) (K.state sink.new))) }

    ensures ends { LeavesEnds result
        (S.state source.old) (S.state source.new) K.state sink.old sink.new }
{
    let graph = read_graph(alloc, source)?;
    let analysis = run_analysis(rt, alloc, &graph, plan, gate)?;
    let report = render_report(rt, alloc, &graph, analysis)?;
    put_pieces(sink, &report.text)?;
    Ok(report.deadlocked)
}
