//! A trace from end to end: a dump comes in, and each query and reply of one computation goes out.

ghost use Rattle.std.specs.Prelude.{◌≡◌, ◌≢◌, ◌++◌, ◌<◌, ◌≤◌, ◌⊎◌, [], ℕ, length, IfOk, IfErr, IsTrue, OnOk, MatchOption, flat_map, string_bytes};
ghost use Rattle.cmh_graph.specs.Graph.{is_idle};
ghost use Rattle.cmh_run.specs.Choices.{HasNoHints};
ghost use Rattle.cmh_run.specs.Legal.{IsBetween};
ghost use Rattle.cmh_run.specs.Run.{IsFirstRunFault, IsRunOf};
ghost use Rattle.cmh_run.specs.declared.TheConstants.{MAX_CHOICES};
ghost use Rattle.cmh_run.specs.declared.fault.RunFault.{RunFault};
ghost use Rattle.cmh_text.specs.Report.{line};
ghost use Rattle.cmh_work.specs.declared.fault.WorkFault.{WorkFault};
ghost use Rattle.cmh_report.specs.Ends.{GaveGraph, IsAnswer, IsCutShort, LeavesEnds};
ghost use Rattle.cmh_report.specs.Fault.{IfDump, IfNoSuchProcess, IfRun, IfWriteFault};
ghost use Rattle.cmh_report.specs.Trace.{ending_lines, message_line, trace_text, HasLines, HasNoRun, IsEndedTrace, IsFirstNamed, IsSomeTrace, NobodyIsNamed};

use crate::fault::{AppFault, ReportFault};
use crate::input::read_graph;
use cmh_graph::WaitGraph;
use cmh_graph::laws::law_built_graph;
use cmh_memory::Allocated;
use cmh_process::{Kind, Message};
use cmh_run::{Ending, NoHints, RunLog, run};
use cmh_stream::{Sink, Source, put_all};
use std::alloc::Global;

/// The trace of a run, and how the run has ended.
#[derive(Drop)]
struct EndedTrace {
    text: String,
    ending: Ending,
}

/// Reads a dump from the source up to its end, runs the computation of the process of that name by the choices and
/// without hints, writes its trace to the sink, and answers how the run ended. The names of a dump differ, so there is
/// one such process at most, and one such run of it. Nothing is written before the whole text is ready. It takes time
/// linear in the deliveries and in their text, and close to linear in the bytes of the dump besides.
///
/// # Errors
///
/// `Dump` where the source gives no dump, `NoSuchProcess` where no process has the name, `Run` where the process isn't
/// idle, there are too many choices or memory is refused to the run, `Report` where it is refused to the text, and
/// `WriteFault` where the sink fails.
pub fn trace_bytes<S: Source, K: Sink>(
    alloc: Global,
    source: &mut S,
    sink: &mut K,
    name: &str,
    choices: &[u64],
) -> Result<Ending, AppFault>
    ensures answer { IfOk result (λ ending. IsAnswer (IsEndedTrace name.now choices.now ending)
        (S.state source.old) (S.state source.new) (K.state sink.old) (K.state sink.new)) }
    ensures never_cut { IfOk result (λ ending. (k : ℕ) → ending ≢ Ending.CutFree k) }
    ensures few { IfOk result (λ _. length choices.now ≤ MAX_CHOICES) }

    ensures no_work { IfErr result (λ e. (fault : WorkFault) → e ≢ AppFault.Work fault) }
    ensures nobody { IfErr result (λ e. IfNoSuchProcess e (GaveGraph
        (S.state source.old) (S.state source.new) (λ g. NobodyIsNamed g name.now))) }
    ensures no_run { IfErr result (λ e. IfRun e (λ fault. GaveGraph
        (S.state source.old) (S.state source.new) (HasNoRun name.now choices.now fault))) }
    ensures cut_short { IfErr result (λ e. IfWriteFault e (IsCutShort
        (IsSomeTrace name.now choices.now)
        (S.state source.old) (S.state source.new) (K.state sink.old) (K.state sink.new))) }

    ensures ends { LeavesEnds result
        (S.state source.old) (S.state source.new) K.state sink.old sink.new }
{
    let graph = read_graph(alloc, source)?;
    let trace = trace_of(alloc, &graph, name, choices)?;
    put_all(sink, trace.text.as_bytes())?;
    Ok(trace.ending)
}

/// The trace of the process of that name.
fn trace_of(
    alloc: Global,
    graph: &WaitGraph,
    name: &str,
    choices: &[u64],
) -> Result<EndedTrace, AppFault>
    ensures trace { IfOk result (λ t.
        IsEndedTrace name.now choices.now t.ending graph.now (string_bytes t.text)) }
    ensures never_cut { IfOk result (λ t. (k : ℕ) → t.ending ≢ Ending.CutFree k) }
    ensures few { IfOk result (λ _. length choices.now ≤ MAX_CHOICES) }
    ensures nobody { IfErr result (λ e. IfNoSuchProcess e (NobodyIsNamed graph.now name.now)) }
    ensures no_run { IfErr result (λ e. IfRun e (λ fault.
        HasNoRun name.now choices.now fault graph.now)) }
    ensures no_dump_fault { IfErr result (λ e. IfDump e (λ _. ⊥)) }
    ensures no_work_fault { IfErr result (λ e. (fault : WorkFault) → e ≢ AppFault.Work fault) }
    ensures no_write_fault { IfErr result (λ e. IfWriteFault e (λ _. ⊥)) }
{
    let Some(initiator) = find_process(graph, name) else {
        return Err(AppFault::NoSuchProcess);
    };
    let run = plain_run(alloc, graph, initiator, choices)?;
    let text = render_trace(alloc, graph, &run)?;
    Ok(EndedTrace {
        text,
        ending: run.ending(),
    })
}

/// The first process of that name.
fn find_process(graph: &WaitGraph, name: &str) -> Option<u32>
    ensures { MatchOption result (NobodyIsNamed graph.now name.now)
        (IsFirstNamed graph.now name.now) }
{
    for p in 0..graph.len() {
        if graph.name(p) == name {
            return Some(p);
        }
    }
    None
}

/// The run of a process that follows the choices without hints. Memory that is refused is reported as the fault of the
/// run.
fn plain_run(
    alloc: Global,
    graph: &WaitGraph,
    initiator: u32,
    choices: &[u64],
) -> Result<RunLog, AppFault>
    ensures initiator { IfOk result (λ r. r.initiator ≡ initiator) }
    ensures idle { IfOk result (λ r. IsTrue (is_idle graph.now r.initiator)) }
    ensures legal { IfOk result (IsRunOf graph.now choices.now []) }
    ensures few { IfOk result (λ _. length choices.now ≤ MAX_CHOICES) }
    ensures unhinted { IfOk result (λ r. HasNoHints r.log) }
    ensures lines { IfOk result (HasLines graph.now) }
    ensures fault { IfErr result (λ e. (fault : RunFault) × (e ≡ AppFault.Run fault)
        × ((fault ≡ RunFault.Memory) ⊎ IsFirstRunFault graph.now initiator choices.now [] fault)) }
{
    law_built_graph(graph);
    Ok(run(alloc, graph, initiator, choices, &mut NoHints)?)
}

/// The trace of a run. Memory that is refused is reported as the fault of the text.
fn render_trace(alloc: Global, graph: &WaitGraph, run: &RunLog) -> Result<String, AppFault>
    requires { HasLines graph.now run.now }
    ensures text { IfOk result (λ text. string_bytes text ≡ trace_text graph.now run.now) }
    ensures memory { IfErr result (λ e. e ≡ AppFault.Report ReportFault.Memory) }
{
    match trace(alloc, graph, run) {
        Ok(text) => Ok(text),
        Err(refusal) => Err(AppFault::Report(ReportFault::from(refusal))),
    }
}

/// The trace of a run.
fn trace(alloc: Global, graph: &WaitGraph, run: &RunLog) -> Allocated<String>
    requires { HasLines graph.now run.now }
    ensures { IfOk result (λ text. string_bytes text ≡ trace_text graph.now run.now) }
{
    let mut text = String::new(alloc);
    for delivery in run.log() {
        push_message(&mut text, graph, &delivery.message)?;
    }
    push_ending(&mut text, graph.name(run.initiator()), run.ending())?;
    Ok(text)
}

/// Appends the line of a message that is delivered.
#[tactic(auto, unfolding(crate::specs::Trace::message_line))]
fn push_message(text: &mut String, graph: &WaitGraph, message: &Message) -> Allocated<()>
    requires { IsBetween graph.now message.now }
    ensures { OnOk result (string_bytes text.new
        ≡ string_bytes text.old ++ line (message_line graph.now message.now)) }
{
    let from = graph.name(message.from);
    let to = graph.name(message.to);
    match message.kind {
        Kind::Query => write!(text, "query {from} {to}\n"),
        Kind::Reply => write!(text, "reply {from} {to}\n"),
    }
}

/// Appends the last line.
fn push_ending(text: &mut String, name: &str, ending: Ending) -> Allocated<()>
    requires { (k : ℕ) → ending ≢ Ending.CutFree k }
    ensures { OnOk result (string_bytes text.new
        ≡ string_bytes text.old ++ flat_map line (ending_lines name.now ending)) }
{
    match ending {
        Ending::Declared => write!(text, "declared {name}\n"),
        Ending::AtRest => write!(text, "at rest {name}\n"),
        Ending::CutFree(_) => unreachable!(),
    }
}
