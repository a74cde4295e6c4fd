//! Dumps that are analysed and traced, and reports that are made, while memory is short.

ghost use Rattle.cmh_report.specs.Records.{IsSomeAnalysisOf};

use super::devices::Page;
use super::{
    CYCLE_AND_FOLLOWER, CYCLE_AND_FOLLOWER_REPORT, TWO_IN_A_CYCLE_DUMP, TWO_IN_A_CYCLE_REPORT,
    expect, graph, page,
};
use crate::shortage::take_all;
use cmh_dump::DumpFault;
use cmh_graph::WaitGraph;
use cmh_report::{AppFault, ReportFault, analyse_bytes, report, trace_bytes};
use cmh_run::RunFault;
use cmh_stream::{ReadOf, WriteOf};
use cmh_work::{Analysis, NoGate, Plan, WorkFault, analyse};
use std::alloc::Global;
use std::sync::Wait;
use std::test::Fail;
use std::thread::Threads;

const TRACE: &str = "query p q
query q p
reply p q
reply q p
declared p
";

/// The size of a piece of the memory that is left for a call, and the number of pieces.
const PIECE: usize = 32_768;

const PIECES: usize = 16;

/// The number of calls, and the number of bytes that each has more than the one before, in a whole analysis or trace
/// and in a report alone.
const CALLS: usize = 1_024;

const STEP: usize = 512;

const REPORT_STEP: usize = 16;

/// Pieces of the heap that lie side by side, so that they are one once they are given back.
fn heap(alloc: Global, count: usize) -> Result<Vec<Vec<u8>>, Fail> {
    let mut pieces = Vec::with_capacity(alloc, PIECES)?;
    for _ in 0..count {
        pieces.push(Vec::with_capacity(alloc, PIECE)?)?;
    }
    Ok(pieces)
}

/// All the memory that there is, but for this many pieces of the heap, and what keeps these apart.
#[derive(Drop)]
struct Shortage {
    blocks: Vec<Vec<u8>>,
    pin: Vec<u8>,
}

fn all_but(alloc: Global, count: usize) -> Result<Shortage, Fail> {
    let mut blocks = Vec::with_capacity(alloc, 100_000)?;
    let room = heap(alloc, count)?;
    let pin = Vec::with_capacity(alloc, 64)?;
    take_all(alloc, &mut blocks);
    drop(room);
    Ok(Shortage { blocks, pin })
}

/// What the answers were.
#[derive(Clone, Copy, PartialEq, Eq)]
struct Answers {
    right: bool,
    refused: bool,
    wrong: bool,
}

const NO_ANSWERS: Answers = Answers {
    right: false,
    refused: false,
    wrong: false,
};

/// Some calls were out of memory, and all others were right.
fn is_as_wanted(answers: &Answers) -> bool {
    answers.right && answers.refused && !answers.wrong
}

/// Whether the fault is that memory was refused.
fn is_memory(fault: &AppFault) -> bool {
    match fault {
        AppFault::Dump(DumpFault::Memory) => true,
        AppFault::Work(WorkFault::Memory) => true,
        AppFault::Run(RunFault::Memory) => true,
        AppFault::Report(ReportFault::Memory) => true,
        _ => false,
    }
}

/// Analyses two processes in a cycle by the plan, or traces the first where there is none.
fn answer<R: AllocGlobal + Threads + Wait + Sync>(
    rt: &R,
    plan: Option<&Plan>,
    out: &mut Page,
) -> Result<(), AppFault> {
    let mut source = ReadOf::new(TWO_IN_A_CYCLE_DUMP.as_bytes());
    let mut sink = WriteOf::new(out);
    let alloc = rt.alloc();
    if let Some(plan) = plan {
        analyse_bytes(rt, alloc, &mut source, &mut sink, plan, &NoGate)?;
    } else {
        trace_bytes(alloc, &mut source, &mut sink, "p", &[])?;
    }
    Ok(())
}

/// Makes the call with ample memory, so that the stack has grown as far as it needs, and then with little memory and
/// more and more of it. Nothing is written where memory is refused.
fn sweep<R: AllocGlobal + Threads + Wait + Sync>(
    rt: &R,
    plan: Option<&Plan>,
    text: &str,
) -> Result<bool, Fail> {
    let alloc = rt.alloc();
    let mut out = Page {
        bytes: Vec::with_capacity(alloc, 1_000)?,
        ..page(alloc, 1_000)
    };
    let mut answers = NO_ANSWERS;
    answer(rt, plan, &mut out)?;
    let shortage = all_but(alloc, PIECES)?;
    for k in 0..CALLS {
        let taken: Result<Vec<u8>, _> = Vec::with_capacity(alloc, PIECE * PIECES - STEP * k);
        out.bytes.clear();
        match answer(rt, plan, &mut out) {
            Ok(()) if out.bytes.as_slice() == text.as_bytes() => answers.right = true,
            Err(fault) if is_memory(&fault) && out.bytes.is_empty() => answers.refused = true,
            _ => answers.wrong = true,
        }
        drop(taken);
    }
    drop(shortage);
    Ok(is_as_wanted(&answers))
}

/// Makes the report with ample memory, and then with little memory and more and more of it, of one piece: it takes less
/// than that.
fn sweep_report<R: AllocGlobal + Threads + Sync>(
    rt: &R,
    graph: &WaitGraph,
    analysis: &Analysis,
    text: &str,
) -> Result<bool, Fail>
    requires { IsSomeAnalysisOf (λ path. path.items) graph.now analysis.now }
{
    let alloc = rt.alloc();
    let mut answers = NO_ANSWERS;
    report(rt, alloc, graph, analysis)?;
    let shortage = all_but(alloc, 1)?;
    for k in 0..CALLS {
        let taken: Result<Vec<u8>, _> = Vec::with_capacity(alloc, PIECE - REPORT_STEP * k);
        match report(rt, alloc, graph, analysis) {
            Ok(made) if made.as_str() == text => answers.right = true,
            Err(ReportFault::Memory) => answers.refused = true,
            _ => answers.wrong = true,
        }
        drop(taken);
    }
    drop(shortage);
    Ok(is_as_wanted(&answers))
}

#[test]
fn out_of_memory_in_an_analysis(rt: HostRuntime) -> Result<(), Fail> {
    let plan = Plan::new(rt.alloc(), 1, &[1], &[])?;
    expect(&rt, sweep(&rt, Some(&plan), TWO_IN_A_CYCLE_REPORT)?);
    Ok(())
}

#[test]
fn out_of_memory_in_a_trace(rt: HostRuntime) -> Result<(), Fail> {
    expect(&rt, sweep(&rt, None, TRACE)?);
    Ok(())
}

#[test]
fn out_of_memory_in_a_report(rt: HostRuntime) -> Result<(), Fail> {
    let graph = graph(rt.alloc(), &CYCLE_AND_FOLLOWER)?;
    let plan = Plan::new(rt.alloc(), 1, &[], &[])?;
    let analysis = analyse(&rt, rt.alloc(), &graph, &plan, &NoGate)?;
    let text = CYCLE_AND_FOLLOWER_REPORT;
    expect(&rt, sweep_report(&rt, &graph, &analysis, text)?);
    Ok(())
}
