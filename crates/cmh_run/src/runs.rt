//! A run alone: each call makes a `Runner` and a network of its own.

ghost use Rattle.std.specs.Prelude.{◌≡◌, [], ◌*◌, ◌≤◌, length, IfOk, IfErr, OnErr};
ghost use Rattle.cmh_run.specs.Prelude.{AskedInPart, asks_of, dependency_count, HasNoHints, IsRunAnswer, IsRunFault};

use crate::runner::Runner;
use crate::{Hints, RunFault, RunLog};
use cmh_graph::WaitGraph;
use std::alloc::Global;

/// Runs the computations of an idle initiator, which starts again after each of these numbers of deliveries, if the run
/// gets that far.
///
/// Delivery `t` takes the undelivered message at place `choices[t]` modulo their number; past the last choice it takes
/// the first. The hints are asked just before a query would engage a process. An awake initiator starts nothing: its
/// run is empty, and it doesn't start again.
///
/// Each message that is taken or sent takes constant time at choice 0, and at most time linear in the undelivered ones
/// at any other choice, hints apart. A process that engages sends a query to each of its dependents.
pub fn run_again<H: Hints>(
    alloc: Global,
    graph: &WaitGraph,
    initiator: u32,
    choices: &[u64],
    hints: &mut H,
    restarts: &[u32],
) -> Result<RunLog, RunFault>
    requires { H.speaks_of hints.old graph.now }
    ensures run { IfOk result (IsRunAnswer graph.now initiator choices.now restarts.now) }
    ensures fault { IfErr result (IsRunFault graph.now initiator choices.now restarts.now) }
    ensures silent { H.is_silent hints.old → IfOk result (λ r. HasNoHints r.log) }
    ensures asked { IfOk result (λ r.
        H.has_asked hints.old hints.new (asks_of graph.now initiator r.log)) }
    ensures asked_in_part { OnErr result (AskedInPart
        (H.has_asked hints.old hints.new) graph.now initiator choices.now restarts.now) }
    ensures kept { H.keeps hints.old hints.new }
{
    Runner::new(graph).run_again(alloc, initiator, choices, hints, restarts)
}

/// Runs one computation of an idle initiator: `run_again` without restarts.
pub fn run<H: Hints>(
    alloc: Global,
    graph: &WaitGraph,
    initiator: u32,
    choices: &[u64],
    hints: &mut H,
) -> Result<RunLog, RunFault>
    requires { H.speaks_of hints.old graph.now }
    ensures run { IfOk result (IsRunAnswer graph.now initiator choices.now []) }
    ensures once { IfOk result (λ r. r.restarted ≡ 0) }
    ensures short { IfOk result (λ r. length r.log ≤ 2 * dependency_count graph.now) }
    ensures fault { IfErr result (IsRunFault graph.now initiator choices.now []) }
    ensures silent { H.is_silent hints.old → IfOk result (λ r. HasNoHints r.log) }
    ensures asked { IfOk result (λ r.
        H.has_asked hints.old hints.new (asks_of graph.now initiator r.log)) }
    ensures asked_in_part { OnErr result (AskedInPart
        (H.has_asked hints.old hints.new) graph.now initiator choices.now []) }
    ensures kept { H.keeps hints.old hints.new }
{
    Runner::new(graph).run(alloc, initiator, choices, hints)
}
