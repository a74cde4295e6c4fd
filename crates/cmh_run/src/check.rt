//! Whether a log from anywhere is that of a legal run, and if not, what is wrong with it first.

ghost use Rattle.std.specs.Prelude.{◌≡◌, ◌⊎◌, ◌↔◌, IfOk, IfErr};
ghost use Rattle.cmh_run.specs.Prelude.{Declared, IsDeadlocked, IsFirstCheckFault, IsLegalRun};

use crate::checker::Checker;
use crate::truth::truth_of;
use crate::{CheckFault, Delivery, Ending};
use cmh_graph::WaitGraph;
use std::alloc::Global;

/// Checks a log from any source as a run of the initiator without restarts, in which any undelivered message may come
/// next. It answers how the run ended, or the first thing that is wrong. With a delivery that is: it comes after the
/// end, else its message isn't undelivered, else its hint is false. After the last one it is: the run could continue.
///
/// It searches the graph once. A delivery takes time logarithmic in the undelivered messages for each message that is
/// taken or sent.
pub fn check_run(
    alloc: Global,
    graph: &WaitGraph,
    initiator: u32,
    log: &[Delivery],
) -> Result<Ending, CheckFault>
    ensures legal { IfOk result (IsLegalRun graph.now initiator log.now) }
    ensures true_verdict { IfOk result (λ ending.
        (ending ≡ Declared) ↔ IsDeadlocked graph.now initiator) }
    ensures fault { IfErr result (λ e.
        (e ≡ CheckFault.Memory) ⊎ IsFirstCheckFault graph.now initiator log.now e) }
{
    if initiator >= graph.len() || !graph.is_idle(initiator) {
        return Err(CheckFault::NotIdle);
    }
    let truth = truth_of(alloc, graph)?;
    let mut checker = Checker::begin(alloc, graph, initiator)?;
    for (t, delivery) in log.iter().enumerate() {
        checker.deliver(graph, initiator, &truth, t, *delivery)?;
    }
    checker.ending().ok_or(CheckFault::NotEnded)
}
