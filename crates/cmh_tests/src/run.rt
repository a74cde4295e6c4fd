//! Runs and logs from outside, written short: a graph is the dependents of each process, `None` of an active one; a
//! step is the number, the sender and the receiver of a query or a reply.

mod asked;
mod bag;
mod forged;
mod hinted;
mod limits;
mod memory;
mod restarts;
mod runner;
mod runs;
mod scripted;
mod surface;

use crate::expect::{expect, expect_eq};
use crate::graphs::{self, ONE_FREE_ONE_STUCK, TWO_IN_A_CYCLE, Waits};
use cmh_graph::{Verdict, WaitGraph};
use cmh_process::{Kind, Message};
use cmh_run::{CheckFault, Delivery, Ending, RunFault, RunLog};
use std::alloc::Global;

/// Number, sender and receiver of a message.
#[derive(Clone, Copy)]
enum Step {
    Query(u32, u32, u32),
    Reply(u32, u32, u32),
}

const WAITS_FOR_NOBODY: [Option<&[u32]>; 1] = [Some(&[])];

const WAITS_FOR_ITSELF: [Option<&[u32]>; 1] = [Some(&[0])];

const KNOT_OF_THREE: [Option<&[u32]>; 3] = [Some(&[1, 2]), Some(&[2]), Some(&[1])];

/// The run of process 0 of `TWO_IN_A_CYCLE`, by the first message each time.
const STEPS_OF_TWO: [Step; 4] = [
    Step::Query(1, 0, 1),
    Step::Query(1, 1, 0),
    Step::Reply(1, 0, 1),
    Step::Reply(1, 1, 0),
];

/// The same of `ONE_FREE_ONE_STUCK`.
const STEPS_OF_STUCK: [Step; 5] = [
    Step::Query(1, 0, 1),
    Step::Query(1, 0, 2),
    Step::Query(1, 1, 1),
    Step::Reply(1, 1, 1),
    Step::Reply(1, 1, 0),
];

/// The run of process 0 of `TWO_IN_A_CYCLE` that starts again after two deliveries.
const STEPS_OF_RESTART: [Step; 8] = [
    Step::Query(1, 0, 1),
    Step::Query(1, 1, 0),
    Step::Reply(1, 0, 1),
    Step::Query(2, 0, 1),
    Step::Reply(1, 1, 0),
    Step::Query(2, 1, 0),
    Step::Reply(2, 0, 1),
    Step::Reply(2, 1, 0),
];

/// A run without hints, what comes of it, and what `check_run` answers about its log.
#[derive(Clone, Copy)]
struct Worked<'a> {
    waits: Waits<'a>,
    in_transit: &'a [(u32, u32)],
    initiator: u32,
    choices: &'a [u64],
    restarts: &'a [u32],
    steps: &'a [Step],
    ending: Ending,
    engaged: &'a [u32],
    restarted: u32,
    checked: Result<Ending, CheckFault>,
}

/// The run of process 0 of `TWO_IN_A_CYCLE`. The other rows say what differs from it.
const OF_TWO: Worked = Worked {
    waits: &TWO_IN_A_CYCLE,
    in_transit: &[],
    initiator: 0,
    choices: &[],
    restarts: &[],
    steps: &STEPS_OF_TWO,
    ending: Ending::Declared,
    engaged: &[0, 1],
    restarted: 0,
    checked: Ok(Ending::Declared),
};

const OF_NOBODY: Worked = Worked {
    waits: &WAITS_FOR_NOBODY,
    steps: &[],
    engaged: &[0],
    ..OF_TWO
};

const OF_STUCK: Worked = Worked {
    waits: &ONE_FREE_ONE_STUCK,
    steps: &STEPS_OF_STUCK,
    ending: Ending::AtRest,
    checked: Ok(Ending::AtRest),
    ..OF_TWO
};

/// `ONE_FREE_ONE_STUCK`, a process that waits for the active one, and one that waits for that.
const FREE_BY_TWO: [Option<&[u32]>; 5] = [Some(&[1, 2]), Some(&[1]), None, Some(&[2]), Some(&[3])];

fn graph_of(alloc: Global, waits: Waits, in_transit: &[(u32, u32)]) -> Result<WaitGraph, RunFault> {
    graphs::graph_of(alloc, waits, in_transit).map_err(|_| RunFault::Memory)
}

/// The delivery of a step of the computations of this initiator.
fn delivery(initiator: u32, step: Step, hint: Option<Verdict>) -> Delivery {
    let (kind, number, from, to) = match step {
        Step::Query(number, from, to) => (Kind::Query, number, from, to),
        Step::Reply(number, from, to) => (Kind::Reply, number, from, to),
    };
    let message = Message {
        kind,
        initiator,
        number,
        from,
        to,
    };
    Delivery { message, hint }
}

/// Whether the log has these steps, each without a hint.
fn has_steps(run: &RunLog, steps: &[Step]) -> bool {
    run.log().len() == steps.len()
        && run.log().iter().zip(steps.iter()).all(|(made, step)| *made
            == delivery(run.initiator(), *step, None))
}

/// Whether the run is as it was worked out.
fn is_as_worked(run: &RunLog, worked: &Worked) -> bool {
    has_steps(run, worked.steps)
        && run.ending() == worked.ending
        && (run.verdict() == Verdict::Deadlocked) == (worked.ending == Ending::Declared)
        && run.engaged() == worked.engaged
        && run.initiator() == worked.initiator
        && run.restarted() == worked.restarted
}
