//! Runs and checks of logs while memory is short.

use super::Step::{self, Query, Reply};
use super::{STEPS_OF_RESTART, expect_eq, graph_of, has_steps};
use crate::graphs::{CYCLE_AND_FOLLOWER, TWO_IN_A_CYCLE, Waits};
use crate::shortage::take_all_but;
use cmh_graph::{Verdict, WaitGraph};
use cmh_run::{
    Bag, CheckFault, Delivery, Ending, Hints, NoHints, RunFault, ScriptFault, Scripted, check_run,
    run, run_again,
};
use std::alloc::Global;
use std::test::Fail;

/// The most bytes that are left for the call.
const ROOM: usize = 8_192;

const STEPS_OF_FOLLOWER: [Step; 6] = [
    Query(1, 2, 0),
    Query(1, 0, 1),
    Query(1, 1, 0),
    Reply(1, 0, 1),
    Reply(1, 1, 0),
    Reply(1, 0, 2),
];

const SCRIPT: [(u32, u32, Verdict); 1] = [(0, 1, Verdict::Deadlocked)];

/// What is done while memory is short.
#[derive(Clone, Copy)]
enum Call {
    /// The run of the follower of the cycle.
    Run,
    /// The run that starts again after two deliveries.
    RunAgain,
    /// The check of the log of the run of the cycle.
    CheckRun,
    /// A script of one line about the cycle.
    Script,
    /// 16 messages, put into a bag one by one.
    Push,
}

/// Whether the answer is the same as with enough memory, or `None` where memory is refused.
fn answer(alloc: Global, call: Call, graph: &WaitGraph, log: &[Delivery]) -> Option<bool> {
    match call {
        Call::Run => match run(alloc, graph, 2, &[], &mut NoHints) {
            Ok(run) => Some(has_steps(&run, &STEPS_OF_FOLLOWER)),
            Err(fault) => unless_memory(fault == RunFault::Memory),
        },
        Call::RunAgain => match run_again(alloc, graph, 0, &[], &mut NoHints, &[2]) {
            Ok(run) => Some(has_steps(&run, &STEPS_OF_RESTART)),
            Err(fault) => unless_memory(fault == RunFault::Memory),
        },
        Call::CheckRun => match check_run(alloc, graph, 0, log) {
            Ok(ending) => Some(ending == Ending::Declared),
            Err(fault) => unless_memory(fault == CheckFault::Memory),
        },
        Call::Script => match Scripted::new(alloc, graph, &SCRIPT) {
            Ok(mut hints) => Some(hints.hint(1) == Some(Verdict::Deadlocked)),
            Err(fault) => unless_memory(fault == ScriptFault::Memory),
        },
        Call::Push => push_many(alloc, log),
    }
}

/// Whether a bag takes the first message of the log 12 times, by three growths, and keeps what it had at a refusal.
fn push_many(alloc: Global, log: &[Delivery]) -> Option<bool> {
    let message = log.first()?.message;
    let mut bag = Bag::new(alloc);
    for count in 0..12usize {
        if let Err(fault) = bag.push(message) {
            return unless_memory(fault == RunFault::Memory && bag.len() == count);
        }
    }
    Some(bag.len() == 12 && bag.get(11) == Some(&message))
}

fn unless_memory(is_memory: bool) -> Option<bool> {
    if is_memory { None } else { Some(false) }
}

/// What the answers were.
#[derive(Clone, Copy, Debug, PartialEq, Eq)]
struct Answers {
    right: bool,
    wrong: bool,
    refused: bool,
}

/// Some calls ran out of memory. All others were right, and so was the one after all memory was given back.
const AS_THEY_SHOULD_BE: Answers = Answers {
    right: true,
    wrong: false,
    refused: true,
};

/// Makes the call with ample memory, so that the stack has grown as far as it needs, then with each multiple of 16 bytes
/// below `ROOM`, and at last with ample memory again.
fn sweep(alloc: Global, waits: Waits, call: Call) -> Result<Answers, Fail> {
    let graph = graph_of(alloc, waits, &[])?;
    let checked = run(alloc, &graph, 0, &[], &mut NoHints)?;
    let ample = answer(alloc, call, &graph, checked.log());
    let shortage = take_all_but(alloc, ROOM)?;
    let mut answers = Answers {
        right: false,
        wrong: ample != Some(true),
        refused: false,
    };
    for k in 0..ROOM / 16 {
        let taken: Result<Vec<u8>, _> = Vec::with_capacity(alloc, ROOM - 16 * k);
        match answer(alloc, call, &graph, checked.log()) {
            Some(true) => answers.right = true,
            Some(false) => answers.wrong = true,
            None => answers.refused = true,
        }
        drop(taken);
    }
    drop(shortage);
    if answer(alloc, call, &graph, checked.log()) != Some(true) {
        answers.wrong = true;
    }
    Ok(answers)
}

#[test]
fn memory_runs_out(rt: HostRuntime) -> Result<(), Fail> {
    let rows: [(Waits, Call); 5] = [
        (&CYCLE_AND_FOLLOWER, Call::Run),
        (&TWO_IN_A_CYCLE, Call::RunAgain),
        (&TWO_IN_A_CYCLE, Call::CheckRun),
        (&TWO_IN_A_CYCLE, Call::Script),
        (&TWO_IN_A_CYCLE, Call::Push),
    ];
    for (waits, call) in rows {
        expect_eq(&rt, sweep(rt.alloc(), waits, call)?, AS_THEY_SHOULD_BE);
    }
    Ok(())
}
