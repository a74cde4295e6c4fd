//! Runs with hints, and checks of their logs.

use super::Step::{self, Query, Reply};
use super::{FREE_BY_TWO, KNOT_OF_THREE, TWO_IN_A_CYCLE, Waits, delivery, graph_of};
use cmh_graph::Verdict::{self, Deadlocked, Free};
use cmh_graph::WaitGraph;
use cmh_run::CheckFault::{AfterEnd, NotUndelivered};
use cmh_run::{CheckFault, Ending, RunFault, RunLog, Scripted, check_run, run_again};
use std::alloc::Global;

/// A run with a script, what comes of it, and what `check_run` answers about its log.
#[derive(Clone, Copy)]
struct Hinted<'a> {
    waits: Waits<'a>,
    initiator: u32,
    choices: &'a [u64],
    restarts: &'a [u32],
    script: &'a [(u32, u32, Verdict)],
    log: &'a [(Step, Option<Verdict>)],
    ending: Ending,
    engaged: &'a [u32],
    checked: Result<Ending, CheckFault>,
}

const KNOWN_DEADLOCKED: Hinted = Hinted {
    waits: &TWO_IN_A_CYCLE,
    initiator: 0,
    choices: &[],
    restarts: &[],
    script: &[(0, 1, Deadlocked)],
    log: &[(Query(1, 0, 1), Some(Deadlocked)), (Reply(1, 1, 0), None)],
    ending: Ending::Declared,
    engaged: &[0, 1],
    checked: Ok(Ending::Declared),
};

const KNOWN_FREE: Hinted = Hinted {
    waits: &FREE_BY_TWO,
    initiator: 4,
    choices: &[],
    restarts: &[],
    script: &[(0, 3, Free)],
    log: &[(Query(1, 4, 3), Some(Free))],
    ending: Ending::CutFree(3),
    engaged: &[4],
    checked: Ok(Ending::CutFree(3)),
};

const HINTED: [Hinted; 6] = [
    KNOWN_DEADLOCKED,
    KNOWN_FREE,
    // The second process on the way is known.
    Hinted {
        waits: &[Some(&[1]), Some(&[2]), Some(&[3]), None],
        initiator: 0,
        script: &[(1, 2, Free)],
        log: &[(Query(1, 0, 1), None), (Query(1, 1, 2), Some(Free))],
        ending: Ending::CutFree(2),
        engaged: &[0, 1],
        checked: Ok(Ending::CutFree(2)),
        ..KNOWN_FREE
    },
    // So is the one to which the first choice leads.
    Hinted {
        waits: &KNOT_OF_THREE,
        choices: &[1],
        script: &[(0, 2, Deadlocked)],
        log: &[
            (Query(1, 0, 2), Some(Deadlocked)),
            (Query(1, 0, 1), None),
            (Reply(1, 2, 0), None),
            (Query(1, 1, 2), None),
            (Reply(1, 2, 1), None),
            (Reply(1, 1, 0), None),
        ],
        engaged: &[0, 2, 1],
        ..KNOWN_DEADLOCKED
    },
    // The second start asks again.
    Hinted {
        restarts: &[2],
        script: &[(1, 1, Deadlocked)],
        log: &[
            (Query(1, 0, 1), None),
            (Query(1, 1, 0), None),
            (Reply(1, 0, 1), None),
            (Query(2, 0, 1), Some(Deadlocked)),
            (Reply(1, 1, 0), None),
            (Reply(2, 1, 0), None),
        ],
        checked: Err(NotUndelivered(3)),
        ..KNOWN_DEADLOCKED
    },
    // So does the fifth.
    Hinted {
        restarts: &[2, 4, 6, 8],
        script: &[(4, 3, Free)],
        log: &[
            (Query(1, 4, 3), None),
            (Query(1, 3, 2), None),
            (Query(2, 4, 3), None),
            (Query(2, 3, 2), None),
            (Query(3, 4, 3), None),
            (Query(3, 3, 2), None),
            (Query(4, 4, 3), None),
            (Query(4, 3, 2), None),
            (Query(5, 4, 3), Some(Free)),
        ],
        checked: Err(AfterEnd(2)),
        ..KNOWN_FREE
    },
];

fn run_hinted(alloc: Global, graph: &WaitGraph, hinted: &Hinted) -> Result<RunLog, RunFault> {
    let mut hints = Scripted::new(alloc, graph, hinted.script).map_err(|_| RunFault::Memory)?;
    run_again(
        alloc,
        graph,
        hinted.initiator,
        hinted.choices,
        &mut hints,
        hinted.restarts,
    )
}

/// Whether the log has these steps, each with its hint.
fn has_hints(run: &RunLog, steps: &[(Step, Option<Verdict>)]) -> bool {
    run.log().len() == steps.len()
        && run.log().iter().zip(steps.iter()).all(|(made, step)| *made
            == delivery(run.initiator(), step.0, step.1))
}

/// Whether the run is as it was worked out.
fn is_as_hinted(run: &RunLog, hinted: &Hinted) -> bool {
    has_hints(run, hinted.log)
        && run.ending() == hinted.ending
        && (run.verdict() == Deadlocked) == (hinted.ending == Ending::Declared)
        && run.engaged() == hinted.engaged
        && run.restarted() as usize == hinted.restarts.len()
}

#[test]
fn hints_are_asked(rt: HostRuntime) -> Result<(), RunFault> {
    let alloc = rt.alloc();
    for (row, hinted) in HINTED.iter().enumerate() {
        let graph = graph_of(alloc, hinted.waits, &[])?;
        let run = run_hinted(alloc, &graph, hinted)?;
        assert!(rt; is_as_hinted(&run, hinted), "at {row}");
        let checked = check_run(alloc, &graph, hinted.initiator, run.log());
        assert_eq!(rt; checked, hinted.checked, "at {row}");
    }
    Ok(())
}
