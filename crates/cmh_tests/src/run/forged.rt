//! Logs that are of no run, and what is wrong with each.

use super::Step::{self, Query, Reply};
use super::{TWO_IN_A_CYCLE, WAITS_FOR_NOBODY, Waits, delivery, graph_of};
use cmh_graph::Verdict::{self, Deadlocked, Free};
use cmh_run::CheckFault::{AfterEnd, FalseHint, NotEnded, NotIdle, NotUndelivered};
use cmh_run::{CheckFault, Delivery, RunFault, check_run};
use std::alloc::Global;

/// A log that is checked as one of an initiator of a graph, and what is wrong with it. The messages are those of a
/// computation of `maker`.
#[derive(Clone, Copy)]
struct Forged<'a> {
    waits: Waits<'a>,
    in_transit: &'a [(u32, u32)],
    initiator: u32,
    maker: u32,
    steps: &'a [(Step, Option<Verdict>)],
    fault: CheckFault,
}

const FIRST: (Step, Option<Verdict>) = (Query(1, 0, 1), None);

const SECOND: (Step, Option<Verdict>) = (Query(1, 1, 0), None);

const THIRD: (Step, Option<Verdict>) = (Reply(1, 0, 1), None);

const LAST: (Step, Option<Verdict>) = (Reply(1, 1, 0), None);

const CUT_SHORT: Forged = Forged {
    waits: &TWO_IN_A_CYCLE,
    in_transit: &[],
    initiator: 0,
    maker: 0,
    steps: &[FIRST, SECOND, THIRD],
    fault: NotEnded,
};

const FORGED: [Forged; 11] = [
    CUT_SHORT,
    Forged {
        steps: &[FIRST, SECOND, THIRD, LAST, LAST],
        fault: AfterEnd(4),
        ..CUT_SHORT
    },
    Forged {
        steps: &[LAST, SECOND, THIRD, LAST],
        fault: NotUndelivered(0),
        ..CUT_SHORT
    },
    Forged {
        steps: &[(Query(1, 0, 1), Some(Free)), SECOND, THIRD, LAST],
        fault: FalseHint(0),
        ..CUT_SHORT
    },
    // No hint is asked about a process that is engaged.
    Forged {
        steps: &[FIRST, (Query(1, 1, 0), Some(Deadlocked)), THIRD, LAST],
        fault: FalseHint(1),
        ..CUT_SHORT
    },
    Forged {
        initiator: 2,
        steps: &[FIRST, SECOND, THIRD, LAST],
        fault: NotIdle,
        ..CUT_SHORT
    },
    Forged {
        steps: &[],
        ..CUT_SHORT
    },
    Forged {
        waits: &WAITS_FOR_NOBODY,
        steps: &[(Query(1, 0, 0), None)],
        fault: AfterEnd(0),
        ..CUT_SHORT
    },
    // An awake initiator sends nothing.
    Forged {
        in_transit: &[(1, 0)],
        steps: &[FIRST, SECOND, THIRD, LAST],
        fault: AfterEnd(0),
        ..CUT_SHORT
    },
    Forged {
        maker: 1,
        steps: &[FIRST, SECOND, THIRD, LAST],
        fault: NotUndelivered(0),
        ..CUT_SHORT
    },
    Forged {
        steps: &[(Query(2, 0, 1), None), SECOND, THIRD, LAST],
        fault: NotUndelivered(0),
        ..CUT_SHORT
    },
];

fn log_of(alloc: Global, forged: &Forged) -> Result<Vec<Delivery>, RunFault> {
    let mut log = Vec::new(alloc);
    for step in forged.steps {
        log.push(delivery(forged.maker, step.0, step.1))?;
    }
    Ok(log)
}

#[test]
fn forged_logs(rt: HostRuntime) -> Result<(), RunFault> {
    let alloc = rt.alloc();
    for (row, forged) in FORGED.iter().enumerate() {
        let graph = graph_of(alloc, forged.waits, forged.in_transit)?;
        let log = log_of(alloc, forged)?;
        let checked = check_run(alloc, &graph, forged.initiator, &log);
        assert_eq!(rt; checked, Err(forged.fault), "at {row}");
    }
    Ok(())
}
