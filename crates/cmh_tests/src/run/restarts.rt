//! Runs with restarts, while messages of older numbers are undelivered, and checks of their logs.

use super::Step::{Query, Reply};
use super::{
    OF_NOBODY, OF_STUCK, OF_TWO, STEPS_OF_RESTART, TWO_IN_A_CYCLE, Worked, expect_eq, graph_of,
    is_as_worked,
};
use cmh_run::CheckFault::{AfterEnd, NotUndelivered};
use cmh_run::{NoHints, RunFault, check_run, run_again};

const WORKED: [Worked; 6] = [
    Worked {
        restarts: &[2],
        steps: &STEPS_OF_RESTART,
        restarted: 1,
        checked: Err(NotUndelivered(3)),
        ..OF_TWO
    },
    Worked {
        restarts: &[0],
        steps: &[
            Query(1, 0, 1),
            Query(2, 0, 1),
            Query(1, 1, 0),
            Query(2, 1, 0),
            Reply(2, 0, 1),
            Reply(2, 1, 0),
        ],
        restarted: 1,
        checked: Err(NotUndelivered(1)),
        ..OF_TWO
    },
    // A restart that isn't reached.
    Worked {
        restarts: &[9],
        ..OF_TWO
    },
    // There is none after the end.
    Worked {
        restarts: &[0],
        ..OF_NOBODY
    },
    // Where nothing is undelivered and a restart is due, it comes.
    Worked {
        restarts: &[5],
        steps: &[
            Query(1, 0, 1),
            Query(1, 0, 2),
            Query(1, 1, 1),
            Reply(1, 1, 1),
            Reply(1, 1, 0),
            Query(2, 0, 1),
            Query(2, 0, 2),
            Query(2, 1, 1),
            Reply(2, 1, 1),
            Reply(2, 1, 0),
        ],
        restarted: 1,
        checked: Err(AfterEnd(5)),
        ..OF_STUCK
    },
    Worked {
        restarts: &[6],
        ..OF_STUCK
    },
];

#[test]
fn as_worked(rt: HostRuntime) -> Result<(), RunFault> {
    let alloc = rt.alloc();
    for (row, worked) in WORKED.iter().enumerate() {
        let graph = graph_of(alloc, worked.waits, worked.in_transit)?;
        let initiator = worked.initiator;
        let run = run_again(
            alloc,
            &graph,
            initiator,
            worked.choices,
            &mut NoHints,
            worked.restarts,
        )?;
        assert!(rt; is_as_worked(&run, worked), "at {row}");
        let checked = check_run(alloc, &graph, initiator, run.log());
        assert_eq!(rt; checked, worked.checked, "at {row}");
    }
    Ok(())
}

#[test]
fn refuses_bad_restarts(rt: HostRuntime) -> Result<(), RunFault> {
    let alloc = rt.alloc();
    let graph = graph_of(alloc, &TWO_IN_A_CYCLE, &[])?;
    let rising = [0, 1, 2, 3, 4, 5, 6, 7, 8, 9, 10, 11, 12, 13, 14, 15, 16];
    let rows: [(u32, &[u32], RunFault); 3] = [
        (0, &rising, RunFault::BadRestarts),
        (0, &[2, 2], RunFault::BadRestarts),
        (2, &[2, 2], RunFault::NotIdle),
    ];
    for (initiator, restarts, fault) in rows {
        expect_eq(
            &rt,
            run_again(alloc, &graph, initiator, &[], &mut NoHints, restarts).err(),
            Some(fault),
        );
    }
    Ok(())
}
