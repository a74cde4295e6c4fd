//! Worked runs, delivery by delivery, and checks of their logs.

use super::Step::{Query, Reply};
use super::{
    KNOT_OF_THREE, OF_NOBODY, OF_STUCK, OF_TWO, ONE_FREE_ONE_STUCK, TWO_IN_A_CYCLE,
    WAITS_FOR_ITSELF, Worked, expect_eq, graph_of, is_as_worked,
};
use cmh_run::{Ending, NoHints, RunFault, check_run, run};

const OF_KNOT: Worked = Worked {
    waits: &KNOT_OF_THREE,
    steps: &[
        Query(1, 0, 1),
        Query(1, 0, 2),
        Query(1, 1, 2),
        Query(1, 2, 1),
        Reply(1, 2, 1),
        Reply(1, 1, 2),
        Reply(1, 1, 0),
        Reply(1, 2, 0),
    ],
    engaged: &[0, 1, 2],
    ..OF_TWO
};

/// Its first process has a message in transit from the other, so it is awake.
const AWAKE: Worked = Worked {
    in_transit: &[(1, 0)],
    steps: &[],
    ending: Ending::AtRest,
    engaged: &[],
    checked: Ok(Ending::AtRest),
    ..OF_TWO
};

const WORKED: [Worked; 9] = [
    OF_NOBODY,
    Worked {
        waits: &WAITS_FOR_ITSELF,
        steps: &[Query(1, 0, 0), Reply(1, 0, 0)],
        engaged: &[0],
        ..OF_TWO
    },
    OF_TWO,
    OF_STUCK,
    OF_KNOT,
    Worked {
        choices: &[1, 1, 1],
        steps: &[
            Query(1, 0, 2),
            Query(1, 2, 1),
            Query(1, 1, 2),
            Query(1, 0, 1),
            Reply(1, 2, 1),
            Reply(1, 1, 0),
            Reply(1, 1, 2),
            Reply(1, 2, 0),
        ],
        engaged: &[0, 2, 1],
        ..OF_KNOT
    },
    Worked {
        choices: &[18_446_744_073_709_551_615],
        steps: &[
            Query(1, 0, 2),
            Query(1, 0, 1),
            Query(1, 2, 1),
            Query(1, 1, 2),
            Reply(1, 1, 2),
            Reply(1, 2, 1),
            Reply(1, 2, 0),
            Reply(1, 1, 0),
        ],
        engaged: &[0, 2, 1],
        ..OF_KNOT
    },
    AWAKE,
    Worked {
        initiator: 1,
        steps: &[Query(1, 1, 0)],
        engaged: &[1],
        ..AWAKE
    },
];

#[test]
fn as_worked(rt: HostRuntime) -> Result<(), RunFault> {
    let alloc = rt.alloc();
    for (row, worked) in WORKED.iter().enumerate() {
        let graph = graph_of(alloc, worked.waits, worked.in_transit)?;
        let initiator = worked.initiator;
        let run = run(alloc, &graph, initiator, worked.choices, &mut NoHints)?;
        assert!(rt; is_as_worked(&run, worked), "at {row}");
        let checked = check_run(alloc, &graph, initiator, run.log());
        assert_eq!(rt; checked, worked.checked, "at {row}");
    }
    Ok(())
}

#[test]
fn refuses_an_initiator_that_is_not_idle(rt: HostRuntime) -> Result<(), RunFault> {
    for waits in [TWO_IN_A_CYCLE.as_slice(), &ONE_FREE_ONE_STUCK] {
        let graph = graph_of(rt.alloc(), waits, &[])?;
        expect_eq(
            &rt,
            run(rt.alloc(), &graph, 2, &[], &mut NoHints).err(),
            Some(RunFault::NotIdle),
        );
    }
    Ok(())
}

#[test]
fn takes_65536_choices(rt: HostRuntime) -> Result<(), RunFault> {
    let alloc = rt.alloc();
    let graph = graph_of(alloc, &TWO_IN_A_CYCLE, &[])?;
    let many = vec![in alloc; 0u64; 65_537]?;
    expect_eq(
        &rt,
        run(alloc, &graph, 0, &many, &mut NoHints).err(),
        Some(RunFault::TooManyChoices),
    );
    expect_eq(
        &rt,
        run(alloc, &graph, 0, &many[1..], &mut NoHints)?.ending(),
        Ending::Declared,
    );
    Ok(())
}
