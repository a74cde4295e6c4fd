//! Plans, up to their limits.

use super::{expect, expect_eq};
use cmh_plan::{MAX_CUTS, MAX_WORKERS, Plan, PlanFault};
use std::test::Fail;

/// How many workers, cuts and choices a plan asks for, and why there is no such plan.
type Limit = (u32, usize, usize, Option<PlanFault>);

const LIMITS: [Limit; 6] = [
    (0, 0, 0, Some(PlanFault::BadWorkers)),
    (65, 513, 0, Some(PlanFault::BadWorkers)),
    (1, 513, 0, Some(PlanFault::TooManyCuts)),
    (1, 513, 65_537, Some(PlanFault::TooManyCuts)),
    (1, 0, 65_537, Some(PlanFault::TooManyChoices)),
    (64, 512, 65_536, None),
];

#[test]
fn limits_of_plans(rt: HostRuntime) -> Result<(), Fail> {
    let alloc = rt.alloc();
    expect_eq(&rt, (MAX_WORKERS, MAX_CUTS), (64, 512));
    for (workers, cuts, choices, fault) in LIMITS {
        let cuts = vec![in alloc; 1u64; cuts]?;
        let choices = vec![in alloc; 1u64; choices]?;
        let found = Plan::new(alloc, workers, &cuts, &choices).err();
        expect_eq(&rt, found, fault);
    }
    Ok(())
}

#[test]
fn plans_for_each_number_of_workers(rt: HostRuntime) -> Result<(), Fail> {
    let alloc = rt.alloc();
    for workers in 1..=64 {
        let plan = Plan::new(alloc, workers, &[0, 1], &[7])?;
        expect_eq(&rt, plan.workers(), workers);
        expect_eq(&rt, plan.cuts(), [0, 1].as_slice());
        expect_eq(&rt, plan.choices(), [7].as_slice());
        expect(&rt, plan == Plan::new(alloc, workers, &[0, 1], &[7])?);
        expect(&rt, plan != Plan::new(alloc, workers, &[0], &[7])?);
    }
    Ok(())
}

#[test]
fn texts_of_the_faults(rt: HostRuntime) -> Result<(), Fail> {
    let texts = [
        (PlanFault::BadWorkers, "bad workers"),
        (PlanFault::TooManyCuts, "too many cuts"),
        (PlanFault::TooManyChoices, "too many choices"),
        (PlanFault::Memory, "out of memory"),
    ];
    for (fault, text) in texts {
        let shown = format!(in rt.alloc(); "{fault}")?;
        expect_eq(&rt, shown.as_str(), text);
    }
    Ok(())
}
