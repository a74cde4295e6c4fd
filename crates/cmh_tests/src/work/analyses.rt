//! Analyses of worked graphs.

use super::wanted::Wanted::{Leader, Path};
use super::wanted::{Wanted, delivery, is_from_row, is_from_run};
use super::{expect, expect_eq};
use crate::graphs::{CYCLE_AND_FOLLOWER, TWO_IN_A_CYCLE, Waits, graph_of};
use cmh_graph::Verdict;
use cmh_process::Kind;
use cmh_work::laws::{law_chunks, law_drawn_once, law_drew_each_once};
use cmh_work::{
    Analysis, MAX_CUTS, MAX_WORKERS, NoGate, Plan, PlanFault, Record, Row, Shape, TicketSeat,
    Tickets, WorkFault, analyse,
};
use std::sync::Wait;
use std::test::Fail;
use std::thread::Threads;

fn analysis<R: Threads + Wait + Sync + AllocGlobal>(
    rt: &R,
    waits: Waits,
    in_transit: &[(u32, u32)],
    workers: u32,
    cuts: &[u64],
) -> Result<Analysis, Fail> {
    let graph = graph_of(rt.alloc(), waits, in_transit)?;
    let plan = Plan::new(rt.alloc(), workers, cuts, &[])?;
    Ok(analyse(rt, rt.alloc(), &graph, &plan, &NoGate)?)
}

/// The dependents of each process, the messages in transit, and what is wanted of each idle process.
type Worked<'a> = (Waits<'a>, &'a [(u32, u32)], &'a [(u32, Wanted<'a>)]);

const WORKED: [Worked; 10] = [
    (&TWO_IN_A_CYCLE, &[], &[(0, Leader(0)), (1, Leader(0))]),
    (&[], &[], &[]),
    (&[Some(&[])], &[], &[(0, Leader(0))]),
    (&[Some(&[0])], &[], &[(0, Leader(0))]),
    (
        &[Some(&[1, 2]), Some(&[1]), None],
        &[],
        &[(0, Path(&[0, 2])), (1, Leader(1))],
    ),
    (
        &CYCLE_AND_FOLLOWER,
        &[],
        &[(0, Leader(0)), (1, Leader(0)), (2, Leader(2))],
    ),
    (
        &[Some(&[2, 1]), Some(&[3]), Some(&[3]), None],
        &[],
        &[
            (0, Path(&[0, 1, 3])),
            (1, Path(&[1, 3])),
            (2, Path(&[2, 3])),
        ],
    ),
    (
        &[Some(&[1, 2]), Some(&[2]), None],
        &[],
        &[(0, Path(&[0, 2])), (1, Path(&[1, 2]))],
    ),
    (
        &[Some(&[1, 2]), Some(&[2]), Some(&[1])],
        &[],
        &[(0, Leader(0)), (1, Leader(1)), (2, Leader(1))],
    ),
    (
        &TWO_IN_A_CYCLE,
        &[(1, 0)],
        &[(0, Path(&[0])), (1, Path(&[1, 0]))],
    ),
];

fn is_as_worked(record: &Record, initiator: u32, wanted: Wanted) -> bool {
    let is_right = match (&record.shape, wanted) {
        (Shape::Path(path), Path(wanted)) => {
            record.verdict == Verdict::Free && path.as_slice() == wanted
        }
        (Shape::Leader(leader), Leader(wanted)) => {
            record.verdict == Verdict::Deadlocked && *leader == wanted
        }
        _ => false,
    };
    record.initiator == initiator && is_right
}

fn are_as_worked(records: &[Record], wanted: &[(u32, Wanted)]) -> bool {
    let mut are_right = records.len() == wanted.len();
    for (record, (initiator, wanted)) in records.iter().zip(wanted) {
        are_right = are_right && is_as_worked(record, *initiator, *wanted);
    }
    are_right
}

#[test]
fn plans_agree(rt: HostRuntime) -> Result<(), Fail> {
    for workers in [1, 2, 64] {
        for (waits, in_transit, wanted) in WORKED {
            let analysis = analysis(&rt, waits, in_transit, workers, &[0, 1, 0, 9])?;
            expect(&rt, are_as_worked(analysis.records(), wanted));
        }
    }
    Ok(())
}

fn deadlocked_row(process: u32, last: bool) -> Row {
    Row {
        process,
        verdict: Verdict::Deadlocked,
        last,
    }
}

#[test]
fn workers_look_at_the_board(rt: HostRuntime) -> Result<(), Fail> {
    let found = analysis(&rt, &CYCLE_AND_FOLLOWER, &[], 1, &[1, 1])?;
    let log = [
        delivery(Kind::Query, 2, (2, 0), Some(Verdict::Deadlocked)),
        delivery(Kind::Reply, 2, (0, 2), None),
    ];
    assert_eq!(rt; found.records().len(), 3);
    expect(&rt, is_from_row(&found.records()[1], 1));
    expect(&rt, is_from_run(&found.records()[2], &log));
    let rows = [
        deadlocked_row(0, false),
        deadlocked_row(1, true),
        deadlocked_row(2, true),
    ];
    expect_eq(&rt, found.history(), rows.as_slice());
    let again = analysis(&rt, &CYCLE_AND_FOLLOWER, &[], 1, &[1, 1])?;
    expect_eq(&rt, again, found);
    Ok(())
}

#[test]
fn calls_of_laws() {
    law_chunks();
    law_drawn_once();
    law_drew_each_once();
}

#[test]
fn passes_plans_and_tickets_on(rt: HostRuntime) -> Result<(), Fail> {
    expect_eq(&rt, (MAX_WORKERS, MAX_CUTS), (64, 512));
    let plan: Result<Plan, PlanFault> = Plan::new(rt.alloc(), 0, &[], &[]);
    expect_eq(&rt, plan, Err(PlanFault::BadWorkers));
    let opened: Result<(Tickets, TicketSeat), PlanFault> = Tickets::open(rt.alloc(), 2);
    expect(&rt, opened.is_ok());
    Ok(())
}

#[test]
fn texts_of_the_faults(rt: HostRuntime) -> Result<(), Fail> {
    let shown = format!(in rt.alloc(); "{}, {}", WorkFault::Memory, WorkFault::WorkerLost)?;
    expect_eq(&rt, shown.as_str(), "out of memory, worker lost");
    Ok(())
}
