//! Reports on dumps, from end to end over streams in memory.

use super::devices::{Asked, Cut, Page, Passed};
use super::{CYCLE_AND_FOLLOWER_REPORT, TWO_IN_A_CYCLE_DUMP, TWO_IN_A_CYCLE_REPORT, expect, page};
use cmh_dump::DumpFault;
use cmh_report::{AppFault, analyse_bytes, trace_bytes};
use cmh_stream::{ReadOf, WriteOf};
use cmh_work::{NoGate, Plan, PlanFault};
use std::io::Read;
use std::sync::Wait;
use std::sync::atomic::{AtomicU64, Ordering};
use std::thread::Threads;

const CYCLE_AND_FOLLOWER_DUMP: &str = r#"{"version":1,"sites":["a","b"],"processes":[
    {"name":"p","site":"a","state":"idle","dependents":["q"]},
    {"name":"q","site":"a","state":"idle","dependents":["p"]},
    {"name":"r","site":"b","state":"idle","dependents":["p"]}]}"#;

/// Analyses what a reader gives by a plan, onto a page.
fn analyse_by<R: AllocGlobal + Threads + Wait + Sync, I: Read + Drop>(
    rt: &R,
    reader: I,
    page: &mut Page,
    plan: &Plan,
) -> Result<u32, AppFault> {
    analyse_bytes(
        rt,
        rt.alloc(),
        &mut ReadOf::new(reader),
        &mut WriteOf::new(page),
        plan,
        &NoGate,
    )
}

#[test]
fn plans_agree(rt: HostRuntime) -> Result<(), PlanFault> {
    let rows: [(u32, &[u64], &[u64]); 4] = [
        (1, &[0, 1, 0, 9], &[]),
        (2, &[0, 1, 0, 9], &[]),
        (64, &[0, 1, 0, 9], &[1, 1, 1]),
        (4, &[], &[18446744073709551615]),
    ];
    for (workers, cuts, choices) in rows {
        let plan = Plan::new(rt.alloc(), workers, cuts, choices)?;
        let mut out = page(rt.alloc(), 1_000);
        let answer = analyse_by(&rt, CYCLE_AND_FOLLOWER_DUMP.as_bytes(), &mut out, &plan);
        assert!(rt; answer.is_ok_and(|count| count == 3), "{workers}");
        assert!(rt;
            out.bytes.as_slice() == CYCLE_AND_FOLLOWER_REPORT.as_bytes(),
            "{workers}"
        );
    }
    Ok(())
}

#[test]
fn a_failing_source(rt: HostRuntime) -> Result<(), PlanFault> {
    let plan = Plan::new(rt.alloc(), 2, &[1], &[])?;
    for length in 0..=157 {
        let mut out = page(rt.alloc(), 1_000);
        let reader = Cut {
            bytes: &TWO_IN_A_CYCLE_DUMP.as_bytes()[..length],
        };
        let answer = analyse_by(&rt, reader, &mut out, &plan);
        assert!(rt; matches!(answer, Err(AppFault::Dump(DumpFault::ReadFault))));
        expect(&rt, out.bytes.is_empty());
    }
    Ok(())
}

#[test]
fn a_failing_sink(rt: HostRuntime) -> Result<(), PlanFault> {
    let plan = Plan::new(rt.alloc(), 2, &[1], &[])?;
    for room in 0..=111 {
        // A page with room for the whole report fails at its end.
        let mut out = Page {
            fails_flush: true,
            ..page(rt.alloc(), room)
        };
        let answer = analyse_by(&rt, TWO_IN_A_CYCLE_DUMP.as_bytes(), &mut out, &plan);
        assert!(rt; matches!(answer, Err(AppFault::WriteFault(n)) if n == room));
        let front = &TWO_IN_A_CYCLE_REPORT.as_bytes()[..room];
        expect(&rt, out.bytes.as_slice() == front);
    }
    Ok(())
}

#[test]
fn the_gate_is_passed_for_each_idle_process(rt: HostRuntime) -> Result<(), PlanFault> {
    let gate = Passed {
        times: AtomicU64::new(0),
    };
    let answer = analyse_bytes(
        &rt,
        rt.alloc(),
        &mut ReadOf::new(CYCLE_AND_FOLLOWER_DUMP.as_bytes()),
        &mut WriteOf::new(&mut page(rt.alloc(), 1_000)),
        &Plan::new(rt.alloc(), 2, &[1], &[])?,
        &gate,
    );
    expect(&rt, answer.is_ok());
    expect(&rt, gate.times.load(Ordering::SeqCst) == 3);
    Ok(())
}

/// A source of these bytes that counts how often it is asked after its end.
fn asked(dump: &[u8]) -> Asked<ReadOf<&[u8]>> {
    Asked {
        source: ReadOf::new(dump),
        is_over: false,
        again: 0,
    }
}

/// Neither of a dump nor of what is none is more asked for than its end.
#[test]
fn no_source_is_asked_after_its_end(rt: HostRuntime) -> Result<(), PlanFault> {
    let plan = Plan::new(rt.alloc(), 2, &[1], &[])?;
    for dump in [TWO_IN_A_CYCLE_DUMP, CYCLE_AND_FOLLOWER_DUMP, "{}", ""] {
        let (mut first, mut second) = (asked(dump.as_bytes()), asked(dump.as_bytes()));
        let mut out = page(rt.alloc(), 1_000);
        let mut sink = WriteOf::new(&mut out);
        let analysed = analyse_bytes(&rt, rt.alloc(), &mut first, &mut sink, &plan, &NoGate);
        let traced = trace_bytes(rt.alloc(), &mut second, &mut sink, "p", &[]);
        assert!(rt; analysed.is_ok() == traced.is_ok(), "{dump}");
        assert!(rt; first.is_over && second.is_over, "{dump}");
        assert!(rt; first.again == 0 && second.again == 0, "{dump}");
    }
    Ok(())
}
