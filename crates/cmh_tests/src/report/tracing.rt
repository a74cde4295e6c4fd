//! Traces of worked dumps.

use super::{expect, page};
use cmh_report::laws::{law_one_trace, law_trace_of_steps};
use cmh_report::{AppFault, trace_bytes};
use cmh_run::{Ending, MAX_CHOICES, RunFault};
use cmh_stream::{ReadOf, WriteOf};
use std::alloc::AllocError;

const WAITS_FOR_NOBODY: &str = r#"{"version":1,"sites":["a"],"processes":[
    {"name":"p","site":"a","state":"idle","dependents":[]}]}"#;

const ONE_FREE_ONE_STUCK: &str = r#"{"version":1,"sites":["a"],"processes":[
    {"name":"p","site":"a","state":"idle","dependents":["q","r"]},
    {"name":"q","site":"a","state":"idle","dependents":["q"]},
    {"name":"r","site":"a","state":"active"}]}"#;

const KNOT_OF_THREE: &str = r#"{"version":1,"sites":["a"],"processes":[
    {"name":"p","site":"a","state":"idle","dependents":["q","r"]},
    {"name":"q","site":"a","state":"idle","dependents":["r"]},
    {"name":"r","site":"a","state":"idle","dependents":["q"]}]}"#;

/// Whether a process has this trace, and its run ends so.
fn traces(
    rt: HostRuntime,
    dump: &str,
    name: &str,
    choices: &[u64],
    text: &str,
    ending: Ending,
) -> bool {
    let mut out = page(rt.alloc(), 1_000);
    let mut source = ReadOf::new(dump.as_bytes());
    let answer = trace_bytes(
        rt.alloc(),
        &mut source,
        &mut WriteOf::new(&mut out),
        name,
        choices,
    );
    law_one_trace();
    law_trace_of_steps();
    answer.is_ok_and(|last| last == ending) && out.bytes.as_slice() == text.as_bytes()
}

/// The fault of a trace that writes nothing.
fn fault_of(rt: HostRuntime, dump: &str, name: &str, choices: &[u64]) -> Option<AppFault> {
    let mut out = page(rt.alloc(), 1_000);
    let mut source = ReadOf::new(dump.as_bytes());
    let answer = trace_bytes(
        rt.alloc(),
        &mut source,
        &mut WriteOf::new(&mut out),
        name,
        choices,
    );
    if out.bytes.is_empty() {
        answer.err()
    } else {
        None
    }
}

#[test]
fn knot_of_three(rt: HostRuntime) {
    let text = "query p r
query r q
query q r
query p q
reply r q
reply q p
reply q r
reply r p
declared p
";
    expect(
        &rt,
        traces(rt, KNOT_OF_THREE, "p", &[1, 1, 1], text, Ending::Declared),
    );
}

#[test]
fn one_free_one_stuck(rt: HostRuntime) {
    let text = "query p q
query p r
query q q
reply q q
reply q p
at rest p
";
    expect(
        &rt,
        traces(rt, ONE_FREE_ONE_STUCK, "p", &[], text, Ending::AtRest),
    );
    let nobody = fault_of(rt, ONE_FREE_ONE_STUCK, "x", &[]);
    assert!(rt; matches!(nobody, Some(AppFault::NoSuchProcess)));
    let active = fault_of(rt, ONE_FREE_ONE_STUCK, "r", &[]);
    assert!(rt; matches!(active, Some(AppFault::Run(RunFault::NotIdle))));
}

/// The clause on an answer doesn't say that the choices are few.
#[test]
fn many_choices(rt: HostRuntime) -> Result<(), AllocError> {
    let mut choices = vec![in rt.alloc(); 0; MAX_CHOICES]?;
    let text = "declared p\n";
    expect(
        &rt,
        traces(rt, WAITS_FOR_NOBODY, "p", &choices, text, Ending::Declared),
    );
    choices.push(0)?;
    let fault = fault_of(rt, WAITS_FOR_NOBODY, "p", &choices);
    assert!(rt; matches!(fault, Some(AppFault::Run(RunFault::TooManyChoices))));
    let nobody = fault_of(rt, WAITS_FOR_NOBODY, "x", &choices);
    assert!(rt; matches!(nobody, Some(AppFault::NoSuchProcess)));
    Ok(())
}
