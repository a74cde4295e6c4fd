//! The whole program over streams in memory.

mod devices;
mod limits;
mod reports;
mod texts;
mod tracing;
mod words;

use crate::serve;
use cmh_stream::{ReadOf, WriteOf};
use devices::Page;
use std::alloc::Global;
use std::fmt::Debug;
use std::io::Read;
use std::process::Abort;
use std::sync::Wait;
use std::thread::Threads;

/// Fails the test where what was found is not what was wanted. As a call it is one step of a test's proof; written out,
/// a comparison is several, and proofs of tests grow faster than their steps.
fn expect_eq<R: Abort, T: PartialEq + Debug + Drop>(rt: &R, found: T, wanted: T) {
    assert_eq!(*rt; found, wanted);
}

/// Fails the test, and says what was wanted, where a run of the program ended otherwise.
fn expect_ended<R: Abort>(rt: &R, ran: &Outcome, status: u8, out: &str, err: &str) {
    assert!(*rt; is(&ran.out, out), "{out}{err}");
    assert!(*rt; is(&ran.err, err), "{out}{err}");
    assert_eq!(*rt; ran.status, status, "{out}{err}");
}

const TWO_IN_A_CYCLE: &str = r#"{"version":1,"sites":["a"],"processes":[
    {"name":"p","site":"a","state":"idle","dependents":["q"]},
    {"name":"q","site":"a","state":"idle","dependents":["p"]}]}"#;

const TWO_IN_A_CYCLE_REPORT: &str = "processes 2 active 0 idle 2 deadlocked 2
deadlocked p group 1
deadlocked q group 1
group 1 | p q | - | sites 1
";

const ONE_ALONE: &str = r#"{"version":1,"sites":["a"],"processes":[
    {"name":"p","site":"a","state":"idle","dependents":[]}]}"#;

const WAITS_FOR_ITSELF: &str = r#"{"version":1,"sites":["a"],"processes":[
    {"name":"p","site":"a","state":"idle","dependents":["p"]}]}"#;

const ONE_FREE_ONE_STUCK: &str = r#"{"version":1,"sites":["a"],"processes":[
    {"name":"p","site":"a","state":"idle","dependents":["q","r"]},
    {"name":"q","site":"a","state":"idle","dependents":["q"]},
    {"name":"r","site":"a","state":"active"}]}"#;

const KNOT_OF_THREE: &str = r#"{"version":1,"sites":["a"],"processes":[
    {"name":"p","site":"a","state":"idle","dependents":["q","r"]},
    {"name":"q","site":"a","state":"idle","dependents":["r"]},
    {"name":"r","site":"a","state":"idle","dependents":["q"]}]}"#;

const CYCLE_WOKEN: &str = r#"{"version":2,"sites":["a"],"processes":[
    {"name":"p","site":"a","state":"idle","dependents":["q"]},
    {"name":"q","site":"a","state":"idle","dependents":["p"]}],"in_transit":[["q","p"]]}"#;

/// What a run of the program leaves behind.
#[derive(Drop)]
struct Outcome {
    status: u8,
    out: Page,
    err: Page,
}

/// Runs the program on a reader.
fn run_on<R: AllocGlobal + Threads + Wait + Sync, I: Read + Drop>(
    rt: &R,
    words: &[&str],
    reader: I,
) -> Outcome {
    let (mut out, mut err) = (Page::new(rt.alloc()), Page::new(rt.alloc()));
    let status = serve(
        rt,
        rt.alloc(),
        words,
        &mut ReadOf::new(reader),
        &mut WriteOf::new(&mut out),
        &mut WriteOf::new(&mut err),
    );
    Outcome { status, out, err }
}

/// Runs the program on a dump.
fn run<R: AllocGlobal + Threads + Wait + Sync>(rt: &R, words: &[&str], dump: &str) -> Outcome {
    run_on(rt, words, dump.as_bytes())
}

fn is(page: &Page, text: &str) -> bool {
    page.bytes.as_slice() == text.as_bytes()
}

fn has(page: &Page, text: &str) -> bool {
    str::from_utf8(&page.bytes).is_ok_and(|all| all.contains(text))
}
