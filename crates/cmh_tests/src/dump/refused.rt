//! Small dumps with something wrong in them.

use super::{TWO_IN_A_CYCLE, expect, expect_eq, first_wrong, is_answered};
use std::test::Fail;

/// A dump of version 1 with the site a and these processes.
macro_rules! dump_of {
    ($processes:expr) => {
        concat!(r#"{"version":1,"sites":["a"],"processes":["#, $processes, "]}")
    };
}

/// Dumps, and their faults.
const DUMPS: [(&str, &str); 8] = [
    ("", "not JSON"),
    ("[]", "bad top"),
    (
        r#"{"version":3,"sites":["a"],"processes":[]}"#,
        "bad version",
    ),
    (
        dump_of!(r#"{"name":"a b","site":"a","state":"active"}"#),
        "bad process 0",
    ),
    (
        dump_of!(
            r#"{"name":"p","site":"a","state":"active","dependents":["q"]},
            {"name":"q","site":"a","state":"active"}"#
        ),
        "active with dependents 0",
    ),
    (
        dump_of!(
            r#"{"name":"p","site":"a","state":"idle","dependents":["q","q"]},
            {"name":"q","site":"a","state":"idle","dependents":[]}"#
        ),
        "repeated dependent 0 1",
    ),
    (
        dump_of!(
            r#"{"name":"p","site":"a","state":"idle","dependents":["x","q","q"]},
            {"name":"q","site":"a","state":"idle","dependents":[]}"#
        ),
        "unknown dependent 0 0",
    ),
    (
        dump_of!(r#"{"name":"p","site":"a","state":"active","dependents":[]}"#),
        "accepted",
    ),
];

#[test]
fn refused_dumps(rt: HostRuntime) -> Result<(), Fail> {
    expect_eq(&rt, first_wrong(rt.alloc(), &DUMPS)?, None);
    Ok(())
}

#[test]
fn hostile_bytes(rt: HostRuntime) -> Result<(), Fail> {
    let alloc = rt.alloc();
    let brackets = vec![in alloc; b'['; 100_000]?;
    let cut = &TWO_IN_A_CYCLE.as_bytes()[..156];
    expect(&rt, is_answered(alloc, &brackets, "not JSON")?);
    expect(&rt, is_answered(alloc, b"\xFF", "not JSON")?);
    expect(&rt, is_answered(alloc, cut, "not JSON")?);
    Ok(())
}
