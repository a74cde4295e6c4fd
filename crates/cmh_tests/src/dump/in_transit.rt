//! Dumps of version 2.

use super::{expect, expect_eq, first_wrong};
use cmh_dump::read_dump;
use std::alloc::{AllocError, Global};
use std::test::Fail;

/// Two processes that wait for each other, with these messages in transit.
macro_rules! with {
    ($messages:literal) => {
        concat!(
            r#"{"version":2,"sites":["a"],"processes":["#,
            r#"{"name":"p","site":"a","state":"idle","dependents":["q"]},"#,
            r#"{"name":"q","site":"a","state":"idle","dependents":["p"]}],"in_transit":"#,
            $messages,
            "}"
        )
    };
}

const DUMPS: [(&str, &str); 4] = [
    (with!("[]"), "accepted"),
    (with!(r#"[["p","p"],["p","p"]]"#), "accepted"),
    (with!(r#"[["x","p"],["p"]]"#), "bad in transit 1"),
    (with!(r#"[["p","q"],["p","x"]]"#), "unknown in transit 1"),
];

#[test]
fn dumps_with_messages(rt: HostRuntime) -> Result<(), Fail> {
    expect_eq(&rt, first_wrong(rt.alloc(), &DUMPS)?, None);
    Ok(())
}

#[test]
fn in_transit(rt: HostRuntime) -> Result<(), Fail> {
    let graph = read_dump(rt.alloc(), with!(r#"[["q","p"]]"#).as_bytes())?;
    let wakes_one = graph.len() == 2 && graph.is_awake(0) && !graph.is_awake(1);
    drop(graph);
    expect(&rt, wakes_one);
    Ok(())
}
