//! What is accepted, and the graph that it means.

use super::{expect, expect_eq, first_wrong};
use cmh_dump::read_dump;
use cmh_graph::WaitGraph;
use std::test::Fail;

const DUMPS: [(&str, &str); 3] = [
    (r#"{"version":1,"sites":[],"processes":[]}"#, "accepted"),
    // Of a key that stands twice, the last value counts.
    (
        r#"{"version":3,"sites":[],"processes":[],"version":1}"#,
        "accepted",
    ),
    (
        r#"{"version":1,"sites":[],"processes":[],"version":3}"#,
        "bad version",
    ),
];

#[test]
fn accepted_dumps(rt: HostRuntime) -> Result<(), Fail> {
    expect_eq(&rt, first_wrong(rt.alloc(), &DUMPS)?, None);
    Ok(())
}

/// Whether process p has this name, site and dependents.
fn is_process(graph: &WaitGraph, p: u32, name: &str, site: u32, dependents: &[u32]) -> bool {
    p < graph.len()
        && graph.name(p) == name
        && graph.site(p) == site
        && graph.dependents(p) == dependents
}

fn is_idle(graph: &WaitGraph, p: u32) -> bool {
    p < graph.len() && graph.is_idle(p) && !graph.is_awake(p)
}

fn is_active(graph: &WaitGraph, p: u32) -> bool {
    p < graph.len() && !graph.is_idle(p) && graph.is_awake(p)
}

#[test]
fn keeps_the_order_of_the_dump(rt: HostRuntime) -> Result<(), Fail> {
    let dump = r#"{"version":1,"sites":["b","a"],"processes":[
        {"name":"p","site":"a","state":"idle","dependents":["r","q"]},
        {"name":"q","site":"b","state":"active"},
        {"state":"idle","dependents":[],"site":"a","name":"r"}]}"#;
    let graph = read_dump(rt.alloc(), dump.as_bytes())?;
    let are_there = graph.len() == 3
        && is_process(&graph, 0, "p", 1, &[2, 1])
        && is_process(&graph, 1, "q", 0, &[])
        && is_process(&graph, 2, "r", 1, &[]);
    let wait = is_idle(&graph, 0) && is_active(&graph, 1) && is_idle(&graph, 2);
    drop(graph);
    expect(&rt, are_there);
    expect(&rt, wait);
    Ok(())
}
