//! Reports on worked graphs, and reports and traces of dumps from end to end over streams in memory.

mod devices;
mod ends;
pub(crate) mod large;
mod memory;
mod tracing;

use crate::expect::expect;
use cmh_graph::{GraphFault, Part, State, WaitGraph};
use cmh_report::report;
use cmh_work::{NoGate, Plan, analyse};
use devices::Page;
use std::alloc::Global;
use std::sync::Wait;
use std::thread::Threads;

/// A process: its name, its site, and its dependents if it is idle.
type Row<'a> = (&'a str, u32, Option<&'a [u32]>);

const CYCLE_AND_FOLLOWER: [Row; 3] = [
    ("p", 0, Some(&[1])),
    ("q", 0, Some(&[0])),
    ("r", 1, Some(&[0])),
];

const CYCLE_AND_FOLLOWER_REPORT: &str = "processes 3 active 0 idle 3 deadlocked 3
deadlocked p group 1
deadlocked q group 1
deadlocked r group 2
group 1 | p q | - | sites 1
group 2 | r | p q | sites 2
";

/// 157 bytes.
const TWO_IN_A_CYCLE_DUMP: &str = concat!(
    r#"{"version":1,"sites":["a"],"processes":["#,
    r#"{"name":"p","site":"a","state":"idle","dependents":["q"]},"#,
    r#"{"name":"q","site":"a","state":"idle","dependents":["p"]}]}"#
);

/// 111 bytes.
const TWO_IN_A_CYCLE_REPORT: &str = "processes 2 active 0 idle 2 deadlocked 2
deadlocked p group 1
deadlocked q group 1
group 1 | p q | - | sites 1
";

fn graph(alloc: Global, rows: &[Row]) -> Result<WaitGraph, GraphFault> {
    let mut parts = Vec::new(alloc);
    for (name, site, dependents) in rows {
        let part = Part {
            name: name.to_string(alloc)?,
            site: *site,
            state: if dependents.is_some() {
                State::Idle
            } else {
                State::Active
            },
            dependents: Vec::from_slice(alloc, dependents.unwrap_or(&[]))?,
        };
        parts.push(part)?;
    }
    WaitGraph::build(alloc, parts)
}

/// The report on a graph that this many workers analyse.
pub(crate) fn report_of<R: AllocGlobal + Threads + Wait + Sync>(
    rt: &R,
    graph: &WaitGraph,
    workers: u32,
) -> Option<String> {
    let plan = Plan::new(rt.alloc(), workers, &[1; 8], &[]).ok()?;
    let Ok(analysis) = analyse(rt, rt.alloc(), graph, &plan, &NoGate) else {
        return None;
    };
    report(rt, rt.alloc(), graph, &analysis).ok()
}

/// Whether this is the report on the graph, however many workers analyse it.
fn reports<R: AllocGlobal + Threads + Wait + Sync>(rt: &R, rows: &[Row], text: &str) -> bool {
    let Ok(graph) = graph(rt.alloc(), rows) else {
        return false;
    };
    for workers in [1, 2, 64] {
        if !report_of(rt, &graph, workers).is_some_and(|all| all.as_str() == text) {
            return false;
        }
    }
    true
}

fn page(alloc: Global, room: usize) -> Page {
    Page {
        bytes: Vec::new(alloc),
        room,
        fails_flush: false,
    }
}

#[test]
fn cycle_and_follower(rt: HostRuntime) {
    let text = CYCLE_AND_FOLLOWER_REPORT;
    expect(&rt, reports(&rt, &CYCLE_AND_FOLLOWER, text));
}

#[test]
fn one_free_one_stuck(rt: HostRuntime) {
    let rows: [Row; 3] = [
        ("p", 0, Some(&[1, 2])),
        ("q", 0, Some(&[1])),
        ("r", 0, None),
    ];
    let text = "processes 3 active 1 idle 2 deadlocked 1
free p path p r
deadlocked q group 1
group 1 | q | - | sites 1
";
    expect(&rt, reports(&rt, &rows, text));
}

/// A graph may have any site numbers, while those of a dump are below 4,096.
#[test]
fn great_numbers_of_sites(rt: HostRuntime) {
    let rows: [Row; 4] = [
        ("p", 4_096, Some(&[1])),
        ("q", 4_294_967_295, Some(&[0])),
        ("r", 4_096, Some(&[0])),
        ("s", 0, Some(&[2])),
    ];
    let text = "processes 4 active 0 idle 4 deadlocked 4
deadlocked p group 1
deadlocked q group 1
deadlocked r group 2
deadlocked s group 3
group 1 | p q | - | sites 2
group 2 | r | p q | sites 2
group 3 | s | p q r | sites 3
";
    expect(&rt, reports(&rt, &rows, text));
}
