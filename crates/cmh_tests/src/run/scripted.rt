//! A script about five processes, of which the third is active.

use super::{FREE_BY_TWO, expect_eq, graph_of};
use cmh_graph::Verdict::{Deadlocked, Free};
use cmh_run::{Hints, NoHints, RunFault, ScriptFault, Scripted};

#[test]
fn answers_by_the_number_of_the_ask(rt: HostRuntime) -> Result<(), RunFault> {
    let alloc = rt.alloc();
    let graph = graph_of(alloc, &FREE_BY_TWO, &[])?;
    let lines = [(0, 3, Free), (2, 1, Deadlocked)];
    let mut hints = Scripted::new(alloc, &graph, &lines).map_err(|_| RunFault::Memory)?;
    expect_eq(&rt, hints.hint(3), Some(Free));
    expect_eq(&rt, hints.hint(3), None);
    expect_eq(&rt, hints.hint(1), Some(Deadlocked));
    expect_eq(&rt, NoHints.hint(3), None);
    Ok(())
}

#[test]
fn refuses_a_false_line(rt: HostRuntime) -> Result<(), RunFault> {
    let graph = graph_of(rt.alloc(), &FREE_BY_TWO, &[])?;
    for (line, fault) in [
        ((0, 3, Deadlocked), ScriptFault::FalseVerdict(0)),
        ((0, 9, Free), ScriptFault::ProcessOutOfRange(0)),
    ] {
        expect_eq(
            &rt,
            Scripted::new(rt.alloc(), &graph, &[line]).err(),
            Some(fault),
        );
    }
    Ok(())
}
