//! What a caller writes of the public surface, where no other test does.

use super::{TWO_IN_A_CYCLE, expect, expect_eq, graph_of};
use cmh_graph::Verdict;
use cmh_process::{Kind, Message};
use cmh_run::{
    BriefList, CheckFault, Delivery, Ending, MAX_CHOICES, MAX_RESTARTS, NoHints, ProcessList,
    RunFault, ScriptFault, laws, run, run_again,
};
use std::alloc::AllocError;
use std::hash::{DefaultHasher, Hash, Hasher};

const FIRST: Delivery = Delivery {
    message: Message {
        kind: Kind::Query,
        initiator: 0,
        number: 1,
        from: 0,
        to: 1,
    },
    hint: None,
};

#[test]
fn runs(rt: HostRuntime) -> Result<(), RunFault> {
    let alloc = rt.alloc();
    let graph = graph_of(alloc, &TWO_IN_A_CYCLE, &[])?;
    let log = run(alloc, &graph, 0, &[], &mut NoHints)?;
    expect_eq(&rt, log.log().first(), Some(&FIRST));
    expect_eq(&rt, log.verdict(), Verdict::Deadlocked);
    expect_eq(
        &rt,
        run_again(alloc, &graph, 0, &[], &mut NoHints, &[]),
        Ok(log),
    );
    Ok(())
}

#[test]
fn lists(rt: HostRuntime) -> Result<(), AllocError> {
    let alloc = rt.alloc();
    let kept: Vec<u32> = ProcessList::of(Vec::from_slice(alloc, &[4, 3])?);
    expect_eq(&rt, kept.as_slice(), [4, 3].as_slice());
    expect_eq(&rt, (kept.next(), kept.count()), (Some(3), 2));
    let brief = BriefList::of(kept);
    expect_eq(&rt, (brief.next(), brief.count()), (Some(3), 2));
    Ok(())
}

fn hash_of<T: Hash>(value: &T) -> u64 {
    let mut state = DefaultHasher::new();
    value.hash(&mut state);
    state.finish()
}

#[test]
fn values(rt: HostRuntime) {
    expect_eq(&rt, (MAX_CHOICES, MAX_RESTARTS), (65_536, 16));
    let faults = (RunFault::Memory, ScriptFault::Memory, CheckFault::Memory);
    let copy = faults;
    expect_eq(&rt, copy, faults);
    expect(&rt, Ending::CutFree(1) != Ending::CutFree(2));
    let values = (faults, Ending::AtRest, NoHints, FIRST);
    expect_eq(
        &rt,
        hash_of(&values),
        hash_of(&(copy, Ending::AtRest, NoHints, FIRST)),
    );
    expect(
        &rt,
        hash_of(&Ending::CutFree(1)) != hash_of(&Ending::CutFree(2)),
    );
    laws::law_start();
    laws::law_step();
    laws::law_runs_are_steps();
    laws::law_stale();
    laws::law_runs_sound();
    laws::law_delivery_bound();
    laws::law_messages_between();
    laws::law_who_engages();
    laws::law_awake_ones_start_nothing();
    laws::law_runs_deterministic();
    laws::law_one_run();
    laws::law_last_computation_is_a_run();
    laws::law_logs_have_one_answer();
}
