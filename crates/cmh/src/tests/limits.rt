//! Dumps as large as they may be, and one part larger.

use super::{TWO_IN_A_CYCLE, TWO_IN_A_CYCLE_REPORT, expect_ended, run};
use std::alloc::AllocError;

#[test]
fn the_longest_dump(rt: HostRuntime) -> Result<(), AllocError> {
    let mut dump = String::from_str(rt.alloc(), TWO_IN_A_CYCLE)?;
    for _ in TWO_IN_A_CYCLE.len()..8_388_608 {
        dump.push(' ')?;
    }
    let ran = run(&rt, &["cmh", "analyse"], &dump);
    expect_ended(&rt, &ran, 3, TWO_IN_A_CYCLE_REPORT, "");
    dump.push(' ')?;
    let ran = run(&rt, &["cmh", "analyse"], &dump);
    expect_ended(&rt, &ran, 1, "", "cmh: dump: too long\n");
    Ok(())
}

/// All messages are from p to itself, which doesn't wait for them.
#[test]
fn the_most_messages_in_transit(rt: HostRuntime) -> Result<(), AllocError> {
    let processes = r#"{"version":2,"sites":["a"],"processes":[
        {"name":"p","site":"a","state":"idle","dependents":["q"]},
        {"name":"q","site":"a","state":"idle","dependents":["p"]}],"in_transit":[["p","p"]"#;
    let mut dump = String::from_str(rt.alloc(), processes)?;
    for _ in 1..4_096 {
        dump.push_str(r#",["p","p"]"#)?;
    }
    let full = format!(in rt.alloc(); "{dump}]}}")?;
    let ran = run(&rt, &["cmh", "analyse"], &full);
    expect_ended(&rt, &ran, 3, TWO_IN_A_CYCLE_REPORT, "");
    dump.push_str(r#",["p","p"]]}"#)?;
    let ran = run(&rt, &["cmh", "analyse"], &dump);
    expect_ended(&rt, &ran, 1, "", "cmh: dump: too many in transit\n");
    Ok(())
}
