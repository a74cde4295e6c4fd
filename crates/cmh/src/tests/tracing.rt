//! Dumps worked by hand: what the command `trace` prints and answers on each.

use super::{
    CYCLE_WOKEN, KNOT_OF_THREE, ONE_ALONE, ONE_FREE_ONE_STUCK, TWO_IN_A_CYCLE, WAITS_FOR_ITSELF,
    expect_ended, run,
};

#[test]
fn traces(rt: HostRuntime) {
    let rows = [
        ("p", ONE_ALONE, "declared p\n"),
        ("p", WAITS_FOR_ITSELF, "query p p\nreply p p\ndeclared p\n"),
        (
            "p",
            ONE_FREE_ONE_STUCK,
            "query p q\nquery p r\nquery q q\nreply q q\nreply q p\nat rest p\n",
        ),
        (
            "p",
            TWO_IN_A_CYCLE,
            "query p q\nquery q p\nreply p q\nreply q p\ndeclared p\n",
        ),
        ("q", CYCLE_WOKEN, "query q p\nat rest q\n"),
        ("p", CYCLE_WOKEN, "at rest p\n"),
    ];
    for (name, dump, text) in rows {
        let ran = run(&rt, &["cmh", "trace", name], dump);
        expect_ended(&rt, &ran, 0, text, "");
    }
}

#[test]
fn traces_by_choices(rt: HostRuntime) {
    let rows = [
        (
            "",
            "query p q
query p r
query q r
query r q
reply r q
reply q r
reply q p
reply r p
declared p
",
        ),
        (
            "1,1,1",
            "query p r
query r q
query q r
query p q
reply r q
reply q p
reply q r
reply r p
declared p
",
        ),
        (
            "18446744073709551615",
            "query p r
query p q
query r q
query q r
reply q r
reply r q
reply r p
reply q p
declared p
",
        ),
    ];
    for (choices, text) in rows {
        let words = ["cmh", "trace", "p", "--choices", choices];
        let ran = run(&rt, &words, KNOT_OF_THREE);
        expect_ended(&rt, &ran, 0, text, "");
    }
}

#[test]
fn refused_traces(rt: HostRuntime) {
    let rows = [
        ("x", "cmh: no such process\n"),
        ("r", "cmh: trace: not idle\n"),
    ];
    for (name, line) in rows {
        let ran = run(&rt, &["cmh", "trace", name], ONE_FREE_ONE_STUCK);
        expect_ended(&rt, &ran, 2, "", line);
    }
}
