//! Dumps worked by hand: what the command `analyse` prints and answers on each.

use super::{
    CYCLE_WOKEN, KNOT_OF_THREE, ONE_ALONE, ONE_FREE_ONE_STUCK, TWO_IN_A_CYCLE,
    TWO_IN_A_CYCLE_REPORT, WAITS_FOR_ITSELF, expect_ended, run, run_on,
};
use std::alloc::AllocError;
use std::process::Abort;
use std::sync::Wait;
use std::thread::Threads;

const ONE_ALONE_REPORT: &str = "processes 1 active 0 idle 1 deadlocked 1
deadlocked p group 1
group 1 | p | - | sites 1
";

const CYCLE_AND_FOLLOWER_REPORT: &str = "processes 3 active 0 idle 3 deadlocked 3
deadlocked p group 1
deadlocked q group 1
deadlocked r group 2
group 1 | p q | - | sites 1
group 2 | r | p q | sites 2
";

/// A dump with the sites a and b and these processes; of version 2, where messages are in transit.
macro_rules! dump_of {
    ($processes:literal) => {
        concat!(r#"{"version":1,"sites":["a","b"],"processes":["#, $processes, "]}")
    };
    ($processes:literal, $pair:literal) => {
        concat!(
            r#"{"version":2,"sites":["a","b"],"processes":["#,
            $processes,
            r#"],"in_transit":["#,
            $pair,
            "]}"
        )
    };
}

/// The dump of a cycle and a process that waits for it, and with this message in transit if there is one.
macro_rules! cycle_and_follower {
    ($($pair:literal)?) => {
        dump_of!(
            r#"{"name":"p","site":"a","state":"idle","dependents":["q"]},
               {"name":"q","site":"a","state":"idle","dependents":["p"]},
               {"name":"r","site":"b","state":"idle","dependents":["p"]}"#
            $(, $pair)?
        )
    };
}

/// Fails the test where the program reports anything else, by one of some plans.
fn expect_report<R: Abort + AllocGlobal + Threads + Wait + Sync>(
    rt: &R,
    dump: &str,
    text: &str,
    status: u8,
) {
    let plans: [&[&str]; 6] = [
        &["cmh", "analyse"],
        &["cmh", "analyse", "--workers", "1", "--cuts", "0,1,0,9"],
        &["cmh", "analyse", "--workers", "2", "--cuts", "0,1,0,9"],
        &["cmh", "analyse", "--workers", "64", "--cuts", "0,1,0,9"],
        &["cmh", "analyse", "--cuts", "", "--choices", "1,1,1"],
        &["cmh", "analyse", "--choices=18446744073709551615"],
    ];
    for words in plans {
        let ran = run(rt, words, dump);
        expect_ended(rt, &ran, status, text, "");
    }
}

#[test]
fn reports(rt: HostRuntime) {
    let rows = [
        (TWO_IN_A_CYCLE, TWO_IN_A_CYCLE_REPORT, 3),
        (
            r#"{"version":1,"sites":[],"processes":[]}"#,
            "processes 0 active 0 idle 0 deadlocked 0\n",
            0,
        ),
        (ONE_ALONE, ONE_ALONE_REPORT, 3),
        (WAITS_FOR_ITSELF, ONE_ALONE_REPORT, 3),
        (
            ONE_FREE_ONE_STUCK,
            "processes 3 active 1 idle 2 deadlocked 1
free p path p r
deadlocked q group 1
group 1 | q | - | sites 1
",
            3,
        ),
        (
            KNOT_OF_THREE,
            "processes 3 active 0 idle 3 deadlocked 3
deadlocked p group 1
deadlocked q group 2
deadlocked r group 2
group 1 | p | q r | sites 1
group 2 | q r | - | sites 1
",
            3,
        ),
        (
            dump_of!(r#"{"name":"p","site":"a","state":"active","dependents":[]}"#),
            "processes 1 active 1 idle 0 deadlocked 0\n",
            0,
        ),
    ];
    for (dump, text, status) in rows {
        expect_report(&rt, dump, text, status);
    }
}

#[test]
fn followers_and_paths(rt: HostRuntime) {
    let rows = [
        (cycle_and_follower!(), CYCLE_AND_FOLLOWER_REPORT, 3),
        (
            dump_of!(
                r#"{"name":"p","site":"a","state":"idle","dependents":["b","a"]},
                   {"name":"a","site":"a","state":"idle","dependents":["z"]},
                   {"name":"b","site":"a","state":"idle","dependents":["z"]},
                   {"name":"z","site":"a","state":"active"}"#
            ),
            "processes 4 active 1 idle 3 deadlocked 0
free p path p a z
free a path a z
free b path b z
",
            0,
        ),
        (
            dump_of!(
                r#"{"name":"p","site":"a","state":"idle","dependents":["a","z"]},
                   {"name":"a","site":"a","state":"idle","dependents":["z"]},
                   {"name":"z","site":"a","state":"active"}"#
            ),
            "processes 3 active 1 idle 2 deadlocked 0\nfree p path p z\nfree a path a z\n",
            0,
        ),
    ];
    for (dump, text, status) in rows {
        expect_report(&rt, dump, text, status);
    }
}

#[test]
fn messages_in_transit(rt: HostRuntime) {
    let rows = [
        (
            CYCLE_WOKEN,
            "processes 2 active 0 idle 2 deadlocked 0\nfree p path p\nfree q path q p\n",
            0,
        ),
        (
            dump_of!(
                r#"{"name":"p","site":"a","state":"idle","dependents":["q"]},
                   {"name":"q","site":"a","state":"idle","dependents":["p"]},
                   {"name":"r","site":"a","state":"active"}"#,
                r#"["r","p"]"#
            ),
            "processes 3 active 1 idle 2 deadlocked 2
deadlocked p group 1
deadlocked q group 1
group 1 | p q | - | sites 1
",
            3,
        ),
        (
            dump_of!(
                r#"{"name":"p","site":"a","state":"idle","dependents":["p"]}"#,
                r#"["p","p"]"#
            ),
            "processes 1 active 0 idle 1 deadlocked 0\nfree p path p\n",
            0,
        ),
        (
            cycle_and_follower!(r#"["q","r"]"#),
            CYCLE_AND_FOLLOWER_REPORT,
            3,
        ),
        (
            cycle_and_follower!(r#"["p","r"]"#),
            "processes 3 active 0 idle 3 deadlocked 2
deadlocked p group 1
deadlocked q group 1
free r path r
group 1 | p q | - | sites 1
",
            3,
        ),
    ];
    for (dump, text, status) in rows {
        expect_report(&rt, dump, text, status);
    }
}

#[test]
fn refused_dumps(rt: HostRuntime) {
    let cut_short = TWO_IN_A_CYCLE.split_at(TWO_IN_A_CYCLE.len() - 1).0;
    let rows = [
        ("", "cmh: dump: not JSON\n"),
        (cut_short, "cmh: dump: not JSON\n"),
        ("[]", "cmh: dump: bad top\n"),
        (
            r#"{"version":3,"sites":[],"processes":[]}"#,
            "cmh: dump: bad version\n",
        ),
        (
            dump_of!(r#"{"name":"a b","site":"a","state":"active"}"#),
            "cmh: dump: bad process 0\n",
        ),
        (
            dump_of!(
                r#"{"name":"p","site":"a","state":"active","dependents":["q"]},
                   {"name":"q","site":"a","state":"idle","dependents":[]}"#
            ),
            "cmh: dump: active with dependents 0\n",
        ),
        (
            dump_of!(
                r#"{"name":"p","site":"a","state":"idle","dependents":["q","q"]},
                   {"name":"q","site":"a","state":"idle","dependents":[]}"#
            ),
            "cmh: dump: repeated dependent 0 1\n",
        ),
        (
            dump_of!(
                r#"{"name":"p","site":"a","state":"idle","dependents":["x","q","q"]},
                   {"name":"q","site":"a","state":"idle","dependents":[]}"#
            ),
            "cmh: dump: unknown dependent 0 0\n",
        ),
        (r#"{"version":1,"sites":[]}"#, "cmh: dump: bad top\n"),
        (
            r#"{"version":"1","sites":[7],"processes":[]}"#,
            "cmh: dump: bad version\n",
        ),
        (
            r#"{"version":1,"sites":["a","a","b c"],"processes":[]}"#,
            "cmh: dump: bad site 2\n",
        ),
        (
            r#"{"version":1,"sites":["b","a","a"],"processes":[7]}"#,
            "cmh: dump: repeated site 2\n",
        ),
        (
            dump_of!(r#"{"name":"p","site":"z","state":"active"},7"#),
            "cmh: dump: bad process 1\n",
        ),
        (
            dump_of!(
                r#"{"name":"p","site":"a","state":"idle","dependents":["x"]},
                   {"name":"p","site":"a","state":"active"}"#
            ),
            "cmh: dump: repeated process 1\n",
        ),
        (
            dump_of!(r#"{"name":"p","site":"z","state":"idle","dependents":["x"]}"#),
            "cmh: dump: unknown site 0\n",
        ),
    ];
    for (dump, line) in rows {
        let ran = run(&rt, &["cmh", "analyse"], dump);
        expect_ended(&rt, &ran, 1, "", line);
    }
}

#[test]
fn dumps_with_a_bad_process(rt: HostRuntime) {
    let rows = [
        dump_of!(r#"{"name":"p","site":"a","state":"idle"}"#),
        dump_of!(
            r#"{"name":"ppppppppppppppppppppppppppppppppppppppppppppppppppppppppppppppppp",
                "site":"a","state":"active"}"#
        ),
        dump_of!(r#"{"name":"-x","site":"a","state":"active"}"#),
        dump_of!(r#"{"name":"é","site":"a","state":"active"}"#),
        dump_of!(r#"{"name":"p","site":"a","state":"active","x":0}"#),
    ];
    for dump in rows {
        let ran = run(&rt, &["cmh", "analyse"], dump);
        expect_ended(&rt, &ran, 1, "", "cmh: dump: bad process 0\n");
    }
}

#[test]
fn bytes_that_are_no_json(rt: HostRuntime) -> Result<(), AllocError> {
    let brackets = vec![in rt.alloc(); b'['; 100_000]?;
    for bytes in [b"\xff".as_slice(), brackets.as_slice()] {
        let ran = run_on(&rt, &["cmh", "analyse"], bytes);
        expect_ended(&rt, &ran, 1, "", "cmh: dump: not JSON\n");
    }
    Ok(())
}
