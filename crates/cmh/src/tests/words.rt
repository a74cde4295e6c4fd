//! Words that ask for a text, or are refused. Nothing is read for them: the source fails at its first byte, and that
//! fault would be the answer.

use super::devices::Broken;
use super::{expect_eq, has, run_on};
use crate::{ListFault, MAX_NUMBERS, read_list};

#[test]
fn help_and_version(rt: HostRuntime) {
    let rows: [(&[&str], &str); 5] = [
        (&["cmh", "--help"], "cmh analyse < dump.json"),
        (&["cmh", "--help"], "  3  some process is deadlocked"),
        (
            &["cmh", "analyse", "--help"],
            "Usage: cmh analyse [OPTIONS] < DUMP",
        ),
        (
            &["cmh", "trace", "-h"],
            "Usage: cmh trace [OPTIONS] NAME < DUMP",
        ),
        (&["cmh", "--version"], "cmh "),
    ];
    for (words, text) in rows {
        let ran = run_on(&rt, words, Broken {});
        assert!(rt; has(&ran.out, text), "{text}");
        assert!(rt; ran.err.bytes.is_empty(), "{text}");
        assert_eq!(rt; ran.status, 0, "{text}");
    }
}

#[test]
fn refused_words(rt: HostRuntime) {
    let rows: [(&[&str], &str); 10] = [
        (&["cmh"], "Usage: cmh"),
        (&["cmh", "analyze"], "Usage: cmh"),
        (&["cmh", "analyse", "--workers", "0"], "--workers"),
        (&["cmh", "analyse", "--workers", "65"], "--workers"),
        (&["cmh", "trace"], "NAME"),
        (
            &["cmh", "analyse", "--cuts", "1,,2"],
            "cmh: cuts: bad number 1\n",
        ),
        (
            &["cmh", "analyse", "--choices", "1,,2"],
            "cmh: choices: bad number 1\n",
        ),
        (
            &["cmh", "analyse", "--choices", "x", "--cuts", "1,y"],
            "cmh: cuts: bad number 1\n",
        ),
        (
            &["cmh", "trace", "p", "--choices", "x"],
            "cmh: choices: bad number 0\n",
        ),
        (
            &["cmh", "trace", "x", "--choices", "18446744073709551616"],
            "cmh: choices: bad number 0\n",
        ),
    ];
    for (words, text) in rows {
        let ran = run_on(&rt, words, Broken {});
        assert!(rt; ran.out.bytes.is_empty(), "{words:?}");
        assert!(rt; has(&ran.err, text), "{words:?}");
        assert_eq!(rt; ran.status, 2, "{words:?}");
    }
}

#[test]
fn lists_are_passed_on(rt: HostRuntime) {
    let fault = read_list(rt.alloc(), "1,,2").err();
    expect_eq(&rt, fault, Some(ListFault::BadNumber(1)));
    expect_eq(&rt, MAX_NUMBERS, 65_536);
}
