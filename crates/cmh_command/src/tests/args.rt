//! What a command line asks for.

use super::{expect, expect_eq};
use crate::command::command;
use crate::{DEFAULT_WORKERS, PlanArgs, Request, read_args};
use std::alloc::{AllocError, Global};
use std::test::Fail;

/// Whether the arguments ask for an analysis by as many workers as by default, and nothing else.
fn is_plain_analysis(alloc: Global, args: &[&str]) -> bool {
    matches!(
        read_args(alloc, args),
        Ok(Request::Analyse(PlanArgs {
            workers: DEFAULT_WORKERS,
            cuts: None,
            choices: "",
        }))
    )
}

/// Whether the arguments ask for an analysis by 7 workers with cuts and choices.
fn is_analysis(alloc: Global, args: &[&str]) -> bool {
    matches!(
        read_args(alloc, args),
        Ok(Request::Analyse(PlanArgs {
            workers: 7,
            cuts: Some("1,2"),
            choices: "3"
        }))
    )
}

/// Whether the arguments ask for a trace of p by choices.
fn is_trace(alloc: Global, args: &[&str]) -> bool {
    matches!(
        read_args(alloc, args),
        Ok(Request::Trace {
            name: "p",
            choices: "1,0"
        })
    )
}

#[test]
fn analyses_and_a_trace(rt: HostRuntime) {
    let plain = ["cmh", "analyse"];
    expect(&rt, is_plain_analysis(rt.alloc(), &plain));
    expect_eq(&rt, DEFAULT_WORKERS, 4);
    let all = ["cmh", "analyse", "--workers=7", "--cuts=1,2", "--choices=3"];
    expect(&rt, is_analysis(rt.alloc(), &all));
    let trace = ["cmh", "trace", "p", "--choices", "1,0"];
    expect(&rt, is_trace(rt.alloc(), &trace));
}

/// The text with which `clap` answers, or none.
fn text_of_clap(alloc: Global, args: &[&str]) -> Result<String, AllocError> {
    match command(alloc)?.try_get_matches_from(args) {
        Ok(_) => Ok(String::new(alloc)),
        Err(error) => error.to_string(alloc),
    }
}

/// Whether the arguments ask for this text.
fn is_shown(alloc: Global, args: &[&str], text: &str) -> bool {
    match read_args(alloc, args) {
        Ok(Request::Show(shown)) => shown.as_str() == text,
        _ => false,
    }
}

/// The text to print is that with which `clap` answers.
#[test]
fn texts_of_clap(rt: HostRuntime) -> Result<(), Fail> {
    let rows: [&[&str]; 4] = [
        &["cmh", "--help"],
        &["cmh", "-V"],
        &["cmh", "analyse", "--help"],
        &["cmh", "trace", "-h"],
    ];
    for args in rows {
        let text = text_of_clap(rt.alloc(), args)?;
        assert!(rt; text.len() > 9, "{args:?}");
        assert!(rt; is_shown(rt.alloc(), args, &text), "{args:?}");
    }
    Ok(())
}

/// Whether the arguments are refused with a text that has this in it, and no control character.
fn is_refused(alloc: Global, args: &[&str], named: &str) -> bool {
    match read_args(alloc, args) {
        Ok(Request::Refused(text)) => {
            text.contains(named) && !text.chars().any(|c| c.is_control() && c != '\n')
        }
        _ => false,
    }
}

#[test]
fn arguments_that_are_refused(rt: HostRuntime) {
    let rows: [(&[&str], &str); 7] = [
        (&["cmh"], "Usage: cmh"),
        (
            &["cmh", "analyse", "dump.json"],
            "cmh analyse [OPTIONS] < DUMP",
        ),
        (&["cmh", "analyse", "--workers", "+4"], "'--workers <N>'"),
        (&["cmh", "analyse", "--workers", "65"], "--workers"),
        (&["cmh", "trace"], "NAME"),
        (&["cmh", "analyse", "\u{1b}[31m"], "\\u{1b}[31m"),
        (&["cmh", "\u{7}"], "\\u{7}"),
    ];
    for (args, named) in rows {
        assert!(rt; is_refused(rt.alloc(), args, named), "{args:?}");
    }
}

/// Each control character of a word is written out, a line feed too.
#[test]
fn control_characters_of_words(rt: HostRuntime) -> Result<(), Fail> {
    for code in 0..160u32 {
        if (32..127).contains(&code) {
            continue;
        }
        let c = char::from_u32(code).unwrap_or(' ');
        let word = format!(in rt.alloc(); "a{c}b")?;
        let named = format!(in rt.alloc(); "a\\u{{{code:x}}}b")?;
        let words = ["cmh", word.as_str()];
        assert!(rt; is_refused(rt.alloc(), &words, &named), "{named}");
    }
    Ok(())
}
