//! What a command line asks for.

ghost use Rattle.std.specs.Prelude.{◌≡◌, ◌≢◌, map, IfOk, OnOk, MatchOption};
ghost use Rattle.clap.specs.Words.{found_of, kind_of, rows_of, subcommand_rows_of};
ghost use Rattle.cmh_command.specs.CommandLine.{HasBadWorkers, HasWorkers, IsAnalysis, IsCommand, HasCommand, IsOfKind, IsRequest, IsTracing};
ghost use Rattle.cmh_command.specs.Plain.{IsRefusal, IsRefusedPlainly};
ghost use Rattle.clap.specs.declared.error.kind.ErrorKind.TheVariants.{OutOfMemory};

use crate::command::command;
use crate::list::read_number;
use crate::plain::{plain_text, plain_words};
use clap::error::ErrorKind;
use clap::{ArgMatches, Error};
use cmh_memory::{Allocated, Fault, refusal_of};
use std::alloc::Global;
use std::convert::AsStr;

/// The default number of workers.
pub const DEFAULT_WORKERS: u32 = 4;

const BAD_WORKERS: &str = "\
error: invalid value for '--workers <N>': a number has digits alone

For more information, try '--help'.
";

const BAD_WORDS: &str = "\
error: a control character is in no name and no number

For more information, try '--help'.
";

/// How an analysis is to be shared out. Lists of numbers are still as they were written.
#[derive(Drop)]
pub struct PlanArgs<'a> {
    pub workers: u32,
    pub cuts: Option<&'a str>,
    pub choices: &'a str,
}

/// What a command line asks for.
#[derive(Drop)]
pub enum Request<'a> {
    /// To analyse a dump.
    Analyse(PlanArgs<'a>),
    /// To trace the process of this name by these choices.
    Trace { name: &'a str, choices: &'a str },
    /// To print this text.
    Show(String),
    /// Nothing: the command line is refused with this text.
    Refused(String),
}

/// What the arguments ask for, of which the first is the program's name.
pub fn read_args<'a, T: AsStr>(alloc: Global, args: &'a [T]) -> Allocated<Request<'a>>
    ensures request { IfOk result (IsRequest (map T.text args.entry.now)) }
    ensures plain { IfOk result IsRefusedPlainly }
{
    match command(alloc)?.try_get_matches_from(args) {
        Ok(matches) => request_in(alloc, &matches),
        Err(error) => request_of(alloc, args, &error),
    }
}

/// What the matches of the whole command line ask for.
fn request_in<'a>(alloc: Global, matches: &ArgMatches<'a>) -> Allocated<Request<'a>>
    requires command { HasCommand (subcommand_rows_of matches.now) }
    ensures command { IfOk result (IsCommand (subcommand_rows_of matches.now)) }
    ensures plain { IfOk result IsRefusedPlainly }
{
    let Some((name, options)) = matches.subcommand() else {
        unreachable!()
    };
    if name == "trace" {
        return Ok(trace_in(options));
    }
    analysis_in(alloc, options)
}

/// What the matches of the command `analyse` ask for.
fn analysis_in<'a>(alloc: Global, options: &ArgMatches<'a>) -> Allocated<Request<'a>>
    ensures analysis { IfOk result (IsAnalysis (rows_of (found_of options.now))) }
    ensures plain { IfOk result IsRefusedPlainly }
{
    let Some(workers) = read_workers(options) else {
        return refuse(alloc, BAD_WORKERS);
    };
    Ok(Request::Analyse(PlanArgs {
        workers,
        cuts: options.get_str("cuts"),
        choices: options.get_str("choices").unwrap_or(""),
    }))
}

/// The number of workers. `clap` has judged its size, but would take a sign.
#[tactic(auto, using(crate::proofs::Requests::has_default, crate::proofs::Requests::has_number))]
fn read_workers(options: &ArgMatches<'_>) -> Option<u32>
    ensures { MatchOption result (HasBadWorkers (rows_of (found_of options.now)))
        (λ n. HasWorkers n (rows_of (found_of options.now))) }
{
    let Some(text) = options.get_str("workers") else {
        return Some(DEFAULT_WORKERS);
    };
    match read_number(text) {
        Some(n) if n <= u64::from(u32::MAX) => Some(n as u32),
        _ => None,
    }
}

/// What the matches of the command `trace` ask for. `clap` sees to it that there is a name.
fn trace_in<'a>(options: &ArgMatches<'a>) -> Request<'a>
    ensures tracing { IsTracing (rows_of (found_of options.now)) result }
    ensures plain { IsRefusedPlainly result }
{
    Request::Trace {
        name: options.get_str("NAME").unwrap_or(""),
        choices: options.get_str("choices").unwrap_or(""),
    }
}

/// Of which kind the error of `clap` is.
#[derive(Clone, Copy)]
struct Unread {
    kind: ErrorKind,
}

impl Fault for Unread {
    ghost is_refusal = { λ unread. unread.kind ≡ OutOfMemory };
}

/// What an error of `clap` asks to be printed.
fn request_of<'a, T: AsStr>(alloc: Global, args: &'a [T], error: &Error) -> Allocated<Request<'a>>
    ensures kind { IfOk result (λ request. (kind_of error.now ≢ ErrorKind.OutOfMemory)
        × IsOfKind (kind_of error.now) request) }
    ensures plain { IfOk result IsRefusedPlainly }
{
    let text = text_of(alloc, error)?;
    if error.use_stderr() {
        return refuse(alloc, &text_of_refusal(alloc, args)?);
    }
    Ok(Request::Show(text))
}

/// The text of an error of `clap`.
fn text_of(alloc: Global, error: &Error) -> Allocated<String>
    ensures { OnOk result (kind_of error.now ≢ ErrorKind.OutOfMemory) }
{
    if error.kind() == ErrorKind::OutOfMemory {
        return Err(refusal_of(Unread { kind: error.kind() }));
    }
    error.to_string(alloc)
}

/// The text with which `clap` refuses the arguments, where their control characters are written out.
fn text_of_refusal<T: AsStr>(alloc: Global, args: &[T]) -> Allocated<String> {
    let plain = plain_words(alloc, args)?;
    text_of_words(alloc, &plain)
}

/// The text with which `clap` refuses the words, or that of a refusal where it takes them.
fn text_of_words(alloc: Global, words: &[String]) -> Allocated<String> {
    match command(alloc)?.try_get_matches_from(words) {
        Ok(_matches) => String::from_str(alloc, BAD_WORDS),
        Err(error) => text_of(alloc, &error),
    }
}

/// Nothing is asked for, and the command line is refused with this text.
fn refuse<'a>(alloc: Global, text: &str) -> Allocated<Request<'a>>
    ensures refused { IfOk result IsRefusal }
    ensures plain { IfOk result IsRefusedPlainly }
{
    Ok(Request::Refused(plain_text(alloc, text, true)?))
}
