//! The command line, as `clap` is given it.

ghost use Rattle.std.specs.Prelude.{◌≡◌, Some, true, false, codes, pos, IfOk};
ghost use Rattle.clap.specs.Words.{app_of, new_app, new_rule, rule_of, with_subcommand};
ghost use Rattle.clap.specs.declared.builder.command.Command.TheViews.{out-Command};
ghost use Rattle.clap.specs.declared.builder.value_parser.ValueParser.TheVariants.{Signed};
ghost use Rattle.cmh_command.specs.CommandLine.{analyse_app, option_rule, program, top_app, trace_app};

use clap::{Arg, Command, value_parser};
use cmh_memory::Allocated;
use cmh_plan::MAX_WORKERS;
use std::alloc::Global;

const AFTER_HELP: &str = "\
Examples:
  cmh analyse < dump.json
  cmh trace NAME < dump.json

Exit status:
  0  no process is deadlocked, or the trace was made
  1  the dump is refused
  2  the command line is refused, or NAME is no idle process of the dump
  3  some process is deadlocked
  4  out of memory, or an I/O error

The dump is one JSON text on standard input, read up to its end.
In the documents of cmh, BY-HAND.md says how to write one, and FORMATS.md what is read
and printed. Installed, they are in share/doc/cmh, beside bin.";

const ABOUT: &str =
    "Finds the processes of a stalled message-passing program that can never continue";

const ABOUT_ANALYSE: &str =
    "Reads a dump from standard input and says which idle processes are deadlocked";

const ABOUT_TRACE: &str =
    "Reads a dump from standard input and prints the queries and replies of one process";

const AFTER_ANALYSE: &str = "\
None of these options changes a byte of the report.
For a large dump try --workers 64, and cuts of a 64th of the idle processes each.

Examples:
  cmh analyse < dump.json
  cmh analyse --workers 64 --cuts 64,64,64 < dump.json

Exit status: 0 no process is deadlocked, 3 some process is; 1 the dump is refused,
2 the command line is, 4 out of memory or an I/O error.

In the documents of cmh, BY-HAND.md says how to write a dump, and FORMATS.md how to read
the report.";

const AFTER_TRACE: &str = "\
Examples:
  cmh trace NAME < dump.json
  cmh trace NAME --choices 1,0,2 < dump.json

Exit status: 0 the trace was made; 1 the dump is refused, 2 the command line is, or
NAME is no idle process of the dump, 4 out of memory or an I/O error.

In the documents of cmh, BY-HAND.md says how to write a dump, and FORMATS.md how to read
the trace.";

/// The whole command line.
pub(crate) fn command<'a>(alloc: Global) -> Allocated<Command<'a>>
    ensures app { IfOk result (λ c. app_of c ≡ program) }
    ensures required { IfOk result (λ c. (out-Command c).subcommand_required ≡ true) }
    ensures local { IfOk result (λ c. (out-Command c).has_globals ≡ false) }
{
    let command = with_analyse(alloc)?;
    let trace = trace_command(alloc)?;
    command.subcommand(trace)
}

/// The command line, as yet without the command `trace`.
fn with_analyse<'a>(alloc: Global) -> Allocated<Command<'a>>
    ensures app { IfOk result (λ c. app_of c ≡ with_subcommand top_app analyse_app.top) }
    ensures local { IfOk result (λ c. (out-Command c).has_globals ≡ false) }
{
    let analyse = analyse_command(alloc)?;
    describe(top_command(alloc), ABOUT, AFTER_HELP).subcommand(analyse)
}

fn top_command<'a>(alloc: Global) -> Command<'a>
    ensures app { app_of result ≡ top_app }
    ensures required { (out-Command result).subcommand_required ≡ true }
    ensures local { (out-Command result).has_globals ≡ false }
{
    Command::new(alloc, "cmh")
        .version("1.2.0")
        .subcommand_required(true)
        .disable_help_subcommand(true)
}

/// The command with what the help says of it.
fn describe<'a>(command: Command<'a>, about: &'a str, after: &'a str) -> Command<'a>
    ensures app { app_of result ≡ app_of command.entry }
    ensures required { (out-Command result).subcommand_required
        ≡ (out-Command command.entry).subcommand_required }
    ensures local { (out-Command result).has_globals ≡ (out-Command command.entry).has_globals }
{
    command.about(about).after_help(after)
}

/// A command with its name and how it is called, and no option yet.
fn subcommand<'a>(alloc: Global, name: &'a str, usage: &'a str) -> Command<'a>
    ensures app { app_of result ≡ new_app name.entry.now }
    ensures local { (out-Command result).has_globals ≡ false }
{
    Command::new(alloc, name).override_usage(usage)
}

fn analyse_command<'a>(alloc: Global) -> Allocated<Command<'a>>
    ensures app { IfOk result (λ c. app_of c ≡ analyse_app) }
    ensures local { IfOk result (λ c. (out-Command c).has_globals ≡ false) }
{
    let cuts = "How many idle processes each chunk takes: comma-separated numbers";
    let command = subcommand(alloc, "analyse", "cmh analyse [OPTIONS] < DUMP");
    describe(command, ABOUT_ANALYSE, AFTER_ANALYSE)
        .arg(workers_option(alloc))?
        .arg(list_option(alloc, "cuts", cuts))?
        .arg(choices_option(alloc))
}

fn trace_command<'a>(alloc: Global) -> Allocated<Command<'a>>
    ensures app { IfOk result (λ c. app_of c ≡ trace_app) }
    ensures local { IfOk result (λ c. (out-Command c).has_globals ≡ false) }
{
    let command = subcommand(alloc, "trace", "cmh trace [OPTIONS] NAME < DUMP");
    describe(command, ABOUT_TRACE, AFTER_TRACE)
        .arg(name_argument(alloc))?
        .arg(choices_option(alloc))
}

fn name_argument<'a>(alloc: Global) -> Arg<'a>
    ensures rule { rule_of result ≡ record (new_rule (codes "NAME")) { required = true } }
    ensures local { result.global ≡ false }
{
    Arg::new(alloc, "NAME")
        .required(true)
        .help("The idle process that asks")
}

fn workers_option<'a>(alloc: Global) -> Arg<'a>
    ensures rule { rule_of result ≡ record (option_rule (codes "workers"))
        { parser = Some (Signed (pos 1) (pos MAX_WORKERS)) } }
    ensures local { result.global ≡ false }
{
    Arg::new(alloc, "workers")
        .long("workers")
        .value_name("N")
        .value_parser(value_parser!(u32).range(1..=i64::from(MAX_WORKERS)))
        .help("How many workers share the idle processes, 1 to 64; the default is 4")
}

fn choices_option<'a>(alloc: Global) -> Arg<'a>
    ensures rule { rule_of result ≡ option_rule (codes "choices") }
    ensures local { result.global ≡ false }
{
    let help = "Which undelivered message comes next, by its place: comma-separated numbers";
    list_option(alloc, "choices", help)
}

/// An option that takes a list of numbers.
fn list_option<'a>(alloc: Global, name: &'a str, help: &'a str) -> Arg<'a>
    ensures rule { rule_of result ≡ option_rule name.entry.now }
    ensures local { result.global ≡ false }
{
    Arg::new(alloc, name)
        .long(name)
        .value_name("LIST")
        .help(help)
}
