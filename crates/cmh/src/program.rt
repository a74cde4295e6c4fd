//! The whole program as one call: words and streams in, a status out.

ghost use Rattle.std.specs.Prelude.{◌≡◌, ◌⊎◌, ◌++◌, ℕ, map, take, true};
ghost use Rattle.cmh.specs.Status.{IsOutcome};
ghost use Rattle.cmh_command.specs.CommandLine.{IsRequest};
ghost use Rattle.cmh_command.specs.declared.request.Request.{Request};
ghost use Rattle.cmh_command.specs.declared.request.Request.TheVariants.{Analyse, Trace};
ghost use Rattle.cmh.specs.declared.status.TheConstants.{FREE, DEADLOCKED, FAILED};

use crate::plan::{read_numbers, read_plan};
use crate::status::{DEADLOCKED, FREE, MISUSED};
use crate::tell::{fail, refuse_memory, tell};
use cmh_command::{PlanArgs, Request, read_args};
use cmh_report::{AppFault, analyse_bytes, trace_bytes};
use cmh_stream::{Sink, Source, put_all};
use cmh_work::NoGate;
use std::alloc::Global;
use std::convert::AsStr;
use std::sync::Wait;
use std::thread::Threads;

/// The command `analyse`. The plan is read before the dump.
#[tactic(auto, using(crate::proofs::Outcomes::misplanned, crate::proofs::Outcomes::nothing_deadlocked, crate::proofs::Outcomes::something_deadlocked, crate::proofs::Outcomes::analysis_failed))]
fn analyse<R: Threads + Wait + Sync, S: Source, O: Sink, E: Sink>(
    rt: &R,
    alloc: Global,
    args: &PlanArgs,
    source: &mut S,
    out: &mut O,
    err: &mut E,
) -> u8
    ensures outcome { IsOutcome (Analyse args.now) result record {
      source_old = S.state source.old;
      source_new = S.state source.new;
      out_old = O.state out.old;
      out_new = O.state out.new;
    } }
    ensures quiet { (result ≡ FREE) ⊎ (result ≡ DEADLOCKED)
        → (E.state err.new).taken ≡ (E.state err.old).taken }
{
    let plan = match read_plan(alloc, args, err) {
        Ok(plan) => plan,
        Err(status) => return status,
    };
    match analyse_bytes(rt, alloc, source, out, &plan, &NoGate) {
        Ok(0) => FREE,
        Ok(_) => DEADLOCKED,
        Err(fault) => fail(&fault, err),
    }
}

/// The command `trace`. The list of choices is read before the dump.
#[tactic(auto, using(crate::proofs::Outcomes::mislisted, crate::proofs::Outcomes::traced, crate::proofs::Outcomes::trace_failed))]
fn trace<S: Source, O: Sink, E: Sink>(
    alloc: Global,
    name: &str,
    list: &str,
    source: &mut S,
    out: &mut O,
    err: &mut E,
) -> u8
    ensures outcome { IsOutcome (Trace name.entry list.entry) result record {
      source_old = S.state source.old;
      source_new = S.state source.new;
      out_old = O.state out.old;
      out_new = O.state out.new;
    } }
    ensures quiet { result ≡ FREE → (E.state err.new).taken ≡ (E.state err.old).taken }
{
    let choices = match read_numbers(alloc, "choices", list, err) {
        Ok(choices) => choices,
        Err(status) => return status,
    };
    match trace_bytes(alloc, source, out, name, &choices) {
        Ok(_) => FREE,
        Err(fault) => fail(&fault, err),
    }
}

/// Writes a text that was asked for.
fn show<O: Sink, E: Sink>(text: &str, out: &mut O, err: &mut E) -> u8
    ensures shown { (result ≡ FREE) ⊎ (result ≡ FAILED) }
    ensures text { result ≡ FREE → (O.state out.new).taken ≡ (O.state out.old).taken ++ text.now }
    ensures handed_on { result ≡ FREE → (O.state out.new).is_finished ≡ true }
    ensures prefix { result ≡ FAILED → ((O.state out.new).has_failed ≡ true) × ((written : ℕ)
        × ((O.state out.new).taken ≡ (O.state out.old).taken ++ take written text.now)) }
    ensures quiet { result ≡ FREE → (E.state err.new).taken ≡ (E.state err.old).taken }
{
    match put_all(out, text.as_bytes()) {
        Ok(()) => FREE,
        Err(fault) => fail(&AppFault::from(fault), err),
    }
}

/// Does what the words ask for, of which the first is the program's name, and answers the status of the program:
///
/// - 0: no process is deadlocked, a process was traced, or a text was asked for
/// - 1: the dump is refused
/// - 2: the words, a list or a plan are refused, or the name is of no idle process of the dump
/// - 3: some process is deadlocked
/// - 4: memory is refused, or a device fails
///
/// Lists and plan are read before the dump. A fault is reported on `err` in one line. Where `err` fails, the status
/// stays. An analysis waits for its workers.
#[tactic(auto, using(crate::proofs::Outcomes::requested, crate::proofs::Outcomes::refused_words, crate::proofs::Outcomes::shown))]
pub fn serve<R: Threads + Wait + Sync, T: AsStr, S: Source, O: Sink, E: Sink>(
    rt: &R,
    alloc: Global,
    words: &[T],
    source: &mut S,
    out: &mut O,
    err: &mut E,
) -> u8
    // There may be no memory to read the words: then nothing else was done.
    ensures outcome { ((request : Request) × IsRequest (map T.text words.now) request
        × IsOutcome request result record {
          source_old = S.state source.old;
          source_new = S.state source.new;
          out_old = O.state out.old;
          out_new = O.state out.new;
        }) ⊎ ((result ≡ FAILED) × ((S.state source.new).given ≡ (S.state source.old).given)
        × ((O.state out.new).taken ≡ (O.state out.old).taken)) }
    ensures quiet { (result ≡ FREE) ⊎ (result ≡ DEADLOCKED)
        → (E.state err.new).taken ≡ (E.state err.old).taken }
{
    match read_args(alloc, words) {
        Ok(Request::Analyse(args)) => analyse(rt, alloc, &args, source, out, err),
        Ok(Request::Trace { name, choices }) => trace(alloc, name, choices, source, out, err),
        Ok(Request::Show(text)) => show(&text, out, err),
        Ok(Request::Refused(text)) => {
            tell(&text, err);
            MISUSED
        }
        Err(_) => refuse_memory(err),
    }
}
