//! The plan that the arguments ask for: its lists, read in order. The default cuts are a list too, so where memory for
//! them is refused, the fault is of `cuts`.

ghost use Rattle.std.specs.Prelude.{◌≡◌, ◌⊎◌, ◌≤◌, length, IfOk, IfErr, MatchOption, OnOk};
ghost use Rattle.cmh_command.specs.List.{IsListOf};
ghost use Rattle.cmh.specs.Status.{AreBadPlanArgs, HasCuts, IsBadList};
ghost use Rattle.cmh.specs.declared.status.TheConstants.{FAILED, MISUSED};
ghost use Rattle.cmh_command.specs.declared.TheConstants.{MAX_NUMBERS};
ghost use Rattle.cmh_plan.specs.declared.TheConstants.{MAX_CUTS};

use crate::tell::{refuse_list, refuse_plan};
use cmh_command::{ListFault, PlanArgs, read_list};
use cmh_memory::{Need, copies};
use cmh_plan::{MAX_CUTS, Plan};
use cmh_stream::Sink;
use std::alloc::Global;

/// The numbers that the list of this option writes, or the status after its fault, which is reported.
#[tactic(auto, using(crate::proofs::Outcomes::list_status))]
pub(crate) fn read_numbers<E: Sink>(
    alloc: Global,
    option: &str,
    list: &str,
    err: &mut E,
) -> Result<Vec<u64>, u8>
    ensures listed { IfOk result (λ numbers. IsListOf list.now numbers.items) }
    ensures few { IfOk result (λ numbers. length numbers.items ≤ MAX_NUMBERS) }
    ensures quiet { OnOk result ((E.state err.new).taken ≡ (E.state err.old).taken) }
    ensures refused { IfErr result (λ status. (status ≡ FAILED)
        ⊎ ((status ≡ MISUSED) × IsBadList list.now)) }
{
    match read_list(alloc, list) {
        Ok(numbers) => Ok(numbers),
        Err(fault) => Err(refuse_list(option, &fault, err)),
    }
}

/// All cuts that a plan may have.
#[derive(Clone, Copy)]
struct EachCut;

impl Need for EachCut {
    ghost needed = { λ _. MAX_CUTS };
}

/// The cuts that are asked for. The default is a chunk for each initiator, up to the most cuts of a plan.
fn read_cuts<E: Sink>(alloc: Global, list: Option<&str>, err: &mut E) -> Result<Vec<u64>, u8>
    ensures cuts { IfOk result (λ cuts. HasCuts list.entry cuts.items) }
    ensures quiet { OnOk result ((E.state err.new).taken ≡ (E.state err.old).taken) }
    ensures refused { IfErr result (λ status. (status ≡ FAILED)
        ⊎ ((status ≡ MISUSED) × MatchOption list.entry ⊥ (λ text. IsBadList text.now))) }
{
    if let Some(list) = list {
        return read_numbers(alloc, "cuts", list, err);
    }
    match copies(alloc, 1, MAX_CUTS, EachCut) {
        Ok(cuts) => Ok(cuts),
        Err(refusal) => Err(refuse_list("cuts", &ListFault::from(refusal), err)),
    }
}

/// The plan that the arguments ask for, or the status after the first fault, which is reported. Cuts are read before
/// choices.
#[tactic(auto, using(crate::proofs::Outcomes::cuts_first, crate::proofs::Outcomes::choices_next, crate::proofs::Outcomes::plan_status))]
pub(crate) fn read_plan<E: Sink>(alloc: Global, args: &PlanArgs, err: &mut E) -> Result<Plan, u8>
    ensures workers { IfOk result (λ plan. plan.workers ≡ args.now.workers) }
    ensures cuts { IfOk result (λ plan. HasCuts args.now.cuts plan.cuts) }
    ensures choices { IfOk result (λ plan. IsListOf args.now.choices.now plan.choices) }
    ensures quiet { OnOk result ((E.state err.new).taken ≡ (E.state err.old).taken) }
    ensures refused { IfErr result (λ status. (status ≡ FAILED)
        ⊎ ((status ≡ MISUSED) × AreBadPlanArgs args.now)) }
{
    let cuts = read_cuts(alloc, args.cuts, err)?;
    let choices = read_numbers(alloc, "choices", args.choices, err)?;
    match Plan::new(alloc, args.workers, &cuts, &choices) {
        Ok(plan) => Ok(plan),
        Err(fault) => Err(refuse_plan(&fault, err)),
    }
}
