//! How an analysis is shared out.

ghost use Rattle.std.specs.Prelude.{◌≡◌, ◌⊎◌, IfOk, IfErr};
ghost use Rattle.cmh_plan.specs.Plan.{IsAcceptedPlan, IsFirstPlanFault};

use crate::{MAX_CUTS, MAX_WORKERS, PlanFault};
use cmh_run::MAX_CHOICES;
use std::alloc::Global;
use std::marker::Model;

/// How an analysis is shared out: how many workers there are, where the idle processes are cut into chunks, and in
/// which order each run delivers its messages. No plan changes what is found.
#[derive(Debug, Drop)]
pub struct Plan {
    workers: u32,
    cuts: Vec<u64>,
    choices: Vec<u64>,
}

impl Model for Plan {
    ghost use Rattle.cmh_plan.specs.Plan.{PlanValue, IsAcceptedPlan};

    ghost Value = { PlanValue };

    ghost view = { λ p. record {
      workers = p.workers;
      cuts = p.cuts.items;
      choices = p.choices.items;
    } };

    ghost invariant = { λ p. IsAcceptedPlan record {
      workers = p.workers;
      cuts = p.cuts.items;
      choices = p.choices.items;
    } };
}

impl PartialEq for Plan {
    ghost use Rattle.std.specs.Prelude.{◌==◌};
    ghost use Rattle.std.specs.Ordering.{on, eq_of_both};
    ghost use Rattle.std.specs.Cmp.Rules.{comparing};
    ghost use Rattle.std.proofs.Common.{rules};
    ghost use lib.Pointwise.{pointwise};

    ghost eq = { eq_of_both (on (λ p. p.workers) ◌==◌) (eq_of_both
        (on (λ p. p.cuts) (pointwise ◌==◌))
        (on (λ p. p.choices) (pointwise ◌==◌))) };

    ghost laws = { Prim.search (comparing, rules) depth 9 };

    fn eq(&self, other: &Plan) -> bool {
        let same_workers = self.workers == other.workers;
        same_workers && self.cuts == other.cuts && self.choices == other.choices
    }
}

impl Plan {
    /// Each cut in order takes that many initiators off the front, or all that are left. The rest, which may be empty,
    /// is the last chunk. Delivery `t` of each run takes the undelivered message at place `choices[t]`, modulo how many
    /// there are. Past the last choice it takes the first.
    ///
    /// # Errors
    ///
    /// `BadWorkers`, `TooManyCuts` and `TooManyChoices`, in this order, and `Memory`.
    pub fn new(
        alloc: Global,
        workers: u32,
        cuts: &[u64],
        choices: &[u64],
    ) -> Result<Plan, PlanFault>
        ensures ok { IfOk result (λ p.
            p ≡ record { workers = workers; cuts = cuts.now; choices = choices.now }) }
        ensures accepted { IfOk result IsAcceptedPlan }
        ensures fault { IfErr result (λ e. (e ≡ PlanFault.Memory) ⊎ IsFirstPlanFault
            record { workers = workers; cuts = cuts.now; choices = choices.now } e) }
    {
        if workers == 0 || workers > MAX_WORKERS {
            return Err(PlanFault::BadWorkers);
        }
        if cuts.len() > MAX_CUTS {
            return Err(PlanFault::TooManyCuts);
        }
        if choices.len() > MAX_CHOICES {
            return Err(PlanFault::TooManyChoices);
        }
        let cuts = Vec::from_slice(alloc, cuts)?;
        let choices = Vec::from_slice(alloc, choices)?;
        Ok(Plan {
            workers,
            cuts,
            choices,
        })
    }

    /// How many workers share the analysis, from 1 to `MAX_WORKERS`.
    pub fn workers(&self) -> u32
        ensures count { result ≡ self.now.workers }
        ensures accepted { IsAcceptedPlan self.now }
    {
        self.workers
    }

    /// How many initiators each chunk takes, but for the last, which has the rest.
    pub fn cuts(&self) -> &[u64]
        ensures cuts { result.now ≡ self.now.cuts }
        ensures accepted { IsAcceptedPlan self.now }
    {
        &self.cuts
    }

    /// Which undelivered message each delivery of a run takes. Past the end it is the oldest.
    pub fn choices(&self) -> &[u64]
        ensures choices { result.now ≡ self.now.choices }
        ensures accepted { IsAcceptedPlan self.now }
    {
        &self.choices
    }
}
