//! Why there is no plan.

ghost use Rattle.std.specs.Prelude.{◌≡◌};
ghost use Rattle.cmh_plan.specs.declared.fault.PlanFault.TheVariants.{Memory};

use cmh_memory::{Fault, Refusal};
use std::error::Error;
use std::fmt;

/// Why there is no plan.
#[derive(Clone, Copy, PartialEq, Eq, Hash, Debug)]
pub enum PlanFault {
    /// There is no worker, or there are more than `MAX_WORKERS`.
    BadWorkers,
    /// There are more than `MAX_CUTS` cuts.
    TooManyCuts,
    /// There are more choices than a run may be given.
    TooManyChoices,
    /// Memory was refused.
    Memory,
}

impl fmt::Display for PlanFault {
    ghost use Rattle.std.specs.Prelude.{Some};
    ghost use Rattle.cmh_plan.specs.Fault.{plan_fault_text};

    ghost output = { λ e. Some (plan_fault_text e) };

    fn fmt<W: fmt::Write>(&self, f: &mut fmt::Formatter<W>) -> fmt::Result {
        match self {
            PlanFault::BadWorkers => write!(f, "bad workers"),
            PlanFault::TooManyCuts => write!(f, "too many cuts"),
            PlanFault::TooManyChoices => write!(f, "too many choices"),
            PlanFault::Memory => write!(f, "out of memory"),
        }
    }
}

impl Error for PlanFault {}

impl Fault for PlanFault {
    ghost is_refusal = { λ e. e ≡ Memory };
}

impl From<Refusal> for PlanFault {
    ghost from_gives = { λ _ e. e ≡ Memory };

    fn from(_e: Refusal) -> PlanFault {
        PlanFault::Memory
    }
}
