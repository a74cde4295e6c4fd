//! Why there is no analysis.

ghost use Rattle.std.specs.Prelude.{◌≡◌};
ghost use Rattle.cmh_work.specs.declared.fault.WorkFault.TheVariants as work;

use cmh_memory::Refusal;
use std::alloc::AllocFailed;
use std::error::Error;
use std::fmt;

/// Why there is no analysis.
#[derive(Clone, Copy, PartialEq, Eq, Hash, Debug)]
pub enum WorkFault {
    /// Memory was refused.
    Memory,
    /// A worker was lost. The call that starts and joins workers continues in the thread of its caller where no other
    /// can be had, so none is lost today.
    WorkerLost,
}

impl fmt::Display for WorkFault {
    ghost use Rattle.std.specs.Prelude.{Some};
    ghost use Rattle.cmh_work.specs.Fault.{work_fault_text};

    ghost output = { λ e. Some (work_fault_text e) };

    fn fmt<W: fmt::Write>(&self, f: &mut fmt::Formatter<W>) -> fmt::Result {
        match self {
            WorkFault::Memory => write!(f, "out of memory"),
            WorkFault::WorkerLost => write!(f, "worker lost"),
        }
    }
}

impl Error for WorkFault {}

impl From<Refusal> for WorkFault {
    ghost from_gives = { λ _ e. e ≡ work.Memory };

    fn from(_e: Refusal) -> WorkFault {
        WorkFault::Memory
    }
}

impl<T: Drop> From<AllocFailed<T>> for WorkFault {
    ghost from_gives = { λ _ e. e ≡ work.Memory };

    fn from(_e: AllocFailed<T>) -> WorkFault {
        WorkFault::Memory
    }
}
