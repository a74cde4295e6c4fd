//! The statuses with which the program ends.

ghost use Rattle.std.specs.Prelude.{◌≡◌};
ghost use Rattle.cmh.specs.Status.{status_of, status_of_list, status_of_plan};

use cmh_command::ListFault;
use cmh_dump::DumpFault;
use cmh_plan::PlanFault;
use cmh_report::AppFault;
use cmh_run::RunFault;

/// No process is deadlocked, or what was asked for is printed.
pub(crate) const FREE: u8 = 0;

/// The dump is refused.
pub(crate) const REFUSED: u8 = 1;

/// The words of the command line are refused, or name no idle process of the dump.
pub(crate) const MISUSED: u8 = 2;

/// Some process is deadlocked.
pub(crate) const DEADLOCKED: u8 = 3;

/// Memory was refused, or a device has failed.
pub(crate) const FAILED: u8 = 4;

/// The status after a fault.
pub(crate) fn status_of(fault: &AppFault) -> u8
    ensures { result ≡ status_of fault.now }
{
    match fault {
        AppFault::Dump(DumpFault::Memory | DumpFault::ReadFault) => FAILED,
        AppFault::Dump(_) => REFUSED,
        AppFault::Run(RunFault::Memory) => FAILED,
        AppFault::NoSuchProcess | AppFault::Run(_) => MISUSED,
        AppFault::Work(_) | AppFault::Report(_) | AppFault::WriteFault(_) => FAILED,
    }
}

/// The status after a fault of a list.
pub(crate) fn status_of_list(fault: &ListFault) -> u8
    ensures { result ≡ status_of_list fault.now }
{
    match fault {
        ListFault::Memory => FAILED,
        ListFault::BadNumber(_) | ListFault::TooManyNumbers => MISUSED,
    }
}

/// The status after a fault of a plan.
pub(crate) fn status_of_plan(fault: &PlanFault) -> u8
    ensures { result ≡ status_of_plan fault.now }
{
    match fault {
        PlanFault::Memory => FAILED,
        PlanFault::BadWorkers | PlanFault::TooManyCuts | PlanFault::TooManyChoices => MISUSED,
    }
}
