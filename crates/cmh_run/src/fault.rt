//! Why there is no run, why lines make no script, and why a log is no run.

ghost use Rattle.std.specs.Prelude.{◌≡◌, Some};
ghost use Rattle.cmh_run.specs.Fault.{RunFault, ScriptFault, CheckFault, run_fault_text, script_fault_text, check_fault_text};

use cmh_memory::{Fault, Refusal};
use std::alloc::AllocFailed;
use std::error::Error;
use std::fmt;

/// Why there is no run.
#[derive(Clone, Copy, PartialEq, Eq, Hash, Debug)]
pub enum RunFault {
    /// The initiator is the index of no idle process.
    NotIdle,
    /// There are more than `MAX_CHOICES` choices.
    TooManyChoices,
    /// Memory was refused.
    Memory,
    /// There are more than `MAX_RESTARTS` restarts, or they don't rise.
    BadRestarts,
}

impl fmt::Display for RunFault {
    ghost output = { λ e. Some (run_fault_text e) };

    fn fmt<W: fmt::Write>(&self, f: &mut fmt::Formatter<W>) -> fmt::Result {
        match self {
            RunFault::NotIdle => write!(f, "not idle"),
            RunFault::TooManyChoices => write!(f, "too many choices"),
            RunFault::Memory => write!(f, "out of memory"),
            RunFault::BadRestarts => write!(f, "bad restarts"),
        }
    }
}

impl Error for RunFault {}

impl Fault for RunFault {
    ghost is_refusal = { λ e. e ≡ RunFault.Memory };
}

impl From<Refusal> for RunFault {
    ghost from_gives = { λ _ e. e ≡ RunFault.Memory };

    fn from(_e: Refusal) -> RunFault {
        RunFault::Memory
    }
}

impl<T: Drop> From<AllocFailed<T>> for RunFault {
    ghost from_gives = { λ _ e. e ≡ RunFault.Memory };

    fn from(_e: AllocFailed<T>) -> RunFault {
        RunFault::Memory
    }
}

/// Why lines make no script. A line is named by its place.
#[derive(Clone, Copy, PartialEq, Eq, Hash, Debug)]
pub enum ScriptFault {
    /// This line is about no process of the graph.
    ProcessOutOfRange(usize),
    /// This line isn't true.
    FalseVerdict(usize),
    /// Memory was refused.
    Memory,
}

impl fmt::Display for ScriptFault {
    ghost output = { λ e. Some (script_fault_text e) };

    fn fmt<W: fmt::Write>(&self, f: &mut fmt::Formatter<W>) -> fmt::Result {
        match self {
            ScriptFault::ProcessOutOfRange(i) => write!(f, "process out of range {i}"),
            ScriptFault::FalseVerdict(i) => write!(f, "false verdict {i}"),
            ScriptFault::Memory => write!(f, "out of memory"),
        }
    }
}

impl Error for ScriptFault {}

impl From<Refusal> for ScriptFault {
    ghost from_gives = { λ _ e. e ≡ ScriptFault.Memory };

    fn from(_e: Refusal) -> ScriptFault {
        ScriptFault::Memory
    }
}

/// The first thing that is wrong with a log. A delivery is named by its place.
#[derive(Clone, Copy, PartialEq, Eq, Hash, Debug)]
pub enum CheckFault {
    /// The initiator is the index of no idle process.
    NotIdle,
    /// The message of this delivery is not undelivered.
    NotUndelivered(usize),
    /// This delivery has a hint where none is asked, or one that isn't true.
    FalseHint(usize),
    /// The run had ended before this delivery.
    AfterEnd(usize),
    /// The run could continue.
    NotEnded,
    /// Memory was refused.
    Memory,
}

impl fmt::Display for CheckFault {
    ghost output = { λ e. Some (check_fault_text e) };

    fn fmt<W: fmt::Write>(&self, f: &mut fmt::Formatter<W>) -> fmt::Result {
        match self {
            CheckFault::NotIdle => write!(f, "not idle"),
            CheckFault::NotUndelivered(t) => write!(f, "not undelivered {t}"),
            CheckFault::FalseHint(t) => write!(f, "false hint {t}"),
            CheckFault::AfterEnd(t) => write!(f, "after the end {t}"),
            CheckFault::NotEnded => write!(f, "not ended"),
            CheckFault::Memory => write!(f, "out of memory"),
        }
    }
}

impl Error for CheckFault {}

impl From<Refusal> for CheckFault {
    ghost from_gives = { λ _ e. e ≡ CheckFault.Memory };

    fn from(_e: Refusal) -> CheckFault {
        CheckFault::Memory
    }
}
