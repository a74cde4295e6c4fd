//! Why a dump is refused.

ghost use Rattle.std.specs.Prelude.{◌≡◌};
ghost use Rattle.cmh_dump.specs.declared.fault.DumpFault.TheVariants.{Memory};

use cmh_memory::Refusal;
use std::alloc::AllocFailed;
use thiserror::Error;

/// The first condition that refuses a dump, in this order. Places count from 0.
#[derive(Clone, Copy, PartialEq, Eq, Hash, Debug, Error)]
pub enum DumpFault {
    /// Memory was refused. It may come at any growth, before the others.
    #[error("out of memory")]
    Memory,
    /// The source has failed.
    #[error("read fault")]
    ReadFault,
    /// There are more than `MAX_BYTES` bytes.
    #[error("too long")]
    TooLong,
    /// The bytes are no JSON text.
    #[error("not JSON")]
    NotJson,
    /// The text is no object with just the keys of its version, of which `sites`, `processes` and, in version 2,
    /// `in_transit` are arrays.
    #[error("bad top")]
    BadTop,
    /// The version is neither 1 nor 2.
    #[error("bad version")]
    BadVersion,
    /// This element of `sites` is no name.
    #[error("bad site {0}")]
    BadSites(usize),
    /// This element of `sites` equals an earlier one.
    #[error("repeated site {0}")]
    RepeatedSite(usize),
    /// There are more than `MAX_SITES` sites.
    #[error("too many sites")]
    TooManySites,
    /// There are more than `MAX_PROCESSES` processes.
    #[error("too many processes")]
    TooManyProcesses,
    /// This process is not written as it has to be, whatever the others are.
    #[error("bad process {0}")]
    BadProcess(usize),
    /// This process has the name of an earlier one.
    #[error("repeated process {0}")]
    RepeatedProcess(usize),
    /// The site of this process is not in `sites`.
    #[error("unknown site {0}")]
    UnknownSite(usize),
    /// The dependent at the second place, of the process at the first, names no process.
    #[error("unknown dependent {0} {1}")]
    UnknownDependent(usize, usize),
    /// The dependent at the second place, of the process at the first, equals an earlier one of that process.
    #[error("repeated dependent {0} {1}")]
    RepeatedDependent(usize, usize),
    /// This process is active and has dependents.
    #[error("active with dependents {0}")]
    ActiveWithDependents(usize),
    /// The processes have more than `MAX_DEPENDENCIES` dependents together.
    #[error("too many dependencies")]
    TooManyDependencies,
    /// There are more than `MAX_IN_TRANSIT` messages in transit.
    #[error("too many in transit")]
    TooManyInTransit,
    /// This message in transit is no array of two texts.
    #[error("bad in transit {0}")]
    BadInTransit(usize),
    /// The sender or the receiver of this message in transit names no process.
    #[error("unknown in transit {0}")]
    UnknownInTransit(usize),
}

impl From<Refusal> for DumpFault {
    ghost from_gives = { λ _ e. e ≡ Memory };

    fn from(_e: Refusal) -> DumpFault {
        DumpFault::Memory
    }
}

impl<T: Drop> From<AllocFailed<T>> for DumpFault {
    ghost from_gives = { λ _ e. e ≡ Memory };

    fn from(_e: AllocFailed<T>) -> DumpFault {
        DumpFault::Memory
    }
}
