//! Why there is no lock.

ghost use Rattle.std.specs.Prelude.{◌≡◌};
ghost use Rattle.cmh_rw.specs.declared.fault.RwFault.TheVariants.{Memory};

use cmh_memory::{Fault, Refusal};
use std::alloc::AllocFailed;
use std::error::Error;
use std::fmt;

/// Why there is no lock.
#[derive(Clone, Copy, PartialEq, Eq, Hash, Debug)]
pub enum RwFault {
    /// There is no seat, or there are more than `MAX_SEATS`.
    BadSeats,
    /// Memory was refused.
    Memory,
}

impl fmt::Display for RwFault {
    ghost use Rattle.std.specs.Prelude.{Some};
    ghost use Rattle.cmh_rw.specs.Fault.{rw_fault_text};

    ghost output = { λ e. Some (rw_fault_text e) };

    fn fmt<W: fmt::Write>(&self, f: &mut fmt::Formatter<W>) -> fmt::Result {
        match self {
            RwFault::BadSeats => write!(f, "bad number of seats"),
            RwFault::Memory => write!(f, "out of memory"),
        }
    }
}

impl Error for RwFault {}

impl Fault for RwFault {
    ghost is_refusal = { λ e. e ≡ Memory };
}

impl From<Refusal> for RwFault {
    ghost from_gives = { λ _ e. e ≡ Memory };

    fn from(_e: Refusal) -> RwFault {
        RwFault::Memory
    }
}

impl<T: Drop> From<AllocFailed<T>> for RwFault {
    ghost from_gives = { λ _ e. e ≡ Memory };

    fn from(_e: AllocFailed<T>) -> RwFault {
        RwFault::Memory
    }
}
