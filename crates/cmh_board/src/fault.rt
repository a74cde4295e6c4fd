//! Why the board gave no answer.

ghost use Rattle.std.specs.Prelude.{◌≡◌};
ghost use Rattle.cmh_board.specs.declared.fault.BoardFault.TheVariants.{Memory};

use cmh_memory::{Fault, Refusal};
use std::error::Error;
use std::fmt;

/// Why the board gave no answer.
#[derive(Clone, Copy, PartialEq, Eq, Hash, Debug)]
pub enum BoardFault {
    /// Another seat was posting: the lock word that was found.
    Busy(u64),
    /// Memory was refused. The lock wasn't tried.
    Memory,
}

impl fmt::Display for BoardFault {
    ghost use Rattle.std.specs.Prelude.{Some};
    ghost use Rattle.cmh_board.specs.Fault.{board_fault_text};

    ghost output = { λ e. Some (board_fault_text e) };

    fn fmt<W: fmt::Write>(&self, f: &mut fmt::Formatter<W>) -> fmt::Result {
        match self {
            BoardFault::Busy(found) => write!(f, "busy at lock word {found}"),
            BoardFault::Memory => write!(f, "out of memory"),
        }
    }
}

impl Error for BoardFault {}

impl Fault for BoardFault {
    ghost is_refusal = { λ e. e ≡ Memory };
}

impl From<Refusal> for BoardFault {
    ghost from_gives = { λ _ e. e ≡ Memory };

    fn from(_e: Refusal) -> BoardFault {
        BoardFault::Memory
    }
}
