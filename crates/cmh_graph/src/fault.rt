//! Why parts make no wait graph.

ghost use Rattle.std.specs.Prelude.{◌≡◌};
ghost use Rattle.cmh_graph.specs.declared.fault.GraphFault.TheVariants.{Memory};

use cmh_memory::{Fault, Refusal};
use std::alloc::AllocFailed;
use std::error::Error;
use std::fmt;

/// Why parts make no wait graph, or why a question to one has no answer. Places count from 0.
#[derive(Clone, Copy, PartialEq, Eq, Hash, Debug)]
pub enum GraphFault {
    /// There are more than `MAX_PROCESSES` parts.
    TooManyProcesses,
    /// The dependent sets have more than `MAX_DEPENDENCIES` dependents together.
    TooManyDependencies,
    /// The dependent at the second place, of the part at the first, names no part.
    DependentOutOfRange(usize, usize),
    /// The dependent at the second place, of the part at the first, equals an earlier one of that part.
    RepeatedDependent(usize, usize),
    /// This part is active and has dependents.
    ActiveWithDependents(usize),
    /// Memory was refused.
    Memory,
    /// There are more than `MAX_IN_TRANSIT` messages in transit.
    TooManyInTransit,
    /// The sender or the receiver of this message in transit is no part.
    TransitOutOfRange(usize),
}

impl fmt::Display for GraphFault {
    ghost use Rattle.std.specs.Prelude.{Some};
    ghost use Rattle.cmh_graph.specs.Fault.{graph_fault_text};

    ghost output = { λ e. Some (graph_fault_text e) };

    fn fmt<W: fmt::Write>(&self, f: &mut fmt::Formatter<W>) -> fmt::Result {
        match self {
            GraphFault::TooManyProcesses => write!(f, "too many processes"),
            GraphFault::TooManyDependencies => write!(f, "too many dependencies"),
            GraphFault::DependentOutOfRange(i, j) => write!(f, "dependent out of range {i} {j}"),
            GraphFault::RepeatedDependent(i, j) => write!(f, "repeated dependent {i} {j}"),
            GraphFault::ActiveWithDependents(i) => write!(f, "active with dependents {i}"),
            GraphFault::Memory => write!(f, "out of memory"),
            GraphFault::TooManyInTransit => write!(f, "too many in transit"),
            GraphFault::TransitOutOfRange(i) => write!(f, "in transit out of range {i}"),
        }
    }
}

impl Error for GraphFault {}

impl Fault for GraphFault {
    ghost is_refusal = { λ e. e ≡ Memory };
}

impl From<Refusal> for GraphFault {
    ghost from_gives = { λ _ e. e ≡ Memory };

    fn from(_e: Refusal) -> GraphFault {
        GraphFault::Memory
    }
}

impl<T: Drop> From<AllocFailed<T>> for GraphFault {
    ghost from_gives = { λ _ e. e ≡ Memory };

    fn from(_e: AllocFailed<T>) -> GraphFault {
        GraphFault::Memory
    }
}
