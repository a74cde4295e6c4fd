//! The wait graph of a stalled message-passing program, and what it says of deadlock.
//!
//! A blocked process continues as soon as any one process of its dependent set sends to it. That is the communication
//! model of K. M. Chandy, J. Misra and L. M. Haas, "Distributed Deadlock Detection", ACM TOCS 1(2), 1983.
#![tactic(auto)]

mod fault;
mod graph;
mod judge;
pub mod laws;
mod part;
mod predecessors;
mod search;
mod verdict;

pub use fault::GraphFault;
pub use graph::WaitGraph;
pub use judge::{first_active_with_dependents, first_repeated_dependent, has_too_many_dependents};
pub use part::{Part, State};
pub use predecessors::Predecessors;
pub use search::marked_indices;
pub use verdict::Verdict;

/// The most processes that a graph may have.
pub const MAX_PROCESSES: usize = 4_096;

/// The most dependents that all dependent sets may have together.
pub const MAX_DEPENDENCIES: usize = 65_536;

/// The most messages that may be in transit.
pub const MAX_IN_TRANSIT: usize = 4_096;
