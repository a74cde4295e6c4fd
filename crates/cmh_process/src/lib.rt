//! What one process does in a query computation.
//!
//! The computation is that of K. M. Chandy, J. Misra and L. M. Haas, "Distributed Deadlock Detection", ACM TOCS 1(2),
//! 1983, in their communication model. An initiator asks the processes of its dependent set whether they can still
//! send. A process that is asked for the first time asks its own dependents, and replies once all of them have. An
//! initiator that has all its replies is deadlocked.
#![tactic(auto)]

pub mod laws;
mod message;
mod process;

pub use message::{Kind, Message};
pub use process::{Action, Proc};
