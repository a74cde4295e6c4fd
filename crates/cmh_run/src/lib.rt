//! Whole runs of one initiator over a wait graph, by queries and replies in any order of delivery.
//!
//! The computation is that of K. M. Chandy, J. Misra and L. M. Haas, "Distributed Deadlock Detection", ACM TOCS 1(2),
//! 1983, in their communication model.
#![tactic(auto)]

mod bag;
mod check;
mod checker;
mod delivery;
mod fault;
mod hints;
pub mod laws;
mod list;
mod log;
mod network;
mod pending;
mod procs;
mod progress;
mod run_log;
mod runner;
mod runs;
mod scripted;
mod send;
mod tape;
mod truth;
mod undelivered;

pub use bag::Bag;
pub use check::check_run;
pub use delivery::{Delivery, Ending};
pub use fault::{CheckFault, RunFault, ScriptFault};
pub use hints::{Hints, NoHints};
pub use list::{BriefList, ProcessList};
pub use log::{Log, NoLog};
pub use run_log::RunLog;
pub use runner::Runner;
pub use runs::{run, run_again};
pub use scripted::Scripted;

/// The most choices that a run may be given.
pub const MAX_CHOICES: usize = 65_536;

/// The most restarts that a run may be given.
pub const MAX_RESTARTS: usize = 16;
