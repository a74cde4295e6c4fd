//! The command line: its rules, as `clap` takes them, what it then asks for, and the lists of numbers that stand in it.
#![tactic(auto)]

mod command;
mod list;
mod plain;
mod request;
#[cfg(test)]
mod tests;

use cmh_run::MAX_CHOICES;
pub use list::{ListFault, read_list};
pub use request::{DEFAULT_WORKERS, PlanArgs, Request, read_args};

/// The most numbers that a list may have. So too many choices are reported as a fault of their list.
pub const MAX_NUMBERS: usize = MAX_CHOICES;
