//! How an analysis is shared out: plans, and the tickets by which workers draw its chunks.
#![tactic(auto)]

mod fault;
pub mod laws;
mod plan;
mod ticket_rule;
mod tickets;

pub use fault::PlanFault;
pub use plan::Plan;
pub use tickets::{TicketSeat, Tickets};

/// The most workers of a plan, and the most seats of anything that they share.
pub const MAX_WORKERS: u32 = 64;

/// The most cuts of a plan.
pub const MAX_CUTS: usize = 512;
