//! Workers that share the initiators of an analysis, and what they find of each.
#![tactic(auto)]

mod analysis;
mod chunks;
mod fault;
mod finding;
mod gate;
mod job;
pub mod laws;
mod leaders;
mod number;
mod record;
mod shapes;
mod worker;
mod workers;

pub use analysis::{analyse, analyse_with};
pub use cmh_board::Row;
pub use cmh_plan::{MAX_CUTS, MAX_WORKERS, Plan, PlanFault, TicketSeat, Tickets};
pub use fault::WorkFault;
pub use gate::{Gate, NoGate};
pub use record::{Analysis, Origin, Record, Shape};
