//! From a dump to a report or a trace, as bytes in and bytes out.
#![tactic(auto)]

mod analyse;
mod fault;
mod input;
pub mod laws;
mod records;
mod text;
mod trace;

pub use analyse::analyse_bytes;
pub use cmh_stream::{ReadOf, Sink, Source, Stopped, WriteOf};
pub use fault::{AppFault, ReportFault};
pub use text::report;
pub use trace::trace_bytes;
