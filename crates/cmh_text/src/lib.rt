//! The text of a report: its lines, by the wait graph and by a summary of each process.
#![tactic(auto)]

mod backward_text;
mod chunks;
mod group_lines;
mod groups;
mod leader_reach;
mod lines;
mod names;
mod outline;
mod parallel;
mod paths;
mod process_lines;
mod shared_reach;
mod sites;
mod summary;
mod text;

pub use outline::Outline;
pub use summary::Summary;
pub use text::text_of;
