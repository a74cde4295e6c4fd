//! Dumps of stalled message-passing programs: the bytes of a source, and the wait graph that they mean.
#![tactic(auto)]

mod dump;
mod entry;
mod fault;
mod index;
mod judge;
pub mod laws;
mod names;
mod parts;
mod source;
mod transit;
mod tree;

pub use cmh_stream::{ReadOf, Source, Stopped};
pub use dump::read_dump;
pub use fault::DumpFault;
pub use source::read_all;

/// The most bytes that a dump may have.
pub const MAX_BYTES: usize = 8_388_608;

/// The most sites that a dump may have.
pub const MAX_SITES: usize = 4_096;

/// The most bytes that a name may have.
pub const MAX_NAME: usize = 64;
