//! The devices at the two ends of a program: a source gives its bytes, and a sink takes its answer.
#![tactic(auto)]

mod noted_reader;
mod noted_writer;
mod pieces;
mod put;
mod read_of;
mod sink;
mod source;
mod stopped;
mod tape;
mod write_of;

pub use pieces::Pieces;
pub use put::{WriteFault, put_all, put_pieces};
pub use read_of::ReadOf;
pub use sink::Sink;
pub use source::Source;
pub use stopped::Stopped;
pub use write_of::WriteOf;
