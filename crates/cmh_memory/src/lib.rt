//! Growth, and what says that it was refused.
//!
//! Where a call answers that it is out of memory, the allocator has refused a growth, and not one of more than was
//! needed. So a crate names no error of the allocator itself, and asks for no room but here.
#![tactic(auto)]

mod growth;
mod refusal;

pub use growth::{ENDS, Need, copies, make_place, prepare_queue, prepare_text, room};
pub use refusal::{Allocated, Fault, Refusal, joined_len, refusal_of};
