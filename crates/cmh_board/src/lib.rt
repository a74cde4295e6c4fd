//! The board of verdicts: on it the workers that analyse one wait graph share which processes are deadlocked or free.
//!
//! A posting is what one run says, and comes onto the board whole. No process is posted twice, and each verdict is
//! true, so a worker may take it for its own. The board is the history under the lock of `cmh_rw`. A call that finds it
//! locked says so at once: no call waits but `post`.
#![tactic(auto)]

mod board;
mod fault;
mod hints;
mod post;
mod posting;
mod reading;
mod snap;

pub use board::{Board, BoardSeat, Look, Post};
pub use cmh_rw::{Entry, Row};
pub use fault::BoardFault;
pub use hints::BoardHints;
pub use posting::Posting;
pub use snap::Snap;
