//! A reader and writer lock over atomic words, and under it a history of verdicts that only grows.
//!
//! Word 0 is the lock: `WRITER` while a seat writes, plus the number of seats that read or retreat. Word `ROW_COUNT`
//! has the number of rows in the history. The words from `FIRST_ROW` on are the rows, and those from `FIRST_VERDICT` on
//! the verdicts by process. A thread steps on the words with a seat, and the view of the seat is what the thread knows.
#![tactic(auto)]

mod fault;
pub mod laws;
mod machine;
mod row;
mod rule;
mod view;
mod words;

use cmh_graph::MAX_PROCESSES;
pub use fault::RwFault;
pub use machine::{Event, LockWorld, SeatState, run_events};
pub use row::{Row, verdict_from_code};
pub use view::{LockView, View};
pub use words::{Closed, Entry, RwSeat, RwWords};

/// What the lock word counts a writer as.
pub const WRITER: u64 = 4_294_967_296;

/// The most seats that a lock may have.
pub const MAX_SEATS: u32 = 64;

/// The word that counts the rows.
pub const ROW_COUNT: usize = 1;

/// The word of the first row.
pub const FIRST_ROW: usize = 2;

/// The word of the verdict on process 0.
pub const FIRST_VERDICT: usize = FIRST_ROW + MAX_PROCESSES;

/// The number of words.
pub const BOARD_WORDS: usize = FIRST_VERDICT + MAX_PROCESSES;
