//! What a seat knows, as contracts see it.

use crate::{Row, SeatState};
use cmh_graph::WaitGraph;
use std::collections::LinkedList;

/// What a seat knows of the lock. It is for contracts alone: no value of it is made.
pub struct LockView {
    /// The graph of the verdicts that the words hold.
    pub graph: WaitGraph,
    pub state: SeatState,
    pub share: u32,
    /// The number of its tries to get the lock.
    pub tries: u64,
    /// The word that the last try found.
    pub found: u64,
}

/// What a seat knows. It is for contracts alone: no value of it is made.
pub struct View {
    pub lock: LockView,
    /// Whether it has loaded a word since it got the lock.
    pub loaded: bool,
    /// The history, as far as the seat has seen it.
    pub seen: LinkedList<Row>,
    /// What another seat had seen that was just joined into this one.
    pub other: LinkedList<Row>,
    /// The rows that it has stored and not yet counted.
    pub staged: LinkedList<Row>,
    /// The verdicts of staged rows that it has stored, as rows that aren't last ones.
    pub told: LinkedList<Row>,
    /// The postings that it has added.
    pub mine: LinkedList<LinkedList<Row>>,
    /// The number of words that it has loaded.
    pub loads: u64,
}
