//! Queries and replies.

/// A query asks whether its receiver can still send; a reply says that its sender can't.
#[derive(Clone, Copy, PartialEq, Eq, Hash, Debug)]
pub enum Kind {
    Query,
    Reply,
}

/// The paper's query(i, m, j, k) or reply(i, m, k, j): processes are named by their indices in the wait graph.
#[derive(Clone, Copy, PartialEq, Eq, Hash, Debug)]
pub struct Message {
    pub kind: Kind,

    /// The process that started the computation.
    pub initiator: u32,

    /// Which of the initiator's computations it is, from 1.
    pub number: u32,
    pub from: u32,
    pub to: u32,
}
