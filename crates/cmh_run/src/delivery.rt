//! What a run is made of: deliveries, and an ending.

use cmh_graph::Verdict;
use cmh_process::Message;

/// A message that was delivered, and the hint about its receiver, if one was asked for and given.
#[derive(Clone, Copy, PartialEq, Eq, Hash, Debug)]
pub struct Delivery {
    pub message: Message,
    pub hint: Option<Verdict>,
}

/// How a run ended.
#[derive(Clone, Copy, PartialEq, Eq, Hash, Debug)]
pub enum Ending {
    /// The initiator has all its replies: it is deadlocked.
    Declared,
    /// Nothing is left to deliver: the initiator is free.
    AtRest,
    /// This process, which the initiator reaches, is known to be free, so the initiator is too.
    CutFree(u32),
}
