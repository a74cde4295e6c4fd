//! What a worker calls before it turns to an initiator.

/// A worker calls it with each initiator just before it turns to that, in its own thread. It may keep the worker
/// waiting.
pub trait Gate: Sync {
    fn pass(&self, initiator: u32);
}

/// Keeps no worker waiting.
#[derive(Clone, Copy, PartialEq, Eq, Hash, Debug)]
pub struct NoGate;

impl Gate for NoGate {
    fn pass(&self, _initiator: u32) {}
}
