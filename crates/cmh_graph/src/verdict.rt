//! Whether a process is deadlocked or free.

/// Whether a process can continue.
#[derive(Clone, Copy, PartialEq, Eq, Hash, Debug)]
pub enum Verdict {
    /// It is idle, and no process that it reaches is awake: it can never continue.
    Deadlocked,
    /// It is active, or reaches an awake process.
    Free,
}
