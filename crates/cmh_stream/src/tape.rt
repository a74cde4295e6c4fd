//! The bytes that went by. They exist only in proofs.

ghost use Rattle.std.specs.Prelude.{◌≡◌, ℕ, List, [], ◌++◌};
ghost use Rattle.std.specs.Borrow.{ftrue};

use std::marker::Model;

/// A record that takes no memory: its methods do nothing when they run.
#[derive(Drop)]
pub(crate) struct Tape {
    ghost bytes: { List ℕ },
}

impl Model for Tape {
    ghost also_owns = { λ _. ftrue };
}

impl Tape {
    /// The record of a device that was not called yet.
    pub(crate) fn new() -> Tape
        ensures { result.bytes ≡ [] }
    {
        Tape {}
    }

    /// The record after one more call. The caller has to see that these bytes went by.
    pub(crate) fn append(&self, _bytes: &[u8]) -> Tape
        ensures { result.bytes ≡ self.now.bytes ++ _bytes.now }
    {
        Tape {}
    }
}
