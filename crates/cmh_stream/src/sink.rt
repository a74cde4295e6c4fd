//! Where bytes go to.

ghost use Rattle.std.specs.Prelude.{◌≡◌, ◌<◌, ◌≤◌, ℕ, List, ◌++◌, length, take, true, false, Option, None, IfOk, OnOk, OnErr, IsErr};
ghost use Rattle.std.specs.Io.KnownBytes.{Keeps, WriteAppends};
ghost use Rattle.cmh_stream.specs.Device.{SinkState};

use crate::Stopped;

/// A device that takes bytes, or fails.
///
/// The answers alone say which bytes it took, whether it is finished and whether it has failed: an implementor has no
/// say in it.
pub trait Sink {
    // What it took so far, whether it is finished, and whether it has failed.
    ghost state: { Self → SinkState };

    // The bytes that the device holds, where they are known.
    ghost contents: { Self → Option (List ℕ) } = { λ _. None };

    /// Takes bytes from the front of the slice, at least one where there is one, and answers how many.
    ///
    /// # Errors
    ///
    /// `Stopped` where the device has an error, and at every call from then on. No byte was taken.
    fn put(&mut self, bytes: &[u8]) -> Result<usize, Stopped>
        ensures within { IfOk result (λ n. n ≤ length bytes.now) }
        ensures moves { IfOk result (λ n. 0 < length bytes.now → 0 < n) }
        ensures takes { IfOk result (λ n.
            (state self.new).taken ≡ (state self.old).taken ++ take n bytes.now) }
        ensures keeps { OnErr result ((state self.new).taken ≡ (state self.old).taken) }
        ensures known { WriteAppends (contents self.old) (contents self.new) result bytes.now }

        ensures opens { IfOk result (λ n. 0 < n → (state self.new).is_finished ≡ false) }
        ensures asks_nothing { IfOk result (λ n. n ≡ 0
            → (state self.new).is_finished ≡ (state self.old).is_finished) }
        ensures keeps_finish { OnErr result (
            (state self.new).is_finished ≡ (state self.old).is_finished) }

        ensures works { OnOk result ((state self.new).has_failed ≡ false) }
        ensures stops { OnErr result ((state self.new).has_failed ≡ true) }
        ensures stays { (state self.old).has_failed ≡ true → IsErr result };

    /// Hands on all the bytes that it took.
    ///
    /// # Errors
    ///
    /// `Stopped` where the device has an error, and at every call from then on. How many of the bytes were handed on is
    /// then not known.
    fn finish(&mut self) -> Result<(), Stopped>
        ensures takes_nothing { (state self.new).taken ≡ (state self.old).taken }
        ensures known { Keeps (contents self.old) (contents self.new) }

        ensures finishes { OnOk result ((state self.new).is_finished ≡ true) }
        ensures keeps_finish { OnErr result (
            (state self.new).is_finished ≡ (state self.old).is_finished) }

        ensures works { OnOk result ((state self.new).has_failed ≡ false) }
        ensures stops { OnErr result ((state self.new).has_failed ≡ true) }
        ensures stays { (state self.old).has_failed ≡ true → IsErr result };

    /// Whether the device had an error.
    fn failed(&self) -> bool
        ensures { result ≡ (state self.now).has_failed };
}
