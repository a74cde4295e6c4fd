//! Where bytes come from.

ghost use Rattle.std.specs.Prelude.{◌≡◌, ◌<◌, ◌≤◌, ◌↔◌, ℕ, List, ◌++◌, length, take, true, false, Option, None, IfOk, OnOk, OnErr, IsErr};
ghost use Rattle.std.specs.Io.KnownBytes.{ReadConsumes};
ghost use Rattle.cmh_stream.specs.Device.{SourceState};

use crate::Stopped;

/// A device that gives bytes up to its end, or until it fails.
///
/// The answers alone say which bytes it gave, whether it has ended and whether it has failed: an implementor has no say
/// in it.
pub trait Source {
    // What it gave so far, whether it has ended, and whether it has failed.
    ghost state: { Self → SourceState };

    // The bytes that it gives from here on, where they are known.
    ghost remaining: { Self → Option (List ℕ) } = { λ _. None };

    /// Gives bytes at the front of the buffer, and answers how many. None for a buffer that has room means the end. The
    /// contract doesn't say what the rest of the buffer then holds.
    ///
    /// # Errors
    ///
    /// `Stopped` where the device has an error, and at every call from then on. No byte was given.
    fn fill(&mut self, buf: &mut [u8]) -> Result<usize, Stopped>
        ensures within { IfOk result (λ n. n ≤ length buf.new) }
        ensures gives { IfOk result (λ n.
            (state self.new).given ≡ (state self.old).given ++ take n buf.new) }
        ensures keeps { OnErr result ((state self.new).given ≡ (state self.old).given) }
        ensures known { ReadConsumes (remaining self.old) (remaining self.new) result buf.new }

        ensures ends { IfOk result (λ n. 0 < length buf.new
            → (((state self.new).has_ended ≡ true) ↔ (n ≡ 0))) }
        ensures asks_nothing { OnOk result (length buf.new ≡ 0
            → (state self.new).has_ended ≡ (state self.old).has_ended) }
        ensures keeps_end { OnErr result ((state self.new).has_ended ≡ (state self.old).has_ended) }
        ensures rests { (state self.old).has_ended ≡ true
            → (state self.new).given ≡ (state self.old).given }

        ensures works { OnOk result ((state self.new).has_failed ≡ false) }
        ensures stops { OnErr result ((state self.new).has_failed ≡ true) }
        ensures stays { (state self.old).has_failed ≡ true → IsErr result };

    /// Whether the device had an error.
    fn failed(&self) -> bool
        ensures { result ≡ (state self.now).has_failed };
}
