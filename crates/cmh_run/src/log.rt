//! Where the deliveries of a run are kept, if anywhere.

ghost use Rattle.std.specs.Prelude.{◌≡◌, [], ◌∷◌, ◌++◌, List, OnOk};
ghost use Rattle.cmh_run.specs.Prelude.{Delivery};

use crate::Delivery;
use crate::tape::Tape;
use cmh_memory::Allocated;
use std::alloc::Global;

/// Where the deliveries of a run are kept: all of them in a `Vec`, or none in `NoLog`.
///
/// Code that serves any log can make one speak of deliveries only by adding each of them. So what is proved of it is
/// proved of a run that was made, whether or not anything is left to read.
pub trait Log: Drop + Sized {
    /// The deliveries of which it speaks, in their order.
    ghost deliveries: { Self → List Delivery };

    /// A log of no delivery, which takes no memory.
    fn empty(alloc: Global) -> Self
        ensures { deliveries result ≡ [] };

    /// Adds a delivery as the last.
    fn add(&mut self, delivery: Delivery) -> Allocated<()>
        ensures { OnOk result (deliveries self.new ≡ deliveries self.old ++ delivery ∷ []) };
}

impl Log for Vec<Delivery> {
    ghost deliveries = { λ log. log.items };

    fn empty(alloc: Global) -> Vec<Delivery> {
        Vec::new(alloc)
    }

    fn add(&mut self, delivery: Delivery) -> Allocated<()> {
        self.push(delivery)?;
        Ok(())
    }
}

/// Keeps no delivery. Which ones were added is known in proofs alone.
#[derive(Drop)]
pub struct NoLog {
    tape: Tape<Delivery>,
}

impl Log for NoLog {
    ghost deliveries = { λ log. log.tape.items };

    fn empty(_alloc: Global) -> NoLog {
        NoLog { tape: Tape::new() }
    }

    fn add(&mut self, delivery: Delivery) -> Allocated<()> {
        self.tape = self.tape.append(&delivery);
        Ok(())
    }
}
