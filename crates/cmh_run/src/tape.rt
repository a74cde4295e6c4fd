//! Lists that exist only in proofs: the deliveries that were made, and processes that were named.

ghost use Rattle.std.specs.Prelude.{◌≡◌, List, [], ◌∷◌, ◌++◌, unwrap_or};
ghost use Rattle.std.specs.Borrow.{ftrue};
ghost use Rattle.cmh_graph.specs.ChosenPath.{chosen_path};

use crate::Delivery;
use cmh_graph::WaitGraph;
use std::marker::{Model, PhantomData};

/// A list that only proofs read. It has no bytes of its own, and its methods do nothing when they run.
#[derive(Drop)]
pub(crate) struct Tape<T> {
    of: PhantomData<T>,
    ghost items: { List T },
}

impl<T> Model for Tape<T> {
    ghost also_owns = { λ _. ftrue };
}

impl<T> Tape<T> {
    /// The tape of the list that the caller's proof picks by what is passed.
    fn picked<A>(_by: &A) -> Tape<T>
        ghost list: { List T }
        ensures { result.items ≡ list }
    {
        Tape { of: PhantomData }
    }
}

/// The deliveries that were made, in their order.
impl Tape<Delivery> {
    /// The tape before the first delivery.
    pub(crate) fn new() -> Tape<Delivery>
        ensures { result.items ≡ [] }
    {
        Tape::picked(&())
    }

    /// The tape with this delivery as the last. The old tape stays as it is.
    pub(crate) fn append(&self, delivery: &Delivery) -> Tape<Delivery>
        ensures { result.items ≡ self.now.items ++ delivery.now ∷ [] }
    {
        Tape::picked(&(self, delivery))
    }
}

/// The processes that were named, in their order.
impl Tape<u32> {
    /// The tape that names each of these.
    pub(crate) fn of(processes: &[u32]) -> Tape<u32>
        ensures { result.items ≡ processes.now }
    {
        Tape::picked(&processes)
    }

    /// The tape of the chosen path of a process, empty for a process without one.
    pub(crate) fn chosen_path(graph: &WaitGraph, p: &u32) -> Tape<u32>
        ensures { result.items ≡ unwrap_or (chosen_path graph.now p.now) [] }
    {
        Tape::picked(&(graph, p))
    }
}
