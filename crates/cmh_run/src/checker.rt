//! A log that is checked: the run that its deliveries make, from one to the next.

ghost use Rattle.std.specs.Prelude.{◌≡◌, ◌⊎◌, ◌<◌, ◌↔◌, ℕ, List, [], ◌∷◌, ◌++◌, None, IfOk, IfErr, IfSome, IfNone, IsTrue, not, ◌&&◌, OnOk};
ghost use Rattle.cmh_run.specs.Prelude.{Agrees, CheckState, Delivery, EndsAs, goes_like, Going, Graph, HasEnded, HintIsFit, is_idle, is_waiting, IsChecked, IsFlaw, IsSettled, MayAct, Message, process_count, verdicts};

use crate::network::Network;
use crate::undelivered::Undelivered;
use crate::{CheckFault, Delivery, Ending};
use cmh_graph::laws::law_built_graph;
use cmh_graph::{Verdict, WaitGraph};
use cmh_memory::Allocated;
use cmh_process::Message;
use std::alloc::Global;
use std::marker::Model;

/// The run that the deliveries of a log make. Its bag is kept as a set, so that a message is found among many; the
/// network's own bag has only what was just sent.
#[derive(Drop)]
pub(crate) struct Checker<'g> {
    network: Network<'g>,
    undelivered: Undelivered,
}

impl<'g> Model for Checker<'g> {
    ghost Value = { CheckState };

    ghost view = { λ a. record { network = a.network; undelivered = a.undelivered } };
}

impl<'g> Checker<'g> {
    /// The start of a run without restarts.
    pub(crate) fn begin(
        alloc: Global,
        graph: &'g WaitGraph,
        initiator: u32,
    ) -> Allocated<Checker<'g>>
        requires within { initiator < process_count graph.now }
        requires idle { IsTrue (is_idle graph.now initiator) }
        ensures ok { IfOk result (IsChecked graph.now initiator []) }
    {
        law_built_graph(graph);
        let mut network = Network::nothing_yet(alloc, graph)?;
        network.begin(graph, initiator)?;
        let mut checker = Checker {
            network,
            undelivered: Undelivered::new(alloc),
        };
        checker.settle()?;
        Ok(checker)
    }

    /// How the run has ended, if it has.
    pub(crate) fn ending(&self) -> Option<Ending>
        ensures some { IfSome result (λ e. (g : Graph) (i : ℕ) (log : List Delivery) (s : Going)
            → Agrees g i log s self.now → IsSettled self.now → EndsAs s.config e) }
        ensures none { IfNone result ((g : Graph) (i : ℕ) (log : List Delivery) (s : Going)
            → Agrees g i log s self.now → IsSettled self.now → ¬ (HasEnded s.config)) }
    {
        if let Some(ending) = self.network.ending() {
            return Some(ending);
        }
        if self.undelivered.is_empty() {
            return Some(Ending::AtRest);
        }
        None
    }

    /// Makes delivery `t`, unless something is wrong with it. `truth` has the verdicts of all processes.
    pub(crate) fn deliver(
        &mut self,
        graph: &'g WaitGraph,
        initiator: u32,
        truth: &[Verdict],
        t: usize,
        delivery: Delivery,
    ) -> Result<(), CheckFault>
        requires truth { truth.now ≡ verdicts graph.now }
        requires checked { (log : List Delivery) × IsChecked graph.now initiator log self.old }
        ensures ok { OnOk result ((log : List Delivery)
            → IsChecked graph.now initiator log self.old
            → IsChecked graph.now initiator (log ++ delivery ∷ []) self.new) }
        ensures fault { IfErr result (λ e. (e ≡ CheckFault.Memory)
            ⊎ ((log : List Delivery) (s : Going) → Agrees graph.now initiator log s self.old
            → IsSettled self.old → IsFlaw graph.now s.config t delivery e)) }
    {
        if self.ending().is_some() {
            return Err(CheckFault::AfterEnd(t));
        }
        if !self.take(initiator, delivery.message) {
            return Err(CheckFault::NotUndelivered(t));
        }
        if !self.is_fit(graph, truth, delivery) {
            return Err(CheckFault::FalseHint(t));
        }
        self.network
            .deliver(graph, initiator, delivery.message, delivery.hint)?;
        self.settle()?;
        Ok(())
    }

    /// Takes the message out of the undelivered ones, if it is among them.
    fn take(&mut self, initiator: u32, message: Message) -> bool
        ensures found { IsTrue result ↔ ((message.initiator ≡ initiator) × (message.number ≡ 1)
            × IsTrue (is_waiting self.old.undelivered message)) }
        ensures network { self.new.network ≡ self.old.network }
        ensures rest { IsTrue result → (m : Message) → is_waiting self.new.undelivered m
            ≡ (not (goes_like message m) && is_waiting self.old.undelivered m) }
    {
        message.initiator == initiator && message.number == 1 && self.undelivered.take(message)
    }

    /// Whether the delivery has no hint, or one that is asked for and true.
    fn is_fit(&self, graph: &WaitGraph, truth: &[Verdict], delivery: Delivery) -> bool
        requires process { MayAct graph.now self.now.network delivery.message.to }
        requires truth { truth.now ≡ verdicts graph.now }
        ensures { IsTrue result
            ↔ HintIsFit graph.now self.now.network delivery.message delivery.hint }
    {
        law_built_graph(graph);
        let Some(verdict) = delivery.hint else {
            return true;
        };
        self.network.asks(graph, delivery.message) && truth[delivery.message.to as usize] == verdict
    }

    /// Adds what was just sent to the other undelivered messages.
    fn settle(&mut self) -> Allocated<()>
        ensures settled { OnOk result (IsSettled self.new) }
        ensures ok { OnOk result ((g : Graph) (i : ℕ) (log : List Delivery) (s : Going)
            → Agrees g i log s self.old → Agrees g i log s self.new) }
    {
        while let Some(message) = self.network.take_first() {
            self.undelivered.add(message)?;
        }
        Ok(())
    }
}
