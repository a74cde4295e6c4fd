//! A run on its way.

ghost use Rattle.std.specs.Prelude.{◌≡◌, ℕ, List, ◌+◌, ◌<◌, ◌≤◌, [], length, IfOk, OnErr, OnOk, IsTrue, IsFalse, unwrap_or};
ghost use Rattle.cmh_run.specs.Prelude.{AsksOn, AsksOnInPart, blank_config, HasNoHints, IsAccepted, IsAtEnd, IsNextChoice, IsRunState, IsUnderWay, nothing_yet, RunState};

use crate::network::Network;
use crate::{Delivery, Ending, Hints, Log, RunLog};
use cmh_graph::WaitGraph;
use cmh_graph::laws::law_built_graph;
use cmh_memory::Allocated;
use std::alloc::Global;
use std::marker::Model;

/// A run on its way, with what was fixed at its start, the deliveries that were made and the restarts that are still to
/// come. It gives its network back at the end.
#[derive(Drop)]
pub(crate) struct Progress<'g, 'a, L: Log> {
    graph: &'g WaitGraph,
    initiator: u32,
    /// Whether neither a choice nor a restart is still to come.
    is_plain: bool,
    choices: &'a [u64],
    restarts: &'a [u32],
    restarted: u32,
    made: usize,
    network: Network<'g>,
    log: L,
}

impl<'g, 'a, L: Log> Model for Progress<'g, 'a, L> {
    ghost Value = { RunState };

    ghost view = { λ p. record {
      graph = p.graph.now;
      initiator = p.initiator;
      choices = p.choices.now;
      going = record {
        config = p.network;
        done = p.made;
        restarts = p.restarts.now;
        restarted = p.restarted;
      };
      log = L.deliveries p.log;
    } };

    ghost invariant = { λ p. IsTrue p.is_plain
        → (length p.choices.now ≤ p.made) × (p.restarts.now ≡ []) };
}

impl<'g, 'a, L: Log> Progress<'g, 'a, L> {
    /// The start of an accepted initiator. An awake one sends nothing, and never starts again.
    pub(crate) fn begin(
        alloc: Global,
        graph: &'g WaitGraph,
        mut network: Network<'g>,
        initiator: u32,
        choices: &'a [u64],
        restarts: &'a [u32],
    ) -> Allocated<Progress<'g, 'a, L>>
        requires blank { network ≡ nothing_yet graph.now }
        requires accepted { IsAccepted graph.now initiator choices.now restarts.now }
        ensures same { IfOk result (IsRunState graph.now initiator choices.now) }
        ensures under_way { IfOk result (IsUnderWay restarts.now) }
        ensures log { IfOk result (λ p. p.log ≡ []) }
    {
        law_built_graph(graph);
        network.begin(graph, initiator)?;
        let is_awake = graph.is_awake(initiator);
        Ok(Progress {
            graph,
            initiator,
            is_plain: choices.is_empty() && restarts.is_empty(),
            choices,
            restarts: if is_awake { &[] } else { restarts },
            restarted: 0,
            made: 0,
            network,
            log: L::empty(alloc),
        })
    }

    /// The choice of the next delivery, which is 0 past the last one. The initiator starts again before it, if that is
    /// due.
    #[inline(always)]
    fn next_choice(&mut self) -> Allocated<u64>
        requires { (restarts : List ℕ) × IsUnderWay restarts self.old }
        ensures { IfOk result (IsNextChoice self.old self.new) }
    {
        if self.is_plain {
            return Ok(0);
        }
        self.given_choice()
    }

    /// `next_choice` while choices or restarts are still to come. It stands apart, so that the loop after them is short.
    #[cold]
    fn given_choice(&mut self) -> Allocated<u64>
        requires { (restarts : List ℕ) × IsUnderWay restarts self.old }
        ensures { IfOk result (IsNextChoice self.old self.new) }
    {
        let choice = self.choices.get(self.made).copied().unwrap_or(0);
        let Some(next) = self.restarts.first() else {
            self.is_plain = self.choices.len() <= self.made;
            return Ok(choice);
        };
        if *next as usize != self.made || self.network.has_ended() {
            return Ok(choice);
        }
        self.network.start(self.graph, self.initiator)?;
        self.restarts = &self.restarts[1..];
        self.restarted += 1;
        Ok(choice)
    }

    /// Delivers the message that the next choice names, with what hints say of its receiver, if that is about to
    /// engage. Before that the initiator starts again, if that is due. It answers false where the run has ended or
    /// nothing is undelivered.
    #[inline(always)]
    pub(crate) fn deliver_next<H: Hints>(&mut self, hints: &mut H) -> Allocated<bool>
        requires under_way { (restarts : List ℕ) × IsUnderWay restarts self.old }
        requires speaks { H.speaks_of hints.old self.old.graph }
        ensures same { OnOk result
            (IsRunState self.old.graph self.old.initiator self.old.choices self.new) }
        ensures under_way { IfOk result (λ more. IsTrue more → (restarts : List ℕ)
            → IsUnderWay restarts self.old → IsUnderWay restarts self.new) }
        ensures more { IfOk result (λ more. IsTrue more
            → length self.new.log ≡ length self.old.log + 1) }
        ensures at_end { IfOk result (λ more. IsFalse more → (restarts : List ℕ)
            → IsUnderWay restarts self.old → IsAtEnd restarts self.new) }
        ensures silent { IfOk result (λ more. H.is_silent hints.old
            → HasNoHints self.old.log → HasNoHints self.new.log) }
        ensures asked { IfOk result (λ more. (restarts : List ℕ) → IsUnderWay restarts self.old
            → AsksOn (H.has_asked hints.old hints.new) self.old.graph self.old.initiator
            self.old.log self.new.log) }
        ensures asked_in_part { OnErr result ((restarts : List ℕ)
            → IsUnderWay restarts self.old
            → AsksOnInPart (H.has_asked hints.old hints.new) restarts self.old) }
        ensures kept { H.keeps hints.old hints.new }
    {
        let choice = self.next_choice()?;
        if self.network.has_ended() {
            return Ok(false);
        }
        let taken = self.network.take(choice)?;
        let Some(message) = taken else {
            return Ok(false);
        };
        let hint = self
            .network
            .deliver_asking(self.graph, self.initiator, message, hints)?;
        self.log.add(Delivery { message, hint })?;
        self.made += 1;
        Ok(true)
    }

    /// What is kept of the run, in which nothing more is delivered, and the network for the next run.
    pub(crate) fn finish(self, alloc: Global) -> (RunLog<L>, Network<'g>)
        ensures log { result.0 ≡ record {
          initiator = self.entry.initiator;
          log = self.entry.log;
          ending = unwrap_or self.entry.going.config.ended Ending.AtRest;
          engaged = self.entry.going.config.engaged;
          restarted = self.entry.going.restarted;
        } }
        ensures network { result.1 ≡ blank_config (length self.entry.going.config.procs) }
    {
        let mut network = self.network;
        let ending = network.ending().unwrap_or(Ending::AtRest);
        let engaged = network.clear(alloc);
        let log = RunLog {
            initiator: self.initiator,
            log: self.log,
            ending,
            engaged,
            restarted: self.restarted,
        };
        (log, network)
    }
}
