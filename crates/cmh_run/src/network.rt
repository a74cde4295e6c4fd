//! One configuration of an initiator's computations, and its steps.

ghost use Rattle.std.specs.Prelude.{◌≡◌, ℕ, List, ◌<◌, ◌^◌, ◌%◌, ◌↔◌, [], None, Option, Some, length, slice_get, IfSome, IfNone, IsNone, IsFalse, IfOk, OnErr, OnOk, if◌then◌else◌};
ghost use Rattle.cmh_graph.specs.Graph.{dependents_of};
ghost use Rattle.cmh_run.specs.Prelude.{after_action, after_engagement, after_hint, after_message, AskedAt, asks_at, asks_hint, blank_config, Config, going_at_start, HintIsFit, is_awake, MayAct, MayReceive, MayStart, nothing_yet, process_count, query, start, without_message};

use crate::pending::Pending;
use crate::procs::Procs;
use crate::send::Sender;
use crate::{Ending, Hints};
use cmh_graph::laws::law_built_graph;
use cmh_graph::{Verdict, WaitGraph};
use cmh_memory::Allocated;
use cmh_process::{Action, Kind, Message};
use std::alloc::Global;
use std::marker::Model;

/// The undelivered messages and the processes of one initiator's computations.
#[derive(Drop)]
pub(crate) struct Network<'g> {
    bag: Pending<'g>,
    procs: Procs,
    number: u32,
    ended: Option<Ending>,
}

impl<'g> Model for Network<'g> {
    ghost Value = { Config };

    ghost view = { λ n. record {
      bag = n.bag;
      procs = n.procs.procs;
      number = n.number;
      engaged = n.procs.engaged;
      ended = n.ended;
    } };
}

impl<'g> Network<'g> {
    /// The network in which no process has heard of anything.
    pub(crate) fn nothing_yet(alloc: Global, graph: &WaitGraph) -> Allocated<Network<'g>>
        ensures ok { IfOk result (λ n. n ≡ nothing_yet graph.now) }
    {
        Ok(Network {
            bag: Pending::new(alloc),
            procs: Procs::new(alloc, graph)?,
            number: 0,
            ended: None,
        })
    }

    /// The start of a run. An awake initiator sends nothing.
    pub(crate) fn begin(&mut self, graph: &'g WaitGraph, initiator: u32) -> Allocated<()>
        requires blank { self.old ≡ nothing_yet graph.now }
        requires within { initiator < process_count graph.now }
        ensures ok { OnOk result ((restarts : List ℕ)
            → self.new ≡ (going_at_start graph.now initiator restarts).config) }
    {
        if !graph.is_awake(initiator) {
            self.start(graph, initiator)?;
        }
        Ok(())
    }

    /// The initiator starts with its next number.
    pub(crate) fn start(&mut self, graph: &'g WaitGraph, initiator: u32) -> Allocated<()>
        requires { MayStart graph.now self.old initiator }
        ensures ok { OnOk result (self.new ≡ start graph.now initiator self.old) }
    {
        law_built_graph(graph);
        let dependents = graph.dependents(initiator);
        let action = self.procs.start(initiator, dependents.len() as u32)?;
        let sender = Sender {
            initiator,
            number: self.procs.latest(initiator),
            process: initiator,
        };
        self.number = sender.number;
        self.act(sender, dependents, action)
    }

    /// Whether a declaration or a hint has ended the run.
    pub(crate) fn has_ended(&self) -> bool
        ensures { IsFalse result ↔ (self.now.ended ≡ None) }
    {
        self.ended.is_some()
    }

    /// How a declaration or a hint has ended the run, if one has.
    pub(crate) fn ending(&self) -> Option<Ending>
        ensures { result ≡ self.now.ended }
    {
        self.ended
    }

    /// Takes the message that the choice names out of the bag.
    #[inline(always)]
    pub(crate) fn take(&mut self, choice: u64) -> Allocated<Option<Message>>
        ensures none { IfOk result (λ t. IsNone t ↔ (self.old.bag ≡ [])) }
        ensures unchanged { IfOk result (λ t. IfNone t (self.new ≡ self.old)) }
        ensures taken { IfOk result (λ t. IfSome t (λ m.
            let x = choice % length self.old.bag in
            (slice_get self.old.bag x ≡ Some m) × (self.new ≡ without_message self.old x))) }
    {
        self.bag.take(choice)
    }

    /// Takes the first message out of the bag.
    pub(crate) fn take_first(&mut self) -> Option<Message>
        ensures none { IsNone result ↔ (self.old.bag ≡ []) }
        ensures unchanged { IfNone result (self.new ≡ self.old) }
        ensures taken { IfSome result (λ m.
            (slice_get self.old.bag 0 ≡ Some m) × (self.new ≡ without_message self.old 0)) }
    {
        self.bag.take_first()
    }

    /// Whether hints are asked about the receiver before the message is delivered.
    #[inline(always)]
    pub(crate) fn asks(&self, graph: &WaitGraph, message: Message) -> bool
        requires { MayAct graph.now self.now message.to }
        ensures { result ≡ asks_hint graph.now self.now message }
    {
        message.kind == Kind::Query
            && self.procs.is_engaged_by(message.to, message.number)
            && !graph.is_awake(message.to)
    }

    /// The delivery of a message that was taken out of the bag, with what is known of its receiver.
    #[inline(always)]
    #[tactic(auto, using(crate::proofs::QueryLemmas::engaged_by_hint))]
    pub(crate) fn deliver(
        &mut self,
        graph: &'g WaitGraph,
        initiator: u32,
        message: Message,
        hint: Option<Verdict>,
    ) -> Allocated<()>
        requires { MayAct graph.now self.old message.to }
        ensures ok { OnOk result (self.new ≡ (if is_awake graph.now message.to
            then self.old
            else after_message graph.now initiator self.old message message.kind hint)) }
    {
        if graph.is_awake(message.to) {
            return Ok(());
        }
        if self.asks(graph, message) {
            let (number, to, from) = (message.number, message.to, message.from);
            return self.engage_by_hint(graph, initiator, number, to, from, hint);
        }
        self.receive(graph, initiator, message)
    }

    /// `deliver`, with what the hints say of the receiver. They are asked just before it engages.
    #[inline(always)]
    #[tactic(auto, using(crate::proofs::QueryLemmas::engaged_by_hint, crate::proofs::QueryLemmas::fit_where_asked))]
    pub(crate) fn deliver_asking<H: Hints>(
        &mut self,
        graph: &'g WaitGraph,
        initiator: u32,
        message: Message,
        hints: &mut H,
    ) -> Allocated<Option<Verdict>>
        requires may { MayReceive graph.now self.old message }
        requires speaks { H.speaks_of hints.old graph.now }
        ensures fit { IfOk result (HintIsFit graph.now self.old message) }
        ensures ok { IfOk result (λ hint. self.new ≡ (if is_awake graph.now message.to
            then self.old
            else after_message graph.now initiator self.old message message.kind hint)) }
        ensures silent { H.is_silent hints.old → IfOk result (λ hint. hint ≡ None) }
        ensures asked { IfOk result (λ hint. H.has_asked hints.old hints.new
            (asks_at graph.now self.old message hint)) }
        ensures asked_in_part { OnErr result (AskedAt
            (H.has_asked hints.old hints.new) graph.now self.old message) }
        ensures kept { H.keeps hints.old hints.new }
    {
        if self.asks(graph, message) {
            let hint = hints.hint(message.to);
            let (number, to, from) = (message.number, message.to, message.from);
            self.engage_by_hint(graph, initiator, number, to, from, hint)?;
            return Ok(hint);
        }
        self.receive(graph, initiator, message)?;
        Ok(None)
    }

    /// The delivery of a message that doesn't engage its receiver, whose dependents aren't looked up. To an awake process
    /// no message has come before, so it does nothing, and needn't be told from the others.
    #[inline(always)]
    #[tactic(auto, using(crate::proofs::QueryLemmas::answered, crate::proofs::QueryLemmas::replied))]
    fn receive(&mut self, graph: &'g WaitGraph, initiator: u32, message: Message) -> Allocated<()>
        requires may { MayReceive graph.now self.old message }
        requires unasked { IsFalse (asks_hint graph.now self.old message) }
        ensures ok { OnOk result ((hint : Option Verdict)
            → self.new ≡ (if is_awake graph.now message.to
            then self.old
            else after_message graph.now initiator self.old message message.kind hint)) }
    {
        let action = match message.kind {
            Kind::Query => self.procs.answer(message.to, message.number, message.from),
            Kind::Reply => self.procs.reply(message.to, message.number),
        };
        let receiver = Sender {
            initiator,
            number: message.number,
            process: message.to,
        };
        self.act(receiver, &[], action)
    }

    /// The delivery of a query of `engager` that engages `process`, unless that is known to be free.
    #[inline(always)]
    fn engage_by_hint(
        &mut self,
        graph: &'g WaitGraph,
        initiator: u32,
        number: u32,
        process: u32,
        engager: u32,
        hint: Option<Verdict>,
    ) -> Allocated<()>
        requires { MayAct graph.now self.old process }
        ensures ok { OnOk result (self.new ≡
            after_hint graph.now initiator self.old (query initiator number engager process) hint) }
    {
        match hint {
            None => self.engage(graph, initiator, number, process, engager),
            Some(Verdict::Deadlocked) => {
                self.engage_with_nothing(initiator, number, process, engager)
            }
            Some(Verdict::Free) => {
                self.ended = Some(Ending::CutFree(process));
                Ok(())
            }
        }
    }

    /// A query of `engager` engages `process`. It is a function of its own, so that the loop of a run is short, and takes
    /// numbers, so that nothing is stored for it in that loop. What it calls, it calls last.
    #[inline(never)]
    fn engage(
        &mut self,
        graph: &'g WaitGraph,
        initiator: u32,
        number: u32,
        process: u32,
        engager: u32,
    ) -> Allocated<()>
        requires { MayAct graph.now self.old process }
        ensures ok { OnOk result (self.new ≡ after_engagement initiator self.old
            (query initiator number engager process) (dependents_of graph.now process)) }
    {
        if number != self.number || self.procs.is_full() {
            return self.engage_apart(graph, initiator, number, process, engager);
        }
        law_built_graph(graph);
        let asked = graph.dependents(process);
        self.engage_asking(initiator, number, process, engager, asked)
    }

    /// `engage` where the list of those that are engaged has to grow, or the computation is an older one. It stands apart,
    /// since for a call in its midst `engage` would save registers each time.
    #[cold]
    #[inline(never)]
    fn engage_apart(
        &mut self,
        graph: &'g WaitGraph,
        initiator: u32,
        number: u32,
        process: u32,
        engager: u32,
    ) -> Allocated<()>
        requires { MayAct graph.now self.old process }
        ensures ok { OnOk result (self.new ≡ after_engagement initiator self.old
            (query initiator number engager process) (dependents_of graph.now process)) }
    {
        law_built_graph(graph);
        let asked = graph.dependents(process);
        self.engage_asking(initiator, number, process, engager, asked)
    }

    /// A query of `engager` engages `process`, which asks nobody, since it is known to be deadlocked.
    #[inline(never)]
    fn engage_with_nothing(
        &mut self,
        initiator: u32,
        number: u32,
        process: u32,
        engager: u32,
    ) -> Allocated<()>
        requires within { process < length self.old.procs }
        requires going { self.old.ended ≡ None }
        ensures ok { OnOk result (self.new ≡ after_engagement initiator self.old
            (query initiator number engager process) []) }
    {
        self.engage_asking(initiator, number, process, engager, &[])
    }

    /// A query of `engager` engages `process`, which asks these.
    #[inline(always)]
    fn engage_asking(
        &mut self,
        initiator: u32,
        number: u32,
        process: u32,
        engager: u32,
        asked: &'g [u32],
    ) -> Allocated<()>
        requires within { process < length self.old.procs }
        requires going { self.old.ended ≡ None }
        requires few { length asked.now < 2 ^ 32 }
        ensures ok { OnOk result (self.new ≡ after_engagement initiator self.old
            (query initiator number engager process) asked.now) }
    {
        let size = asked.len() as u32;
        let is_last = number == self.number;
        let action = self.procs.engage(process, number, engager, size, is_last)?;
        let receiver = Sender {
            initiator,
            number,
            process,
        };
        self.act(receiver, asked, action)
    }

    /// A process sends, ends the run, or does nothing.
    #[inline(always)]
    fn act(&mut self, sender: Sender, dependents: &'g [u32], action: Action) -> Allocated<()>
        requires { self.old.ended ≡ None }
        ensures ok { OnOk result (self.new ≡
            after_action sender.initiator self.old sender.number sender.process dependents.now
            action) }
    {
        if let Action::Declare = action {
            self.ended = Some(Ending::Declared);
        }
        sender.send(&mut self.bag, dependents, action)
    }

    /// Makes the network as at first, in time linear in the processes that took part, and returns those that were engaged.
    pub(crate) fn clear(&mut self, alloc: Global) -> Vec<u32>
        ensures engaged { result.items ≡ self.old.engaged }
        ensures cleared { self.new ≡ blank_config (length self.old.procs) }
    {
        self.bag.clear();
        self.number = 0;
        self.ended = None;
        self.procs.clear(alloc)
    }
}
