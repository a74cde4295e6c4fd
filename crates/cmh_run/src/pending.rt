//! The undelivered messages of a network, in which the queries of one engagement stand together.

ghost use Rattle.std.specs.Prelude.{◌≡◌, List, ◌<◌, ◌%◌, ◌++◌, [], ◌∷◌, Some, flat_map, length, option_to_list, remove, slice_get, IfOk, IfSome, IfNone, IsNone, ◌↔◌, OnOk};
ghost use Rattle.std.specs.VecDeque.{deque_capacity, deque_len};
ghost use Rattle.cmh_run.specs.Config.{reply};
ghost use Rattle.cmh_run.specs.Pending.{EachSends, messages_sent, queries_of};
ghost use Rattle.cmh_run.specs.Prelude.{Message};

use crate::Bag;
use crate::bag::FEW;
use crate::send::Sender;
use cmh_graph::MAX_DEPENDENCIES;
use cmh_memory::{Allocated, make_place, prepare_queue};
use cmh_process::{Kind, Message};
use std::alloc::Global;
use std::collections::VecDeque;
use std::marker::Model;

/// What a process sends at once: its query to each of these, or its reply to one.
#[derive(Clone, Copy)]
pub(crate) enum Sent<'g> {
    Queries(Sender, &'g [u32]),
    Reply(Sender, u32),
}

/// The undelivered messages, in the order in which they were sent: those that stand each by itself, the queries that are
/// left of those that were taken from last, and what was sent since. Only choices put messages into the bag.
#[derive(Drop)]
pub(crate) struct Pending<'g> {
    bag: Bag,
    sender: Sender,
    receivers: &'g [u32],
    sent: VecDeque<Sent<'g>>,
}

impl<'g> Model for Pending<'g> {
    ghost Value = { List Message };

    ghost view = { λ p.
        p.bag ++ (queries_of p.sender p.receivers.now ++ flat_map messages_sent p.sent.items) };

    ghost invariant = { λ p.
        (0 < length p.receivers.now → p.bag ≡ []) × EachSends p.sent.items };
}

impl<'g> Pending<'g> {
    /// No message, which takes no memory.
    pub(crate) fn new(alloc: Global) -> Pending<'g>
        ensures { result ≡ [] }
    {
        Pending {
            bag: Bag::new(alloc),
            sender: Sender {
                initiator: 0,
                number: 0,
                process: 0,
            },
            receivers: &[],
            sent: VecDeque::new(alloc),
        }
    }

    /// Adds the sender's reply to that process as the last message.
    #[inline(always)]
    pub(crate) fn add_reply(&mut self, sender: Sender, to: u32) -> Allocated<()>
        ensures ok { OnOk result (self.new ≡ self.old
            ++ reply sender.initiator sender.number sender.process to ∷ []) }
    {
        add_sent(&mut self.sent, Sent::Reply(sender, to))
    }

    /// Adds the sender's query to each of these, in their order. Where nothing else is undelivered they needn't be queued.
    #[inline(always)]
    pub(crate) fn add_queries(&mut self, sender: Sender, receivers: &'g [u32]) -> Allocated<()>
        ensures ok { OnOk result (self.new ≡ self.old ++ queries_of sender receivers.now) }
    {
        if self.receivers.is_empty() && self.sent.is_empty() && self.bag.is_empty() {
            self.sender = sender;
            self.receivers = receivers;
            return Ok(());
        }
        if receivers.is_empty() {
            return Ok(());
        }
        add_sent(&mut self.sent, Sent::Queries(sender, receivers))
    }

    /// Removes all messages, and keeps the memory.
    pub(crate) fn clear(&mut self)
        ensures { self.new ≡ [] }
    {
        self.bag.clear();
        self.receivers = &[];
        self.sent.clear();
    }

    /// Takes the message at place `choice` modulo the number of messages; the others keep their order.
    #[inline(always)]
    pub(crate) fn take(&mut self, choice: u64) -> Allocated<Option<Message>>
        ensures none { IfOk result (λ t. IsNone t ↔ (self.old ≡ [])) }
        ensures taken { IfOk result (λ t. IfSome t (λ m.
            slice_get self.old (choice % length self.old) ≡ Some m)) }
        ensures rest { IfOk result (λ t. IfSome t (λ m.
            self.new ≡ remove self.old (choice % length self.old))) }
        ensures unchanged { IfOk result (λ t. IfNone t (self.new ≡ self.old)) }
    {
        if choice != 0 {
            self.bring_to_front(choice)?;
        }
        Ok(self.take_first())
    }

    /// Puts the message that the choice names before the others, each of which stands by itself then.
    #[cold]
    #[inline(never)]
    fn bring_to_front(&mut self, choice: u64) -> Allocated<()>
        ensures none { OnOk result (self.old ≡ [] → self.new ≡ []) }
        ensures first { OnOk result ((m : Message)
            → slice_get self.old (choice % length self.old) ≡ Some m
            → self.new ≡ m ∷ remove self.old (choice % length self.old)) }
    {
        let receivers = self.receivers;
        self.receivers = &[];
        self.bag.add_queries(self.sender, receivers)?;
        unpack(&mut self.bag, &mut self.sent)?;
        self.bag.bring_to_front(choice);
        Ok(())
    }

    /// Takes the first message.
    #[inline(always)]
    pub(crate) fn take_first(&mut self) -> Option<Message>
        ensures none { IsNone result ↔ (self.old ≡ []) }
        ensures taken { IfSome result (λ m. self.old ≡ m ∷ self.new) }
        ensures unchanged { IfNone result (self.new ≡ self.old) }
    {
        if let [to, others @ ..] = self.receivers {
            self.receivers = others;
            return Some(self.sender.message(Kind::Query, *to));
        }
        if !self.bag.is_empty() {
            // It is put together anew, so that no other way has to store its message.
            let Message {
                kind,
                initiator,
                number,
                from,
                to,
            } = take_alone(&mut self.bag)?;
            return Some(Message {
                kind,
                initiator,
                number,
                from,
                to,
            });
        }
        match self.sent.pop_front()? {
            Sent::Reply(sender, to) => Some(sender.message(Kind::Reply, to)),
            Sent::Queries(sender, receivers) => {
                self.sender = sender;
                self.receivers = &receivers[1..];
                Some(sender.message(Kind::Query, receivers[0]))
            }
        }
    }
}

/// Takes the first message of a bag. It stands apart, since a run without choices has no message there.
#[cold]
#[inline(never)]
fn take_alone(bag: &mut Bag) -> Option<Message>
    ensures none { IsNone result ↔ (bag.old ≡ []) }
    ensures taken { bag.old ≡ option_to_list result ++ bag.new }
{
    bag.take(0)
}

/// Adds what was sent as the last.
#[inline(always)]
fn add_sent<'g>(queue: &mut VecDeque<Sent<'g>>, sent: Sent<'g>) -> Allocated<()>
    ensures ok { OnOk result (queue.new.items ≡ queue.old.items ++ sent.entry ∷ []) }
    ensures each { 0 < length (messages_sent sent.entry) → EachSends queue.old.items
        → EachSends queue.new.items }
{
    if queue.len() == queue.capacity() {
        grow(queue)?;
    }
    queue.push_back_reserved(sent);
    Ok(())
}

/// Makes room in a full queue. It stands apart, so that the loop of a run is short.
#[cold]
#[inline(never)]
fn grow(queue: &mut VecDeque<Sent>) -> Allocated<()>
    ensures items { queue.new.items ≡ queue.old.items }
    ensures room { OnOk result (deque_len queue.new < deque_capacity queue.new) }
{
    if queue.len() >= FEW && queue.capacity() < MAX_DEPENDENCIES {
        prepare_queue(queue, MAX_DEPENDENCIES);
    }
    make_place(queue)
}

/// Moves what was sent into the bag, where each message stands by itself.
fn unpack(bag: &mut Bag, queue: &mut VecDeque<Sent>) -> Allocated<()>
    ensures all { OnOk result (bag.new ≡ bag.old ++ flat_map messages_sent queue.old.items) }
    ensures none { OnOk result (queue.new.items ≡ []) }
    ensures each { EachSends queue.old.items → EachSends queue.new.items }
{
    while let Some(sent) = queue.pop_front() {
        match sent {
            Sent::Reply(sender, to) => bag.add(sender.message(Kind::Reply, to))?,
            Sent::Queries(sender, receivers) => bag.add_queries(sender, receivers)?,
        }
    }
    Ok(())
}
