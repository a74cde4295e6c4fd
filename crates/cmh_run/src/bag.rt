//! The undelivered messages of a run, or of a caller that delivers them by itself.

ghost use Rattle.std.specs.Prelude.{◌≡◌, ℕ, List, ◌<◌, ◌↔◌, ◌%◌, ◌++◌, [], ◌∷◌, Some, length, map, remove, slice_get, IsNone, IsSome, IfSome, IfNone, IfErr, IsTrue, OnOk, OnErr};
ghost use Rattle.cmh_run.specs.Comparisons.{comparing, laws_of_message, of_message, pointwise, rules};
ghost use Rattle.cmh_run.specs.Prelude.{Message, query};

use crate::RunFault;
use crate::send::Sender;
use cmh_graph::MAX_DEPENDENCIES;
use cmh_memory::{Allocated, prepare_queue};
use cmh_process::{Kind, Message};
use std::alloc::Global;
use std::collections::VecDeque;
use std::marker::Model;

/// A bag with this number of messages makes room for all that one computation of any graph can have undelivered. Memory
/// that a growing bag leaves behind is lost to its thread, so it grows in few steps.
pub(crate) const FEW: usize = 4_096;

/// The undelivered messages, in the order in which they were sent.
#[derive(Clone, Debug, Drop)]
pub struct Bag {
    messages: VecDeque<Message>,
}

impl Model for Bag {
    ghost Value = { List Message };

    ghost view = { λ bag. bag.messages.items };
}

impl Bag {
    /// An empty bag, which takes no memory.
    pub fn new(alloc: Global) -> Bag
        ensures { result ≡ [] }
    {
        Bag {
            messages: VecDeque::new(alloc),
        }
    }

    /// The number of messages, in constant time.
    pub fn len(&self) -> usize
        ensures { result ≡ length self.now }
    {
        self.messages.len()
    }

    /// Whether there are none, in constant time.
    pub fn is_empty(&self) -> bool
        ensures { IsTrue result ↔ (self.now ≡ []) }
    {
        self.messages.is_empty()
    }

    /// The message at place `n`, from 0, in constant time.
    pub fn get(&self, n: usize) -> Option<&Message>
        ensures there { IsSome result ↔ (n < length self.now) }
        ensures message { IfSome result (λ m. slice_get self.now n ≡ Some m.now) }
    {
        self.messages.get(n)
    }

    /// Adds a message as the last. The only fault is `Memory`.
    pub fn push(&mut self, message: Message) -> Result<(), RunFault>
        ensures ok { OnOk result (self.new ≡ self.old ++ message ∷ []) }
        ensures err { OnErr result (self.new ≡ self.old) }
        ensures memory { IfErr result (λ e. e ≡ RunFault.Memory) }
    {
        self.add(message)?;
        Ok(())
    }

    /// `push`, with the error of the allocator.
    #[inline(always)]
    pub(crate) fn add(&mut self, message: Message) -> Allocated<()>
        ensures ok { OnOk result (self.new ≡ self.old ++ message ∷ []) }
        ensures err { OnErr result (self.new ≡ self.old) }
    {
        if self.messages.len() < self.messages.capacity() {
            self.messages.push_back_reserved(message);
            return Ok(());
        }
        let Message {
            kind,
            initiator,
            number,
            from,
            to,
        } = message;
        self.add_growing(kind, initiator, number, from, to)
    }

    /// `add` to a bag without room. It stands apart, and takes the message in its parts, so that its callers needn't store
    /// anything for it.
    #[cold]
    #[inline(never)]
    fn add_growing(
        &mut self,
        kind: Kind,
        initiator: u32,
        number: u32,
        from: u32,
        to: u32,
    ) -> Allocated<()>
        ensures ok { OnOk result (self.new ≡ self.old
            ++ record {
              kind = kind;
              initiator = initiator;
              number = number;
              from = from;
              to = to;
            } ∷ []) }
        ensures err { OnErr result (self.new ≡ self.old) }
    {
        let message = Message {
            kind,
            initiator,
            number,
            from,
            to,
        };
        self.messages.push_back(message)?;
        Ok(())
    }

    /// Adds the sender's query to each of these, in their order. A lone one, as most processes send, goes in by itself: to
    /// begin an extension takes longer than that.
    #[inline(always)]
    pub(crate) fn add_queries(&mut self, sender: Sender, receivers: &[u32]) -> Allocated<()>
        ensures ok { OnOk result (self.new ≡ self.old
            ++ map (λ (r : ℕ). query sender.initiator sender.number sender.process r)
            receivers.now) }
    {
        match receivers {
            [receiver] => self.add(sender.message(Kind::Query, *receiver)),
            _ => self.extend(sender.initiator, sender.number, sender.process, receivers),
        }
    }

    /// `add_queries` of any number, by an extension of the queue. It takes the sender in its parts, as `add_growing` does
    /// the message.
    #[inline(never)]
    fn extend(
        &mut self,
        initiator: u32,
        number: u32,
        process: u32,
        receivers: &[u32],
    ) -> Allocated<()>
        ensures ok { OnOk result (self.new ≡ self.old
            ++ map (λ (r : ℕ). query initiator number process r) receivers.now) }
    {
        let sender = Sender {
            initiator,
            number,
            process,
        };
        if self.messages.len() >= FEW && self.messages.capacity() < MAX_DEPENDENCIES {
            prepare_queue(&mut self.messages, MAX_DEPENDENCIES);
        }
        let queries = receivers.iter().map(|to| sender.message(Kind::Query, *to));
        self.messages.extend(queries)?;
        Ok(())
    }

    /// Removes all messages, and keeps the memory.
    pub(crate) fn clear(&mut self)
        ensures { self.new ≡ [] }
    {
        self.messages.clear();
    }

    /// Takes the message at place `choice` modulo the number of messages; the others keep their order. It takes
    /// constant time at choice 0, and else at most linear time.
    #[inline(always)]
    pub fn take(&mut self, choice: u64) -> Option<Message>
        ensures none { IsNone result ↔ (self.old ≡ []) }
        ensures taken { IfSome result (λ m.
            slice_get self.old (choice % length self.old) ≡ Some m) }
        ensures rest { IfSome result (λ m.
            self.new ≡ remove self.old (choice % length self.old)) }
        ensures unchanged { IfNone result (self.new ≡ self.old) }
    {
        if choice != 0 {
            self.bring_to_front(choice);
        }
        self.messages.pop_front()
    }

    /// Puts the message that the choice names before the others. It stands apart, so that the loop of a run has the first
    /// message's way alone in it.
    #[inline(never)]
    pub(crate) fn bring_to_front(&mut self, choice: u64)
        ensures none { self.old ≡ [] → self.new ≡ [] }
        ensures first { (m : Message) → slice_get self.old (choice % length self.old) ≡ Some m
            → self.new ≡ m ∷ remove self.old (choice % length self.old) }
    {
        if self.is_empty() {
            return;
        }
        let place = choice % self.len() as u64;
        if let Some(message) = self.messages.remove(place as usize) {
            self.messages.push_front_reserved(message);
        }
    }
}

impl PartialEq for Bag {
    ghost eq = { pointwise of_message.eq };

    ghost laws = { Prim.search (comparing, rules, laws_of_message) };

    fn eq(&self, other: &Bag) -> bool {
        self.messages == other.messages
    }
}

impl Eq for Bag {
    ghost laws = { Prim.search (comparing, rules, laws_of_message) };
}
