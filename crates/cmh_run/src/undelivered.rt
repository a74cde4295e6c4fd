//! The undelivered messages of one computation, as a set.
//!
//! It is an ordered set, not a hashed one: logs come from anywhere, and could be made to collide.

ghost use Rattle.std.specs.Prelude.{◌≡◌, ◌↔◌, false, not, ◌&&◌, ◌||◌, IsTrue, OnOk};
ghost use Rattle.cmh_run.specs.CheckState.{UndeliveredState};
ghost use Rattle.cmh_run.specs.Prelude.{Message, goes_like, is_waiting};

use cmh_memory::Allocated;
use cmh_process::{Kind, Message};
use std::alloc::Global;
use std::collections::BTreeSet;
use std::marker::Model;

/// The undelivered messages of one computation, each by its kind, its sender and its receiver: no two are alike.
#[derive(Drop)]
pub(crate) struct Undelivered {
    queries: BTreeSet<(u32, u32)>,
    replies: BTreeSet<(u32, u32)>,
}

impl Model for Undelivered {
    ghost Value = { UndeliveredState };

    ghost view = { λ u. record { queries = u.queries.keys; replies = u.replies.keys } };
}

impl Undelivered {
    /// An empty set.
    pub(crate) fn new(alloc: Global) -> Undelivered
        ensures { (m : Message) → is_waiting result m ≡ false }
    {
        Undelivered {
            queries: BTreeSet::new(alloc),
            replies: BTreeSet::new(alloc),
        }
    }

    /// Whether the set is empty.
    pub(crate) fn is_empty(&self) -> bool
        ensures { IsTrue result ↔ ((m : Message) → is_waiting self.now m ≡ false) }
    {
        self.queries.is_empty() && self.replies.is_empty()
    }

    /// Adds a message, in time logarithmic in their number. Where it is there already, nothing changes.
    pub(crate) fn add(&mut self, message: Message) -> Allocated<()>
        ensures ok { OnOk result ((m : Message) →
            is_waiting self.new m ≡ (goes_like message m || is_waiting self.old m)) }
    {
        let ends = (message.from, message.to);
        match message.kind {
            Kind::Query => self.queries.insert(ends)?,
            Kind::Reply => self.replies.insert(ends)?,
        };
        Ok(())
    }

    /// Takes the message out, if it is there, in time logarithmic in their number.
    pub(crate) fn take(&mut self, message: Message) -> bool
        ensures found { result ≡ is_waiting self.old message }
        ensures rest { (m : Message) → is_waiting self.new m
            ≡ (not (goes_like message m) && is_waiting self.old m) }
    {
        let ends = (message.from, message.to);
        match message.kind {
            Kind::Query => self.queries.remove(&ends),
            Kind::Reply => self.replies.remove(&ends),
        }
    }
}
