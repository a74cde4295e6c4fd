//! What a process puts into the bag by an action.

ghost use Rattle.std.specs.Prelude.{◌≡◌, ◌++◌, OnOk};
ghost use Rattle.cmh_run.specs.Config.{messages_of};

use crate::pending::Pending;
use cmh_memory::Allocated;
use cmh_process::{Action, Kind, Message};

/// The process that acts, and the computation in which it does.
#[derive(Clone, Copy)]
pub(crate) struct Sender {
    pub(crate) initiator: u32,
    pub(crate) number: u32,
    pub(crate) process: u32,
}

impl Sender {
    /// Sends what the action says: queries in the order of the dependents, or one reply.
    #[inline(always)]
    pub(crate) fn send<'g>(
        self,
        bag: &mut Pending<'g>,
        dependents: &'g [u32],
        action: Action,
    ) -> Allocated<()>
        ensures ok { OnOk result (bag.new ≡ bag.old
            ++ messages_of self.initiator self.number self.process dependents.now action) }
    {
        match action {
            Action::Engage => bag.add_queries(self, dependents),
            Action::ReplyTo(to) => bag.add_reply(self, to),
            Action::Nothing | Action::Declare => Ok(()),
        }
    }

    /// A message of the sender to that process, in its computation.
    pub(crate) fn message(self, kind: Kind, to: u32) -> Message
        ensures { result ≡ record {
          kind = kind;
          initiator = self.initiator;
          number = self.number;
          from = self.process;
          to = to;
        } }
    {
        Message {
            kind,
            initiator: self.initiator,
            number: self.number,
            from: self.process,
            to,
        }
    }
}
