//! The processes of a network, which are made once and used for one run after another.
//!
//! Marks that are numbered by run wouldn't have to be cleared, but each look would compare numbers, and these run out.

ghost use Rattle.std.specs.Prelude.{◌≡◌, [], ◌∷◌, ◌++◌, ◌+◌, ◌<◌, ◌^◌, All, length, replicate, slice_set, IfOk, OnOk, if◌then◌else◌};
ghost use Rattle.cmh_graph.specs.Graph.{process_count};
ghost use Rattle.cmh_process.specs.Process.{new_proc, proc_started, start_action, engages, proc_queried, query_action, repeat_action, proc_replied, reply_action};
ghost use Rattle.cmh_run.specs.Prelude.{proc_at};
ghost use Rattle.cmh_run.specs.Procs.{AreFresh, AreTouched, ProcsView};

use cmh_graph::WaitGraph;
use cmh_memory::{Allocated, copies};
use cmh_process::{Action, Proc};
use std::alloc::Global;
use std::marker::Model;

/// All processes, and which of them have taken part since they were last cleared: those that are engaged in the last
/// computation, in order, and the others.
#[derive(Drop)]
pub(crate) struct Procs {
    all: Vec<Proc>,
    engaged: Vec<u32>,
    others: Vec<u32>,
}

impl Model for Procs {
    ghost Value = { ProcsView };

    ghost view = { λ p. record { procs = p.all.items; engaged = p.engaged.items } };

    ghost invariant = { λ p. AreTouched p.others.items p.engaged.items p.all.items };
}

impl Procs {
    /// The processes of a graph, which have heard of nothing.
    #[tactic(auto, using(crate::proofs::TouchedProcesses::none_touched))]
    pub(crate) fn new(alloc: Global, graph: &WaitGraph) -> Allocated<Procs>
        ensures { IfOk result (λ p. p ≡ record {
          procs = replicate (process_count graph.now) new_proc;
          engaged = [];
        }) }
    {
        Ok(Procs {
            all: copies(alloc, Proc::new(), graph.len() as usize, graph)?,
            engaged: Vec::new(alloc),
            others: Vec::new(alloc),
        })
    }

    /// Whether a query with this number engages the process.
    pub(crate) fn is_engaged_by(&self, k: u32, number: u32) -> bool
        requires { k < length self.now.procs }
        ensures { result ≡ engages (proc_at self.now.procs k) number }
    {
        self.all[k as usize].is_engaged_by(number)
    }

    /// The greatest number that the process has heard of.
    pub(crate) fn latest(&self, k: u32) -> u32
        requires { k < length self.now.procs }
        ensures { result ≡ (proc_at self.now.procs k).latest }
    {
        self.all[k as usize].latest
    }

    /// Whether the list of those that are engaged has to grow for one more. It is a hint, on which no proof rests.
    pub(crate) fn is_full(&self) -> bool {
        self.engaged.len() == self.engaged.capacity()
    }

    /// The initiator, which has `size` dependents, starts. It alone is engaged then.
    pub(crate) fn start(&mut self, initiator: u32, size: u32) -> Allocated<Action>
        requires within { initiator < length self.old.procs }
        requires next { (proc_at self.old.procs initiator).latest + 1 < 2 ^ 32 }
        ensures procs { OnOk result (self.new.procs
            ≡ slice_set self.old.procs initiator
            (proc_started (proc_at self.old.procs initiator) size)) }
        ensures engaged { OnOk result (self.new.engaged ≡ initiator ∷ []) }
        ensures action { IfOk result (λ action. action ≡ start_action size) }
    {
        self.others.append(&mut self.engaged)?;
        self.engaged.push(initiator)?;
        Ok(self.all[initiator as usize].start(size))
    }

    /// A query with this number has come to the process, which has `size` dependents. It joins those that are engaged if
    /// the number is that of the last computation.
    #[inline(always)]
    pub(crate) fn engage(
        &mut self,
        k: u32,
        number: u32,
        from: u32,
        size: u32,
        is_last: bool,
    ) -> Allocated<Action>
        requires { k < length self.old.procs }
        ensures procs { OnOk result (self.new.procs
            ≡ slice_set self.old.procs k
            (proc_queried (proc_at self.old.procs k) number from size)) }
        ensures engaged { OnOk result (self.new.engaged
            ≡ (if is_last then self.old.engaged ++ k ∷ [] else self.old.engaged)) }
        ensures action { IfOk result (λ action.
            action ≡ query_action (proc_at self.old.procs k) number from size) }
    {
        if is_last {
            self.engaged.push(k)?;
        } else {
            self.others.push(k)?;
        }
        Ok(self.all[k as usize].on_query(number, from, size))
    }

    /// What the process sends at a query with this number that doesn't engage it.
    pub(crate) fn answer(&self, k: u32, number: u32, from: u32) -> Action
        requires { k < length self.now.procs }
        ensures { result ≡ repeat_action (proc_at self.now.procs k) number from }
    {
        self.all[k as usize].answer(number, from)
    }

    /// A reply with this number has come to the process.
    #[tactic(auto, using(crate::proofs::TouchedProcesses::replied_in_vain))]
    pub(crate) fn reply(&mut self, k: u32, number: u32) -> Action
        requires { k < length self.old.procs }
        ensures procs { self.new.procs
            ≡ slice_set self.old.procs k (proc_replied (proc_at self.old.procs k) number) }
        ensures engaged { self.new.engaged ≡ self.old.engaged }
        ensures action { result ≡ reply_action (proc_at self.old.procs k) number }
    {
        self.all[k as usize].on_reply(number)
    }

    /// Makes all processes as if they had heard of nothing, in time linear in those that took part, and returns those
    /// that were engaged.
    pub(crate) fn clear(&mut self, alloc: Global) -> Vec<u32>
        ensures engaged { result.items ≡ self.old.engaged }
        ensures cleared { self.new
            ≡ record { procs = replicate (length self.old.procs) new_proc; engaged = [] } }
    {
        let engaged = std::mem::replace(&mut self.engaged, Vec::new(alloc));
        refresh(&mut self.all, &engaged);
        refresh(&mut self.all, &self.others);
        self.others.clear();
        engaged
    }
}

/// Makes these processes as if they had heard of nothing.
fn refresh(all: &mut Vec<Proc>, which: &[u32])
    requires { All (λ k. k < length all.old.items) which.now }
    ensures size { length all.new.items ≡ length all.old.items }
    ensures fresh { AreFresh which.now all.old.items all.new.items }
{
    for k in which {
        all[*k as usize] = Proc::new();
    }
}
