//! What is kept of a run that has ended.

ghost use Rattle.std.specs.Prelude.{◌≡◌, ◌==◌};
ghost use Rattle.cmh_run.specs.Comparisons.{comparing, eq_of_both, laws_of_delivery, laws_of_ending, of_delivery, of_ending, on, pointwise, rules};
ghost use Rattle.cmh_run.specs.Prelude.{Run};
ghost use Rattle.cmh_run.specs.Run.{verdict_of};

use crate::{Delivery, Ending, Log, ProcessList};
use cmh_graph::Verdict;
use std::marker::Model;

/// A run that has ended. Its deliveries are kept in an `L`, and the processes that engaged in an `E`.
#[derive(Clone, Debug, Drop)]
pub struct RunLog<L: Log = Vec<Delivery>, E: ProcessList = Vec<u32>> {
    pub(crate) initiator: u32,
    pub(crate) log: L,
    pub(crate) ending: Ending,
    pub(crate) engaged: E,
    pub(crate) restarted: u32,
}

impl<L: Log, E: ProcessList> Model for RunLog<L, E> {
    ghost Value = { Run };

    ghost view = { λ r. record {
      initiator = r.initiator;
      log = L.deliveries r.log;
      ending = r.ending;
      engaged = E.processes r.engaged;
      restarted = r.restarted;
    } };
}

impl<L: Log, E: ProcessList> RunLog<L, E> {
    /// The initiator, by its index in the graph.
    pub fn initiator(&self) -> u32
        ensures { result ≡ self.now.initiator }
    {
        self.initiator
    }

    /// How the run ended. `verdict` says what that means for the initiator.
    pub fn ending(&self) -> Ending
        ensures { result ≡ self.now.ending }
    {
        self.ending
    }

    /// How often the initiator started again.
    pub fn restarted(&self) -> u32
        ensures { result ≡ self.now.restarted }
    {
        self.restarted
    }

    /// What the run says of its initiator.
    pub fn verdict(&self) -> Verdict
        ensures { result ≡ verdict_of self.now.ending }
    {
        match self.ending {
            Ending::Declared => Verdict::Deadlocked,
            Ending::AtRest | Ending::CutFree(_) => Verdict::Free,
        }
    }
}

impl<L: Log> RunLog<L> {
    /// The processes that engaged in the computation of the last start, in order: none where the initiator is awake,
    /// else the initiator first.
    pub fn engaged(&self) -> &[u32]
        ensures { result.now ≡ self.now.engaged }
    {
        &self.engaged
    }

    /// The same run, with its engaged processes in a list of any kind.
    pub fn with_list<E: ProcessList>(self) -> RunLog<L, E>
        ensures { result ≡ self }
    {
        RunLog {
            initiator: self.initiator,
            log: self.log,
            ending: self.ending,
            engaged: E::of(self.engaged),
            restarted: self.restarted,
        }
    }
}

impl RunLog {
    /// The deliveries, in their order.
    pub fn log(&self) -> &[Delivery]
        ensures { result.now ≡ self.now.log }
    {
        &self.log
    }
}

impl PartialEq for RunLog {
    ghost eq = { eq_of_both (on (λ r. r.initiator) ◌==◌)
        (eq_of_both (on (λ r. r.log) (pointwise of_delivery.eq))
        (eq_of_both (on (λ r. r.ending) of_ending.eq)
        (eq_of_both (on (λ r. r.engaged) (pointwise ◌==◌)) (on (λ r. r.restarted) ◌==◌)))) };

    ghost laws = { Prim.search (comparing, rules, laws_of_delivery, laws_of_ending) depth 9 };

    fn eq(&self, other: &RunLog) -> bool {
        self.initiator == other.initiator
            && self.log == other.log
            && self.ending == other.ending
            && self.engaged == other.engaged
            && self.restarted == other.restarted
    }
}

impl Eq for RunLog {
    ghost laws = { Prim.search (comparing, rules, laws_of_delivery, laws_of_ending) depth 9 };
}
