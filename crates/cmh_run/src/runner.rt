//! Runs one after another, in memory that is kept from one to the next.

ghost use Rattle.std.specs.Prelude.{◌≡◌, [], Some, ◌*◌, ◌≤◌, ◌↔◌, length, IfOk, IfErr, IsTrue, OnErr, OnOk, List, ℕ};
ghost use Rattle.cmh_run.specs.Prelude.{AskedInPart, asks_of, AsksOn, AsksOnInPart, Config, dependency_count, Graph, HasNoHints, IsAccepted, IsAtEnd, IsFirstRunFault, IsRunAnswer, IsRunFault, IsRunState, IsStrictlyIncreasing, IsUnderWay, nothing_yet};

use crate::network::Network;
use crate::progress::Progress;
use crate::{Hints, Log, MAX_CHOICES, MAX_RESTARTS, RunFault, RunLog};
use cmh_graph::WaitGraph;
use cmh_memory::Allocated;
use std::alloc::Global;
use std::marker::Model;

/// Makes one run after another over a graph. Its network is made at the first run, and used again: each later run takes
/// time and memory for the processes that take part in it, however many the graph has.
#[derive(Drop)]
pub struct Runner<'a> {
    graph: &'a WaitGraph,
    network: Option<Network<'a>>,
}

impl<'a> Model for Runner<'a> {
    ghost Value = { Graph };

    ghost view = { λ r. r.graph.now };

    ghost invariant = { λ r. (c : Config) → r.network ≡ Some c → c ≡ nothing_yet r.graph.now };
}

impl<'a> Runner<'a> {
    /// Takes no memory yet.
    pub fn new(graph: &'a WaitGraph) -> Runner<'a>
        ensures { result ≡ graph.now }
    {
        Runner {
            graph,
            network: None,
        }
    }

    /// As the function `run`, with a log of any kind: in `NoLog` no delivery takes memory.
    pub fn run<L: Log, H: Hints>(
        &mut self,
        alloc: Global,
        initiator: u32,
        choices: &[u64],
        hints: &mut H,
    ) -> Result<RunLog<L>, RunFault>
        requires { H.speaks_of hints.old self.old }
        ensures same { self.new ≡ self.old }
        ensures run { IfOk result (IsRunAnswer self.old initiator choices.now []) }
        ensures once { IfOk result (λ r. r.restarted ≡ 0) }
        ensures short { IfOk result (λ r. length r.log ≤ 2 * dependency_count self.old) }
        ensures fault { IfErr result (IsRunFault self.old initiator choices.now []) }
        ensures silent { H.is_silent hints.old → IfOk result (λ r. HasNoHints r.log) }
        ensures asked { IfOk result (λ r.
            H.has_asked hints.old hints.new (asks_of self.old initiator r.log)) }
        ensures asked_in_part { OnErr result (AskedInPart
            (H.has_asked hints.old hints.new) self.old initiator choices.now []) }
        ensures kept { H.keeps hints.old hints.new }
    {
        self.run_again(alloc, initiator, choices, hints, &[])
    }

    /// As the function `run_again`, with a log of any kind.
    pub fn run_again<L: Log, H: Hints>(
        &mut self,
        alloc: Global,
        initiator: u32,
        choices: &[u64],
        hints: &mut H,
        restarts: &[u32],
    ) -> Result<RunLog<L>, RunFault>
        requires { H.speaks_of hints.old self.old }
        ensures same { self.new ≡ self.old }
        ensures run { IfOk result (IsRunAnswer self.old initiator choices.now restarts.now) }
        ensures fault { IfErr result (IsRunFault self.old initiator choices.now restarts.now) }
        ensures silent { H.is_silent hints.old → IfOk result (λ r. HasNoHints r.log) }
        ensures asked { IfOk result (λ r.
            H.has_asked hints.old hints.new (asks_of self.old initiator r.log)) }
        ensures asked_in_part { OnErr result (AskedInPart
            (H.has_asked hints.old hints.new) self.old initiator choices.now restarts.now) }
        ensures kept { H.keeps hints.old hints.new }
    {
        judge(self.graph, initiator, choices, restarts)?;
        let network = self.take_network(alloc)?;
        let (log, network) = follow(
            alloc, self.graph, network, initiator, choices, hints, restarts,
        )?;
        self.network = Some(network);
        Ok(log)
    }

    /// The network of the run before, or a new one.
    fn take_network(&mut self, alloc: Global) -> Allocated<Network<'a>>
        ensures same { self.new ≡ self.old }
        ensures blank { IfOk result (λ n. n ≡ nothing_yet self.old) }
    {
        match self.network.take() {
            Some(network) => Ok(network),
            None => Network::nothing_yet(alloc, self.graph),
        }
    }
}

/// Refuses a run for the first reason why there is none.
fn judge(
    graph: &WaitGraph,
    initiator: u32,
    choices: &[u64],
    restarts: &[u32],
) -> Result<(), RunFault>
    ensures ok { IfOk result (λ u. IsAccepted graph.now initiator choices.now restarts.now) }
    ensures fault { IfErr result (λ e.
        IsFirstRunFault graph.now initiator choices.now restarts.now e) }
{
    if initiator >= graph.len() || !graph.is_idle(initiator) {
        return Err(RunFault::NotIdle);
    }
    if choices.len() > MAX_CHOICES {
        return Err(RunFault::TooManyChoices);
    }
    if restarts.len() > MAX_RESTARTS || !is_rising(restarts) {
        return Err(RunFault::BadRestarts);
    }
    Ok(())
}

/// Whether each is greater than the one before it.
fn is_rising(list: &[u32]) -> bool
    ensures { IsTrue result ↔ IsStrictlyIncreasing list.now }
{
    for i in 1..list.len() {
        if list[i - 1] >= list[i] {
            return false;
        }
    }
    true
}

/// The run that was accepted.
fn follow<'g, L: Log, H: Hints>(
    alloc: Global,
    graph: &'g WaitGraph,
    network: Network<'g>,
    initiator: u32,
    choices: &[u64],
    hints: &mut H,
    restarts: &[u32],
) -> Allocated<(RunLog<L>, Network<'g>)>
    requires blank { network ≡ nothing_yet graph.now }
    requires speaks { H.speaks_of hints.old graph.now }
    requires accepted { IsAccepted graph.now initiator choices.now restarts.now }
    ensures run { IfOk result (λ r.
        IsRunAnswer graph.now initiator choices.now restarts.now r.0) }
    ensures silent { H.is_silent hints.old → IfOk result (λ r. HasNoHints r.0.log) }
    ensures asked { IfOk result (λ r.
        H.has_asked hints.old hints.new (asks_of graph.now initiator r.0.log)) }
    ensures asked_in_part { OnErr result (AskedInPart
        (H.has_asked hints.old hints.new) graph.now initiator choices.now restarts.now) }
    ensures kept { H.keeps hints.old hints.new }
    ensures blank { IfOk result (λ r. r.1 ≡ nothing_yet graph.now) }
{
    let mut progress = Progress::begin(alloc, graph, network, initiator, choices, restarts)?;
    deliver_all(&mut progress, hints)?;
    Ok(progress.finish(alloc))
}

/// Makes one delivery after another, until the run is over. It stands apart, since there its loop is shorter and
/// faster than in its caller.
#[inline(never)]
fn deliver_all<L: Log, H: Hints>(progress: &mut Progress<L>, hints: &mut H) -> Allocated<()>
    requires under_way { (restarts : List ℕ) × IsUnderWay restarts progress.old }
    requires speaks { H.speaks_of hints.old progress.old.graph }
    ensures same { OnOk result
        (IsRunState progress.old.graph progress.old.initiator progress.old.choices progress.new) }
    ensures at_end { OnOk result ((restarts : List ℕ)
        → IsUnderWay restarts progress.old → IsAtEnd restarts progress.new) }
    ensures silent { OnOk result (H.is_silent hints.old
        → HasNoHints progress.old.log → HasNoHints progress.new.log) }
    ensures asked { OnOk result ((restarts : List ℕ) → IsUnderWay restarts progress.old
        → AsksOn (H.has_asked hints.old hints.new) progress.old.graph progress.old.initiator
        progress.old.log progress.new.log) }
    ensures asked_in_part { OnErr result ((restarts : List ℕ)
        → IsUnderWay restarts progress.old
        → AsksOnInPart (H.has_asked hints.old hints.new) restarts progress.old) }
    ensures kept { H.keeps hints.old hints.new }
{
    while progress.deliver_next(hints)? {}
    Ok(())
}
