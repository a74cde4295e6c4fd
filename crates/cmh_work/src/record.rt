//! What is found of a wait graph, process by process.

ghost use Rattle.std.specs.Prelude.{◌≡◌};

use cmh_board::Row;
use cmh_graph::Verdict;
use cmh_run::{Log, ProcessList, RunLog};

/// What is found of one idle process, with its run as an `R` and its path as a `P`.
#[derive(PartialEq, Eq, Debug, Drop)]
pub struct Record<R = RunLog, P = Vec<u32>> {
    pub initiator: u32,
    pub verdict: Verdict,
    pub source: Origin<R>,
    pub shape: Shape<P>,
}

/// How a worker knows a verdict.
#[derive(PartialEq, Eq, Debug, Drop)]
pub enum Origin<R = RunLog> {
    /// By this run of the process, which it posted.
    FromRun(R),
    /// By the row of this number of the history, from 0.
    FromBoard(u32),
}

/// What a verdict looks like in the graph.
#[derive(PartialEq, Eq, Debug, Drop)]
pub enum Shape<P = Vec<u32>> {
    /// The chosen path of a free process to an awake one.
    Path(P),
    /// The leader of a deadlocked process's group: the least of those that it reaches and that reach it.
    Leader(u32),
}

/// What is found of a wait graph, with each run as an `R` and each path as a `P`.
#[derive(PartialEq, Eq, Debug, Drop)]
pub struct Analysis<R = RunLog, P = Vec<u32>> {
    pub(crate) records: Vec<Record<R, P>>,
    pub(crate) history: Vec<Row>,
}

impl<L: Log, E: ProcessList, P: ProcessList> Analysis<RunLog<L, E>, P> {
    ghost use Rattle.cmh_work.specs.Analysis.{records_of, history_of};

    /// A record of each idle process, by rising index.
    pub fn records(&self) -> &[Record<RunLog<L, E>, P>]
        ensures { result.now ≡ records_of self.now }
    {
        &self.records
    }

    /// The verdicts, in the order in which they were posted.
    pub fn history(&self) -> &[Row]
        ensures { result.now ≡ history_of self.now }
    {
        &self.history
    }
}
