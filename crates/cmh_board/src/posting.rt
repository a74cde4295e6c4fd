//! What one run posts on the board.

ghost use Rattle.std.specs.Prelude.{◌≡◌};
ghost use Rattle.cmh_graph.specs.Graph.{Graph};
ghost use Rattle.cmh_run.specs.Run.{TellsTruth};
ghost use Rattle.cmh_board.specs.Posting.{posting_of, IsTruth};

use cmh_graph::Verdict;
use cmh_run::{Log, RunLog};
use std::marker::Model;

/// What one run says of processes: one verdict, and the processes that have it. It borrows the run.
#[derive(Drop)]
pub struct Posting<'a> {
    engaged: &'a [u32],
    initiator: [u32; 1],
    verdict: Verdict,
}

impl<'a> Model for Posting<'a> {
    ghost use Rattle.cmh_board.specs.Posting.{PostingValue, spoken_of};

    ghost Value = { PostingValue };

    ghost view = { λ p. record {
      processes = spoken_of p.verdict p.initiator p.engaged.now;
      verdict = p.verdict;
    } };
}

impl<'a> Posting<'a> {
    /// All engaged processes, as deadlocked, where the run is declared. Else the initiator alone, as free.
    #[tactic(auto, using(crate::proofs::Lists::one_is_distinct))]
    pub fn of_run<L: Log>(run: &'a RunLog<L>) -> Posting<'a>
        ensures whole { result ≡ posting_of run.now }
        ensures truth { (g : Graph) → TellsTruth g run.now → IsTruth g result }
    {
        Posting {
            engaged: run.engaged(),
            initiator: [run.initiator()],
            verdict: run.verdict(),
        }
    }

    /// The verdict that all its processes have.
    pub(crate) fn verdict(&self) -> Verdict
        ensures { result ≡ self.now.verdict }
    {
        self.verdict
    }

    /// The processes that it is about: of a deadlocked run all that engaged, else its initiator.
    pub(crate) fn processes(&self) -> &[u32]
        ensures { result.now ≡ self.now.processes }
    {
        match self.verdict {
            Verdict::Deadlocked => self.engaged,
            Verdict::Free => &self.initiator,
        }
    }
}
