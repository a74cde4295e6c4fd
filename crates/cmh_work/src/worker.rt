//! One worker, which draws chunks until none is left.
//!
//! It yields its processor once, after its first verdict: workers that are far off in the list then make their first
//! runs, which are the long ones, and post what cuts the others short. It does so at no other time, since each time it
//! may lose its processor to another program.

ghost use Rattle.std.specs.Prelude.{◌≡◌, ◌++◌, map, All, IfOk, IfSome, OnOk, IsTrue, Some};
ghost use Rattle.cmh_graph.specs.Graph.{is_idle};
ghost use Rattle.cmh_graph.specs.Verdict.{IsVerdict};
ghost use Rattle.cmh_rw.specs.History.{fold_at};
ghost use Rattle.cmh_run.specs.Asks.{asks_of};
ghost use Rattle.cmh_run.specs.Run.{verdict_of, TellsTruth};
ghost use Rattle.cmh_board.specs.Board.{board_view, SeesMore};
ghost use Rattle.cmh_board.specs.Hints.{IsLook, Looks};
ghost use Rattle.cmh_work.specs.Record.{IsRunFor};
ghost use Rattle.cmh_work.specs.Finding.{finding_initiator, Accounts, IsAnswered, IsFound};
ghost use Rattle.cmh_work.specs.Work.{ComesBack, GoesOn};
ghost use Rattle.cmh_work.specs.Working.{IsMadeFor, AreSeated, AreNew, AreBack, IsWorked};

use crate::Gate;
use crate::chunks::chunk_at;
use crate::finding::{Answer, Finding};
use crate::job::{Job, Seats, Shared};
use crate::leaders::no_leaders;
use cmh_board::{BoardHints, Look, Posting};
use cmh_graph::{Verdict, WaitGraph};
use cmh_memory::{Allocated, refusal_of};
use cmh_plan::Plan;
use cmh_run::{Log, ProcessList, RunLog, Runner};
use std::alloc::Global;
use std::marker::Model;
use std::sync::Wait;
use std::thread::yield_now;

/// What a worker reads, and what it keeps from one initiator to the next.
#[derive(Drop)]
struct Worker<'a> {
    job: &'a Job<'a>,
    runner: Runner<'a>,
    /// The leaders that it has found.
    leaders: Vec<Option<u32>>,
    seats: Seats,
}

impl<'a> Model for Worker<'a> {
    ghost use Rattle.cmh_work.specs.Work.{Work};

    ghost Value = { Work };

    ghost use Rattle.cmh_work.specs.Worker.{IsReady};

    ghost view = { λ w. record { job = w.job.now; seats = w.seats } };

    ghost invariant = { IsReady };
}

impl<'a> Worker<'a> {
    /// A run of the initiator, which asks the board as it goes.
    fn run_of<L: Log>(&mut self, alloc: Global, initiator: u32) -> Allocated<RunLog<L>>
        requires idle { IsTrue (is_idle self.old.job.graph.now initiator) }
        ensures on { GoesOn self.old self.new }
        ensures sees { SeesMore
            (board_view self.old.seats.board) (board_view self.new.seats.board) }
        ensures run { IfOk result (λ r. IsRunFor
            self.old.job.graph.now self.old.job.plan.now.choices initiator (verdict_of r.ending) r) }
        ensures truth { IfOk result (TellsTruth self.old.job.graph.now) }
        ensures looks { IfOk result (λ r. Looks (board_view self.old.seats.board)
            (board_view self.new.seats.board) (asks_of self.old.job.graph.now initiator r.log)) }
    {
        let job = self.job;
        let mut hints = BoardHints::new(&job.shared.board, &mut self.seats.board);
        self.runner
            .run(alloc, initiator, job.plan.choices(), &mut hints)
            .map_err(|fault| refusal_of(fault))
    }

    /// What the board says of the initiator. One look.
    fn look(&mut self, initiator: u32) -> Option<Verdict>
        requires idle { IsTrue (is_idle self.old.job.graph.now initiator) }
        ensures on { GoesOn self.old self.new }
        ensures look { IsLook (board_view self.old.seats.board)
            (board_view self.new.seats.board) initiator result }
        ensures truth { IfSome result (IsVerdict self.old.job.graph.now initiator) }
        ensures stands { IfSome result (λ v.
            fold_at (board_view self.new.seats.board).seen initiator ≡ Some v) }
    {
        let job = self.job;
        match job.shared.board.look(&mut self.seats.board, initiator) {
            Look::Known(verdict) => Some(verdict),
            Look::Unknown | Look::Busy(_) => None,
        }
    }

    /// The verdict of an initiator: the board's, or else that of a run, which is posted.
    fn ask<L: Log, E: ProcessList, R: Wait>(
        &mut self,
        rt: &R,
        alloc: Global,
        initiator: u32,
    ) -> Allocated<Answer<RunLog<L, E>>>
        requires idle { IsTrue (is_idle self.old.job.graph.now initiator) }
        ensures on { GoesOn self.old self.new }
        ensures answered { IfOk result (IsAnswered self.old.job.graph.now
            self.old.job.plan.now.choices initiator
            (board_view self.old.seats.board) (board_view self.new.seats.board)) }
    {
        let job = self.job;
        if let Some(verdict) = self.look(initiator) {
            return Ok(Answer { verdict, run: None });
        }
        let run: RunLog<L> = self.run_of(alloc, initiator)?;
        job.shared
            .board
            .post(rt, &mut self.seats.board, &Posting::of_run(&run));
        Ok(Answer {
            verdict: run.verdict(),
            run: Some(run.with_list()),
        })
    }

    /// What is found of one initiator.
    fn find_one<L: Log, E: ProcessList, P: ProcessList, R: Wait, G: Gate>(
        &mut self,
        rt: &R,
        alloc: Global,
        gate: &G,
        initiator: u32,
    ) -> Allocated<Finding<RunLog<L, E>, P>>
        requires idle { IsTrue (is_idle self.old.job.graph.now initiator) }
        ensures on { GoesOn self.old self.new }
        ensures found { IfOk result (IsFound P.processes self.old.job.graph.now
            self.old.job.plan.now.choices initiator
            (board_view self.old.seats.board) (board_view self.new.seats.board)) }
    {
        gate.pass(initiator);
        let Answer { verdict, run } = self.ask(rt, alloc, initiator)?;
        let job = self.job;
        let shape = job
            .shared
            .shapes
            .shape_of(alloc, job.graph, &mut self.leaders, initiator, verdict)?;
        Ok(Finding {
            initiator,
            verdict,
            run,
            shape,
        })
    }

    /// Adds what is found of each initiator of the chunk, in order. After the first of all it yields its processor once.
    fn find_each<L: Log, E: ProcessList, P: ProcessList, R: Wait, G: Gate>(
        &mut self,
        rt: &R,
        alloc: Global,
        gate: &G,
        found: &mut Vec<Finding<RunLog<L, E>, P>>,
        chunk: &[u32],
    ) -> Allocated<()>
        requires idle { All (λ p. IsTrue (is_idle self.old.job.graph.now p)) chunk.now }
        requires accounts { Accounts P.processes self.old.job.graph.now
            self.old.job.plan.now.choices (board_view self.old.seats.board) found.old.items }
        ensures on { GoesOn self.old self.new }
        ensures accounts { OnOk result (Accounts P.processes self.old.job.graph.now
            self.old.job.plan.now.choices (board_view self.new.seats.board) found.new.items) }
        ensures order { OnOk result (map finding_initiator found.new.items
            ≡ map finding_initiator found.old.items ++ chunk.now) }
    {
        for initiator in chunk {
            let finding = self.find_one(rt, alloc, gate, *initiator)?;
            found.push(finding)?;
            if found.len() == 1 {
                yield_now();
            }
        }
        Ok(())
    }

    /// Works on chunks until none is left, or memory is refused.
    fn draw_all<L: Log, E: ProcessList, P: ProcessList, R: Wait, G: Gate>(
        &mut self,
        rt: &R,
        alloc: Global,
        gate: &G,
    ) -> Allocated<Vec<Finding<RunLog<L, E>, P>>>
        requires new { AreNew self.old.seats }
        ensures back { ComesBack self.old self.new }
        ensures worked { IfOk result (λ found. IsWorked P.processes self.old.job.graph.now
            self.old.job.plan.now self.old.job.shared.now self.new.seats found.items) }
    {
        let job = self.job;
        let mut found = Vec::new(alloc);
        while let Some(number) = job.shared.tickets.draw(&mut self.seats.tickets) {
            self.find_each(rt, alloc, gate, &mut found, chunk_at(job, number as usize))?;
        }
        Ok(found)
    }
}

/// One worker. Its seats come back on every path.
pub(crate) fn work<L: Log, E: ProcessList, P: ProcessList, R: Wait, G: Gate>(
    rt: &R,
    alloc: Global,
    graph: &WaitGraph,
    plan: &Plan,
    shared: &Shared,
    gate: &G,
    seats: Seats,
) -> (Seats, Allocated<Vec<Finding<RunLog<L, E>, P>>>)
    requires made { IsMadeFor graph.now plan.now shared.now }
    requires sit { AreSeated shared.now seats }
    requires new { AreNew seats }
    ensures back { AreBack shared.now seats result.0 }
    ensures worked { IfOk result.1 (λ found.
        IsWorked P.processes graph.now plan.now shared.now result.0 found.items) }
{
    let job = Job {
        graph,
        plan,
        shared,
    };
    let leaders = match no_leaders(alloc, graph) {
        Ok(leaders) => leaders,
        Err(refused) => return (seats, Err(refused)),
    };
    let mut worker = Worker {
        job: &job,
        runner: Runner::new(graph),
        leaders,
        seats,
    };
    let found = worker.draw_all(rt, alloc, gate);
    (worker.seats, found)
}
