//! Gates that keep workers waiting for one another. They show what no contract says: that the workers run at once, and
//! make the runs themselves.

use super::expect;
use super::wanted::is_from_row;
use crate::graphs::{CYCLE_AND_FOLLOWER, TWO_IN_A_CYCLE, Waits, graph_of};
use cmh_work::{Analysis, Gate, Plan, analyse};
use std::sync::Wait;
use std::sync::atomic::{AtomicU64, Ordering};
use std::test::Fail;
use std::thread::Threads;

/// The most turns that a gate waits for.
const TURNS: u64 = 1_000_000_000;

/// Turns until the word isn't 0. Answers whether it was seen so within the limit.
fn is_seen(word: &AtomicU64) -> bool {
    for _ in 0..TURNS {
        if word.load(Ordering::SeqCst) != 0 {
            return true;
        }
    }
    false
}

fn note(word: &AtomicU64) {
    word.store(1, Ordering::SeqCst);
}

fn is_noted(word: &AtomicU64) -> bool {
    word.load(Ordering::SeqCst) != 0
}

fn analysis<R: Threads + Wait + Sync + AllocGlobal, P: Gate>(
    rt: &R,
    waits: Waits,
    cuts: &[u64],
    gate: &P,
) -> Result<Analysis, Fail> {
    let graph = graph_of(rt.alloc(), waits, &[])?;
    let plan = Plan::new(rt.alloc(), 2, cuts, &[])?;
    Ok(analyse(rt, rt.alloc(), &graph, &plan, gate)?)
}

/// The first to pass waits until a second one has come.
#[derive(Drop)]
struct Pair {
    first: AtomicU64,
    second: AtomicU64,
    late: AtomicU64,
}

impl Gate for Pair {
    fn pass(&self, _initiator: u32) {
        if self.first.swap(1, Ordering::SeqCst) != 0 {
            note(&self.second);
        } else if !is_seen(&self.second) {
            note(&self.late);
        }
    }
}

#[test]
fn two_workers_run_at_once(rt: HostRuntime) -> Result<(), Fail> {
    let gate = Pair {
        first: AtomicU64::new(0),
        second: AtomicU64::new(0),
        late: AtomicU64::new(0),
    };
    analysis(&rt, &TWO_IN_A_CYCLE, &[1], &gate)?;
    expect(&rt, is_noted(&gate.second) && !is_noted(&gate.late));
    Ok(())
}

/// Process 0 waits for process 3, and process 3 for process 1.
#[derive(Drop)]
struct Crossing {
    first_left: AtomicU64,
    second_came: AtomicU64,
    second_came_early: AtomicU64,
    last_came: AtomicU64,
    late: AtomicU64,
}

impl Gate for Crossing {
    fn pass(&self, initiator: u32) {
        match initiator {
            0 => {
                if !is_seen(&self.last_came) {
                    note(&self.late);
                }
                if is_noted(&self.second_came) {
                    note(&self.second_came_early);
                }
                note(&self.first_left);
            }
            1 => {
                if !is_noted(&self.first_left) {
                    note(&self.second_came_early);
                }
                note(&self.second_came);
            }
            3 => {
                note(&self.last_came);
                if !is_seen(&self.second_came) {
                    note(&self.late);
                }
            }
            _ => {}
        }
    }
}

/// p@a: q; q@a: p; r@b: p; s@b: p. The chunk of p and q and that of r and s are worked on at once, each in its order.
/// Once s has come, r's run is posted, so that p stands in its row 1.
#[test]
fn two_workers_make_the_runs(rt: HostRuntime) -> Result<(), Fail> {
    let waits: [Option<&[u32]>; 4] = [Some(&[1]), Some(&[0]), Some(&[0]), Some(&[0])];
    let gate = Crossing {
        first_left: AtomicU64::new(0),
        second_came: AtomicU64::new(0),
        second_came_early: AtomicU64::new(0),
        last_came: AtomicU64::new(0),
        late: AtomicU64::new(0),
    };
    let analysis = analysis(&rt, &waits, &[2], &gate)?;
    expect(&rt, !is_noted(&gate.late));
    expect(&rt, !is_noted(&gate.second_came_early));
    let is_by_the_other = |record| is_from_row(record, 1);
    expect(&rt, analysis.records().first().is_some_and(is_by_the_other));
    Ok(())
}

/// Process 0 waits for process 2.
#[derive(Drop)]
struct Claimed {
    last_came: AtomicU64,
    late: AtomicU64,
}

impl Gate for Claimed {
    fn pass(&self, initiator: u32) {
        if initiator == 2 {
            note(&self.last_came);
        }
        if initiator == 0 && !is_seen(&self.last_came) {
            note(&self.late);
        }
    }
}

#[test]
fn chunks_are_claimed(rt: HostRuntime) -> Result<(), Fail> {
    let gate = Claimed {
        last_came: AtomicU64::new(0),
        late: AtomicU64::new(0),
    };
    analysis(&rt, &CYCLE_AND_FOLLOWER, &[1, 1], &gate)?;
    expect(&rt, is_noted(&gate.last_came) && !is_noted(&gate.late));
    Ok(())
}
