//! Two threads over the same words.

ghost use Rattle.cmh_rw.specs.Seats.{IsSeatOf, IsRwSeatAway};

use super::expect_eq;
use crate::graphs::{TWO_IN_A_CYCLE, graph_of};
use cmh_rw::{Entry, RwSeat, RwWords};
use std::test::Fail;
use std::thread::{Threads, join};

/// Tries to read `turns` times.
fn read_turns(words: &RwWords, seat: RwSeat, turns: u32) -> RwSeat
    requires own { IsSeatOf words.now seat }
    requires away { IsRwSeatAway seat }
    ensures own { IsSeatOf words.now result }
    ensures away { IsRwSeatAway result }
{
    let mut seat = seat;
    for _ in 0..turns {
        if words.try_read(&mut seat) == Entry::Held {
            words.end_read(&mut seat);
        }
    }
    seat
}

/// Tries to write `turns` times.
fn write_turns(words: &RwWords, seat: RwSeat, turns: u32) -> RwSeat
    requires own { IsSeatOf words.now seat }
    requires away { IsRwSeatAway seat }
    ensures own { IsSeatOf words.now result }
    ensures away { IsRwSeatAway result }
{
    let mut seat = seat;
    for _ in 0..turns {
        if words.try_write(&mut seat) == Entry::Held {
            words.end_write(&mut seat);
        }
    }
    seat
}

/// One thread tries to read while another tries to write.
fn both<R: Threads + Sync>(
    rt: &R,
    words: &RwWords,
    x: RwSeat,
    y: RwSeat,
    turns: u32,
) -> (RwSeat, RwSeat)
    requires own { IsSeatOf words.now x × IsSeatOf words.now y }
    requires away { IsRwSeatAway x × IsRwSeatAway y }
    ensures own { IsSeatOf words.now result.0 × IsSeatOf words.now result.1 }
    ensures away { IsRwSeatAway result.0 × IsRwSeatAway result.1 }
{
    join(
        rt,
        || -> RwSeat
            requires { IsSeatOf words.now x × IsRwSeatAway x }
            ensures { IsSeatOf words.entry.now result × IsRwSeatAway result }
        { read_turns(words, x, turns) },
        || -> RwSeat
            requires { IsSeatOf words.now y × IsRwSeatAway y }
            ensures { IsSeatOf words.entry.now result × IsRwSeatAway result }
        { write_turns(words, y, turns) },
    )
}

#[test]
fn two_threads_take_turns(rt: HostRuntime) -> Result<(), Fail> {
    let graph = graph_of(rt.alloc(), &TWO_IN_A_CYCLE, &[])?;
    let (words, mut x) = RwWords::open(rt.alloc(), &graph)?;
    let Some(y) = words.split(&mut x) else {
        panic!(rt; "a seat with the whole share is split")
    };
    let (mut x, y) = both(&rt, &words, x, y, 10_000);
    words.join(&mut x, y);
    expect_eq(&rt, x.share(), 64);
    expect_eq(&rt, words.close_with(x).word(0), Some(0));
    Ok(())
}
