//! Events on a lock.

use super::{expect, expect_eq};
use cmh_rw::{Event, LockWorld, RwFault, SeatState, run_events};

/// A writer has to wait for a reader. Then the reader comes again, and retreats from the writer.
const LOCK_EVENTS: [Event; 5] = [
    Event::Admit(0),
    Event::TryWrite(1),
    Event::Leave(0),
    Event::TryWrite(1),
    Event::Admit(0),
];

#[test]
fn lock_events(rt: HostRuntime) -> Result<(), RwFault> {
    let mut world = LockWorld::new(rt.alloc(), 2)?;
    for event in LOCK_EVENTS {
        world.step(event);
    }
    expect_eq(&rt, (world.word(), world.seats()), (4_294_967_297, 2));
    expect_eq(&rt, world.state(0), Some(SeatState::Retreating));
    expect_eq(&rt, world.state(1), Some(SeatState::Writing));
    expect_eq(&rt, world.state(2), None);
    expect(&rt, run_events(rt.alloc(), 2, &LOCK_EVENTS)? == world);
    world.step(Event::EndWrite(1));
    expect(&rt, run_events(rt.alloc(), 2, &LOCK_EVENTS)? != world);
    Ok(())
}

#[test]
fn seats_are_1_to_64(rt: HostRuntime) {
    let bad = Some(RwFault::BadSeats);
    for seats in [0, 65] {
        expect(&rt, LockWorld::new(rt.alloc(), seats).err() == bad);
        expect(&rt, run_events(rt.alloc(), seats, &[]).err() == bad);
    }
}

/// Each of 64 seats in turn comes and goes, and the last of them comes once more.
#[test]
fn as_many_events_as_choices(rt: HostRuntime) -> Result<(), RwFault> {
    let mut events = Vec::new(rt.alloc());
    for turn in 0..32_768u32 {
        events.push(Event::Admit(turn % 64))?;
        events.push(Event::Leave(turn % 64))?;
    }
    events.push(Event::Admit(63))?;
    let world = run_events(rt.alloc(), 64, &events)?;
    expect_eq(&rt, (world.word(), world.seats()), (1, 64));
    for seat in 0..63 {
        expect_eq(&rt, world.state(seat), Some(SeatState::Away));
    }
    expect_eq(&rt, world.state(63), Some(SeatState::Reading));
    Ok(())
}
