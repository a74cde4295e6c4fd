//! The lock as a machine: one word beside the states of all seats.

ghost use Rattle.std.specs.Prelude.{◌≡◌, ◌+◌, ◌<◌, ◌↔◌, length, slice_get, IfOk, IfErr};
ghost use Rattle.cmh_rw.specs.Machine.{new_world, turn, seat_of, step_of, run_from, IsLawful, IsBadCount};

use crate::{MAX_SEATS, RwFault, WRITER};
use std::alloc::Global;
use std::marker::Model;

/// How a seat stands to the lock.
#[derive(Clone, Copy, PartialEq, Eq, Hash, Debug)]
pub enum SeatState {
    /// It holds nothing.
    Away,
    /// It tried to read, found a writer, and still has to take back its count.
    Retreating,
    Reading,
    Writing,
    /// It was joined into another, and does nothing any more.
    Spent,
}

/// One exchange on the lock word, by the seat of that number.
#[derive(Clone, Copy, PartialEq, Eq, Hash, Debug)]
pub enum Event {
    /// It counts itself in, as a reader where there is no writer.
    Admit(u32),
    /// It counts itself out, from reading or retreating.
    Leave(u32),
    /// It becomes the writer where the word is 0.
    TryWrite(u32),
    /// It is the writer no more.
    EndWrite(u32),
}

/// The lock word, and the state of each seat.
#[derive(Debug, Drop)]
pub struct LockWorld {
    word: u64,
    seats: Vec<SeatState>,
}

impl Model for LockWorld {
    ghost use Rattle.cmh_rw.specs.Machine.{World, world, IsLock};

    ghost Value = { World };

    ghost view = { λ w. world w.word w.seats.items };

    ghost invariant = { λ w. IsLock (world w.word w.seats.items) };
}

impl PartialEq for LockWorld {
    ghost use Rattle.std.specs.Prelude.{◌==◌};
    ghost use Rattle.std.specs.Ordering.{on, eq_of_both};
    ghost use Rattle.std.specs.Cmp.{on_per, and_per, nat_eq_equiv, partial_equiv_from_equiv};
    ghost use Rattle.std.specs.Cmp.Lexicographic.{lists_per};
    ghost use lib.Pointwise.{pointwise};
    ghost use Rattle.cmh_rw.specs.contracts.machine.SeatStatePartialEq.TheImpl as states;
    ghost use Rattle.cmh_rw.specs.contracts.machine.SeatStatePartialEq.TheImpl.Laws.{laws-law};

    ghost eq = { eq_of_both
        (on (λ w. w.seats) (pointwise (states.ghosts).eq))
        (on (λ w. w.word) ◌==◌) };

    ghost laws = { and_per
        (on_per (λ w. w.seats) (lists_per laws-law))
        (on_per (λ w. w.word) (partial_equiv_from_equiv nat_eq_equiv)) };

    fn eq(&self, other: &LockWorld) -> bool {
        self.seats == other.seats && self.word == other.word
    }
}

impl LockWorld {
    /// All seats are away, and the word is 0.
    pub fn new(alloc: Global, seats: u32) -> Result<LockWorld, RwFault>
        ensures ok { IfOk result (λ w. w ≡ new_world seats) }
        ensures bad { IfErr result (λ e. (e ≡ RwFault.BadSeats) ↔ IsBadCount seats) }
        ensures good { IfOk result (λ _. ¬ IsBadCount seats) }
    {
        if seats == 0 || seats > MAX_SEATS {
            return Err(RwFault::BadSeats);
        }
        let mut states = Vec::new(alloc);
        for _ in 0..seats {
            states.push(SeatState::Away)?;
        }
        Ok(LockWorld {
            word: 0,
            seats: states,
        })
    }

    /// The lock word: `WRITER` while a seat writes, plus the number of seats that read or retreat.
    pub fn word(&self) -> u64
        ensures { result ≡ self.now.word }
    {
        self.word
    }

    /// How many seats there are.
    pub fn seats(&self) -> u32
        ensures { result ≡ length self.now.seats }
    {
        self.seats.len() as u32
    }

    /// The state of a seat, where there is one of that number.
    pub fn state(&self, n: u32) -> Option<SeatState>
        ensures { result ≡ slice_get self.now.seats n }
    {
        self.seats.get(n as usize).copied()
    }

    /// One event. On a seat in another state, or on no seat, it changes nothing.
    pub fn step(&mut self, event: Event)
        ensures { self.new ≡ step_of self.old event }
    {
        let seat = seat_number(event) as usize;
        if seat < self.seats.len() {
            (self.word, self.seats[seat]) = turn(event, self.word, self.seats[seat]);
        }
    }
}

/// The world after these events, from one where all seats are away.
pub fn run_events(alloc: Global, seats: u32, events: &[Event]) -> Result<LockWorld, RwFault>
    ensures ok { IfOk result (λ w. (w ≡ run_from (new_world seats) events.now) × IsLawful w) }
    ensures bad { IfErr result (λ e. (e ≡ RwFault.BadSeats) ↔ IsBadCount seats) }
    ensures good { IfOk result (λ _. ¬ IsBadCount seats) }
{
    let mut world = LockWorld::new(alloc, seats)?;
    for event in events {
        world.step(*event);
    }
    Ok(world)
}

/// The word and the state of a seat after an event of this seat.
fn turn(event: Event, word: u64, state: SeatState) -> (u64, SeatState)
    requires { word < WRITER + WRITER }
    ensures { result ≡ turn event word state }
{
    match (event, state) {
        (Event::Admit(_), SeatState::Away) => {
            if word < WRITER {
                (word + 1, SeatState::Reading)
            } else {
                (word + 1, SeatState::Retreating)
            }
        }
        (Event::Leave(_), SeatState::Reading | SeatState::Retreating) => {
            (word.saturating_sub(1), SeatState::Away)
        }
        (Event::TryWrite(_), SeatState::Away) => {
            if word == 0 {
                (WRITER, SeatState::Writing)
            } else {
                (word, SeatState::Away)
            }
        }
        (Event::EndWrite(_), SeatState::Writing) => (word.saturating_sub(WRITER), SeatState::Away),
        _ => (word, state),
    }
}

/// The seat of the event.
fn seat_number(event: Event) -> u32
    ensures { result ≡ seat_of event }
{
    match event {
        Event::Admit(n) | Event::Leave(n) | Event::TryWrite(n) | Event::EndWrite(n) => n,
    }
}
