//! Tickets and their seats: numbers that threads draw. No call waits.

ghost use Rattle.std.specs.Prelude.{◌≡◌, ◌<◌, ◌≤◌, []};
ghost use Rattle.cmh_plan.specs.declared.TheConstants.{MAX_WORKERS};
ghost use Rattle.cmh_plan.specs.Tickets.{KnowsAll};

use crate::ticket_rule::{Draw, Measure, Parts, TicketRule, TicketView};
use crate::{MAX_WORKERS, PlanFault};
use atomic_table::{Seat, Table};
use std::alloc::Global;

/// The numbers below some bound, from 0. Each is drawn once, by the seat that comes first.
#[derive(Drop)]
pub struct Tickets {
    pub(crate) table: Table<(), TicketView, u32, TicketRule, Global>,
    pub(crate) chunks: u32,
    pub ghost wide: { table.shared.table_id.words ≡ 1 },
    pub ghost bare: { table.shared.table_id.slots ≡ 0 },
    pub ghost counted: { table.shared.key ≡ chunks },
}

/// The right to draw. A seat has a share of all seats, and with the whole share it knows what was drawn.
#[derive(Drop)]
pub struct TicketSeat {
    pub(crate) seat: Seat<(), TicketView>,
    pub(crate) share: u32,
    pub(crate) done: bool,
    pub ghost shared: { share ≡ seat.me.0.share },
    pub ghost ended: { done ≡ seat.me.0.done },
    pub ghost some: { 0 < share },
    pub ghost few: { share ≤ MAX_WORKERS },
    pub ghost bare: { seat.me.1 ≡ [] },
    pub ghost knows: { KnowsAll seat.me.0 },
}

impl Tickets {
    ghost use Rattle.std.specs.Prelude.{◌≡◌, ◌<◌, ◌≤◌, true, length, IfOk, IfErr, IfSome, IfNone, IsNone};
    ghost use Rattle.cmh_plan.specs.Tickets.{ticket_opening_view, ticket_less_one, ticket_newcomer, joined_views, with_drawn, DrewAll};
    ghost use Rattle.cmh_plan.specs.declared.TheConstants.{MAX_WORKERS};
    ghost use Rattle.cmh_plan.specs.TicketSeats.{ticket_view, IsTicketSeatOf, chunk_count};

    /// Nothing is drawn yet, and the seat has the whole share, of `MAX_WORKERS`.
    pub fn open(alloc: Global, chunks: u32) -> Result<(Tickets, TicketSeat), PlanFault>
        ensures ok { IfOk result (λ r.
            IsTicketSeatOf r.0 r.1 × (chunk_count r.0 ≡ chunks) × (ticket_view r.1 ≡ ticket_opening_view chunks)) }
        ensures memory { IfErr result (λ e. e ≡ PlanFault.Memory) }
    {
        let (table, seat) = Table::of_words(alloc, &[0], &chunks)?;
        Ok((
            Tickets { table, chunks },
            TicketSeat {
                seat,
                share: MAX_WORKERS,
                done: false,
            },
        ))
    }

    /// Gives 1 of the seat's share to a new seat, if the seat can keep some.
    pub fn split(&self, seat: &mut TicketSeat) -> Option<TicketSeat>
        requires own { IsTicketSeatOf self.now seat.old }
        ensures own { IsTicketSeatOf self.now seat.new }
        ensures new { IfSome result (λ s.
            IsTicketSeatOf self.now s × (ticket_view s ≡ ticket_newcomer (ticket_view seat.old))) }
        ensures less { IfSome result (λ s.
            ticket_view seat.new ≡ ticket_less_one (ticket_view seat.old)) }
        ensures some { IfSome result (λ s. 1 < (ticket_view seat.old).share) }
        ensures none { IfNone result (seat.new ≡ seat.old × ((ticket_view seat.old).share ≡ 1)) }
    {
        if seat.share <= 1 {
            return None;
        }
        let other = self.table.shared.split_seat::<Parts>(&mut seat.seat);
        seat.share -= 1;
        Some(TicketSeat {
            seat: other,
            share: 1,
            done: seat.done,
        })
    }

    /// Joins another seat into this one, which then has the shares and the numbers of both.
    pub fn join(&self, seat: &mut TicketSeat, other: TicketSeat)
        requires own { IsTicketSeatOf self.now seat.old × IsTicketSeatOf self.now other }
        ensures own { IsTicketSeatOf self.now seat.new }
        ensures both { ticket_view seat.new
            ≡ joined_views (ticket_view seat.old) (ticket_view other) }
        ensures all { (ticket_view seat.new).done ≡ true
            → (ticket_view seat.new).share ≡ MAX_WORKERS
            → DrewAll (ticket_view seat.new) }
    {
        let share = seat.share + other.share;
        let done = seat.done || other.done;
        let TicketSeat {
            seat: rest,
            share: _,
            done: _,
        } = other;
        self.table.shared.join_seat::<Parts>(&mut seat.seat, rest);
        self.table.shared.load::<Measure>(&mut seat.seat, 0);
        seat.share = share;
        seat.done = done;
    }

    /// The next number, or none where each is drawn. Once a seat got none, it gets none again, and takes no step.
    pub fn draw(&self, seat: &mut TicketSeat) -> Option<u32>
        requires own { IsTicketSeatOf self.now seat.old }
        ensures own { IsTicketSeatOf self.now seat.new }
        ensures within { IfSome result (λ n. n < chunk_count self.now) }
        ensures few { IfSome result (λ n. length (ticket_view seat.old).drawn ≤ n) }
        ensures some { IfSome result (λ n.
            ticket_view seat.new ≡ with_drawn (ticket_view seat.old) n) }
        ensures none { IfNone result
            (ticket_view seat.new ≡ record (ticket_view seat.old) { done = true }) }
        ensures after { (ticket_view seat.old).done ≡ true → IsNone result × (seat.new ≡ seat.old) }
        ensures all { IfNone result ((ticket_view seat.new).share ≡ MAX_WORKERS
            → DrewAll (ticket_view seat.new)) }
    {
        if seat.done {
            return None;
        }
        let found = self.table.shared.fetch_add::<Draw>(&mut seat.seat, 0, 1);
        if found < u64::from(self.chunks) {
            return Some(found as u32);
        }
        seat.done = true;
        None
    }
}

impl TicketSeat {
    ghost use Rattle.std.specs.Prelude.{◌≡◌};
    ghost use Rattle.cmh_plan.specs.TicketSeats.{ticket_view};

    /// How many seats there can be of this one by splits, itself among them.
    pub fn share(&self) -> u32
        ensures { result ≡ (ticket_view self.now).share }
    {
        self.share
    }
}
