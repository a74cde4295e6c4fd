//! The words of the lock and of the history, their seats, and what a seat does with them. No call requires room for a
//! row: rows name different idle processes of the graph, so there are no more than processes.

ghost use Rattle.std.specs.Prelude.{◌≡◌, ◌<◌, ◌≤◌, ◌++◌, [], ◌+◌};
ghost use Rattle.std.specs.Slots.{slots_len, IsFull};
ghost use Rattle.cmh_rw.specs.declared.TheConstants.{BOARD_WORDS, MAX_SEATS};
ghost use Rattle.cmh_rw.specs.History.{FitsIn};

use crate::row::verdict_code;
use crate::rule::{
    Compare, End, Enter, HistoryRule, Load, Shares, StoreCount, StoreRow, StoreVerdict, Take,
};
use crate::view::View;
use crate::{BOARD_WORDS, FIRST_ROW, FIRST_VERDICT, MAX_SEATS, ROW_COUNT, Row, RwFault, WRITER};
use atomic_table::{Seat, Table};
use cmh_graph::laws::law_built_graph;
use cmh_graph::{Verdict, WaitGraph};
use std::alloc::Global;

/// A lock, and the history of verdicts of one wait graph that it guards.
#[derive(Drop)]
pub struct RwWords {
    pub(crate) table: Table<(), View, WaitGraph, HistoryRule, Global>,
    pub ghost wide: { table.shared.table_id.words ≡ BOARD_WORDS },
    pub ghost bare: { table.shared.table_id.slots ≡ 0 },
}

/// A seat of these words, with which one thread steps on them. A seat that is dropped in a hold never ends the hold.
#[derive(Drop)]
pub struct RwSeat {
    pub(crate) seat: Seat<(), View>,
    pub(crate) share: u32,
    pub ghost shared: { share ≡ seat.me.0.lock.share },
    pub ghost some: { 0 < share },
    pub ghost few: { share ≤ MAX_SEATS },
    pub ghost bare: { seat.me.1 ≡ [] },
    pub ghost fits: { ∥ FitsIn seat.me.0.lock.graph (seat.me.0.seen ++ seat.me.0.staged) ∥₁ },
}

/// The words, which no thread shares any more.
pub struct Closed {
    pub(crate) inner: atomic_table::Closed<(), Global>,
    pub ghost full: { IsFull inner.words },
    pub ghost wide: { slots_len inner.words ≡ BOARD_WORDS },
    pub ghost bare: { slots_len inner.slots ≡ 0 },
}

/// Whether a try got the lock. If not, it has the word that was found.
#[derive(Clone, Copy, PartialEq, Eq, Hash, Debug)]
pub enum Entry {
    Held,
    Busy(u64),
}

// Seats, tries, and the end.

impl RwWords {
    ghost use Rattle.std.specs.Prelude.{◌≡◌, ◌<◌, ◌≤◌, ℕ, [], IfOk, IfErr, IfSome, IfNone};
    ghost use Rattle.cmh_rw.specs.declared.TheConstants.{MAX_SEATS, WRITER};
    ghost use Rattle.cmh_rw.specs.History.{StartsWith};
    ghost use Rattle.cmh_rw.specs.declared.machine.SeatState.TheVariants.{Away, Reading, Retreating, Writing};
    ghost use Rattle.cmh_rw.specs.View.{opening_view, view_after_try, view_after_end, view_less_one, newcomer_view, joined_view};
    ghost use Rattle.cmh_rw.specs.Seats.{rw_view, IsSeatOf, IsRwSeatAway, words_graph, words_of, ClosedHistory};
    ghost use Rattle.cmh_rw.specs.Machine.{IsSeat};
    ghost use Rattle.cmh_rw.specs.Rule.{Moment, WordsRule};

    /// All words are 0. The seat is away and has the whole share.
    pub fn open(alloc: Global, graph: &WaitGraph) -> Result<(RwWords, RwSeat), RwFault>
        ensures seat { IfOk result (λ r. IsSeatOf r.0 r.1) }
        ensures graph { IfOk result (λ r. words_graph r.0 ≡ graph.now) }
        ensures view { IfOk result (λ r. rw_view r.1 ≡ opening_view graph.now) }
        ensures memory { IfErr result (λ e. e ≡ RwFault.Memory) }
    {
        law_built_graph(graph);
        let (table, seat) = Table::of_words(alloc, &[0; BOARD_WORDS], graph)?;
        let seat = RwSeat {
            seat,
            share: MAX_SEATS,
        };
        Ok((RwWords { table }, seat))
    }

    /// Gives one share to a new seat that has seen the same, if the seat can keep one.
    pub fn split(&self, seat: &mut RwSeat) -> Option<RwSeat>
        requires own { IsSeatOf self.now seat.old }
        requires away { IsRwSeatAway seat.old }
        ensures own { IsSeatOf self.now seat.new }
        ensures some { IfSome result (λ s.
            IsSeatOf self.now s × (rw_view s ≡ newcomer_view (rw_view seat.old))
            × (rw_view seat.new ≡ view_less_one (rw_view seat.old)) × (1 < (rw_view seat.old).lock.share)) }
        ensures none { IfNone result ((rw_view seat.new ≡ rw_view seat.old)
            × ((rw_view seat.old).lock.share ≡ 1)) }
    {
        if seat.share == 1 {
            return None;
        }
        let other = self.table.shared.split_seat::<Shares>(&mut seat.seat);
        seat.share -= 1;
        Some(RwSeat {
            seat: other,
            share: 1,
        })
    }

    /// Joins another seat into this one, which then has the shares and the postings of both, and has seen what either
    /// had seen.
    pub fn join(&self, seat: &mut RwSeat, other: RwSeat)
        requires own { IsSeatOf self.now seat.old × IsSeatOf self.now other }
        requires away { IsRwSeatAway seat.old × IsRwSeatAway other }
        ensures own { IsSeatOf self.now seat.new }
        ensures joined { rw_view seat.new ≡ joined_view (rw_view seat.old) (rw_view other) }
        ensures begins { StartsWith (rw_view seat.new).seen (rw_view seat.old).seen
            × StartsWith (rw_view seat.new).seen (rw_view other).seen }
        ensures few { (rw_view seat.new).lock.share ≤ MAX_SEATS }
    {
        let share = seat.share + other.share;
        let RwSeat {
            seat: rest,
            share: _,
        } = other;
        self.table.shared.join_seat::<Shares>(&mut seat.seat, rest);
        self.table.shared.load::<Compare>(&mut seat.seat, 0);
        seat.share = share;
    }

    /// One try to read. Where a writer holds the lock, the seat takes its count back by a second exchange, and the
    /// answer has the word that the first one found.
    pub fn try_read(&self, seat: &mut RwSeat) -> Entry
        requires own { IsSeatOf self.now seat.old }
        requires away { IsRwSeatAway seat.old }
        ensures own { IsSeatOf self.now seat.new }
        ensures held { result ≡ Entry.Held → ((rw_view seat.new).lock.found < WRITER)
            × (rw_view seat.new
            ≡ view_after_try (rw_view seat.old) Reading (rw_view seat.new).lock.found) }
        ensures busy { (n : ℕ) → result ≡ Entry.Busy n → (WRITER ≤ n)
            × (rw_view seat.new ≡ view_after_end (view_after_try (rw_view seat.old) Retreating n)) }
    {
        let found = self.table.shared.fetch_add::<Enter>(&mut seat.seat, 0, 1);
        if found < WRITER {
            return Entry::Held;
        }
        let _before = self.table.shared.fetch_sub::<End>(&mut seat.seat, 0, 1);
        Entry::Busy(found)
    }

    /// The reader takes back what it counted in the lock word, and is away again.
    pub fn end_read(&self, seat: &mut RwSeat)
        requires own { IsSeatOf self.now seat.old }
        requires reading { (rw_view seat.old).lock.state ≡ Reading }
        ensures own { IsSeatOf self.now seat.new }
        ensures ended { rw_view seat.new ≡ view_after_end (rw_view seat.old) }
    {
        self.table.shared.fetch_sub::<End>(&mut seat.seat, 0, 1);
    }

    /// One try to write. Where another seat holds the lock or retreats from it, the answer has the word that was found.
    pub fn try_write(&self, seat: &mut RwSeat) -> Entry
        requires own { IsSeatOf self.now seat.old }
        requires away { IsRwSeatAway seat.old }
        ensures own { IsSeatOf self.now seat.new }
        ensures held { result ≡ Entry.Held
            → (rw_view seat.new ≡ view_after_try (rw_view seat.old) Writing 0)
            × ((rw_view seat.old).staged ≡ []) × ((rw_view seat.old).told ≡ []) }
        ensures busy { (n : ℕ) → result ≡ Entry.Busy n → (0 < n)
            × (rw_view seat.new ≡ view_after_try (rw_view seat.old) Away n) }
    {
        let found = self
            .table
            .shared
            .compare_exchange::<Take>(&mut seat.seat, 0, 0, WRITER);
        if found == 0 {
            return Entry::Held;
        }
        Entry::Busy(found)
    }

    /// Ends a write.
    pub fn end_write(&self, seat: &mut RwSeat)
        requires own { IsSeatOf self.now seat.old }
        requires writing { (rw_view seat.old).lock.state ≡ Writing }
        requires counted { (rw_view seat.old).staged ≡ [] }
        ensures own { IsSeatOf self.now seat.new }
        ensures ended { rw_view seat.new ≡ view_after_end (rw_view seat.old) }
    {
        self.table
            .shared
            .fetch_sub::<End>(&mut seat.seat, 0, WRITER);
    }

    /// How many seats there can be of this one by splits, itself among them. A seat that has all `MAX_SEATS` shares is
    /// the only one.
    pub fn share(&self, seat: &RwSeat) -> u32
        ensures { result ≡ (rw_view seat.now).lock.share }
    {
        seat.share()
    }

    /// The words at the end. They are those of a moment that meets the rule, in which some seat has this view. With the
    /// whole share no other seat is left, so the lock is free.
    pub fn close_with(self, seat: RwSeat) -> Closed
        requires own { IsSeatOf self seat }
        requires away { IsRwSeatAway seat }
        ensures rule { (s : Moment) × WordsRule (words_graph self) s × (s.words ≡ words_of result)
            × ((id : ℕ) × IsSeat s.views id (rw_view seat)) }
        ensures history { ClosedHistory (words_graph self) (rw_view seat) (words_of result) }
    {
        let RwWords { table } = self;
        let RwSeat { seat, share: _ } = seat;
        Closed {
            inner: table.close_with(seat),
        }
    }
}

// The history: loads, and the stores of a posting.

impl RwWords {
    ghost use Rattle.std.specs.Prelude.{◌≡◌, ◌<◌, ◌+◌, length, Some, IsTrue};
    ghost use Rattle.cmh_rw.specs.declared.TheConstants.{BOARD_WORDS};
    ghost use Rattle.cmh_rw.specs.History.{fold_at, EndsLast, IsPosting, AreTold};
    ghost use Rattle.cmh_rw.specs.declared.machine.SeatState.TheVariants.{Writing};
    ghost use Rattle.cmh_rw.specs.View.{IsHeld, AfterLoad, CanStage, row, with_row, mark, with_told, view_after_posting};
    ghost use Rattle.cmh_rw.specs.Seats.{rw_view, IsSeatOf};
    ghost use Rattle.cmh_graph.specs.declared.TheConstants.{MAX_PROCESSES};

    /// The value of a word, in a hold. The contract says nothing of the value of word 0.
    pub fn load(&self, seat: &mut RwSeat, word: usize) -> u64
        requires own { IsSeatOf self.now seat.old }
        requires held { IsHeld (rw_view seat.old).lock.state }
        requires within { word < BOARD_WORDS }
        ensures own { IsSeatOf self.now seat.new }
        ensures loaded { AfterLoad (rw_view seat.old) word result (rw_view seat.new) }
    {
        self.table.shared.load::<Load>(&mut seat.seat, word)
    }

    /// Stages row `n` of the history, after those that are there and those that are staged.
    pub fn store_row(&self, seat: &mut RwSeat, n: usize, p: u32, verdict: Verdict, last: bool)
        requires own { IsSeatOf self.now seat.old }
        requires writing { (rw_view seat.old).lock.state ≡ Writing }
        requires loaded { IsTrue (rw_view seat.old).loaded }
        requires end { n ≡ length (rw_view seat.old).seen + length (rw_view seat.old).staged }
        requires can { CanStage (rw_view seat.old) (row p verdict last) }
        ensures own { IsSeatOf self.now seat.new }
        ensures staged { rw_view seat.new ≡ with_row (rw_view seat.old) (row p verdict last) }
        ensures room { n < MAX_PROCESSES }
    {
        let row = Row {
            process: p,
            verdict,
            last,
        };
        self.table
            .shared
            .store::<StoreRow>(&mut seat.seat, FIRST_ROW + n, row.code());
    }

    /// Stores the verdict of a process that a staged row names.
    pub fn store_verdict(&self, seat: &mut RwSeat, p: u32, verdict: Verdict)
        requires own { IsSeatOf self.now seat.old }
        requires writing { (rw_view seat.old).lock.state ≡ Writing }
        requires says { fold_at (rw_view seat.old).staged p ≡ Some verdict }
        ensures own { IsSeatOf self.now seat.new }
        ensures told { rw_view seat.new ≡ with_told (rw_view seat.old) (mark p verdict) }
    {
        let word = FIRST_VERDICT + p as usize;
        self.table
            .shared
            .store::<StoreVerdict>(&mut seat.seat, word, verdict_code(verdict));
    }

    /// Stores the number of rows that the history has from now on. The staged rows become a posting of it.
    pub fn store_count(&self, seat: &mut RwSeat, n: usize)
        requires own { IsSeatOf self.now seat.old }
        requires writing { (rw_view seat.old).lock.state ≡ Writing }
        requires ended { EndsLast (rw_view seat.old).staged }
        requires told { AreTold (rw_view seat.old).staged (rw_view seat.old).told }
        requires end { n ≡ length (rw_view seat.old).seen + length (rw_view seat.old).staged }
        ensures own { IsSeatOf self.now seat.new }
        ensures posted { rw_view seat.new ≡ view_after_posting (rw_view seat.old) }
        ensures posting { IsPosting (rw_view seat.old).staged }
    {
        self.table
            .shared
            .store::<StoreCount>(&mut seat.seat, ROW_COUNT, n as u64);
    }
}

impl RwSeat {
    ghost use Rattle.std.specs.Prelude.{◌≡◌};
    ghost use Rattle.cmh_rw.specs.Seats.{rw_view};

    /// The same as `RwWords::share` of this seat.
    pub fn share(&self) -> u32
        ensures { result ≡ (rw_view self.now).lock.share }
    {
        self.share
    }
}

impl Closed {
    ghost use Rattle.std.specs.Prelude.{◌≡◌, slice_get};
    ghost use Rattle.cmh_rw.specs.Seats.{words_of};

    /// The word of that number, where there is one.
    pub fn word(&self, n: usize) -> Option<u64>
        ensures { result ≡ slice_get (words_of self.now) n }
    {
        if n < BOARD_WORDS {
            Some(self.inner.word(n))
        } else {
            None
        }
    }
}

impl Drop for Closed {
    fn drop(self) {
        let Closed { inner } = self;
        inner.free();
    }
}
