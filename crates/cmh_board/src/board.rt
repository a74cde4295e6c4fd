//! The board and its seats: opening, looks, postings, and the close.

ghost use Rattle.std.specs.Prelude.{◌≡◌, ◌≤◌};
ghost use Rattle.cmh_graph.specs.declared.TheConstants.{MAX_PROCESSES};
ghost use Rattle.cmh_graph.specs.Graph.{process_count, IsWithinGraph};
ghost use Rattle.cmh_rw.specs.Seats.{words_graph};

use crate::post::add_posting;
use crate::reading::read_closed;
use crate::{BoardFault, Posting, Snap};
use cmh_graph::{Verdict, WaitGraph};
use cmh_memory::{Need, refusal_of, room};
use cmh_rw::{Entry, FIRST_ROW, FIRST_VERDICT, ROW_COUNT, Row, RwSeat, RwWords, verdict_from_code};
use std::alloc::Global;
use std::sync::Wait;
use std::thread::yield_now;

/// A board of verdicts on the processes of one wait graph.
#[derive(Drop)]
pub struct Board {
    pub(crate) words: RwWords,
    /// How many processes the graph has.
    pub(crate) processes: u32,
    pub ghost counted: { processes ≡ process_count (words_graph words) },
    pub ghost small: { processes ≤ MAX_PROCESSES },
    pub ghost within: { IsWithinGraph (words_graph words) },
}

/// What has a value for each process.
impl<'b> Need for &'b Board {
    ghost use Rattle.cmh_graph.specs.Graph.{process_count};
    ghost use Rattle.cmh_board.specs.Board.{board_graph};

    ghost needed = { λ b. process_count (board_graph b.now) };
}

/// A seat at a board, with which one worker looks and posts.
#[derive(Drop)]
pub struct BoardSeat {
    pub(crate) seat: RwSeat,
}

/// What a look at one process found.
#[derive(Clone, Copy, PartialEq, Eq, Hash, Debug)]
pub enum Look {
    /// The process has been posted, with this verdict.
    Known(Verdict),
    /// No posting has named it yet.
    Unknown,
    /// Another seat was posting: the lock word that was found.
    Busy(u64),
}

/// What became of one try to post.
#[derive(Clone, Copy, PartialEq, Eq, Hash, Debug)]
pub enum Post {
    /// Each process of the posting is on the board.
    Done,
    /// Another seat held the board: the lock word that was found. Nothing was posted.
    Busy(u64),
}

impl Board {
    ghost use Rattle.std.specs.Prelude.{◌≡◌, ◌≤◌, ◌<◌, ◌+◌, ℕ, IfOk, IfErr, IfSome, IfNone, length, true, [], vec_capacity, slice_get, Some, None};
    ghost use Rattle.cmh_graph.specs.Graph.{process_count};
    ghost use Rattle.cmh_rw.specs.declared.TheConstants.{MAX_SEATS, WRITER};
    ghost use Rattle.cmh_rw.specs.History.{StartsWith, fold_at, IsHistory, IsTrueOf};
    ghost use Rattle.cmh_rw.specs.declared.machine.SeatState.TheVariants.{Away};
    ghost use Rattle.cmh_rw.specs.View.{opening_view, view_after_try, view_less_one, newcomer_view, joined_view, view_after_end};
    ghost use Rattle.cmh_board.specs.Board.{board_view, board_graph, SitsAt, IsAway, IsHolding, SeesMore, TriesOnce, IsRead, IsTurnedAway, ReadsHistory, Posts, ExplainsReadFault, IsMadeOf};
    ghost use Rattle.cmh_graph.specs.declared.verdict.Verdict.{Verdict};
    ghost use Rattle.cmh_graph.specs.Verdict.{IsVerdict};
    ghost use Rattle.cmh_board.specs.Posting.{IsTruth};
    ghost use Rattle.cmh_board.specs.Snap.{verdict_at};

    /// A board on which nothing is posted. The seat has the whole share, which is 64.
    pub fn open(alloc: Global, graph: &WaitGraph) -> Result<(Board, BoardSeat), BoardFault>
        ensures sits { IfOk result (λ r. SitsAt r.0 r.1 × IsAway r.1) }
        ensures graph { IfOk result (λ r. board_graph r.0 ≡ graph.now) }
        ensures view { IfOk result (λ r. board_view r.1 ≡ opening_view graph.now) }
        ensures memory { IfErr result (λ e. e ≡ BoardFault.Memory) }
    {
        let processes = graph.len();
        let (words, seat) = RwWords::open(alloc, graph).map_err(|fault| refusal_of(fault))?;
        Ok((Board { words, processes }, BoardSeat { seat }))
    }

    /// Gives one share to a new seat, which has seen the same and added nothing, if the seat can keep one.
    pub fn split(&self, seat: &mut BoardSeat) -> Option<BoardSeat>
        requires sits { SitsAt self.now seat.old }
        requires away { IsAway seat.old }
        ensures sits { SitsAt self.now seat.new × IsAway seat.new }
        ensures new { IfSome result (λ s. SitsAt self.now s × IsAway s) }
        ensures some { IfSome result (λ s. (1 < (board_view seat.old).lock.share)
            × (board_view s ≡ newcomer_view (board_view seat.old))
            × (board_view seat.new ≡ view_less_one (board_view seat.old))) }
        ensures none { IfNone result (((board_view seat.old).lock.share ≡ 1)
            × (board_view seat.new ≡ board_view seat.old)) }
    {
        let seat = self.words.split(&mut seat.seat)?;
        Some(BoardSeat { seat })
    }

    /// Joins another seat into this one, which then has the shares and the postings of both. It has seen what either
    /// had seen: the longer of the two, which begins with the other.
    pub fn join(&self, seat: &mut BoardSeat, other: BoardSeat)
        requires sits { SitsAt self.now seat.old × SitsAt self.now other }
        requires away { IsAway seat.old × IsAway other }
        ensures sits { SitsAt self.now seat.new × IsAway seat.new }
        ensures joined { board_view seat.new
            ≡ joined_view (board_view seat.old) (board_view other) }
        ensures begins { StartsWith (board_view seat.new).seen (board_view seat.old).seen
            × StartsWith (board_view seat.new).seen (board_view other).seen }
        ensures few { (board_view seat.new).lock.share ≤ MAX_SEATS }
    {
        let BoardSeat { seat: other } = other;
        self.words.join(&mut seat.seat, other);
    }

    /// What is known of process `p`. One try.
    pub fn look(&self, seat: &mut BoardSeat, p: u32) -> Look
        requires sits { SitsAt self.now seat.old }
        requires away { IsAway seat.old }
        requires process { p < process_count (board_graph self.now) }
        ensures sits { SitsAt self.now seat.new × IsAway seat.new }
        ensures sees { SeesMore (board_view seat.old) (board_view seat.new) }
        ensures tried { TriesOnce (board_view seat.old) (board_view seat.new) }
        ensures known { (v : Verdict) → result ≡ Look.Known v
            → IsRead 1 (board_view seat.old) (board_view seat.new)
            × (fold_at (board_view seat.new).seen p ≡ Some v) }
        ensures unknown { result ≡ Look.Unknown
            → IsRead 1 (board_view seat.old) (board_view seat.new)
            × (fold_at (board_view seat.new).seen p ≡ None) }
        ensures busy { (n : ℕ) → result ≡ Look.Busy n
            → IsTurnedAway n (board_view seat.old) (board_view seat.new) }
        ensures true_verdict { (v : Verdict) → result ≡ Look.Known v
            → IsVerdict (board_graph self.now) p v }
    {
        if let Entry::Busy(found) = self.hold(seat) {
            return Look::Busy(found);
        }
        let verdict = self.held_verdict(seat, p);
        self.release(seat);
        match verdict {
            Some(verdict) => Look::Known(verdict),
            None => Look::Unknown,
        }
    }

    /// Holds the board for as many looks as wanted. One try. While any seat holds it no other can post, so `release` it
    /// soon. A seat that is dropped in a hold never ends the hold.
    pub fn hold(&self, seat: &mut BoardSeat) -> Entry
        requires sits { SitsAt self.now seat.old }
        requires away { IsAway seat.old }
        ensures sits { SitsAt self.now seat.new }
        ensures sees { SeesMore (board_view seat.old) (board_view seat.new) }
        ensures tried { TriesOnce (board_view seat.old) (board_view seat.new) }
        ensures loads { (board_view seat.new).loads ≡ (board_view seat.old).loads }
        ensures held { result ≡ Entry.Held → IsHolding seat.new
            × ((board_view seat.new).lock.found < WRITER) }
        ensures busy { (n : ℕ) → result ≡ Entry.Busy n
            → IsAway seat.new × IsTurnedAway n (board_view seat.old) (board_view seat.new) }
    {
        self.words.try_read(&mut seat.seat)
    }

    /// What is known of process `p`, in a hold.
    pub fn held_verdict(&self, seat: &mut BoardSeat, p: u32) -> Option<Verdict>
        requires sits { SitsAt self.now seat.old }
        requires holding { IsHolding seat.old }
        requires process { p < process_count (board_graph self.now) }
        ensures sits { SitsAt self.now seat.new }
        ensures sees { SeesMore (board_view seat.old) (board_view seat.new) }
        ensures reads { ReadsHistory 1 (board_view seat.old) (board_view seat.new) }
        ensures answer { result ≡ fold_at (board_view seat.new).seen p }
        ensures true_verdict { IfSome result (λ v. IsVerdict (board_graph self.now) p v) }
    {
        let code = self.words.load(&mut seat.seat, FIRST_VERDICT + p as usize);
        verdict_from_code(code)
    }

    /// Ends a hold.
    pub fn release(&self, seat: &mut BoardSeat)
        requires sits { SitsAt self.now seat.old }
        requires holding { IsHolding seat.old }
        ensures sits { SitsAt self.now seat.new × IsAway seat.new }
        ensures ended { board_view seat.new ≡ view_after_end (board_view seat.old) }
    {
        self.words.end_read(&mut seat.seat);
    }

    /// Adds a row for each process of the posting that stands in none yet. They are one posting, or none where nothing
    /// is new. One try; where it finds the board held, nothing changes.
    pub fn try_post(&self, seat: &mut BoardSeat, posting: &Posting) -> Post
        requires sits { SitsAt self.now seat.old }
        requires away { IsAway seat.old }
        requires truth { IsTruth (board_graph self.now) posting.now }
        ensures sits { SitsAt self.now seat.new × IsAway seat.new }
        ensures tried { TriesOnce (board_view seat.old) (board_view seat.new) }
        ensures written { result ≡ Post.Done → ((board_view seat.new).lock.found ≡ 0)
            × ((board_view seat.old).loads < (board_view seat.new).loads) }
        ensures posts { result ≡ Post.Done
            → Posts posting.now (board_view seat.old) (board_view seat.new) }
        ensures busy { (n : ℕ) → result ≡ Post.Busy n → (0 < n)
            × (board_view seat.new ≡ view_after_try (board_view seat.old) Away n) }
    {
        match self.words.try_write(&mut seat.seat) {
            Entry::Busy(found) => Post::Busy(found),
            Entry::Held => {
                add_posting(&self.words, &mut seat.seat, posting);
                self.words.end_write(&mut seat.seat);
                Post::Done
            }
        }
    }

    /// Tries to post until it is done. After each try that finds the board held it gives way to other threads, since
    /// the one that holds it may need the same processor to end its hold. It may wait for ever, since nothing makes
    /// others end their holds.
    pub fn post<R: Wait>(&self, rt: &R, seat: &mut BoardSeat, posting: &Posting)
        requires sits { SitsAt self.now seat.old }
        requires away { IsAway seat.old }
        requires truth { IsTruth (board_graph self.now) posting.now }
        ensures sits { SitsAt self.now seat.new × IsAway seat.new }
        ensures tried { (board_view seat.old).lock.tries < (board_view seat.new).lock.tries }
        ensures found { (board_view seat.new).lock.found ≡ 0 }
        ensures posts { Posts posting.now (board_view seat.old) (board_view seat.new) }
    {
        for _ in rt.forever() {
            if let Post::Done = self.try_post(seat, posting) {
                return;
            }
            yield_now();
        }
        unreachable!()
    }

    /// The verdicts of all processes that are posted. One try, made once there is room for them.
    pub fn snapshot(&self, alloc: Global, seat: &mut BoardSeat) -> Result<Snap, BoardFault>
        requires sits { SitsAt self.now seat.old }
        requires away { IsAway seat.old }
        ensures sits { SitsAt self.now seat.new × IsAway seat.new }
        ensures sees { SeesMore (board_view seat.old) (board_view seat.new) }
        ensures tried { IfOk result (λ snap.
            TriesOnce (board_view seat.old) (board_view seat.new)) }
        ensures read { IfOk result (λ snap. IsRead (1 + process_count (board_graph self.now))
            (board_view seat.old) (board_view seat.new)) }
        ensures shows { IfOk result (λ snap. (p : ℕ)
            → verdict_at snap p ≡ fold_at (board_view seat.new).seen p) }
        ensures true_verdicts { IfOk result (λ snap.
            (p : ℕ) (v : Verdict) → verdict_at snap p ≡ Some v
            → IsVerdict (board_graph self.now) p v) }
        ensures fault { IfErr result
            (ExplainsReadFault (board_view seat.old) (board_view seat.new)) }
    {
        let mut verdicts = room(alloc, self.processes as usize, self)?;
        if let Entry::Busy(found) = self.hold(seat) {
            return Err(BoardFault::Busy(found));
        }
        self.read_verdicts(seat, &mut verdicts);
        self.release(seat);
        Ok(Snap { verdicts })
    }

    /// The history so far, row by row. One try, made once there is room for it.
    pub fn history(&self, alloc: Global, seat: &mut BoardSeat) -> Result<Vec<Row>, BoardFault>
        requires sits { SitsAt self.now seat.old }
        requires away { IsAway seat.old }
        ensures sits { SitsAt self.now seat.new × IsAway seat.new }
        ensures sees { SeesMore (board_view seat.old) (board_view seat.new) }
        ensures tried { IfOk result (λ rows.
            TriesOnce (board_view seat.old) (board_view seat.new)) }
        ensures read { IfOk result (λ rows. IsRead (1 + length rows.items)
            (board_view seat.old) (board_view seat.new)) }
        ensures whole { IfOk result (λ rows. rows.items ≡ (board_view seat.new).seen) }
        ensures fault { IfErr result
            (ExplainsReadFault (board_view seat.old) (board_view seat.new)) }
    {
        let mut rows = room(alloc, self.processes as usize, self)?;
        if let Entry::Busy(found) = self.hold(seat) {
            return Err(BoardFault::Busy(found));
        }
        self.read_rows(seat, &mut rows);
        self.release(seat);
        Ok(rows)
    }

    /// The whole history at the end. With the whole share no other seat is left, so the postings are the seat's own.
    pub fn close(self, alloc: Global, seat: BoardSeat) -> Result<Vec<Row>, BoardFault>
        requires sits { SitsAt self seat }
        requires away { IsAway seat }
        ensures begins { IfOk result (λ rows. StartsWith rows.items (board_view seat).seen) }
        ensures whole { IfOk result (λ rows. IsHistory rows.items) }
        ensures true_of { IfOk result (λ rows. IsTrueOf (board_graph self) rows.items) }
        ensures own { IfOk result (λ rows. (board_view seat).lock.share ≡ MAX_SEATS
            → IsMadeOf (board_view seat).mine rows.items) }
        ensures memory { IfErr result (λ e. e ≡ BoardFault.Memory) }
    {
        let mut rows = room(alloc, self.processes as usize, &self)?;
        let Board {
            words,
            processes: _processes,
        } = self;
        let BoardSeat { seat } = seat;
        let closed = words.close_with(seat);
        read_closed(&closed, &mut rows);
        Ok(rows)
    }

    /// How many rows there are, in a hold.
    fn held_count(&self, seat: &mut BoardSeat) -> usize
        requires sits { SitsAt self.now seat.old }
        requires holding { IsHolding seat.old }
        ensures sits { SitsAt self.now seat.new }
        ensures sees { SeesMore (board_view seat.old) (board_view seat.new) }
        ensures reads { ReadsHistory 1 (board_view seat.old) (board_view seat.new) }
        ensures count { result ≡ length (board_view seat.new).seen }
    {
        self.words.load(&mut seat.seat, ROW_COUNT) as usize
    }

    /// Adds the verdict of each process, in a hold.
    fn read_verdicts(&self, seat: &mut BoardSeat, verdicts: &mut Vec<Option<Verdict>>)
        requires sits { SitsAt self.now seat.old }
        requires holding { IsHolding seat.old }
        requires empty { verdicts.old.items ≡ [] }
        requires room { process_count (board_graph self.now) ≤ vec_capacity verdicts.old }
        ensures sits { SitsAt self.now seat.new }
        ensures sees { SeesMore (board_view seat.old) (board_view seat.new) }
        ensures reads { ReadsHistory (1 + process_count (board_graph self.now))
            (board_view seat.old) (board_view seat.new) }
        ensures shows { (p : ℕ)
            → verdict_at verdicts.new.items p ≡ fold_at (board_view seat.new).seen p }
    {
        // A reading loads at least one word, of a graph without processes too.
        let _rows = self.held_count(seat);
        for p in 0..self.processes {
            verdicts.push_reserved(self.held_verdict(seat, p));
        }
    }

    /// Adds the rows of the history, in a hold.
    fn read_rows(&self, seat: &mut BoardSeat, rows: &mut Vec<Row>)
        requires sits { SitsAt self.now seat.old }
        requires holding { IsHolding seat.old }
        requires empty { rows.old.items ≡ [] }
        requires room { process_count (board_graph self.now) ≤ vec_capacity rows.old }
        ensures sits { SitsAt self.now seat.new }
        ensures sees { SeesMore (board_view seat.old) (board_view seat.new) }
        ensures reads { ReadsHistory (1 + length rows.new.items)
            (board_view seat.old) (board_view seat.new) }
        ensures whole { rows.new.items ≡ (board_view seat.new).seen }
    {
        let count = self.held_count(seat);
        for n in 0..count {
            let row = self.held_row(seat, n);
            rows.push_reserved(row);
        }
    }

    /// Row `n` of the history, in a hold in which words were loaded.
    fn held_row(&self, seat: &mut BoardSeat, n: usize) -> Row
        requires sits { SitsAt self.now seat.old }
        requires holding { IsHolding seat.old }
        requires loaded { (board_view seat.old).loaded ≡ true }
        requires there { n < length (board_view seat.old).seen }
        ensures sits { SitsAt self.now seat.new }
        ensures sees { SeesMore (board_view seat.old) (board_view seat.new) }
        ensures reads { ReadsHistory 1 (board_view seat.old) (board_view seat.new) }
        ensures row { slice_get (board_view seat.new).seen n ≡ Some result }
    {
        let code = self.words.load(&mut seat.seat, FIRST_ROW + n);
        Row::from_code(code)
    }
}
