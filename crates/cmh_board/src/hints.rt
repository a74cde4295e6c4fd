//! The board as hints of a run.

ghost use Rattle.std.specs.Prelude.{◌≡◌, ◌<◌, [], ◌∷◌, IfSome, None, refl};
ghost use Rattle.cmh_graph.specs.Graph.{Graph, process_count};
ghost use Rattle.cmh_graph.specs.Verdict.{IsVerdict};
ghost use Rattle.cmh_board.specs.Board.{board_view, board_graph, SitsAt, IsAway};
ghost use Rattle.cmh_board.specs.Hints.{SpeaksOf, Keeps, IsLook, Looks};
ghost use Rattle.cmh_board.specs.HintProofs.{keeps_itself, keeps_on, looks_on};

use crate::{Board, BoardSeat, Look};
use cmh_graph::Verdict;
use cmh_run::Hints;

/// Hints from the board: each ask is one look.
#[derive(Drop)]
pub struct BoardHints<'a> {
    board: &'a Board,
    seat: &'a mut BoardSeat,
}

impl<'a> BoardHints<'a> {
    /// Lends the seat to the hints. Once they are gone it still holds nothing, and has seen what they saw.
    pub fn new(board: &'a Board, seat: &'a mut BoardSeat) -> BoardHints<'a>
        requires sits { SitsAt board.now seat.old }
        requires away { IsAway seat.old }
        ensures board { result.board.now ≡ board.now }
        ensures same_seat { result.seat.ghost_name ≡ seat.entry.ghost_name }
        ensures seat { result.seat.now ≡ seat.old }
        ensures speaks { SpeaksOf result (board_graph board.now) }
    {
        BoardHints { board, seat }
    }
}

impl<'a> Hints for BoardHints<'a> {
    ghost speaks_of = { SpeaksOf };

    ghost keeps = { Keeps };

    /// The board may always answer.
    ghost is_silent = { λ h. ⊥ };

    ghost has_asked = { λ a b asks. Looks (board_view a.seat.now) (board_view b.seat.now) asks };

    /// One look. Where another seat was posting there is no answer, and nothing more was seen.
    fn hint(&mut self, p: u32) -> Option<Verdict>
        requires { (g : Graph) × SpeaksOf self.old g × (p < process_count g) }
        ensures look { IsLook
            (board_view self.old.seat.now) (board_view self.new.seat.now) p result }
        ensures true_verdict { (g : Graph) → SpeaksOf self.old g → p < process_count g
            → IfSome result (λ v. IsVerdict g p v) }
        ensures silent { ⊥ → result ≡ None }
        ensures asked { Looks
            (board_view self.old.seat.now) (board_view self.new.seat.now) ((p, result) ∷ []) }
        ensures kept { Keeps self.old self.new }
    {
        match self.board.look(self.seat, p) {
            Look::Known(verdict) => Some(verdict),
            Look::Unknown | Look::Busy(_) => None,
        }
    }

    ghost keeps_itself = { keeps_itself };

    ghost keeps_on = { keeps_on };

    ghost keeps_graphs = { λ a b g k. k.speaks g };

    ghost keeps_silent = { λ a b k never. never };

    ghost asks_nothing = { λ h. refl };

    ghost asks_on = { λ a b c first second x y. looks_on
        (board_view a.seat.now) (board_view b.seat.now) (board_view c.seat.now) first second x y };
}
