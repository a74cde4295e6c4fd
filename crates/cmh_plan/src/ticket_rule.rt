//! What a seat of the tickets knows, the rule of their word, and what each step says.

use atomic_table::{Join, Play, Split, TableRule};
use std::collections::LinkedList;

/// What a seat knows. No value of it is made.
pub struct TicketView {
    /// How many numbers there are.
    pub chunks: u32,
    /// How many seats there can be of it by splits, itself among them.
    pub share: u64,
    /// What it drew, in order.
    pub drawn: LinkedList<u32>,
    /// Whether it has found that each number is drawn.
    pub done: bool,
}

/// The rule of the one word, which counts the draws.
pub(crate) struct TicketRule;

impl TableRule<(), TicketView, u32> for TicketRule {
    ghost use Rattle.cmh_plan.specs.Tickets.{Dealt, ticket_opening_view};

    ghost holds = { Dealt };

    ghost first = { ticket_opening_view };
}

/// The step that draws. Where it finds a number below the number of chunks, the seat has drawn it. Else the seat knows
/// that none is left.
pub(crate) struct Draw;

impl Play<(), TicketView> for Draw {
    ghost use Rattle.std.specs.Prelude.{◌≡◌, ◌≤◌, nat_lt, true, if◌then◌else◌, length};
    ghost use Rattle.cmh_plan.specs.Tickets.{with_drawn, KnowsAll};

    ghost then = { λ st m n m'.
        (m' ≡ (if nat_lt n m.0.chunks then with_drawn m.0 n else record m.0 { done = true }, m.1))
        × (length m.0.drawn ≤ n) × KnowsAll m'.0 };
}

/// The step after a join: what a seat knows with its new share.
pub(crate) struct Measure;

impl Play<(), TicketView> for Measure {
    ghost use Rattle.std.specs.Prelude.{◌≡◌, ◌≤◌};
    ghost use Rattle.cmh_plan.specs.declared.TheConstants.{MAX_WORKERS};
    ghost use Rattle.cmh_plan.specs.Tickets.{KnowsAll};

    ghost then = { λ st m n m'. (m' ≡ m) × (m.0.share ≤ MAX_WORKERS) × KnowsAll m.0 };
}

/// How seats are split and joined. A seat that was joined into another has no share, and has drawn nothing.
pub(crate) struct Parts;

impl Split<TicketView> for Parts {
    ghost use Rattle.cmh_plan.specs.Tickets.{ticket_less_one, ticket_newcomer};

    ghost left = { ticket_less_one };

    ghost right = { ticket_newcomer };
}

impl Join<TicketView> for Parts {
    ghost use Rattle.std.specs.Prelude.{[], false};
    ghost use Rattle.cmh_plan.specs.Tickets.{joined_views};

    ghost both = { joined_views };

    ghost spent = { record { chunks = 0; share = 0; drawn = []; done = false } };
}
