//! The rule of the words, and what each step on them says. A try to write that got the lock, and a reader's load, say
//! that nothing is staged, so no caller has to keep track of it. The end of a hold forgets which verdicts were stored.

use crate::view::View;
use atomic_table::{Join, Play, Split, TableRule};
use cmh_graph::WaitGraph;

/// The rule of all words: the lock counts its seats, and what the rows say is a history.
pub(crate) struct HistoryRule;

impl TableRule<(), View, WaitGraph> for HistoryRule {
    ghost use Rattle.cmh_rw.specs.Rule.{WordsRule};
    ghost use Rattle.cmh_rw.specs.View.{opening_view};

    ghost holds = { WordsRule };

    ghost first = { opening_view };
}

/// A seat counts itself in.
pub(crate) struct Enter;

impl Play<(), View> for Enter {
    ghost use Rattle.std.specs.Prelude.{◌≡◌};
    ghost use Rattle.cmh_rw.specs.declared.machine.Event.TheVariants.{Admit};
    ghost use Rattle.cmh_rw.specs.Machine.{turn};
    ghost use Rattle.cmh_rw.specs.View.{view_after_try};

    ghost then = { λ st m found m'.
        m' ≡ (view_after_try m.0 (turn (Admit 0) found m.0.lock.state).1 found, m.1) };
}

/// A seat ends its hold, or retreats.
pub(crate) struct End;

impl Play<(), View> for End {
    ghost use Rattle.std.specs.Prelude.{◌≡◌};
    ghost use Rattle.cmh_rw.specs.View.{view_after_end};

    ghost then = { λ st m found m'. m' ≡ (view_after_end m.0, m.1) };
}

/// A seat tries to become the writer. Nothing is staged yet.
pub(crate) struct Take;

impl Play<(), View> for Take {
    ghost use Rattle.std.specs.Prelude.{◌≡◌, []};
    ghost use Rattle.cmh_rw.specs.declared.machine.Event.TheVariants.{TryWrite};
    ghost use Rattle.cmh_rw.specs.Machine.{turn};
    ghost use Rattle.cmh_rw.specs.View.{view_after_try};

    ghost then = { λ st m found m'.
        (m' ≡ (view_after_try m.0 (turn (TryWrite 0) found m.0.lock.state).1 found, m.1))
        × (m.0.staged ≡ []) × (m.0.told ≡ []) };
}

/// A seat loads a word in a hold.
pub(crate) struct Load;

impl Play<(), View> for Load {
    ghost use Rattle.std.specs.Prelude.{◌≡◌};
    ghost use Rattle.cmh_rw.specs.View.{AfterLoad};

    ghost then = { λ st m found m'. AfterLoad m.0 st.word found m'.0 × (m'.1 ≡ m.1) };
}

/// A writer stores a row.
pub(crate) struct StoreRow;

impl Play<(), View> for StoreRow {
    ghost use Rattle.std.specs.Prelude.{◌≡◌};
    ghost use Rattle.cmh_rw.specs.History.{row_of};
    ghost use Rattle.cmh_rw.specs.View.{with_row};

    ghost then = { λ st m found m'. m' ≡ (with_row m.0 (row_of st.first), m.1) };
}

/// A writer stores a verdict.
pub(crate) struct StoreVerdict;

impl Play<(), View> for StoreVerdict {
    ghost use Rattle.std.specs.Prelude.{◌≡◌, ◌-◌, ◌==◌, if◌then◌else◌};
    ghost use Rattle.cmh_graph.specs.declared.verdict.Verdict.TheVariants.{Deadlocked, Free};
    ghost use Rattle.cmh_rw.specs.declared.TheConstants.{FIRST_VERDICT};
    ghost use Rattle.cmh_rw.specs.View.{mark, with_told};

    ghost then = { λ st m found m'. m' ≡ (
      with_told m.0
          (mark (st.word - FIRST_VERDICT) (if st.first == 2 then Free else Deadlocked)),
      m.1,
    ) };
}

/// A writer stores the count. What it had staged was a posting.
pub(crate) struct StoreCount;

impl Play<(), View> for StoreCount {
    ghost use Rattle.std.specs.Prelude.{◌≡◌};
    ghost use Rattle.cmh_rw.specs.History.{IsPosting};
    ghost use Rattle.cmh_rw.specs.View.{view_after_posting};

    ghost then = { λ st m found m'. (m' ≡ (view_after_posting m.0, m.1)) × IsPosting m.0.staged };
}

/// A seat that has just joined another compares what the two have seen.
pub(crate) struct Compare;

impl Play<(), View> for Compare {
    ghost use Rattle.std.specs.Prelude.{◌≡◌, ◌⊎◌, ◌≤◌, ◌++◌};
    ghost use Rattle.cmh_rw.specs.declared.TheConstants.{MAX_SEATS};
    ghost use Rattle.cmh_rw.specs.History.{IsTrueOf, StartsWith};
    ghost use Rattle.cmh_rw.specs.View.{view_after_compare};

    ghost then = { λ st m found m'. (m' ≡ (view_after_compare m.0, m.1))
        × (StartsWith m.0.seen m.0.other ⊎ StartsWith m.0.other m.0.seen)
        × IsTrueOf m.0.lock.graph (m'.0.seen ++ m'.0.staged) × (m.0.lock.share ≤ MAX_SEATS) };
}

/// How seats are split and joined.
pub(crate) struct Shares;

impl Split<View> for Shares {
    ghost use Rattle.cmh_rw.specs.View.{view_less_one, newcomer_view};

    ghost left = { view_less_one };

    ghost right = { newcomer_view };
}

impl Join<View> for Shares {
    ghost use Rattle.cmh_rw.specs.View.{view_before_compare, spent_view};

    ghost both = { view_before_compare };

    ghost spent = { spent_view };
}
