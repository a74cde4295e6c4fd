//! All that the board says at one moment.

ghost use Rattle.std.specs.Prelude.{◌≡◌};
ghost use Rattle.cmh_board.specs.Snap.{verdict_at};

use cmh_graph::Verdict;
use std::marker::Model;

/// The verdicts that were on the board at one moment.
#[derive(Debug, Drop)]
pub struct Snap {
    pub(crate) verdicts: Vec<Option<Verdict>>,
}

impl Model for Snap {
    ghost use Rattle.std.specs.Prelude.{List, Option};
    ghost use Rattle.cmh_graph.specs.declared.verdict.Verdict.{Verdict};

    ghost Value = { List (Option Verdict) };

    ghost view = { λ s. s.verdicts.items };
}

impl PartialEq for Snap {
    ghost use Rattle.std.specs.Option.{option_eq};
    ghost use Rattle.std.specs.Cmp.Lexicographic.{lists_per};
    ghost use Rattle.std.proofs.Common.{rules};
    ghost use lib.Pointwise.{pointwise};
    ghost use Rattle.cmh_graph.specs.contracts.verdict.VerdictPartialEq.TheImpl as verdicts;

    ghost eq = { pointwise (option_eq (verdicts.ghosts).eq) };

    ghost laws = { lists_per (Prim.search rules) };

    fn eq(&self, other: &Snap) -> bool {
        self.verdicts == other.verdicts
    }
}

impl Snap {
    /// The verdict of process `p`, if it had been posted.
    pub fn get(&self, p: u32) -> Option<Verdict>
        ensures { result ≡ verdict_at self.now p }
    {
        *self.verdicts.get(p as usize)?
    }
}
