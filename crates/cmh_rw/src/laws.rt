//! Laws of the definitions.

ghost use Rattle.std.specs.Prelude.{◌≡◌};
ghost use Rattle.cmh_rw.specs.Machine.{IsLawful, step_of, World};
ghost use Rattle.cmh_rw.specs.History.{row_of, row_code};
ghost use Rattle.cmh_rw.specs.declared.machine.Event.{Event};
ghost use Rattle.cmh_rw.specs.declared.row.Row.{Row};

/// Each event keeps a lawful world lawful.
pub fn law_step_lawful()
    ensures { (w : World) (e : Event) → IsLawful w → IsLawful (step_of w e) }
{}

/// A row can be read back from the word that it is stored as.
pub fn law_row_code_injective()
    ensures { (r : Row) → row_of (row_code r) ≡ r }
{}
