//! Laws of the definitions alone: each function has an empty body, and its contract is the law.

ghost use Rattle.std.specs.Prelude.{◌≡◌, ℕ, ◌+◌, List, length, flat_map};
ghost use Rattle.cmh_work.specs.Cutting.{chunks_of};

pub use cmh_plan::laws::{law_drawn_once, law_drew_each_once};

/// The chunks of a list are the list, in order, and there is one more than cuts.
pub fn law_chunks()
    ensures whole { (cuts list : List ℕ)
        → flat_map (λ chunk. chunk) (chunks_of cuts list) ≡ list }
    ensures count { (cuts list : List ℕ) → length (chunks_of cuts list) ≡ length cuts + 1 }
{}
