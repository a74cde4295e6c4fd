//! The verdicts by which hints are checked.

ghost use Rattle.std.specs.Prelude.{◌≡◌, IfOk};
ghost use Rattle.cmh_run.specs.Prelude.{verdicts};

use cmh_graph::{Verdict, WaitGraph};
use cmh_memory::{Allocated, refusal_of};
use std::alloc::Global;

/// The verdict of each process. A question to a graph has no other fault than `Memory`.
pub(crate) fn truth_of(alloc: Global, graph: &WaitGraph) -> Allocated<Vec<Verdict>>
    ensures { IfOk result (λ list. list.items ≡ verdicts graph.now) }
{
    graph
        .verdicts_plain(alloc)
        .map_err(|fault| refusal_of(fault))
}
