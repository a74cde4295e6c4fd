//! Laws over the definitions alone. Each function here does nothing; its contract is the law.

ghost use Rattle.std.specs.Prelude.{◌≡◌, ◌↔◌, ℕ, List};
ghost use Rattle.cmh_graph.specs.Graph.{Graph};
ghost use Rattle.cmh_run.specs.declared.delivery.Ending.{Ending};
ghost use Rattle.cmh_report.specs.Trace.{IsTraceOfSteps, IsEndedTrace};

use cmh_run::laws::law_runs_are_steps;

/// The name of a process and a list of choices leave one trace, with one ending.
pub fn law_one_trace()
    ensures { (name choices : List ℕ) (g : Graph) (text other : List ℕ) (ending last : Ending)
        → IsEndedTrace name choices ending g text → IsEndedTrace name choices last g other
        → (text ≡ other) × (ending ≡ last) }
{}

/// A trace is that of a run by the rules of the computation, and each such run has its trace.
pub fn law_trace_of_steps()
    ensures { (name choices : List ℕ) (ending : Ending) (g : Graph) (text : List ℕ)
        → IsEndedTrace name choices ending g text ↔ IsTraceOfSteps name choices ending g text }
{
    law_runs_are_steps();
}
