//! Hints that are written down before the run, each with the number of the ask that it answers.

ghost use Rattle.std.specs.Prelude.{◌==◌, ◌≡◌, ◌⊎◌, ◌<◌, [], ◌∷◌, None, IfOk, IfErr, IfSome, nat_le, not, position, refl, ℕ};
ghost use Rattle.cmh_graph.specs.Verdict.{IsVerdict};
ghost use Rattle.cmh_run.specs.Script.{Script, AreTrueOf, IsLineOutOfRange, IsFirstScriptFault, is_listed, answer_at, Answers, next_answer, once_asked};
ghost use Rattle.cmh_run.specs.ScriptProofs.{scripts_ask_on, scripts_keep_graphs, scripts_keep_silent};
ghost use Rattle.std.proofs.Common.{◌∙◌};
ghost use Rattle.cmh_run.specs.Comparisons.{comparing, eq_of_both, laws_of_verdict, of_verdict, on, pointwise, rules};
ghost use Rattle.cmh_run.specs.Prelude.{Graph, process_count};

use crate::truth::truth_of;
use crate::{Hints, ScriptFault};
use cmh_graph::{Verdict, WaitGraph};
use std::alloc::Global;
use std::marker::Model;

/// Hints that answer by the number of the ask.
#[derive(Clone, Debug, Drop)]
pub struct Scripted {
    lines: Vec<(u32, u32, Verdict)>,
    asked: u32,
}

impl Model for Scripted {
    ghost Value = { Script };

    ghost view = { λ s. record { lines = s.lines.items; asked = s.asked } };
}

impl Scripted {
    /// A line (n, p, v) answers v at ask n, from 0, where that ask is about process p. All other asks have no answer,
    /// nor has any from ask `u32::MAX` on.
    pub fn new(
        alloc: Global,
        graph: &WaitGraph,
        lines: &[(u32, u32, Verdict)],
    ) -> Result<Scripted, ScriptFault>
        ensures ok { IfOk result (λ s. s ≡ record { lines = lines.now; asked = 0 }) }
        ensures within { IfOk result (λ s.
            (k : ℕ) → IsLineOutOfRange (process_count graph.now) lines.now k → ⊥) }
        ensures speaks { IfOk result (λ s. AreTrueOf graph.now s.lines) }
        ensures fault { IfErr result (λ e.
            (e ≡ ScriptFault.Memory) ⊎ IsFirstScriptFault graph.now lines.now e) }
    {
        if let Some(i) = first_out_of_range(graph.len(), lines) {
            return Err(ScriptFault::ProcessOutOfRange(i));
        }
        let truth = truth_of(alloc, graph)?;
        if let Some(i) = first_difference(&truth, lines) {
            return Err(ScriptFault::FalseVerdict(i));
        }
        let lines = Vec::from_slice(alloc, lines)?;
        Ok(Scripted { lines, asked: 0 })
    }
}

impl Hints for Scripted {
    ghost speaks_of = { λ s g. AreTrueOf g s.lines };

    ghost keeps = { λ a b. a.lines ≡ b.lines };

    ghost is_silent = { λ s. s.lines ≡ [] };

    ghost has_asked = { Answers };

    fn hint(&mut self, p: u32) -> Option<Verdict>
        ensures answer { result ≡ next_answer self.old p }
        ensures counts { self.new ≡ once_asked self.old }
        ensures true_verdict { (g : Graph) → AreTrueOf g self.old.lines → p < process_count g
            → IfSome result (λ v. IsVerdict g p v) }
        ensures silent { self.old.lines ≡ [] → result ≡ None }
        ensures asked { Answers self.old self.new ((p, result) ∷ []) }
        ensures kept { self.old.lines ≡ self.new.lines }
    {
        let ask = self.asked;
        if ask == u32::MAX {
            return None;
        }
        self.asked += 1;
        answer_at(&self.lines, ask, p)
    }

    ghost keeps_itself = { λ s. refl };

    ghost keeps_on = { λ a b c x y. x ∙ y };

    ghost keeps_graphs = { scripts_keep_graphs };

    ghost keeps_silent = { scripts_keep_silent };

    ghost asks_nothing = { λ s. refl };

    ghost asks_on = { scripts_ask_on };
}

impl PartialEq for Scripted {
    ghost eq = { eq_of_both (on (λ s. s.lines)
        (pointwise (eq_of_both (on (λ e. e.0) ◌==◌)
        (eq_of_both (on (λ e. e.1) ◌==◌) (on (λ e. e.2) of_verdict.eq)))))
        (on (λ s. s.asked) ◌==◌) };

    ghost laws = { Prim.search (comparing, rules, laws_of_verdict) depth 9 };

    fn eq(&self, other: &Scripted) -> bool {
        self.lines == other.lines && self.asked == other.asked
    }
}

impl Eq for Scripted {
    ghost laws = { Prim.search (comparing, rules, laws_of_verdict) depth 9 };
}

/// What the lines answer at that ask about `p`.
fn answer_at(lines: &[(u32, u32, Verdict)], ask: u32, p: u32) -> Option<Verdict>
    ensures { result ≡ answer_at lines.now ask p }
{
    lines
        .iter()
        .find(|line| line.0 == ask && line.1 == p)
        .map(|line| line.2)
}

/// The first line that is about none of `count` processes.
fn first_out_of_range(count: u32, lines: &[(u32, u32, Verdict)]) -> Option<usize>
    ensures { result ≡ position (λ line. nat_le count line.1) lines.now }
{
    lines.iter().position(|line| line.1 >= count)
}

/// The first line with a verdict other than that of its process. `truth` has the verdicts of all processes.
fn first_difference(truth: &[Verdict], lines: &[(u32, u32, Verdict)]) -> Option<usize>
    ensures { result ≡ position (λ line. not (is_listed truth.now line)) lines.now }
{
    lines.iter().position(|line| !is_listed(truth, *line))
}

/// Whether the list has the line's verdict at the line's process.
fn is_listed(truth: &[Verdict], line: (u32, u32, Verdict)) -> bool
    ensures { result ≡ is_listed truth.now line }
{
    match truth.get(line.1 as usize) {
        Some(verdict) => *verdict == line.2,
        None => false,
    }
}
