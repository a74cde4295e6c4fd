//! What may be asked about a process just before it engages.

ghost use Rattle.std.specs.Prelude.{◌≡◌, ◌<◌, ◌↔◌, ⊤, List, [], ◌∷◌, ◌++◌, None, IfSome};
ghost use Rattle.cmh_graph.specs.Verdict.{IsVerdict};
ghost use Rattle.cmh_run.specs.Asks.{Ask};
ghost use Rattle.cmh_run.specs.Prelude.{Graph, process_count};

use cmh_graph::Verdict;

/// What may know the verdict of a process before its run. An answer is true in each graph of which these hints speak,
/// and an ask changes nothing of what they keep.
pub trait Hints {
    /// The graphs of which these hints speak.
    ghost speaks_of: { Self → Graph → Type 0 };

    /// What stays the same from one ask to a later one.
    ghost keeps: { Self → Self → Type 0 };

    /// They never answer.
    ghost is_silent: { Self → Type 0 };

    /// From one state to another they were asked just this, in this order, and answered it so.
    ghost has_asked: { Self → Self → List Ask → Type 0 };

    /// What is known of process `p`, if anything is.
    fn hint(&mut self, p: u32) -> Option<Verdict>
        requires { (g : Graph) × speaks_of self.old g × (p < process_count g) }
        ensures true_verdict { (g : Graph) → speaks_of self.old g → p < process_count g
            → IfSome result (λ v. IsVerdict g p v) }
        ensures silent { is_silent self.old → result ≡ None }
        ensures asked { has_asked self.old self.new ((p, result) ∷ []) }
        ensures kept { keeps self.old self.new };

    ghost keeps_itself: { (h : Self) → keeps h h };

    ghost keeps_on: { (a b c : Self) → keeps a b → keeps b c → keeps a c };

    /// Before and after an ask they speak of the same graphs.
    ghost keeps_graphs: { (a b : Self) (g : Graph) → keeps a b → speaks_of a g ↔ speaks_of b g };

    ghost keeps_silent: { (a b : Self) → keeps a b → is_silent a → is_silent b };

    ghost asks_nothing: { (h : Self) → has_asked h h [] };

    ghost asks_on: { (a b c : Self) (first second : List Ask) → has_asked a b first → has_asked b c second
        → has_asked a c (first ++ second) };
}

/// Never answers, and speaks of every graph.
#[derive(Clone, Copy, PartialEq, Eq, Hash, Debug, Drop)]
pub struct NoHints;

impl Hints for NoHints {
    ghost speaks_of = { λ h g. ⊤ };

    ghost keeps = { λ a b. ⊤ };

    ghost is_silent = { λ h. ⊤ };

    ghost has_asked = { λ a b asks. ⊤ };

    fn hint(&mut self, p: u32) -> Option<Verdict>
        ensures none { result ≡ None }
        ensures true_verdict { (g : Graph) → ⊤ → p < process_count g
            → IfSome result (λ v. IsVerdict g p v) }
        ensures silent { ⊤ → result ≡ None }
        ensures asked { ⊤ }
        ensures kept { ⊤ }
    {
        None
    }

    ghost keeps_itself = { λ h. tt };

    ghost keeps_on = { λ a b c x y. tt };

    ghost keeps_graphs = { λ a b g x. ((λ y. tt), (λ y. tt)) };

    ghost keeps_silent = { λ a b x y. tt };

    ghost asks_nothing = { λ h. tt };

    ghost asks_on = { λ a b c first second x y. tt };
}
