//! Laws over the definitions alone. Each function here has an empty body; its contract is the law.

ghost use Rattle.std.specs.Prelude.{ℕ, ◌≡◌, ◌<◌};
ghost use Rattle.cmh_process.specs.Process.{proc_queried, query_action, proc_replied, reply_action};
ghost use Rattle.cmh_process.specs.declared.process.Proc.{Proc};
ghost use Rattle.cmh_process.specs.declared.process.Action.TheVariants.{Nothing};

/// A message of an older computation, numbered below `latest`, changes nothing and sends nothing.
pub fn law_stale()
    ensures at_query { (p : Proc) (number from size : ℕ) → number < p.latest
        → proc_queried p number from size ≡ p }
    ensures no_answer { (p : Proc) (number from size : ℕ) → number < p.latest
        → query_action p number from size ≡ Nothing }
    ensures at_reply { (p : Proc) (number : ℕ) → number < p.latest → proc_replied p number ≡ p }
    ensures no_word { (p : Proc) (number : ℕ) → number < p.latest
        → reply_action p number ≡ Nothing }
{}
