//! Laws of all legal runs, over the definitions alone. Each function here has an empty body; its contract is the law.

ghost use Rattle.std.specs.Prelude.{ℕ, List, ◌≡◌, ◌↔◌, IsTrue, IsFalse, ◌+◌, ◌*◌, ◌<◌, ◌≤◌, length, All, Option, None};
ghost use Rattle.cmh_run.specs.Prelude.{after_delivery, AreEngaged, asks_hint, CheckFault, chosen_place, Config, Delivery, dependency_count, Ending, Going, Graph, HasNoHints, is_awake, IsBetween, IsEmptyRun, IsFirstCheckFault, IsLegalRun, IsRight, IsRun, IsRunOf, IsRunOfSteps, IsStart, IsStep, IsWellFormed, LastIsRun, MayCome, Message, OfEveryRun, proc_at, Rule, Run, start, Verdict, without_message};

/// The rule of a start allows the computed start and nothing else, where the initiator isn't awake and the run hasn't
/// ended.
pub fn law_start()
    ensures { (g : Graph) (i : ℕ) (c after : Config) → IsStart g i c after
        ↔ (IsFalse (is_awake g i) × (c.ended ≡ None) × (after ≡ start g i c)) }
{}

/// The rules allow the computed delivery and nothing else, where the message is undelivered, the run hasn't ended, and
/// there is no hint, or one that was asked for and is true.
pub fn law_step()
    ensures { (g : Graph) (i : ℕ) (c : Config) (x : ℕ) (d : Delivery) (after : Config)
        → IsStep g i c x d after
        ↔ (MayCome g c x d × (after ≡ after_delivery g i c x d.message d.hint)) }
{}

/// The legal runs are the sequences of starts and steps by the rules, and no others, whichever places may be taken
/// next.
pub fn law_runs_are_steps()
    ensures { (rule : Rule) (g : Graph) (i : ℕ) (restarts : List ℕ)
        (log : List Delivery) (ending : Ending) (end : Going)
        → IsRun rule g i restarts log ending end ↔ IsRunOfSteps rule g i restarts log ending end }
{}

/// A message numbered below its receiver's `latest` is taken, and nothing else changes: no process changes, nothing is
/// sent, none engages, and the run hasn't ended. No hint is asked about it.
pub fn law_stale()
    ensures untouched { (g : Graph) (i : ℕ) (c : Config) (x : ℕ) (m : Message)
        (hint : Option Verdict) → c.ended ≡ None → m.number < (proc_at c.procs m.to).latest
        → after_delivery g i c x m hint ≡ without_message c x }
    ensures unasked { (g : Graph) (c : Config) (m : Message)
        → m.number < (proc_at c.procs m.to).latest → IsFalse (asks_hint g c m) }
{}

/// A run that has ended says whether its initiator is deadlocked. Where it is declared, each process that is engaged is
/// deadlocked too, and no message of the last start is undelivered.
pub fn law_runs_sound()
    ensures { OfEveryRun (λ g i restarts log ending end. IsRight g i restarts ending end) }
{}

/// Whatever the ending, the initiator engaged first, unless it is awake. No process engaged twice. The initiator
/// reaches each that engaged, and none of them is awake. A run is cut at a free process that didn't engage.
pub fn law_who_engages()
    ensures { OfEveryRun (λ g i restarts log ending end. AreEngaged g i ending end.config.engaged) }
{}

/// An awake initiator has the empty run: it comes to rest at once, with none engaged, and doesn't start again.
pub fn law_awake_ones_start_nothing()
    ensures { (rule : Rule) (g : Graph) (i : ℕ) (restarts : List ℕ)
        (log : List Delivery) (ending : Ending) (end : Going)
        → IsTrue (is_awake g i) → IsRun rule g i restarts log ending end
        → IsEmptyRun log ending end }
{}

/// A run has at most two deliveries for each dependency and start.
pub fn law_delivery_bound()
    ensures { OfEveryRun (λ g i restarts log ending end.
        length log ≤ 2 * dependency_count g * (end.restarted + 1)) }
{}

/// The messages of a run of an idle process of a graph go between the graph's processes.
pub fn law_messages_between()
    ensures { OfEveryRun (λ g i restarts log ending end. All (λ d. IsBetween g d.message) log) }
{}

/// Without hints a list of choices leaves one run, with one ending.
pub fn law_runs_deterministic()
    ensures { (choices : List ℕ) (g : Graph) (i : ℕ) (restarts : List ℕ)
        (log other : List Delivery) (ending last : Ending) (end far : Going)
        → IsRun (chosen_place choices) g i restarts log ending end
        → IsRun (chosen_place choices) g i restarts other last far
        → HasNoHints log → HasNoHints other → (log ≡ other) × (end ≡ far) }
{}

/// Without hints there is one run to be kept of an initiator, a list of choices and a list of restarts. So without
/// restarts `run_again` answers what `run` answers.
pub fn law_one_run()
    ensures { (g : Graph) (choices restarts : List ℕ) (r s : Run) → r.initiator ≡ s.initiator
        → IsRunOf g choices restarts r → IsRunOf g choices restarts s
        → HasNoHints r.log → HasNoHints s.log → r ≡ s }
{}

/// The deliveries of a run's last number, taken alone and numbered 1, begin a run without restarts. Where the run was
/// declared or came to rest, they are all of such a run, with the same ending and the same engaged processes.
pub fn law_last_computation_is_a_run()
    ensures { OfEveryRun (λ g i restarts log ending end. LastIsRun g i log ending end) }
{}

/// A log is legal with one ending, or has one first fault: so `check_run` has no choice.
pub fn law_logs_have_one_answer()
    ensures ending { (g : Graph) (i : ℕ) (log : List Delivery) (a b : Ending) → IsWellFormed g
        → IsLegalRun g i log a → IsLegalRun g i log b → a ≡ b }
    ensures sound { (g : Graph) (i : ℕ) (log : List Delivery) (a : Ending) (e : CheckFault)
        → IsWellFormed g → IsLegalRun g i log a → IsFirstCheckFault g i log e → ⊥ }
    ensures first { (g : Graph) (i : ℕ) (log : List Delivery) (e f : CheckFault) → IsWellFormed g
        → IsFirstCheckFault g i log e → IsFirstCheckFault g i log f → e ≡ f }
{}
