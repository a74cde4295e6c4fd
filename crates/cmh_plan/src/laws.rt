//! Laws of the definitions alone: each function has an empty body, and its contract is the law.

ghost use Rattle.std.specs.Prelude.{◌≡◌, ℕ, ◌<◌, ◌≤◌, ◌⊎◌, slice_index};
ghost use Rattle.cmh_rw.specs.Machine.{total};
ghost use Rattle.atomic_table.specs.Table.{State};
ghost use Rattle.cmh_plan.specs.Tickets.{times, DrewAll, Dealt};
ghost use Rattle.cmh_plan.specs.declared.ticket_rule.TicketView.{TicketView};

/// A seat that drew all drew each number below the number of chunks exactly once, and no other.
pub fn law_drew_each_once()
    ensures { (v : TicketView) → DrewAll v → (n : ℕ)
        → (n < v.chunks → times n v.drawn ≡ 1) × (v.chunks ≤ n → times n v.drawn ≡ 0) }
{}

/// Between any two steps, each number below the bound of what is drawn stands once among the numbers of all seats, and
/// no other stands there.
pub fn law_drawn_once()
    ensures { (chunks : ℕ) (s : State (Unit {0}) TicketView) → Dealt chunks s → (n : ℕ)
        → (n < chunks → n < slice_index s.words 0 → total (λ v. times n v.drawn) s.views ≡ 1)
        × (chunks ≤ n ⊎ slice_index s.words 0 ≤ n → total (λ v. times n v.drawn) s.views ≡ 0) }
{}
