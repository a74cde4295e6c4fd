//! Laws: the definitions that compute say what the relations say. Each function here does nothing; its contract is the
//! law.

ghost use Rattle.std.specs.List.Sorted.{IsStrictlyIncreasing};
ghost use Rattle.std.specs.Prelude.{ℕ, ◌<◌, ◌↔◌, IsTrue, ◌≡◌, ◌≤◌, List, Some, IsFalse, None, Option, ◌+◌, length, Contains};
ghost use Rattle.cmh_graph.specs.Graph.{Graph, process_count, IsWithinGraph, is_awake};
ghost use Rattle.cmh_graph.specs.Path.{reaches, Reaches, reach_of};
ghost use Rattle.cmh_graph.specs.ChosenPath.{chosen_path, IsChosenPath, IsDistance, distance_of};
ghost use Rattle.cmh_graph.specs.Verdict.{IsDeadlocked, IsInDeadlockedSet, is_deadlocked};
ghost use Rattle.cmh_graph.specs.Core.{core_of, rest_of, IsLeader, leader_of, leaders, group_number};
ghost use Rattle.cmh_graph.specs.Build.{IsWellFormed, HasGraphFault};
ghost use Rattle.cmh_graph.specs.declared.fault.GraphFault.{GraphFault};

use crate::WaitGraph;

/// A process is deadlocked by paths exactly where it belongs to a deadlocked set: a set of idle processes, none awake,
/// that contains the dependent set of each.
pub fn law_closed_set()
    ensures { (g : Graph) (p : ℕ) → IsWithinGraph g → IsDeadlocked g p ↔ IsInDeadlockedSet g p }
{}

/// The test of reach says that there is a path.
pub fn law_reach()
    ensures { (g : Graph) (p q : ℕ) → IsWithinGraph g → p < process_count g
        → IsTrue (reaches g p q) ↔ Reaches g p q }
{}

/// The test of deadlock says that the process is idle and reaches no awake one.
pub fn law_verdict()
    ensures { (g : Graph) (p : ℕ) → IsWithinGraph g
        → IsTrue (is_deadlocked g p) ↔ IsDeadlocked g p }
{}

/// The chosen path is a shortest one to an awake process, and of these the least. No other path is.
pub fn law_chosen_path()
    ensures { (g : Graph) (p : ℕ) (path : List ℕ) → IsWithinGraph g → p < process_count g
        → (chosen_path g p ≡ Some path) ↔ IsChosenPath g p path }
{}

/// There is no chosen path exactly where no awake process is reached.
pub fn law_chosen_path_exists()
    ensures { (g : Graph) (p : ℕ) → IsWithinGraph g → p < process_count g
        → (chosen_path g p ≡ None) ↔ ((q : ℕ) → Reaches g p q → IsFalse (is_awake g q)) }
{}

/// The distance of a process is n exactly where a path of n dependencies leads from it to an awake one and no shorter
/// path does, and there is none exactly where no path does.
pub fn law_distance()
    ensures { (g : Graph) (p : ℕ) (distance : Option ℕ) → IsWithinGraph g → p < process_count g
        → (distance_of g p ≡ distance) ↔ IsDistance g p distance }
{}

/// The chosen path has one process more than its distance.
pub fn law_path_length()
    ensures { (g : Graph) (p : ℕ) (path : List ℕ) → chosen_path g p ≡ Some path
        → (n : ℕ) × (distance_of g p ≡ Some n) × (length path ≡ n + 1) }
{}

/// A process is in the core of another exactly where each reaches the other.
pub fn law_core()
    ensures { (g : Graph) (p q : ℕ) → IsWithinGraph g → p < process_count g
        → Contains (core_of g p) q ↔ (Reaches g p q × Reaches g q p) }
{}

/// A process is in the rest of another exactly where it is reached and isn't in the core.
pub fn law_rest()
    ensures { (g : Graph) (p q : ℕ) → IsWithinGraph g → p < process_count g
        → Contains (rest_of g p) q ↔ (Reaches g p q × (Contains (core_of g p) q → ⊥)) }
{}

/// What a process reaches, its core and its rest stand by rising index, each once.
pub fn law_rising()
    ensures { (g : Graph) (p : ℕ) → IsStrictlyIncreasing (reach_of g p)
        × IsStrictlyIncreasing (core_of g p) × IsStrictlyIncreasing (rest_of g p) }
{}

/// The leader of a process is in its core, and is the least of it. No other process is.
pub fn law_leader()
    ensures { (g : Graph) (p leader : ℕ) → IsWithinGraph g → p < process_count g
        → (leader_of g p ≡ leader) ↔ IsLeader g p leader }
{}

/// The leaders are those of the cores of deadlocked processes, by rising index.
pub fn law_leaders()
    ensures rise { (g : Graph) → IsStrictlyIncreasing (leaders g) }
    ensures lead { (g : Graph) (l : ℕ) → IsWithinGraph g
        → Contains (leaders g) l ↔ ((p : ℕ) × IsDeadlocked g p × IsLeader g p l) }
{}

/// Groups are numbered from 1 by their leaders. Deadlocked processes have the same number exactly where they are of one
/// core, and each number up to that of the last leader is that of a group.
pub fn law_group_number()
    ensures from_one { (g : Graph) (p : ℕ) → IsWithinGraph g → IsDeadlocked g p
        → 1 ≤ group_number g p }
    ensures to_last { (g : Graph) (p : ℕ) → group_number g p ≤ length (leaders g) }
    ensures none_left_out { (g : Graph) (n : ℕ) → IsWithinGraph g → 1 ≤ n → n ≤ length (leaders g)
        → (p : ℕ) × IsDeadlocked g p × (group_number g p ≡ n) }
    ensures one_core { (g : Graph) (p q : ℕ) → IsWithinGraph g → IsDeadlocked g p → IsDeadlocked g q
        → (group_number g p ≡ group_number g q) ↔ Contains (core_of g p) q }
    ensures in_order { (g : Graph) (p q : ℕ) → IsWithinGraph g → IsDeadlocked g p → IsDeadlocked g q
        → (group_number g p < group_number g q) ↔ (leader_of g p < leader_of g q) }
{}

/// A graph is well formed exactly where it has no fault.
pub fn law_well_formed()
    ensures { (g : Graph) → IsWellFormed g ↔ ((fault : GraphFault) → HasGraphFault g fault → ⊥) }
{}

/// A graph that was built is well formed. For callers with contracts that rest on it.
pub fn law_built_graph(graph: &WaitGraph)
    ensures { IsWellFormed graph.now }
{
    graph.has_no_fault()
}
