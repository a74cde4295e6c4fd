//! The wait graph: how it is built, what it holds, and the questions to it.
//!
//! They ask for reach, cores, distances, paths and verdicts. The steps of the searches are in `search`.

ghost use Rattle.std.specs.Prelude.{◌≡◌, ◌⊎◌, ◌<◌, ◌↔◌, map, [], IfOk, IfErr, IsTrue, not, ◌+◌, length, Some, option_map, All, ◌==◌, ◌≤◌, OnOk, ◌∷◌, None};
ghost use Rattle.cmh_graph.specs.Graph.{indices, process_count, is_idle, is_idle_state, is_awake, site_of, name_of, dependents_of, idle_list};
ghost use Rattle.cmh_graph.specs.Build.{parts_graph, IsWellFormed, IsFirstGraphFault};
ghost use Rattle.cmh_graph.specs.Path.{reach_of, reaches, Reaches, steps_to};
ghost use Rattle.cmh_graph.specs.Core.{core_of};
ghost use Rattle.cmh_graph.specs.Search.{ArePredecessors, IsLeastAt, is_marked, predecessors_at, SpreadsFrom};
ghost use Rattle.cmh_graph.specs.ChosenPath.{distance_of, chosen_path};
ghost use Rattle.cmh_graph.specs.Verdict.{verdict, verdicts};
ghost use Rattle.cmh_graph.specs.Alone.{AreAlone, IsTrimming};

use crate::judge::judge;
use crate::search::{
    first_distances, first_unmarked, least_at, mark_alone, mark_each, mark_each_within,
    marked_indices, next_level,
};
use crate::{GraphFault, MAX_PROCESSES, Part, Predecessors, State, Verdict};
use cmh_memory::{Allocated, Need, copies, room};
use std::alloc::Global;
use std::marker::Model;

/// A wait graph: the processes that each one waits for, and the messages in transit. Processes are named by their
/// indices in the dump, from 0.
#[derive(Debug, Drop)]
pub struct WaitGraph {
    parts: Vec<Part>,
    in_transit: Vec<(u32, u32)>,
    awake: Vec<bool>,
}

impl Model for WaitGraph {
    ghost use Rattle.std.specs.Prelude.{◌≡◌, map};
    ghost use Rattle.cmh_graph.specs.Graph.{Graph, indices, is_awake};
    ghost use Rattle.cmh_graph.specs.Build.{parts_graph, IsWellFormed};

    ghost Value = { Graph };

    ghost view = { λ w. parts_graph w.parts.items w.in_transit.items };

    ghost invariant = { λ w. let g = parts_graph w.parts.items w.in_transit.items in
        IsWellFormed g × (w.awake.items ≡ map (is_awake g) (indices g)) };
}

/// What has a value for each process.
impl<'g> Need for &'g WaitGraph {
    ghost use Rattle.cmh_graph.specs.Graph.{process_count};

    ghost needed = { λ g. process_count g.now };
}

impl WaitGraph {
    /// The graph of the parts, with no message in transit.
    pub fn build(alloc: Global, parts: Vec<Part>) -> Result<WaitGraph, GraphFault>
        ensures ok { IfOk result (λ g. (g ≡ parts_graph parts.items []) × IsWellFormed g) }
        ensures fault { IfErr result (λ e.
            (e ≡ GraphFault.Memory) ⊎ IsFirstGraphFault (parts_graph parts.items []) e) }
    {
        WaitGraph::build_with(alloc, parts, &[])
    }

    /// The graph of the parts, with messages in transit, each by its sender and its receiver. A message may be there
    /// more than once. Neither names nor sites are judged. It takes time linear in parts, dependents and, for each
    /// message, the dependents of its receiver.
    pub fn build_with(
        alloc: Global,
        parts: Vec<Part>,
        in_transit: &[(u32, u32)],
    ) -> Result<WaitGraph, GraphFault>
        ensures ok { IfOk result (λ g.
            (g ≡ parts_graph parts.items in_transit.now) × IsWellFormed g) }
        ensures fault { IfErr result (λ e.
            (e ≡ GraphFault.Memory) ⊎ IsFirstGraphFault (parts_graph parts.items in_transit.now) e) }
    {
        judge(alloc, &parts, in_transit)?;
        let awake = mark_awake(alloc, &parts, in_transit)?;
        let in_transit = Vec::from_slice(alloc, in_transit)?;
        Ok(WaitGraph {
            parts,
            in_transit,
            awake,
        })
    }

    /// How many processes there are.
    pub fn len(&self) -> u32
        ensures count { result ≡ process_count self.now }
        ensures well_formed { IsWellFormed self.now }
    {
        self.parts.len() as u32
    }

    /// Whether there is no process.
    pub fn is_empty(&self) -> bool
        ensures { IsTrue result ↔ (process_count self.now ≡ 0) }
    {
        self.parts.is_empty()
    }

    /// Whether the process waits for a message from its dependent set.
    pub fn is_idle(&self, p: u32) -> bool
        requires { p < process_count self.now }
        ensures { result ≡ is_idle self.now p }
    {
        matches!(self.parts[p as usize].state, State::Idle)
    }

    /// Whether the process can still send: it is active, or a message is in transit to it from a member of its
    /// dependent set.
    pub fn is_awake(&self, p: u32) -> bool
        requires { p < process_count self.now }
        ensures { result ≡ is_awake self.now p }
    {
        self.awake[p as usize]
    }

    /// Each graph is well formed: for a function that reads no field of it.
    pub(crate) fn has_no_fault(&self)
        ensures { IsWellFormed self.now }
    {
        let _ = &self.parts;
    }

    /// For each process whether it is awake.
    pub(crate) fn awake_marks(&self) -> &[bool]
        ensures marks { result.now ≡ map (is_awake self.now) (indices self.now) }
        ensures well_formed { IsWellFormed self.now }
    {
        &self.awake
    }

    /// The number of its site. Processes of equal numbers are at one site.
    pub fn site(&self, p: u32) -> u32
        requires { p < process_count self.now }
        ensures { result ≡ site_of self.now p }
    {
        self.parts[p as usize].site
    }

    /// The messages in transit, each by its sender and its receiver, in the order given.
    pub fn in_transit(&self) -> &[(u32, u32)]
        ensures { result.now ≡ self.now.in_transit }
    {
        &self.in_transit
    }

    /// The dependent set, in the order given.
    pub fn dependents(&self, p: u32) -> &[u32]
        requires { p < process_count self.now }
        ensures { result.now ≡ dependents_of self.now p }
    {
        &self.parts[p as usize].dependents
    }

    /// The name that the process has in the dump.
    pub fn name(&self, p: u32) -> &str
        requires { p < process_count self.now }
        ensures { result.now ≡ name_of self.now p }
    {
        &self.parts[p as usize].name
    }
}

// Questions to the graph.

impl WaitGraph {
    /// The idle processes, by rising index.
    #[tactic(auto, using(crate::proofs::IndexLists::filter_indices_kept, crate::proofs::IndexLists::filter_indices_passed))]
    pub fn idle_list(&self, alloc: Global) -> Result<Vec<u32>, GraphFault>
        ensures ok { IfOk result (λ list. list.items ≡ idle_list self.now) }
        ensures memory { IfErr result (λ e. e ≡ GraphFault.Memory) }
    {
        let mut list = Vec::new(alloc);
        for p in 0..self.len() {
            if self.is_idle(p) {
                list.push(p)?;
            }
        }
        Ok(list)
    }

    /// The processes that `p` reaches, itself among them, by rising index. It takes time and memory linear in processes
    /// and dependencies; where `p` reaches few, time linear in these and their dependencies, beside clearing a mark for
    /// each process.
    pub fn reach_of(&self, alloc: Global, p: u32) -> Result<Vec<u32>, GraphFault>
        requires { p < process_count self.now }
        ensures ok { IfOk result (λ list. list.items ≡ reach_of self.now p) }
        ensures memory { IfErr result (λ e. e ≡ GraphFault.Memory) }
    {
        Ok(self.reach_from(alloc, p)?)
    }

    /// For each process whether `p` reaches it. It takes the time and memory of `reach_of`.
    pub fn reach_marks(&self, alloc: Global, p: u32) -> Allocated<Vec<bool>>
        requires { p < process_count self.now }
        ensures { IfOk result (λ marks.
            marks.items ≡ map (reaches self.now p) (indices self.now)) }
    {
        let marks = mark_alone(alloc, self, p)?;
        self.spread(alloc, p, marks)
    }

    /// For each process whether `p` reaches it, as `reach_marks` gives it, by what `q` reaches, where `p` reaches `q`.
    /// It takes time linear in the processes and in the dependencies of those that `p` reaches and `q` doesn't.
    pub fn reach_marks_by(
        &self,
        alloc: Global,
        p: u32,
        q: u32,
        known: &[bool],
    ) -> Allocated<Vec<bool>>
        requires within { p < process_count self.now }
        requires beyond { Reaches self.now p q }
        requires known { known.now ≡ map (reaches self.now q) (indices self.now) }
        ensures { IfOk result (λ marks.
            marks.items ≡ map (reaches self.now p) (indices self.now)) }
    {
        self.has_no_fault();
        let mut marks = Vec::from_slice(alloc, known)?;
        marks[p as usize] = true;
        self.spread(alloc, p, marks)
    }

    /// The processes that `p` reaches and that reach `p`, by rising index. It takes time linear in processes and
    /// dependencies, beside sorting the core, and memory linear in both.
    pub fn core_of(&self, alloc: Global, p: u32) -> Result<Vec<u32>, GraphFault>
        requires { p < process_count self.now }
        ensures ok { IfOk result (λ list. list.items ≡ core_of self.now p) }
        ensures memory { IfErr result (λ e. e ≡ GraphFault.Memory) }
    {
        let predecessors = Predecessors::of_graph(alloc, self)?;
        Ok(self.core_by(alloc, &predecessors, p)?)
    }

    /// The core of `p`, as `core_of` gives it, by the predecessors of all processes. It takes time linear in the
    /// processes, the dependencies of those that `p` reaches and the predecessors of those in the core, beside sorting
    /// the core, and memory linear in the processes.
    pub fn core_by(&self, alloc: Global, predecessors: &Predecessors, p: u32) -> Allocated<Vec<u32>>
        requires within { p < process_count self.now }
        requires known { ArePredecessors self.now predecessors.now }
        ensures { IfOk result (λ core. core.items ≡ core_of self.now p) }
    {
        self.has_no_fault();
        let reached = self.reach_marks(alloc, p)?;
        let mut marks = mark_alone(alloc, self, p)?;
        let mut pending = Vec::new(alloc);
        pending.push(p)?;
        let mut core = Vec::new(alloc);
        // The search stays among those that `p` reaches. Each on a way from `p` back to `p` is one of them, so it
        // visits the core alone.
        while let Some(q) = pending.pop() {
            core.push(q)?;
            mark_each_within(predecessors.at(q), &reached, &mut marks, &mut pending)?;
        }
        core.sort_unstable();
        Ok(core)
    }

    /// Marks processes that are a core by themselves: those on which no process depends, and those with no dependent
    /// that isn't marked. There may be others. It takes time linear in processes and dependencies, and memory linear in
    /// the processes.
    pub fn singleton_marks(
        &self,
        alloc: Global,
        predecessors: &Predecessors,
    ) -> Allocated<Vec<bool>>
        requires known { ArePredecessors self.now predecessors.now }
        ensures { IfOk result (λ marks. AreAlone self.now marks.items) }
    {
        self.has_no_fault();
        let mut marks = self.marks_without_predecessors(alloc, predecessors)?;
        let mut passed = copies(alloc, 0, self.len() as usize, self)?;
        let mut pending = self.trim_all(alloc, &mut marks, &mut passed)?;
        // Each process is pending once at most.
        for _ in 0..self.len() {
            let Some(q) = pending.pop() else {
                break;
            };
            self.trim_each(predecessors.at(q), &mut marks, &mut passed, &mut pending)?;
        }
        Ok(marks)
    }

    /// For each process the least number of dependencies to an awake process, where there is one. It takes time and
    /// memory linear in processes and dependencies.
    pub fn distances(&self, alloc: Global) -> Result<Vec<Option<u32>>, GraphFault>
        ensures ok { IfOk result (λ list.
            list.items ≡ map (distance_of self.now) (indices self.now)) }
        ensures memory { IfErr result (λ e. e ≡ GraphFault.Memory) }
    {
        let predecessors = Predecessors::of_graph(alloc, self)?;
        Ok(self.distances_by(alloc, &predecessors)?)
    }

    /// The distances, as `distances` gives them, by the predecessors of all processes. It takes time linear in
    /// processes and dependencies, and memory linear in the processes.
    pub fn distances_by(
        &self,
        alloc: Global,
        predecessors: &Predecessors,
    ) -> Allocated<Vec<Option<u32>>>
        requires { ArePredecessors self.now predecessors.now }
        ensures { IfOk result (λ list.
            list.items ≡ map (distance_of self.now) (indices self.now)) }
    {
        self.steps_to(alloc, predecessors, self.awake_marks())
    }

    /// Of the shortest paths from `p` to an awake process the one whose indices are least, from the front. There is
    /// none where `p` is deadlocked, and it is `p` alone where `p` is awake. It takes time and memory linear in
    /// processes and dependencies.
    pub fn chosen_path(&self, alloc: Global, p: u32) -> Result<Option<Vec<u32>>, GraphFault>
        requires { p < process_count self.now }
        ensures ok { IfOk result (λ path.
            option_map (λ v. v.items) path ≡ chosen_path self.now p) }
        ensures memory { IfErr result (λ e. e ≡ GraphFault.Memory) }
    {
        let distances = self.distances(alloc)?;
        Ok(self.path_by(alloc, &distances, p)?)
    }

    /// The chosen path of `p`, as `chosen_path` gives it, by the distances of all processes. It takes time linear in
    /// the dependencies of the processes on the path.
    pub fn path_by(
        &self,
        alloc: Global,
        distances: &[Option<u32>],
        p: u32,
    ) -> Allocated<Option<Vec<u32>>>
        requires within { p < process_count self.now }
        requires known { distances.now ≡ map (distance_of self.now) (indices self.now) }
        ensures { IfOk result (λ path.
            option_map (λ v. v.items) path ≡ chosen_path self.now p) }
    {
        self.has_no_fault();
        let Some(distance) = distances[p as usize] else {
            return Ok(None);
        };
        let mut path = room(alloc, distance as usize + 1, self)?;
        path.push_reserved(p);
        let mut last = p;
        for nearer in (0..distance).rev() {
            last = self.next_at(nearer, last, distances);
            path.push_reserved(last);
        }
        Ok(Some(path))
    }

    /// The process after `p` on its chosen path, where `p` is one further away than this distance: of its dependents at
    /// the distance the least. It takes time linear in the dependents of `p`.
    pub fn next_at(&self, distance: u32, p: u32, distances: &[Option<u32>]) -> u32
        requires within { p < process_count self.now }
        requires known { distances.now ≡ map (distance_of self.now) (indices self.now) }
        requires further { distance_of self.now p ≡ Some (distance + 1) }
        ensures { IsLeastAt distance (dependents_of self.now p) distances.now (Some result) }
    {
        self.has_no_fault();
        let dependents = self.dependents(p);
        // Some dependent is at the distance, so a single one is.
        if dependents.len() == 1 {
            return dependents[0];
        }
        least_at(distance, dependents, distances).unwrap()
    }

    /// The verdict of each process, by one search of the graph. It takes time and memory linear in processes and
    /// dependencies.
    pub fn verdicts_plain(&self, alloc: Global) -> Result<Vec<Verdict>, GraphFault>
        ensures ok { IfOk result (λ list. list.items ≡ verdicts self.now) }
        ensures memory { IfErr result (λ e. e ≡ GraphFault.Memory) }
    {
        let distances = self.distances(alloc)?;
        Ok(self.verdicts_by(alloc, &distances)?)
    }

    /// The verdict of each process, as `verdicts_plain` gives it, by the distances of all processes. It takes time and
    /// memory linear in the processes.
    pub fn verdicts_by(&self, alloc: Global, distances: &[Option<u32>]) -> Allocated<Vec<Verdict>>
        requires { distances.now ≡ map (distance_of self.now) (indices self.now) }
        ensures { IfOk result (λ list. list.items ≡ verdicts self.now) }
    {
        let mut verdicts = Vec::new(alloc);
        for p in 0..self.len() {
            verdicts.push(self.verdict_by(distances, p))?;
        }
        Ok(verdicts)
    }
}

// The searches that answer them.

impl WaitGraph {
    /// The processes that `p` reaches, by rising index. A short list is sorted: to read it off the marks of all
    /// processes would take most of the time.
    pub(crate) fn reach_from(&self, alloc: Global, p: u32) -> Allocated<Vec<u32>>
        requires { p < process_count self.now }
        ensures { IfOk result (λ list. list.items ≡ reach_of self.now p) }
    {
        self.has_no_fault();
        let mut marks = mark_alone(alloc, self, p)?;
        let mut pending = Vec::new(alloc);
        pending.push(p)?;
        let mut list = Vec::new(alloc);
        while let Some(q) = pending.pop() {
            list.push(q)?;
            mark_each(self.dependents(q), &mut marks, &mut pending)?;
        }
        if list.len() > marks.len() / 32 {
            return marked_indices(alloc, &marks);
        }
        list.sort_unstable();
        Ok(list)
    }

    /// Marks all that `p` reaches. Where another process is marked already, so are its dependencies.
    pub(crate) fn spread(&self, alloc: Global, p: u32, marks: Vec<bool>) -> Allocated<Vec<bool>>
        requires within { p < process_count self.now }
        requires spreads { SpreadsFrom self.now p marks.items (p ∷ []) }
        ensures marks { IfOk result (λ all.
            all.items ≡ map (reaches self.now p) (indices self.now)) }
        ensures few { process_count self.now ≤ MAX_PROCESSES }
    {
        self.has_no_fault();
        let mut marks = marks;
        let mut pending = Vec::new(alloc);
        pending.push(p)?;
        while let Some(q) = pending.pop() {
            mark_each(self.dependents(q), &mut marks, &mut pending)?;
        }
        Ok(marks)
    }

    /// For each process whether no process depends on it.
    fn marks_without_predecessors(
        &self,
        alloc: Global,
        predecessors: &Predecessors,
    ) -> Allocated<Vec<bool>>
        requires known { ArePredecessors self.now predecessors.now }
        ensures { IfOk result (λ marks. marks.items
            ≡ map (λ p. length (predecessors_at predecessors.now p) == 0) (indices self.now)) }
    {
        let mut marks = Vec::new(alloc);
        for p in 0..self.len() {
            marks.push(predecessors.at(p).is_empty())?;
        }
        Ok(marks)
    }

    /// Tries each process once, and lists those that it has marked.
    fn trim_all(
        &self,
        alloc: Global,
        marks: &mut [bool],
        passed: &mut [usize],
    ) -> Allocated<Vec<u32>>
        requires trimming { IsTrimming self.now marks.old passed.old }
        ensures trimming { OnOk result (IsTrimming self.now marks.new passed.new) }
        ensures within { IfOk result (λ list. All (λ p. p < process_count self.now) list.items) }
    {
        let mut list = Vec::new(alloc);
        for p in 0..self.len() {
            if self.trim(p, marks, passed) {
                list.push(p)?;
            }
        }
        Ok(list)
    }

    /// Tries each process of the list. Those that it has marked become pending.
    fn trim_each(
        &self,
        list: &[u32],
        marks: &mut [bool],
        passed: &mut [usize],
        pending: &mut Vec<u32>,
    ) -> Allocated<()>
        requires listed { All (λ p. p < process_count self.now) list.now }
        requires pending { All (λ p. p < process_count self.now) pending.old.items }
        requires trimming { IsTrimming self.now marks.old passed.old }
        ensures trimming { OnOk result (IsTrimming self.now marks.new passed.new) }
        ensures pending { OnOk result (All (λ p. p < process_count self.now) pending.new.items) }
    {
        for p in list {
            if self.trim(*p, marks, passed) {
                pending.push(*p)?;
            }
        }
        Ok(())
    }

    /// Marks a process if all its dependents are marked, and says whether it has. It looks at no dependent again that
    /// it has passed.
    fn trim(&self, p: u32, marks: &mut [bool], passed: &mut [usize]) -> bool
        requires within { p < process_count self.now }
        requires trimming { IsTrimming self.now marks.old passed.old }
        ensures trimming { IsTrimming self.now marks.new passed.new }
    {
        self.has_no_fault();
        let row = self.dependents(p);
        let count = first_unmarked(row, marks, passed[p as usize]);
        passed[p as usize] = count;
        if count < row.len() || marks[p as usize] {
            return false;
        }
        marks[p as usize] = true;
        true
    }

    /// For each process the least number of dependencies to a marked one, where there is one. The search goes against
    /// the dependencies, from each distance to the next.
    pub(crate) fn steps_to(
        &self,
        alloc: Global,
        predecessors: &Predecessors,
        marks: &[bool],
    ) -> Allocated<Vec<Option<u32>>>
        requires known { ArePredecessors self.now predecessors.now }
        requires size { length marks.now ≡ process_count self.now }
        ensures { IfOk result (λ distances.
            distances.items ≡ map (steps_to self.now (is_marked marks.now)) (indices self.now)) }
    {
        self.has_no_fault();
        let mut distances = first_distances(alloc, marks)?;
        let mut level = marked_indices(alloc, marks)?;
        let mut distance = 0;
        while !level.is_empty() {
            distance += 1;
            level = next_level(alloc, predecessors, &level, distance, &mut distances)?;
        }
        Ok(distances)
    }

    /// The verdict of `p`, by the distances of all processes.
    #[tactic(auto, using(crate::proofs::Distances::has_distance, crate::proofs::Distances::free_at, crate::proofs::Distances::deadlocked_at))]
    fn verdict_by(&self, distances: &[Option<u32>], p: u32) -> Verdict
        requires within { p < process_count self.now }
        requires known { distances.now ≡ map (distance_of self.now) (indices self.now) }
        ensures { result ≡ verdict self.now p }
    {
        self.has_no_fault();
        match distances[p as usize] {
            Some(_) => Verdict::Free,
            None => Verdict::Deadlocked,
        }
    }
}

/// Marks each part of an awake process.
fn mark_awake(alloc: Global, parts: &[Part], in_transit: &[(u32, u32)]) -> Allocated<Vec<bool>>
    requires { IsWellFormed (parts_graph parts.now in_transit.now) }
    ensures { IfOk result (λ marks. let g = parts_graph parts.now in_transit.now in
        marks.items ≡ map (is_awake g) (indices g)) }
{
    let mut marks = mark_active(alloc, parts)?;
    for (sender, receiver) in in_transit {
        if parts[*receiver as usize].dependents.contains(sender) {
            marks[*receiver as usize] = true;
        }
    }
    Ok(marks)
}

/// Marks each part that is active.
fn mark_active(alloc: Global, parts: &[Part]) -> Allocated<Vec<bool>>
    ensures { IfOk result (λ marks.
        marks.items ≡ map (λ part. not (is_idle_state part.state)) parts.now) }
{
    parts
        .iter()
        .map(|part| matches!(part.state, State::Active))
        .collect(alloc)
}
