//! The steps of searches along dependencies: over marks, over lists of processes, over distances.

ghost use Rattle.std.specs.Prelude.{◌≡◌, ◌==◌, ◌<◌, ◌^◌, ℕ, [], map, length, filter, if◌then◌else◌, All, Contains, IfOk, OnOk, Some, None, ◌≤◌, slice_index, IsTrue, MatchOption, ◌↔◌};
ghost use Rattle.std.specs.List.{range_with_len};
ghost use Rattle.cmh_graph.specs.Graph.{process_count};
ghost use Rattle.cmh_graph.specs.Search.{is_marked, predecessors_at, IsNamedBy, MarksEach, Numbers, IsLeastAt};

use crate::{Predecessors, WaitGraph};
use cmh_memory::{Allocated, copies};
use std::alloc::Global;

/// The marked processes, by rising index.
#[tactic(auto, using(crate::proofs::IndexLists::filter_indices_kept, crate::proofs::IndexLists::filter_indices_passed))]
pub fn marked_indices(alloc: Global, marks: &[bool]) -> Allocated<Vec<u32>>
    requires { length marks.now < 2 ^ 32 }
    ensures { IfOk result (λ list.
        list.items ≡ filter (is_marked marks.now) (range_with_len 0 (length marks.now))) }
{
    let mut list = Vec::new(alloc);
    for p in 0..marks.len() {
        if marks[p] {
            list.push(p as u32)?;
        }
    }
    Ok(list)
}

/// Marks one process of the graph.
pub(crate) fn mark_alone(alloc: Global, graph: &WaitGraph, p: u32) -> Allocated<Vec<bool>>
    requires { p < process_count graph.now }
    ensures size { IfOk result (λ marks. length marks.items ≡ process_count graph.now) }
    ensures alone { IfOk result (λ marks. (q : ℕ) → is_marked marks.items q ≡ (q == p)) }
{
    let mut marks = copies(alloc, false, graph.len() as usize, graph)?;
    marks[p as usize] = true;
    Ok(marks)
}

/// Marks each process of the list. Those that were not marked become pending.
pub(crate) fn mark_each(list: &[u32], marks: &mut [bool], pending: &mut Vec<u32>) -> Allocated<()>
    requires { All (λ p. p < length marks.old) list.now }
    ensures { OnOk result (MarksEach list.now
        marks.old marks.new pending.old.items pending.new.items) }
{
    for p in list {
        if !marks[*p as usize] {
            marks[*p as usize] = true;
            pending.push(*p)?;
        }
    }
    Ok(())
}

/// Marks each process of the list that is inside. Those that were not marked become pending.
pub(crate) fn mark_each_within(
    list: &[u32],
    inside: &[bool],
    marks: &mut [bool],
    pending: &mut Vec<u32>,
) -> Allocated<()>
    requires listed { All (λ p. p < length marks.old) list.now }
    requires alike { length inside.now ≡ length marks.old }
    ensures { OnOk result (MarksEach (filter (is_marked inside.now) list.now)
        marks.old marks.new pending.old.items pending.new.items) }
{
    for p in list {
        if inside[*p as usize] && !marks[*p as usize] {
            marks[*p as usize] = true;
            pending.push(*p)?;
        }
    }
    Ok(())
}

/// The distance 0 for each marked process, and none yet for another.
pub(crate) fn first_distances(alloc: Global, marks: &[bool]) -> Allocated<Vec<Option<u32>>>
    ensures { IfOk result (λ distances.
        distances.items ≡ map (λ mark. if mark then Some 0 else None) marks.now) }
{
    marks.iter().map(|mark| mark.then_some(0)).collect(alloc)
}

/// Gives `distance` to each process of the list that has none, and adds it to the next level.
fn number_each(
    list: &[u32],
    distance: u32,
    distances: &mut [Option<u32>],
    next: &mut Vec<u32>,
) -> Allocated<()>
    requires { All (λ p. p < length distances.old) list.now }
    ensures { OnOk result (Numbers (Contains list.now) distance
        distances.old distances.new next.old.items next.new.items) }
{
    for p in list {
        if distances[*p as usize].is_none() {
            distances[*p as usize] = Some(distance);
            next.push(*p)?;
        }
    }
    Ok(())
}

/// The processes without a distance that depend on one of the level. They get `distance`.
pub(crate) fn next_level(
    alloc: Global,
    predecessors: &Predecessors,
    level: &[u32],
    distance: u32,
    distances: &mut [Option<u32>],
) -> Allocated<Vec<u32>>
    requires listed { All (λ q. q < length predecessors.now) level.now }
    requires within { (q : ℕ) →
        All (λ p. p < length distances.old) (predecessors_at predecessors.now q) }
    ensures { IfOk result (λ next. Numbers (IsNamedBy predecessors.now level.now) distance
        distances.old distances.new [] next.items) }
{
    let mut next = Vec::new(alloc);
    for q in level {
        number_each(predecessors.at(*q), distance, distances, &mut next)?;
    }
    Ok(next)
}

/// The first place of the list, from this one on, of a process that isn't marked, or the end of the list.
pub(crate) fn first_unmarked(list: &[u32], marks: &[bool], from: usize) -> usize
    requires { All (λ p. p < length marks.now) list.now }
    ensures { (k : ℕ) → from ≤ k → k < result
        → IsTrue (is_marked marks.now (slice_index list.now k)) }
{
    let mut at = from;
    while at < list.len() && marks[list[at] as usize] {
        at += 1;
    }
    at
}

/// The least process of the list that is at this distance.
pub(crate) fn least_at(distance: u32, list: &[u32], distances: &[Option<u32>]) -> Option<u32>
    requires { All (λ q. q < length distances.now) list.now }
    ensures { IsLeastAt distance list.now distances.now result }
{
    let mut least: Option<u32> = None;
    for q in list {
        if is_below(*q, least) && distances[*q as usize] == Some(distance) {
            least = Some(*q);
        }
    }
    least
}

/// Whether `q` is below the other number, if there is one.
fn is_below(q: u32, other: Option<u32>) -> bool
    ensures { MatchOption other (IsTrue result) (λ r. IsTrue result ↔ (q < r)) }
{
    other.is_none_or(|r| q < r)
}
