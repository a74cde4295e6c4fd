//! Whether parts and messages in transit make a wait graph, and if not, which fault comes first.

ghost use Rattle.std.specs.Prelude.{◌≡◌, ◌⊎◌, ◌<◌, ◌≤◌, ◌↔◌, ℕ, [], length, slice_index, slice_index_or, All, IfOk, IfErr, IfNone, IfSome, IsTrue, OnOk};
ghost use Rattle.cmh_graph.specs.declared.fault.GraphFault.TheVariants.{DependentOutOfRange, RepeatedDependent, ActiveWithDependents};
ghost use Rattle.cmh_graph.specs.Graph.{IsWithinGraph};
ghost use Rattle.cmh_graph.specs.Build.{dependent_count, parts_graph, HasGraphFault, IsFirstGraphFault, IsWellFormed};
ghost use Rattle.cmh_graph.specs.Judge.{IsFirst, IsFirstDependent, IsRepeat};

use crate::{GraphFault, MAX_DEPENDENCIES, MAX_IN_TRANSIT, MAX_PROCESSES, Part, State};
use cmh_memory::{Allocated, copies};
use std::alloc::Global;

/// Finds the first fault, kind by kind.
pub(crate) fn judge(
    alloc: Global,
    parts: &[Part],
    in_transit: &[(u32, u32)],
) -> Result<(), GraphFault>
    ensures ok { OnOk result (IsWellFormed (parts_graph parts.now in_transit.now)) }
    ensures fault { IfErr result (λ e.
        (e ≡ GraphFault.Memory) ⊎ IsFirstGraphFault (parts_graph parts.now in_transit.now) e) }
{
    if parts.len() > MAX_PROCESSES {
        return Err(GraphFault::TooManyProcesses);
    }
    if has_too_many_dependents(parts) {
        return Err(GraphFault::TooManyDependencies);
    }
    if let Some((i, j)) = first_out_of_range(parts) {
        return Err(GraphFault::DependentOutOfRange(i, j));
    }
    if let Some((i, j)) = first_repeated_dependent(alloc, parts)? {
        return Err(GraphFault::RepeatedDependent(i, j));
    }
    if let Some(i) = first_active_with_dependents(parts) {
        return Err(GraphFault::ActiveWithDependents(i));
    }
    if in_transit.len() > MAX_IN_TRANSIT {
        return Err(GraphFault::TooManyInTransit);
    }
    match first_transit_out_of_range(in_transit, parts.len()) {
        Some(i) => Err(GraphFault::TransitOutOfRange(i)),
        None => Ok(()),
    }
}

/// Whether the dependent sets have more than `MAX_DEPENDENCIES` dependents together.
pub fn has_too_many_dependents(parts: &[Part]) -> bool
    ensures { IsTrue result ↔ (MAX_DEPENDENCIES < dependent_count (parts_graph parts.now [])) }
{
    let mut room = MAX_DEPENDENCIES;
    for part in parts {
        if part.dependents.len() > room {
            return true;
        }
        room -= part.dependents.len();
    }
    false
}

/// The first dependent that names no part, by the places of the part and of the dependent.
fn first_out_of_range(parts: &[Part]) -> Option<(usize, usize)>
    ensures some { IfSome result (λ at. IsFirstDependent
        (λ i j. HasGraphFault (parts_graph parts.now []) (DependentOutOfRange i j)) at.0 at.1) }
    ensures none { IfNone result (IsWithinGraph (parts_graph parts.now [])) }
{
    for (i, part) in parts.iter().enumerate() {
        if let Some(j) = first_at_least(parts.len(), &part.dependents) {
            return Some((i, j));
        }
    }
    None
}

/// The first dependent that is `bound` or more.
fn first_at_least(bound: usize, list: &[u32]) -> Option<usize>
    ensures some { IfSome result
        (IsFirst (λ j. (j < length list.now) × (bound ≤ slice_index list.now j))) }
    ensures none { IfNone result
        ((j : ℕ) → (j < length list.now) × (bound ≤ slice_index list.now j) → ⊥) }
{
    for (j, dependent) in list.iter().enumerate() {
        if *dependent as usize >= bound {
            return Some(j);
        }
    }
    None
}

/// The first dependent that equals an earlier one of its part, by the places of the part and of the dependent. Each
/// process keeps the number of the last part that named it, counted from 1.
pub fn first_repeated_dependent(alloc: Global, parts: &[Part]) -> Allocated<Option<(usize, usize)>>
    requires { IsWithinGraph (parts_graph parts.now []) }
    ensures some { IfOk result (λ found. IfSome found (λ at. IsFirstDependent
        (λ i j. HasGraphFault (parts_graph parts.now []) (RepeatedDependent i j)) at.0 at.1)) }
    ensures none { IfOk result (λ found. IfNone found
        ((i j : ℕ) → HasGraphFault (parts_graph parts.now []) (RepeatedDependent i j) → ⊥)) }
{
    let mut last_named_by = copies(alloc, 0, parts.len(), parts)?;
    for (i, part) in parts.iter().enumerate() {
        if let Some(j) = first_repeat(i + 1, &part.dependents, &mut last_named_by) {
            return Ok(Some((i, j)));
        }
    }
    Ok(None)
}

/// The place of the first entry that equals an earlier one. Each entry is a place of `stamps`, which gets the stamp: a
/// number above all that stand there, so that one list after another can be looked through. It takes time linear in the
/// list.
fn first_repeat(stamp: usize, list: &[u32], stamps: &mut [usize]) -> Option<usize>
    requires within { All (λ r. r < length stamps.old) list.now }
    requires fresh { All (λ s. s < stamp) stamps.old }
    ensures some { IfSome result (IsFirst (IsRepeat list.now)) }
    ensures none { IfNone result ((j : ℕ) → IsRepeat list.now j → ⊥) }
    ensures stamps { All (λ s. s ≤ stamp) stamps.new }
{
    for (j, dependent) in list.iter().enumerate() {
        if stamps[*dependent as usize] == stamp {
            return Some(j);
        }
        stamps[*dependent as usize] = stamp;
    }
    None
}

/// The first part that is active and has dependents.
pub fn first_active_with_dependents(parts: &[Part]) -> Option<usize>
    ensures some { IfSome result (IsFirst
        (λ i. HasGraphFault (parts_graph parts.now []) (ActiveWithDependents i))) }
    ensures none { IfNone result
        ((i : ℕ) → HasGraphFault (parts_graph parts.now []) (ActiveWithDependents i) → ⊥) }
{
    for (i, part) in parts.iter().enumerate() {
        if matches!(part.state, State::Active) && !part.dependents.is_empty() {
            return Some(i);
        }
    }
    None
}

/// The first message whose sender or receiver is `count` or more.
fn first_transit_out_of_range(in_transit: &[(u32, u32)], count: usize) -> Option<usize>
    ensures some { IfSome result (IsFirst (λ i. (i < length in_transit.now)
        × ((count ≤ (slice_index_or in_transit.now i (0, 0)).0)
        ⊎ (count ≤ (slice_index_or in_transit.now i (0, 0)).1)))) }
    ensures none { IfNone result ((i : ℕ) → i < length in_transit.now
        → ((slice_index_or in_transit.now i (0, 0)).0 < count)
        × ((slice_index_or in_transit.now i (0, 0)).1 < count)) }
{
    for (i, (sender, receiver)) in in_transit.iter().enumerate() {
        if *sender as usize >= count || *receiver as usize >= count {
            return Some(i);
        }
    }
    None
}
