//! Wait graphs, written short: the dependents of each process, `None` of an active one.

use cmh_graph::{GraphFault, Part, State, WaitGraph};
use std::alloc::{AllocError, Global};

/// The dependents of each process, `None` of an active one.
pub(crate) type Waits<'a> = &'a [Option<&'a [u32]>];

/// p@a: q; q@a: p
pub(crate) const TWO_IN_A_CYCLE: [Option<&[u32]>; 2] = [Some(&[1]), Some(&[0])];

/// p@a: q; q@a: p; r@a: p
pub(crate) const CYCLE_AND_FOLLOWER: [Option<&[u32]>; 3] = [Some(&[1]), Some(&[0]), Some(&[0])];

/// p@a: q r; q@a: q; r@a!
pub(crate) const ONE_FREE_ONE_STUCK: [Option<&[u32]>; 3] = [Some(&[1, 2]), Some(&[1]), None];

/// A process with these dependents, or an active one.
pub(crate) fn part(alloc: Global, dependents: Option<&[u32]>) -> Result<Part, AllocError> {
    let (state, dependents) = match dependents {
        Some(dependents) => (State::Idle, Vec::from_slice(alloc, dependents)?),
        None => (State::Active, Vec::new(alloc)),
    };
    Ok(Part {
        name: String::new(alloc),
        site: 0,
        state,
        dependents,
    })
}

/// The graph with these messages in transit. All processes are at one site, and have no names.
pub(crate) fn graph_of(
    alloc: Global,
    waits: Waits,
    in_transit: &[(u32, u32)],
) -> Result<WaitGraph, GraphFault> {
    let mut parts = Vec::new(alloc);
    for dependents in waits {
        parts.push(part(alloc, *dependents)?)?;
    }
    WaitGraph::build_with(alloc, parts, in_transit)
}
