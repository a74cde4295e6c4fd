//! Rings of as many processes as there may be.

use crate::graphs::part;
use cmh_graph::{GraphFault, WaitGraph};
use std::alloc::Global;

/// 4,096 processes in rings of this size: each waits for the next of its ring.
pub(super) fn rings(alloc: Global, size: u32) -> Result<WaitGraph, GraphFault> {
    let mut parts = Vec::new(alloc);
    for p in 0..4_096u32 {
        let next = p.saturating_add(1);
        let is_last = next.checked_rem(size) == Some(0);
        let first = next.saturating_sub(size);
        let dependents = [if is_last { first } else { next }];
        parts.push(part(alloc, Some(&dependents))?)?;
    }
    WaitGraph::build(alloc, parts)
}
