//! Where a list is cut into chunks.

ghost use Rattle.std.specs.Prelude.{◌≡◌, ◌+◌, ◌<◌, ◌≤◌, [], min, length, slice_index, slice_index_or, slice_range, IfOk};
ghost use Rattle.cmh_work.specs.Cutting.{chunks_of, bounds_of};

use crate::job::Job;
use cmh_memory::{Allocated, room};
use std::alloc::Global;

/// Where each chunk of a list of this length begins, and where the last one ends. The sum of the cuts may be any: a cut
/// takes at most what is left.
pub(crate) fn chunk_bounds(alloc: Global, cuts: &[u64], size: usize) -> Allocated<Vec<usize>>
    ensures { IfOk result (λ bounds. bounds.items ≡ bounds_of cuts.now size) }
{
    let mut bounds = room(alloc, cuts.len() + 2, cuts)?;
    bounds.push_reserved(0);
    let mut at = 0;
    for cut in cuts {
        at = end_of(at, *cut, size);
        bounds.push_reserved(at);
    }
    bounds.push_reserved(size);
    Ok(bounds)
}

/// Where a chunk ends that begins at `begin` and is made by this cut.
fn end_of(begin: usize, cut: u64, size: usize) -> usize
    requires { begin ≤ size }
    ensures { result ≡ min (begin + cut) size }
{
    if cut < (size - begin) as u64 {
        begin + cut as usize
    } else {
        size
    }
}

/// The chunk of this number, of those that the plan cuts the idle processes into. It takes constant time.
pub(crate) fn chunk_at<'a>(job: &'a Job, number: usize) -> &'a [u32]
    requires { number ≤ length job.now.plan.now.cuts }
    ensures { result.now ≡ slice_index_or
        (chunks_of job.now.plan.now.cuts job.now.shared.now.idle.items) number [] }
{
    slice_between(&job.shared.bounds, &job.shared.idle, number)
}

/// What lies between the bound of this number and the next.
fn slice_between<'a>(bounds: &[usize], list: &'a [u32], number: usize) -> &'a [u32]
    requires within { number + 1 < length bounds.now }
    requires rising { slice_index bounds.now number ≤ slice_index bounds.now (number + 1) }
    requires ends { slice_index bounds.now (number + 1) ≤ length list.now }
    ensures { result.now ≡ slice_range list.now
        (slice_index bounds.now number) (slice_index bounds.now (number + 1)) }
{
    let begin = bounds[number];
    let end = bounds[number + 1];
    &list[begin..end]
}
