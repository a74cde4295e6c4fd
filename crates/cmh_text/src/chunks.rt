//! How many lines are worth a thread. Nothing here changes a byte of the report.
//!
//! A thread for each processor, whatever there is to do, would slow each small report. So the lines of a chunk take at
//! least as long as the start of a thread.

ghost use Rattle.std.specs.Prelude.{◌≡◌, ◌*◌};
ghost use Rattle.cmh_text.specs.Chunks.{chunk_length, counted, path_names, search_steps};

use crate::summary::Summary;
use cmh_graph::WaitGraph;

/// About how many steps, each a few instructions, take as long as a thread takes to start.
const THREAD_STEPS: usize = 65_536;

/// The most chunks. In each the names of the first line are all written anew.
const CHUNKS: usize = 64;

/// How many lines of processes make a chunk that is worth a thread: the fewer, the longer their paths are.
pub(crate) fn process_chunk(lines: usize, summaries: &[Summary]) -> usize
    ensures { result ≡ chunk_length lines (path_names summaries.now) }
{
    let mut names = 0usize;
    for summary in summaries {
        if let Summary::Free(_, count) = summary {
            names = names.saturating_add(*count);
        }
    }
    chunk(lines, names)
}

/// How many lines of groups make such a chunk. Each line takes a search of the whole graph.
pub(crate) fn group_chunk(graph: &WaitGraph, lines: usize) -> usize
    ensures { result ≡ chunk_length lines (counted (search_steps graph.now * lines)) }
{
    let mut steps = 0usize;
    for p in 0..graph.len() {
        steps = steps
            .saturating_add(1)
            .saturating_add(graph.dependents(p).len());
    }
    chunk(lines, steps.saturating_mul(lines))
}

/// How many lines make a chunk, where `lines` of them take `steps`.
fn chunk(lines: usize, steps: usize) -> usize
    ensures { result ≡ chunk_length lines steps }
{
    let worth = lines.saturating_mul(THREAD_STEPS) / steps.max(1);
    worth.max(lines.div_ceil(CHUNKS)).max(1)
}
