//! The whole report, put together: the line of counts, those of processes and those of groups.

ghost use Rattle.std.specs.Prelude.{◌≡◌, ◌++◌, IfOk, OnOk, flat_map};
ghost use Rattle.cmh_text.specs.Outline.{IsOutlineOf};
ghost use Rattle.cmh_text.specs.Report.{report_text};

use crate::outline::Outline;
use crate::parallel::{group_lines, process_lines};
use cmh_graph::WaitGraph;
use cmh_memory::Allocated;
use cmh_stream::Pieces;
use std::alloc::Global;
use std::thread::Threads;

/// The most bytes of a text that is worth a copy to be in one piece.
const SHORT: usize = 1_048_576;

/// The report on a graph in pieces, by what was taken from an analysis: a line of counts, a line for each idle process,
/// and a line for each group of deadlocked processes. The graph is searched once for each group, for what its leader
/// reaches. Where a group waits for the greatest one, or for the group after it, the search continues from the reach of
/// that one. The rest takes time close to linear in the processes and in the text. Where there is much to do, the lines
/// are made by as many threads as there are processors. Memory is taken for the lines and for the whole text; lines are
/// given back once they stand in the text.
///
/// # Errors
///
/// Where memory is refused.
pub fn text_of<R: Threads + Sync>(
    rt: &R,
    alloc: Global,
    graph: &WaitGraph,
    outline: &Outline,
) -> Allocated<Pieces>
    requires { IsOutlineOf graph.now outline.now }
    ensures { IfOk result (λ text. text ≡ report_text graph.now) }
{
    let of_processes = process_lines(rt, alloc, graph, &outline.groups)?;
    let of_groups = group_lines(rt, alloc, graph, &outline.groups)?;
    concat_lines(alloc, &outline.totals, of_processes, of_groups)
}

/// The lines one after the other.
fn concat_lines(
    alloc: Global,
    first: &str,
    of_processes: Vec<Pieces>,
    of_groups: Vec<Pieces>,
) -> Allocated<Pieces>
    ensures { IfOk result (λ text. text ≡ first.now
        ++ flat_map (λ t. t) of_processes.items
        ++ flat_map (λ t. t) of_groups.items) }
{
    let mut text = Pieces::new(alloc);
    text.push(String::from_str(alloc, first)?)?;
    append_each(&mut text, of_processes)?;
    append_each(&mut text, of_groups)?;
    as_one_piece_if_short(alloc, text)
}

/// Puts the texts behind the pieces, in their order.
fn append_each(pieces: &mut Pieces, texts: Vec<Pieces>) -> Allocated<()>
    ensures { OnOk result (pieces.new ≡ pieces.old ++ flat_map (λ t. t) texts.items) }
{
    for text in texts {
        pieces.append(text)?;
    }
    Ok(())
}

/// A short text in one piece, so that one write puts all of it or nothing.
fn as_one_piece_if_short(alloc: Global, text: Pieces) -> Allocated<Pieces>
    ensures { IfOk result (λ same. same ≡ text) }
{
    if text.len() > SHORT {
        return Ok(text);
    }
    let whole = text.into_string(alloc)?;
    let mut one = Pieces::new(alloc);
    one.push(whole)?;
    Ok(one)
}
