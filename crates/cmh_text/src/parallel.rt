//! The lines of the report, made by several threads in chunks. Whichever thread makes a chunk, its text stands in its
//! place. In a chunk, lines are made from the last to the first, since a line often ends as the one after it does.

ghost use Rattle.std.specs.Prelude.{◌≡◌, All, Contains, IfOk, IfSome, IsTrue, flat_map, map};
ghost use Rattle.cmh_graph.specs.Core.{leaders};
ghost use Rattle.cmh_graph.specs.Graph.{idle_list, is_idle};
ghost use Rattle.cmh_text.specs.Group.{AreGroupsOf};
ghost use Rattle.cmh_text.specs.LeaderReach.{IsLeaderReachOf};
ghost use Rattle.cmh_text.specs.Report.{line, process_line, group_line};

use crate::chunks::{group_chunk, process_chunk};
use crate::group_lines::GroupLines;
use crate::groups::Groups;
use crate::process_lines::ProcessLines;
use crate::shared_reach::greatest_reach;
use cmh_graph::WaitGraph;
use cmh_memory::{Allocated, refusal_of};
use cmh_stream::Pieces;
use rayon::prelude::*;
use std::alloc::Global;
use std::thread::Threads;

/// The lines of the idle processes, in chunks.
pub(crate) fn process_lines<R: Threads + Sync>(
    rt: &R,
    alloc: Global,
    graph: &WaitGraph,
    groups: &Groups,
) -> Allocated<Vec<Pieces>>
    requires { AreGroupsOf graph.now groups.now }
    ensures { IfOk result (λ texts. flat_map (λ t. t) texts.items
        ≡ flat_map line (map (process_line graph.now) (idle_list graph.now))) }
{
    let idle = graph.idle_list(alloc).map_err(|fault| refusal_of(fault))?;
    idle.as_slice()
        .par_chunks(process_chunk(idle.len(), &groups.summaries))
        .with_min_len(1)
        .map(
            |chunk: &[u32]| -> Allocated<Pieces>
                requires { AreGroupsOf graph.now groups.now
                    × All (λ p. IsTrue (is_idle graph.now p)) chunk.now }
                ensures { IfOk result (λ text. text
                    ≡ flat_map (λ p. line (process_line graph.entry.now p)) chunk.now) }
            { ProcessLines::new(alloc, graph, groups).text_of(alloc, chunk) },
        )
        .collect::<Allocated<Vec<Pieces>>>(rt, alloc)?
}

/// The lines of the groups, in chunks.
pub(crate) fn group_lines<R: Threads + Sync>(
    rt: &R,
    alloc: Global,
    graph: &WaitGraph,
    groups: &Groups,
) -> Allocated<Vec<Pieces>>
    requires { AreGroupsOf graph.now groups.now }
    ensures { IfOk result (λ texts. flat_map (λ t. t) texts.items
        ≡ flat_map line (map (group_line graph.now) (leaders graph.now))) }
{
    let greatest = greatest_reach(alloc, graph, groups)?;
    let shared = &greatest;
    groups
        .list
        .as_slice()
        .par_chunks(group_chunk(graph, groups.list.len()))
        .with_min_len(1)
        .map(
            |chunk: &[u32]| -> Allocated<Pieces>
                requires { AreGroupsOf graph.now groups.now
                    × IfSome shared.now (IsLeaderReachOf graph.now)
                    × All (Contains (leaders graph.now)) chunk.now }
                ensures { IfOk result (λ text. text
                    ≡ flat_map (λ p. line (group_line graph.entry.now p)) chunk.now) }
            { GroupLines::new(alloc, graph, groups, shared).text_of(alloc, chunk) },
        )
        .collect::<Allocated<Vec<Pieces>>>(rt, alloc)?
}
