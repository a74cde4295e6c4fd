//! Records as they are given out: each names its run, or its row of the closed history.

ghost use Rattle.std.specs.Prelude.{◌≡◌, ℕ, ◌<◌, ◌^◌, List, length, slice_index, All, Some, IfOk};
ghost use Rattle.cmh_graph.specs.Graph.{process_count};
ghost use Rattle.cmh_graph.specs.declared.verdict.Verdict.{Verdict};
ghost use Rattle.cmh_rw.specs.declared.row.Row.{Row};
ghost use Rattle.cmh_rw.specs.History.{fold_at};
ghost use Rattle.cmh_work.specs.Record.{IsRowFor};
ghost use Rattle.cmh_work.specs.Numbering.{IsNumbered, AreNumbered};

use crate::finding::Finding;
use crate::record::{Origin, Record};
use cmh_board::Row;
use cmh_graph::WaitGraph;
use cmh_memory::{Allocated, copies};
use std::alloc::Global;

/// For each process of the graph the number of its row, if it stands in the history. It goes from the last row to the
/// first, so that a process's first row stays.
fn row_numbers(alloc: Global, history: &[Row], graph: &WaitGraph) -> Allocated<Vec<u32>>
    requires within { All (λ row. row.process < process_count graph.now) history.now }
    requires few { length history.now < 2 ^ 32 }
    ensures within { IfOk result (λ numbers. (p : ℕ) (v : Verdict)
        → fold_at history.now p ≡ Some v → p < length numbers.items) }
    ensures rows { IfOk result (λ numbers. (p : ℕ) (v : Verdict) → fold_at history.now p ≡ Some v
        → IsRowFor history.now (slice_index numbers.items p) p v) }
{
    let mut numbers = copies(alloc, 0, graph.len() as usize, graph)?;
    for n in (0..history.len()).rev() {
        numbers[history[n].process as usize] = n as u32;
    }
    Ok(numbers)
}

/// The record of a finding, by the number of its process's row.
fn number_one<R: Drop, P: Drop>(row: u32, finding: Finding<R, P>) -> Record<R, P>
    ensures { (history : List Row) → IsRowFor history row finding.initiator finding.verdict
        → IsNumbered history finding result }
{
    let Finding {
        initiator,
        verdict,
        run,
        shape,
    } = finding;
    let source = match run {
        Some(run) => Origin::FromRun(run),
        None => Origin::FromBoard(row),
    };
    Record {
        initiator,
        verdict,
        source,
        shape,
    }
}

/// Each finding as a record. The history is of the graph's processes.
pub(crate) fn number_all<R: Drop, P: Drop>(
    alloc: Global,
    history: &[Row],
    graph: &WaitGraph,
    found: Vec<Finding<R, P>>,
) -> Allocated<Vec<Record<R, P>>>
    requires within { All (λ row. row.process < process_count graph.now) history.now }
    requires few { length history.now < 2 ^ 32 }
    requires stand { All (λ f. fold_at history.now f.initiator ≡ Some f.verdict) found.items }
    ensures { IfOk result (λ records. AreNumbered history.now found.items records.items) }
{
    let numbers = row_numbers(alloc, history, graph)?;
    let mut records = Vec::new(alloc);
    for finding in found {
        let row = numbers[finding.initiator as usize];
        records.push(number_one(row, finding))?;
    }
    Ok(records)
}
