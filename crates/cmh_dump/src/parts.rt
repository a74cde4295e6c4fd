//! From processes as they are written to the parts of the wait graph. Names become indices, and those of the processes
//! themselves are moved out of the tree at the end.

ghost use Rattle.std.specs.Prelude.{◌≡◌, ◌≢◌, ◌<◌, ◌^◌, ℕ, length, map, vec_len, Some, None, IfOk, IfErr, OnOk};
ghost use Rattle.cmh_graph.specs.Build.{process_of};
ghost use Rattle.cmh_dump.specs.Dump.{process_by};
ghost use Rattle.cmh_dump.specs.Entry.{entry_of};
ghost use Rattle.cmh_dump.specs.Places.{first_unknown, unknown_dependent};
ghost use Rattle.cmh_dump.specs.Read.{entry_view, without_name, with_names};
ghost use Rattle.cmh_dump.specs.Texts.{texts};
ghost use Rattle.serde_json.specs.View.{view};

use crate::DumpFault;
use crate::entry::Entry;
use crate::index::{PlaceFault, place_of, places_of};
use crate::tree::{take_member, take_text};
use cmh_graph::Part;
use cmh_memory::{refusal_of, room};
use indexmap::IndexSet;
use serde_json::Value;
use std::alloc::Global;

/// A process by indices and without its name, or the place of its first dependent that names no process.
fn part_of(
    alloc: Global,
    entry: &Entry<'_>,
    sites: &IndexSet<&str>,
    names: &IndexSet<&str>,
) -> Result<Part, PlaceFault>
    requires few_sites { length (texts sites.now.keys) < 2 ^ 32 }
    requires few_names { length (texts names.now.keys) < 2 ^ 32 }
    ensures known { OnOk result
        (first_unknown (texts names.now.keys) entry.now.dependents.now ≡ None) }
    ensures made { IfOk result (λ part. process_of part
        ≡ without_name (process_by (texts sites.now.keys) (texts names.now.keys)
        (entry_view entry.now))) }
    ensures unknown { IfErr result (λ e. (j : ℕ) → e ≡ PlaceFault.Unknown j
        → first_unknown (texts names.now.keys) entry.now.dependents.now ≡ Some j) }
{
    let dependents = places_of(alloc, names, entry.dependents)?;
    Ok(Part {
        name: String::new(alloc),
        site: place_of(sites, entry.site),
        state: entry.state,
        dependents,
    })
}

/// All processes by indices and without their names, or the first dependent that names no process.
pub(crate) fn parts_of(
    alloc: Global,
    entries: &[Entry<'_>],
    sites: &IndexSet<&str>,
    names: &IndexSet<&str>,
) -> Result<Vec<Part>, DumpFault>
    requires few_sites { length (texts sites.now.keys) < 2 ^ 32 }
    requires few_names { length (texts names.now.keys) < 2 ^ 32 }
    ensures known { OnOk result (unknown_dependent (texts names.now.keys) entries.now ≡ None) }
    ensures made { IfOk result (λ parts. map process_of parts.items
        ≡ map (λ e. without_name (process_by (texts sites.now.keys) (texts names.now.keys)
        (entry_view e))) entries.now) }
    ensures unknown { IfErr result (λ e. e ≢ DumpFault.Memory
        → (i j : ℕ) × (e ≡ DumpFault.UnknownDependent i j)
        × (unknown_dependent (texts names.now.keys) entries.now ≡ Some (i, j))) }
{
    let mut parts = room(alloc, entries.len(), entries)?;
    for (i, entry) in entries.iter().enumerate() {
        match part_of(alloc, entry, sites, names) {
            Ok(part) => parts.push(part)?,
            Err(PlaceFault::Unknown(j)) => return Err(DumpFault::UnknownDependent(i, j)),
            Err(fault) => return Err(DumpFault::from(refusal_of(fault))),
        }
    }
    Ok(parts)
}

/// The parts with the names of the processes, which are moved out of the trees.
pub(crate) fn move_names(alloc: Global, processes: Vec<Value>, mut parts: Vec<Part>) -> Vec<Part>
    requires { vec_len processes ≡ vec_len parts }
    ensures { map process_of result.items
        ≡ with_names (map (λ v. (entry_of (view v)).name) processes.items)
        (map process_of parts.items) }
{
    for (i, process) in processes.into_iter().enumerate() {
        parts[i].name = take_text(alloc, take_member(process, "name"));
    }
    parts
}
