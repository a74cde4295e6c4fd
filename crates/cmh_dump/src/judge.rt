//! The stages in which a tree is judged, each over some kinds of faults.

ghost use Rattle.std.specs.Prelude.{◌≡◌, ◌≢◌, ◌<◌, ◌≤◌, ◌^◌, not, true, [], map, option_map, length, position, nat_le, vec_len, Some, None, IfOk, IfErr, OnOk};
ghost use Rattle.std.specs.List.{list_all};
ghost use Rattle.std.specs.Option.{option_map_or, option_or};
ghost use Rattle.cmh_dump.specs.declared.fault.DumpFault.TheVariants.{BadProcess, UnknownSite, UnknownDependent};
ghost use Rattle.serde_json.specs.Data.{Data};
ghost use Rattle.serde_json.specs.View.{view};
ghost use Rattle.cmh_graph.specs.Build.{process_of};
ghost use Rattle.cmh_dump.specs.Dump.{holds, first_of, is_top, process_by, top_keys, top_faults, site_faults, process_faults, name_faults, entry_faults};
ghost use Rattle.cmh_dump.specs.Entry.{is_version, sites as tree_sites, entries as tree_entries, names as tree_names};
ghost use Rattle.cmh_dump.specs.Name.{is_among, is_name};
ghost use Rattle.cmh_dump.specs.Places.{unknown_dependent};
ghost use Rattle.cmh_dump.specs.Read.{Judges, entry_view, first_ill_named, without_name};
ghost use Rattle.cmh_dump.specs.Texts.{texts};
ghost use Rattle.cmh_dump.specs.Tree.{has_keys};

use crate::entry::{Entry, entry_of, first_ill_named, names_of};
use crate::index::{IndexFault, index_of, is_known};
use crate::names::first_bad_name;
use crate::parts::parts_of;
use crate::tree::{elements_at, has_array, has_keys, is_number_at, texts_at};
use crate::{DumpFault, MAX_SITES};
use cmh_graph::{
    MAX_PROCESSES, Part, first_active_with_dependents, first_repeated_dependent,
    has_too_many_dependents,
};
use cmh_memory::{refusal_of, room};
use indexmap::IndexSet;
use serde_json::Value;
use std::alloc::Global;

fn is_version(tree: &Value, number: u64) -> bool
    ensures { result ≡ is_version number (view tree.now) }
{
    is_number_at(tree, "version", number)
}

/// Version 2 has one key more.
fn has_top_keys(tree: &Value) -> bool
    ensures { result ≡ has_keys (top_keys (view tree.now)) [] (view tree.now) }
{
    if is_version(tree, 2) {
        has_keys(tree, &["version", "sites", "processes", "in_transit"], &[])
    } else {
        has_keys(tree, &["version", "sites", "processes"], &[])
    }
}

fn is_top(tree: &Value) -> bool
    ensures { result ≡ is_top (view tree.now) }
{
    has_top_keys(tree)
        && has_array(tree, "sites")
        && has_array(tree, "processes")
        && (!is_version(tree, 2) || has_array(tree, "in_transit"))
}

/// Judges the keys at the top and the version.
pub(crate) fn judge_top(tree: &Value) -> Result<(), DumpFault>
    ensures { Judges (view tree.now) top_faults result }
{
    if !is_top(tree) {
        return Err(DumpFault::BadTop);
    }
    if !is_version(tree, 1) && !is_version(tree, 2) {
        return Err(DumpFault::BadVersion);
    }
    Ok(())
}

/// The sites by their places. All are judged before they are counted.
pub(crate) fn read_sites<'v>(alloc: Global, tree: &'v Value) -> Result<IndexSet<&'v str>, DumpFault>
    ensures judges { Judges (view tree.now) (site_faults (view tree.now)) result }
    ensures read { IfOk result (λ index. texts index.keys ≡ tree_sites (view tree.now)) }
    ensures few { IfOk result (λ index. length (texts index.keys) ≤ MAX_SITES) }
{
    let sites = texts_at(alloc, tree, "sites")?;
    if let Some(i) = first_bad_name(&sites) {
        return Err(DumpFault::BadSites(i));
    }
    let index = match index_of(alloc, &sites) {
        Ok(index) => index,
        Err(IndexFault::Repeated(i)) => return Err(DumpFault::RepeatedSite(i)),
        Err(fault) => return Err(DumpFault::from(refusal_of(fault))),
    };
    if sites.len() > MAX_SITES {
        return Err(DumpFault::TooManySites);
    }
    Ok(index)
}

/// The processes as they are written, each judged by itself, but for the names of its dependents. Each dependent is
/// looked up later, and what is found is the name of a process.
pub(crate) fn read_processes<'v>(
    alloc: Global,
    tree: &'v Value,
) -> Result<Vec<Entry<'v>>, DumpFault>
    ensures left { IfOk result (λ v.
        first_of (holds (view tree.now)) (process_faults (view tree.now))
        ≡ option_map BadProcess (first_ill_named v.items)) }
    ensures refused { IfErr result (λ e. e ≢ DumpFault.Memory
        → first_of (holds (view tree.now)) (process_faults (view tree.now)) ≡ Some e) }
    ensures named { IfOk result (λ v. list_all (λ e. is_name (entry_view e).name) v.items ≡ true) }
    ensures read { IfOk result (λ v. map entry_view v.items ≡ tree_entries (view tree.now)) }
    ensures few { IfOk result (λ v. vec_len v ≤ MAX_PROCESSES) }
{
    let processes = elements_at(tree, "processes");
    if processes.len() > MAX_PROCESSES {
        return Err(DumpFault::TooManyProcesses);
    }
    let mut entries = room(alloc, processes.len(), processes)?;
    for (i, process) in processes.iter().enumerate() {
        let Some(entry) = entry_of(process) else {
            return Err(DumpFault::BadProcess(first_ill_named(&entries).unwrap_or(i)));
        };
        entries.push(entry)?;
    }
    Ok(entries)
}

/// The fault of the first process with a dependent that is no name, or else this one, which comes later in order.
pub(crate) fn first_fault(entries: &[Entry<'_>], later: DumpFault) -> DumpFault
    ensures { result ≡ option_map_or BadProcess (first_ill_named entries.now) later }
{
    match first_ill_named(entries) {
        Some(i) => DumpFault::BadProcess(i),
        None => later,
    }
}

/// The names of the processes by their places, of which none repeats.
pub(crate) fn read_names<'v>(
    alloc: Global,
    entries: &[Entry<'v>],
) -> Result<IndexSet<&'v str>, DumpFault>
    ensures judges { (d : Data) → map entry_view entries.now ≡ tree_entries d
        → Judges d (name_faults d) result }
    ensures read { IfOk result (λ index.
        texts index.keys ≡ map (λ e. (entry_view e).name) entries.now) }
{
    let names = names_of(alloc, entries)?;
    match index_of(alloc, &names) {
        Ok(index) => Ok(index),
        Err(IndexFault::Repeated(i)) => Err(DumpFault::RepeatedProcess(i)),
        Err(fault) => Err(DumpFault::from(refusal_of(fault))),
    }
}

/// The place of the first process on a site that is not among the sites.
fn first_unknown_site(entries: &[Entry<'_>], sites: &IndexSet<&str>) -> Option<usize>
    ensures { result ≡ position
        (λ e. not (is_among (texts sites.now.keys) e.site.now)) entries.now }
{
    entries
        .iter()
        .position(|entry| !is_known(sites, entry.site))
}

/// The place of the first part whose site is past the sites, of which there are `count`.
fn first_past_sites(parts: &[Part], count: usize) -> Option<usize>
    ensures { result ≡ position (λ part. nat_le count part.site) parts.now }
{
    parts.iter().position(|part| part.site as usize >= count)
}

/// The fault of the first process on a site that is not among the sites, or else this one, which comes later in order.
fn first_site_fault(entries: &[Entry<'_>], sites: &IndexSet<&str>, later: DumpFault) -> DumpFault
    ensures { result ≡ option_map_or UnknownSite (position
        (λ e. not (is_among (texts sites.now.keys) e.site.now)) entries.now) later }
{
    match first_unknown_site(entries, sites) {
        Some(i) => DumpFault::UnknownSite(i),
        None => later,
    }
}

/// The processes by indices and without their names, or the first unknown site, or else the first unknown dependent. Each
/// site is looked up once, unless something is refused: an unknown one has the number of sites as its place.
fn known_parts(
    alloc: Global,
    entries: &[Entry<'_>],
    sites: &IndexSet<&str>,
    names: &IndexSet<&str>,
) -> Result<Vec<Part>, DumpFault>
    requires few_sites { length (texts sites.now.keys) < 2 ^ 32 }
    requires few_names { length (texts names.now.keys) < 2 ^ 32 }
    ensures sites { OnOk result (position
        (λ e. not (is_among (texts sites.now.keys) e.site.now)) entries.now ≡ None) }
    ensures known { OnOk result (unknown_dependent (texts names.now.keys) entries.now ≡ None) }
    ensures made { IfOk result (λ parts. map process_of parts.items
        ≡ map (λ e. without_name (process_by (texts sites.now.keys) (texts names.now.keys)
        (entry_view e))) entries.now) }
    ensures unknown { IfErr result (λ e. e ≢ DumpFault.Memory
        → option_or (option_map UnknownSite (position
        (λ e. not (is_among (texts sites.now.keys) e.site.now)) entries.now))
        (option_map (λ p. UnknownDependent p.0 p.1) (unknown_dependent (texts names.now.keys) entries.now))
        ≡ Some e) }
{
    let parts = match parts_of(alloc, entries, sites, names) {
        Ok(parts) => parts,
        Err(fault) => return Err(first_site_fault(entries, sites, fault)),
    };
    match first_past_sites(&parts, sites.len()) {
        Some(i) => Err(DumpFault::UnknownSite(i)),
        None => Ok(parts),
    }
}

/// The processes by indices and without their names, judged beside the sites and one another.
pub(crate) fn link_entries(
    alloc: Global,
    entries: &[Entry<'_>],
    sites: &IndexSet<&str>,
    names: &IndexSet<&str>,
) -> Result<Vec<Part>, DumpFault>
    requires few_sites { length (texts sites.now.keys) < 2 ^ 32 }
    requires few_names { length (texts names.now.keys) < 2 ^ 32 }
    requires read { (d : Data) × (map entry_view entries.now ≡ tree_entries d)
        × (texts sites.now.keys ≡ tree_sites d) × (texts names.now.keys ≡ tree_names d) }
    ensures judges { (d : Data) → map entry_view entries.now ≡ tree_entries d
        → texts sites.now.keys ≡ tree_sites d → texts names.now.keys ≡ tree_names d
        → Judges d (entry_faults d) result }
    ensures made { IfOk result (λ parts. map process_of parts.items
        ≡ map (λ e. without_name (process_by (texts sites.now.keys) (texts names.now.keys)
        (entry_view e))) entries.now) }
{
    let parts = known_parts(alloc, entries, sites, names)?;
    if let Some((i, j)) = first_repeated_dependent(alloc, &parts)? {
        return Err(DumpFault::RepeatedDependent(i, j));
    }
    if let Some(i) = first_active_with_dependents(&parts) {
        return Err(DumpFault::ActiveWithDependents(i));
    }
    if has_too_many_dependents(&parts) {
        return Err(DumpFault::TooManyDependencies);
    }
    Ok(parts)
}
