//! From the bytes of a dump to its graph, or to the first fault that refuses it.

ghost use Rattle.std.specs.Prelude.{◌≡◌, ◌≢◌, ◌<◌, ◌^◌, ◌++◌, true, length, map, option_map, Ok, Err, IfOk, IfErr};
ghost use Rattle.std.specs.List.{list_all};
ghost use Rattle.cmh_dump.specs.Dump.{holds, first_of, in_order, process_faults, name_faults, entry_faults, transit_faults, dump, dump_of_tree};
ghost use Rattle.cmh_dump.specs.Entry.{sites as tree_sites, entries as tree_entries, names as tree_names};
ghost use Rattle.cmh_dump.specs.Read.{Builds, entry_view, first_ill_named};
ghost use Rattle.cmh_dump.specs.Name.{is_name};
ghost use Rattle.cmh_dump.specs.declared.fault.DumpFault.TheVariants.{BadProcess};
ghost use Rattle.cmh_dump.specs.Texts.{texts};
ghost use Rattle.serde_json.specs.View.{view};

use crate::entry::Entry;
use crate::judge::{first_fault, judge_top, link_entries, read_names, read_processes, read_sites};
use crate::parts::move_names;
use crate::transit::read_in_transit;
use crate::tree::{take_elements, take_member, tree_of};
use crate::{DumpFault, MAX_BYTES};
use cmh_graph::{Part, WaitGraph};
use cmh_memory::refusal_of;
use indexmap::IndexSet;
use serde_json::Value;
use std::alloc::Global;

/// What a wait graph is built of, without the names.
type GraphParts = (Vec<Part>, Vec<(u32, u32)>);

/// What the graph of a tree is built of, once sites, processes and their names are read.
fn read_linked(
    alloc: Global,
    tree: &Value,
    entries: &[Entry<'_>],
    sites: &IndexSet<&str>,
    names: &IndexSet<&str>,
) -> Result<GraphParts, DumpFault>
    requires few_sites { length (texts sites.now.keys) < 2 ^ 32 }
    requires few_names { length (texts names.now.keys) < 2 ^ 32 }
    requires read { map entry_view entries.now ≡ tree_entries (view tree.now) }
    requires sites { texts sites.now.keys ≡ tree_sites (view tree.now) }
    requires names { texts names.now.keys ≡ tree_names (view tree.now) }
    ensures { Builds (view tree.now) (entry_faults (view tree.now)
        ++ transit_faults (view tree.now)) result }
{
    let parts = link_entries(alloc, entries, sites, names)?;
    let in_transit = read_in_transit(alloc, tree, names)?;
    Ok((parts, in_transit))
}

/// What the graph of a tree is built of, once sites and processes are read.
fn read_named(
    alloc: Global,
    tree: &Value,
    entries: &[Entry<'_>],
    sites: &IndexSet<&str>,
) -> Result<GraphParts, DumpFault>
    requires few_sites { length (texts sites.now.keys) < 2 ^ 32 }
    requires few_processes { length entries.now < 2 ^ 32 }
    requires read { map entry_view entries.now ≡ tree_entries (view tree.now) }
    requires sites { texts sites.now.keys ≡ tree_sites (view tree.now) }
    ensures { Builds (view tree.now) (name_faults (view tree.now)
        ++ (entry_faults (view tree.now) ++ transit_faults (view tree.now))) result }
{
    let names = read_names(alloc, entries)?;
    read_linked(alloc, tree, entries, sites, &names)
}

/// What the graph of a tree is built of, once sites and processes are read. Whether dependents are names is judged only
/// where something else is refused: all that are found among the names of the processes are.
fn read_written(
    alloc: Global,
    tree: &Value,
    entries: &[Entry<'_>],
    sites: &IndexSet<&str>,
) -> Result<GraphParts, DumpFault>
    requires few_sites { length (texts sites.now.keys) < 2 ^ 32 }
    requires few_processes { length entries.now < 2 ^ 32 }
    requires read { map entry_view entries.now ≡ tree_entries (view tree.now) }
    requires sites { texts sites.now.keys ≡ tree_sites (view tree.now) }
    ensures { list_all (λ e. is_name (entry_view e).name) entries.now ≡ true
        → first_of (holds (view tree.now)) (process_faults (view tree.now))
        ≡ option_map BadProcess (first_ill_named entries.now)
        → Builds (view tree.now) (process_faults (view tree.now) ++ (name_faults (view tree.now)
        ++ (entry_faults (view tree.now) ++ transit_faults (view tree.now)))) result }
{
    match read_named(alloc, tree, entries, sites) {
        Ok(parts) => Ok(parts),
        Err(fault) => Err(first_fault(entries, fault)),
    }
}

/// What the graph of a tree is built of, or the first condition that refuses the tree.
fn read_parts(alloc: Global, tree: &Value) -> Result<GraphParts, DumpFault>
    ensures { Builds (view tree.now) (in_order (view tree.now)) result }
{
    judge_top(tree)?;
    let sites = read_sites(alloc, tree)?;
    let entries = read_processes(alloc, tree)?;
    read_written(alloc, tree, &entries, &sites)
}

/// The wait graph that a tree means, or the first condition that refuses it.
fn read_tree(alloc: Global, tree: Value) -> Result<WaitGraph, DumpFault>
    ensures ok { IfOk result (λ g. dump_of_tree (view tree) ≡ Ok g) }
    ensures err { IfErr result (λ e. e ≢ DumpFault.Memory → dump_of_tree (view tree) ≡ Err e) }
{
    let (parts, in_transit) = read_parts(alloc, &tree)?;
    let processes = take_elements(alloc, take_member(tree, "processes"));
    let parts = move_names(alloc, processes, parts);
    match WaitGraph::build_with(alloc, parts, &in_transit) {
        Ok(graph) => Ok(graph),
        // What was judged is well formed, so only memory can be refused.
        Err(fault) => Err(DumpFault::from(refusal_of(fault))),
    }
}

/// The wait graph that the bytes mean, or the first condition that refuses them, in the order of the variants of
/// `DumpFault`. `Memory` may be answered before the others. It takes time close to linear in the bytes.
#[tactic(auto, using(crate::proofs::FirstFault::Bytes::too_long, crate::proofs::FirstFault::Bytes::no_json, crate::proofs::FirstFault::Bytes::of_the_tree))]
pub fn read_dump(alloc: Global, bytes: &[u8]) -> Result<WaitGraph, DumpFault>
    ensures ok { IfOk result (λ g. dump bytes.now ≡ Ok g) }
    ensures err { IfErr result (λ e. e ≢ DumpFault.Memory → dump bytes.now ≡ Err e) }
{
    if bytes.len() > MAX_BYTES {
        return Err(DumpFault::TooLong);
    }
    let tree = tree_of(alloc, bytes)?;
    read_tree(alloc, tree)
}
