//! Processes as they are written: all by names.

ghost use Rattle.std.specs.Prelude.{◌≡◌, ◌&&◌, ◌||◌, ◌==◌, [], ◌∷◌, length, string_bytes, codes, map, option_map, Some, None, IfOk, if◌then◌else◌};
ghost use Rattle.std.specs.BTreeMap.{btree_map_len, keys};
ghost use Rattle.std.specs.List.{list_all};
ghost use Rattle.serde_json.specs.View.{view};
ghost use Rattle.cmh_graph.specs.declared.part.State.TheVariants.{Idle, Active};
ghost use Rattle.cmh_dump.specs.Entry.{has_state, has_dependents, entry_of};
ghost use Rattle.cmh_dump.specs.Name.{is_among, is_name};
ghost use Rattle.cmh_dump.specs.Read.{entry_view, own_keys, is_written, first_ill_named};
ghost use Rattle.cmh_dump.specs.Texts.{texts};
ghost use Rattle.cmh_dump.specs.Tree.{elements_of, at_key};

use crate::names::{are_names_in, is_name};
use crate::tree::{array_in, has_allowed, text_at};
use cmh_graph::State;
use cmh_memory::{Allocated, room};
use serde_json::{Map, Value};
use std::alloc::Global;

/// A process as it is written.
#[derive(Drop)]
pub(crate) struct Entry<'v> {
    pub(crate) name: &'v str,
    pub(crate) site: &'v str,
    pub(crate) state: State,
    pub(crate) dependents: &'v [Value],
}

fn has_state(process: &Value, word: &str) -> bool
    ensures { result ≡ has_state word.now (view process.now) }
{
    text_at(process, "state") == word
}

/// The state, where it is one.
fn state_of(process: &Value) -> Option<State>
    ensures { result ≡ (if has_state (codes "active") (view process.now) then Some Active
        else (if has_state (codes "idle") (view process.now) then Some Idle else None)) }
{
    let word = text_at(process, "state");
    if word == "active" {
        Some(State::Active)
    } else if word == "idle" {
        Some(State::Idle)
    } else {
        None
    }
}

/// The dependents, where they are an array. An active process may leave them out.
fn dependents_of(process: &Value) -> Option<&[Value]>
    ensures { option_map (λ v. map view v.now) result ≡ (if has_dependents (view process.now)
        then Some (elements_of (at_key (codes "dependents") (view process.now))) else None) }
{
    match process.get("dependents") {
        Some(member) => array_in(member),
        None => if has_state(process, "active") {
            Some(&[])
        } else {
            None
        },
    }
}

fn has_names(entry: &Entry<'_>) -> bool
    ensures { result ≡ (is_name entry.now.name.now && is_name entry.now.site.now) }
{
    is_name(entry.name) && is_name(entry.site)
}

/// How many keys a process of the state must have.
fn key_count(state: State) -> usize
    ensures { result ≡ length (own_keys state) }
{
    match state {
        State::Idle => 4,
        State::Active => 3,
    }
}

/// There are as many keys as a process of the state must have, or each is one that it may have. Where all that it must
/// have stand there, either says that no other does, and to count them takes less.
fn has_no_other(members: &Map<String, Value>, state: State) -> bool
    ensures { result ≡ ((btree_map_len members.now == length (own_keys state))
        || list_all (λ key. is_among (own_keys Active) (string_bytes key)
        || is_among (codes "dependents" ∷ []) (string_bytes key)) (keys members.now)) }
{
    members.len() == key_count(state)
        || has_allowed(members, &["name", "site", "state"], &["dependents"])
}

/// The process as it is written, where it is written as it has to be, whatever stands among its dependents.
pub(crate) fn entry_of(process: &Value) -> Option<Entry<'_>>
    ensures { option_map entry_view result ≡ (if is_written (view process.now)
        then Some (entry_of (view process.now)) else None) }
{
    let members = process.as_object()?;
    let state = state_of(process)?;
    let dependents = dependents_of(process)?;
    let entry = Entry {
        name: text_at(process, "name"),
        site: text_at(process, "site"),
        state,
        dependents,
    };
    if has_names(&entry) && has_no_other(members, state) {
        Some(entry)
    } else {
        None
    }
}

/// The place of the first process with a dependent that is no name.
pub(crate) fn first_ill_named(entries: &[Entry<'_>]) -> Option<usize>
    ensures { result ≡ first_ill_named entries.now }
{
    entries
        .iter()
        .position(|entry| !are_names_in(entry.dependents))
}

/// The names of the processes.
pub(crate) fn names_of<'v>(alloc: Global, entries: &[Entry<'v>]) -> Allocated<Vec<&'v str>>
    ensures { IfOk result (λ v. texts v.items ≡ map (λ e. (entry_view e).name) entries.now) }
{
    let mut names = room(alloc, entries.len(), entries)?;
    for entry in entries {
        names.push(entry.name)?;
    }
    Ok(names)
}
