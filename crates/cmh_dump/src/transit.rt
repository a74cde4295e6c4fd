//! Messages in transit: each is written as the names of its sender and its receiver, and read by the places of these.

ghost use Rattle.std.specs.Prelude.{◌≡◌, ◌<◌, ◌^◌, not, length, map, position, is_some, true, Some, None, IfOk, if◌then◌else◌};
ghost use Rattle.std.specs.List.{list_all};
ghost use Rattle.serde_json.specs.Find.{as_str};
ghost use Rattle.serde_json.specs.View.{view};
ghost use Rattle.cmh_dump.specs.Dump.{places_in_pair, transit_faults};
ghost use Rattle.cmh_dump.specs.Entry.{is_pair, transits, names as tree_names};
ghost use Rattle.cmh_dump.specs.Name.{is_among};
ghost use Rattle.cmh_dump.specs.Read.{Judges};
ghost use Rattle.cmh_dump.specs.Texts.{texts};
ghost use Rattle.cmh_dump.specs.Tree.{texts_of};

use crate::DumpFault;
use crate::index::place_in;
use crate::tree::{elements_at, elements_in, text_in};
use cmh_graph::MAX_IN_TRANSIT;
use cmh_memory::room;
use indexmap::IndexSet;
use serde_json::Value;
use std::alloc::Global;

fn are_texts(values: &[Value]) -> bool
    ensures { result ≡ list_all (λ v. is_some (as_str (view v))) values.now }
{
    values.iter().all(|value| value.as_str().is_some())
}

/// The sender and the receiver, by their names.
fn is_pair(message: &Value) -> bool
    ensures { result ≡ is_pair (view message.now) }
{
    let elements = elements_in(message);
    elements.len() == 2 && are_texts(elements)
}

/// The place of the first message that is no pair of names.
fn first_bad_pair(messages: &[Value]) -> Option<usize>
    ensures { result ≡ position (λ m. not (is_pair (view m))) messages.now }
{
    messages.iter().position(|message| !is_pair(message))
}

/// The places of the sender and the receiver of a pair, where both are processes.
fn places_of(names: &IndexSet<&str>, message: &Value) -> Option<(u32, u32)>
    requires few { length (texts names.now.keys) < 2 ^ 32 }
    requires pair { is_pair (view message.now) ≡ true }
    ensures { result ≡ (if list_all (is_among (texts names.now.keys)) (texts_of (view message.now))
        then Some (places_in_pair (texts names.now.keys) (view message.now)) else None) }
{
    let elements = elements_in(message);
    let from = place_in(names, text_in(&elements[0]))?;
    let to = place_in(names, text_in(&elements[1]))?;
    Some((from as u32, to as u32))
}

/// The messages in transit, judged. A dump of version 1 has none.
pub(crate) fn read_in_transit(
    alloc: Global,
    tree: &Value,
    names: &IndexSet<&str>,
) -> Result<Vec<(u32, u32)>, DumpFault>
    requires { length (texts names.now.keys) < 2 ^ 32 }
    ensures judges { texts names.now.keys ≡ tree_names (view tree.now)
        → Judges (view tree.now) (transit_faults (view tree.now)) result }
    ensures read { texts names.now.keys ≡ tree_names (view tree.now)
        → IfOk result (λ v.
        v.items ≡ map (places_in_pair (tree_names (view tree.now))) (transits (view tree.now))) }
{
    let messages = elements_at(tree, "in_transit");
    if messages.len() > MAX_IN_TRANSIT {
        return Err(DumpFault::TooManyInTransit);
    }
    if let Some(i) = first_bad_pair(messages) {
        return Err(DumpFault::BadInTransit(i));
    }
    let mut places = room(alloc, messages.len(), messages)?;
    for (i, message) in messages.iter().enumerate() {
        let Some(pair) = places_of(names, message) else {
            return Err(DumpFault::UnknownInTransit(i));
        };
        places.push(pair)?;
    }
    Ok(places)
}
