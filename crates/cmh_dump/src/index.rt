//! An index of names: each name by its place.

ghost use Rattle.std.specs.Prelude.{◌≡◌, ◌<◌, ◌^◌, ℕ, length, map, Some, None, IfOk, IfErr, OnOk, if◌then◌else◌};
ghost use Rattle.cmh_dump.specs.Index.{first_repeat};
ghost use Rattle.cmh_dump.specs.Name.{is_among, place_of};
ghost use Rattle.cmh_dump.specs.Places.{first_unknown};
ghost use Rattle.cmh_dump.specs.Texts.{texts};
ghost use Rattle.cmh_dump.specs.Tree.{text_of};
ghost use Rattle.serde_json.specs.View.{view};
ghost use Rattle.cmh_dump.specs.declared.index.IndexFault.TheVariants.{Memory};
ghost use Rattle.cmh_dump.specs.declared.index.PlaceFault.TheVariants.{Memory as NoMemory};

use crate::tree::text_in;
use cmh_memory::{Fault, Refusal, room};
use indexmap::IndexSet;
use serde_json::Value;
use std::alloc::{AllocFailed, Global};

/// Why names have no index.
#[derive(Debug, Drop)]
pub(crate) enum IndexFault {
    Memory,
    /// The name at this place equals an earlier one.
    Repeated(usize),
}

impl Fault for IndexFault {
    ghost is_refusal = { λ e. e ≡ Memory };
}

impl<T: Drop> From<AllocFailed<T>> for IndexFault {
    ghost from_gives = { λ _ e. e ≡ Memory };

    fn from(_e: AllocFailed<T>) -> IndexFault {
        IndexFault::Memory
    }
}

/// Why values have no places in an index.
#[derive(Debug, Drop)]
pub(crate) enum PlaceFault {
    Memory,
    /// The value at this place is no name of the index.
    Unknown(usize),
}

impl Fault for PlaceFault {
    ghost is_refusal = { λ e. e ≡ NoMemory };
}

impl From<Refusal> for PlaceFault {
    ghost from_gives = { λ _ e. e ≡ NoMemory };

    fn from(_e: Refusal) -> PlaceFault {
        PlaceFault::Memory
    }
}

impl<T: Drop> From<AllocFailed<T>> for PlaceFault {
    ghost from_gives = { λ _ e. e ≡ NoMemory };

    fn from(_e: AllocFailed<T>) -> PlaceFault {
        PlaceFault::Memory
    }
}

/// The index of the names, or the place of the first that equals an earlier one.
pub(crate) fn index_of<'v>(
    alloc: Global,
    names: &[&'v str],
) -> Result<IndexSet<&'v str>, IndexFault>
    ensures names { IfOk result (λ index. texts index.keys ≡ texts names.now) }
    ensures distinct { OnOk result (first_repeat (texts names.now) ≡ None) }
    ensures repeated { IfErr result (λ e. (i : ℕ) → e ≡ IndexFault.Repeated i
        → first_repeat (texts names.now) ≡ Some i) }
{
    let mut index = IndexSet::new(alloc);
    for (i, name) in names.iter().enumerate() {
        let (_, is_new) = index.insert_full(*name)?;
        if !is_new {
            return Err(IndexFault::Repeated(i));
        }
    }
    Ok(index)
}

/// The place of a name.
pub(crate) fn place_in(index: &IndexSet<&str>, name: &str) -> Option<usize>
    ensures { result ≡ (if is_among (texts index.now.keys) name.now
        then Some (place_of (texts index.now.keys) name.now) else None) }
{
    index.get_index_of(name)
}

/// The name is in the index.
pub(crate) fn is_known(index: &IndexSet<&str>, name: &str) -> bool
    ensures { result ≡ is_among (texts index.now.keys) name.now }
{
    place_in(index, name).is_some()
}

/// The place of a name, or the number of names where it is none of them.
pub(crate) fn place_of(index: &IndexSet<&str>, name: &str) -> u32
    requires { length (texts index.now.keys) < 2 ^ 32 }
    ensures { result ≡ place_of (texts index.now.keys) name.now }
{
    match place_in(index, name) {
        Some(place) => place as u32,
        None => index.len() as u32,
    }
}

/// The places of the names that stand as values, or where the first stands that is none of them. Each is looked up
/// once.
pub(crate) fn places_of(
    alloc: Global,
    index: &IndexSet<&str>,
    values: &[Value],
) -> Result<Vec<u32>, PlaceFault>
    requires { length (texts index.now.keys) < 2 ^ 32 }
    ensures known { OnOk result (first_unknown (texts index.now.keys) values.now ≡ None) }
    ensures places { IfOk result (λ places. places.items
        ≡ map (λ v. place_of (texts index.now.keys) (text_of (view v))) values.now) }
    ensures unknown { IfErr result (λ e. (j : ℕ) → e ≡ PlaceFault.Unknown j
        → first_unknown (texts index.now.keys) values.now ≡ Some j) }
{
    let mut places = room(alloc, values.len(), values)?;
    for (j, value) in values.iter().enumerate() {
        let Some(place) = place_in(index, text_in(value)) else {
            return Err(PlaceFault::Unknown(j));
        };
        places.push(place as u32)?;
    }
    Ok(places)
}
