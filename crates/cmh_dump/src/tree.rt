//! The tree of a dump, and what stands at its places. A place that isn't there, or has another kind, reads as empty.

ghost use Rattle.std.specs.Prelude.{◌≡◌, ◌≢◌, ◌||◌, Some, None, IfOk, IfErr, false, ◌==◌, is_some, map, option_and_then, option_map, bytes_eq, string_bytes};
ghost use Rattle.std.specs.List.{list_all, list_any};
ghost use Rattle.std.specs.Option.{option_map_or};
ghost use Rattle.std.specs.BTreeMap.{keys};
ghost use Rattle.serde_json.specs.Errors.{IsMemory};
ghost use Rattle.serde_json.specs.Find.{get, as_array, as_number, as_u64};
ghost use Rattle.serde_json.specs.View.{view, items_of};
ghost use Rattle.cmh_dump.specs.Dump.{tree_of};
ghost use Rattle.cmh_dump.specs.Name.{is_among};
ghost use Rattle.cmh_dump.specs.Tree.{text_of, texts_of, elements_of, at_key, has_array, has_keys};
ghost use Rattle.cmh_dump.specs.Texts.{texts};

use crate::DumpFault;
use cmh_memory::{Allocated, Fault, refusal_of};
use serde_json::{Error, Map, Value};
use std::alloc::Global;

/// What `serde_json` says of bytes that it hasn't read.
#[derive(Drop)]
struct Unread {
    error: Error,
}

impl Fault for Unread {
    ghost is_refusal = { λ unread. IsMemory unread.error };
}

/// The tree of the bytes.
#[tactic(auto, using(crate::proofs::Trees::tree_is, crate::proofs::Trees::no_tree))]
pub(crate) fn tree_of(alloc: Global, bytes: &[u8]) -> Result<Value, DumpFault>
    ensures ok { IfOk result (λ v. tree_of bytes.now ≡ Some (view v)) }
    ensures err { IfErr result (λ e. e ≢ DumpFault.Memory
        → (e ≡ DumpFault.NotJson) × (tree_of bytes.now ≡ None)) }
{
    match Value::from_slice(alloc, bytes) {
        Ok(value) => Ok(value),
        Err(error) if error.is_memory() => Err(DumpFault::from(refusal_of(Unread { error }))),
        Err(_) => Err(DumpFault::NotJson),
    }
}

/// The text, or the empty one where the value is none.
pub(crate) fn text_in(value: &Value) -> &str
    ensures { result.now ≡ text_of (view value.now) }
{
    value.as_str().unwrap_or("")
}

/// The text at a key, or the empty one where none is there.
pub(crate) fn text_at<'v>(value: &'v Value, key: &str) -> &'v str
    ensures { result.now ≡ text_of (at_key key.now (view value.now)) }
{
    match value.get(key) {
        Some(member) => text_in(member),
        None => "",
    }
}

/// The elements of the array, if the value is one.
pub(crate) fn array_in(value: &Value) -> Option<&[Value]>
    ensures { option_map (λ v. items_of (map view v.now)) result ≡ as_array (view value.now) }
{
    match value.as_array() {
        Some(elements) => Some(elements),
        None => None,
    }
}

/// The elements of an array, or none where the value is none.
#[tactic(auto, using(crate::proofs::Trees::elements_of_items))]
pub(crate) fn elements_in(value: &Value) -> &[Value]
    ensures { map view result.now ≡ elements_of (view value.now) }
{
    match value.as_array() {
        Some(elements) => elements,
        None => &[],
    }
}

/// The elements of the array at a key, or none where no array is there.
pub(crate) fn elements_at<'v>(value: &'v Value, key: &str) -> &'v [Value]
    ensures { map view result.now ≡ elements_of (at_key key.now (view value.now)) }
{
    match value.get(key) {
        Some(member) => elements_in(member),
        None => &[],
    }
}

/// The values as texts.
fn texts_in<'v>(alloc: Global, values: &'v [Value]) -> Allocated<Vec<&'v str>>
    ensures { IfOk result (λ v. texts v.items ≡ map (λ value. text_of (view value)) values.now) }
{
    let mut texts = Vec::new(alloc);
    for value in values {
        texts.push(text_in(value))?;
    }
    Ok(texts)
}

/// The elements of the array at a key as texts.
pub(crate) fn texts_at<'v>(alloc: Global, value: &'v Value, key: &str) -> Allocated<Vec<&'v str>>
    ensures { IfOk result (λ v. texts v.items ≡ texts_of (at_key key.now (view value.now))) }
{
    texts_in(alloc, elements_at(value, key))
}

/// An array stands at the key.
pub(crate) fn has_array(value: &Value, key: &str) -> bool
    ensures { result ≡ has_array key.now (view value.now) }
{
    match value.get(key) {
        Some(member) => member.is_array(),
        None => false,
    }
}

/// The object has the key.
pub(crate) fn has_member(value: &Value, key: &str) -> bool
    ensures { result ≡ is_some (get key.now (view value.now)) }
{
    value.get(key).is_some()
}

/// The number at a key is this one.
pub(crate) fn is_number_at(value: &Value, key: &str, number: u64) -> bool
    ensures { result ≡ option_map_or (λ n. n == number)
        (option_and_then as_u64 (as_number (at_key key.now (view value.now)))) false }
{
    match value.get(key).and_then(Value::as_u64) {
        Some(found) => found == number,
        None => false,
    }
}

fn has_each(value: &Value, words: &[&str]) -> bool
    ensures { result ≡ list_all (λ k. is_some (get k.now (view value.now))) words.now }
{
    words.iter().all(|word| has_member(value, word))
}

fn is_one_of(key: &str, words: &[&str]) -> bool
    ensures { result ≡ list_any (λ k. bytes_eq key.now k.now) words.now }
{
    words.iter().any(|word| key == *word)
}

fn is_allowed(key: &str, needed: &[&str], allowed: &[&str]) -> bool
    ensures { result ≡ (is_among (texts needed.now) key.now
        || is_among (texts allowed.now) key.now) }
{
    is_one_of(key, needed) || is_one_of(key, allowed)
}

/// The map has no key but these.
pub(crate) fn has_allowed(members: &Map<String, Value>, needed: &[&str], allowed: &[&str]) -> bool
    ensures { result ≡ list_all (λ key. is_among (texts needed.now) (string_bytes key)
        || is_among (texts allowed.now) (string_bytes key)) (keys members.now) }
{
    members
        .keys()
        .all(|key| is_allowed(key.as_str(), needed, allowed))
}

/// It is an object that has each of the first keys, maybe some of the second, and no others.
#[tactic(auto, using(crate::proofs::Keys::not_object))]
pub(crate) fn has_keys(value: &Value, needed: &[&str], allowed: &[&str]) -> bool
    ensures { result ≡ has_keys (texts needed.now) (texts allowed.now) (view value.now) }
{
    let Some(members) = value.as_object() else {
        return false;
    };
    has_each(value, needed) && has_allowed(members, needed, allowed)
}

/// The member of the object at the key, or null where none is there. The rest of the value is freed.
pub(crate) fn take_member(mut value: Value, key: &str) -> Value
    ensures { view result ≡ at_key key.now (view value) }
{
    match value.get_mut(key) {
        Some(member) => member.take(),
        None => Value::Null,
    }
}

/// The elements of the array, or none where the value is none.
pub(crate) fn take_elements(alloc: Global, value: Value) -> Vec<Value>
    ensures { map view result.items ≡ elements_of (view value) }
{
    match value {
        Value::Array(elements) => elements,
        _ => Vec::new(alloc),
    }
}

/// The text, or the empty one where the value is none.
pub(crate) fn take_text(alloc: Global, value: Value) -> String
    ensures { string_bytes result ≡ text_of (view value) }
{
    match value {
        Value::String(text) => text,
        _ => String::new(alloc),
    }
}
