//! The names of lists of processes, as text. A line often ends with names of the line before it, so those of the last
//! list are kept.
//!
//! A comparison shows what two lists share at their ends, so no proof here speaks of paths or rests.

ghost use Rattle.std.specs.Prelude.{◌≡◌, [], ◌∷◌, ◌++◌, ◌-◌, ◌<◌, ◌≤◌, ◌^◌, drop, length, min, nat_eq, slice_get, All, OnErr, OnOk, Some, string_bytes};
ghost use Rattle.std.specs.Option.{option_eq};
ghost use Rattle.cmh_graph.specs.Graph.{process_count};
ghost use Rattle.cmh_text.specs.Report.{names_of, spaced_words};

use cmh_graph::WaitGraph;
use cmh_memory::{Allocated, prepare_text};
use std::alloc::Global;
use std::marker::Model;
use std::mem;

/// A list of processes, and the text of their names.
#[derive(Drop)]
pub(crate) struct LastNames<'a> {
    pub(crate) graph: &'a WaitGraph,
    list: Vec<u32>,
    /// Each name after a space.
    text: String,
}

impl<'a> Model for LastNames<'a> {
    ghost use Rattle.cmh_text.specs.Processes.{Processes};

    ghost Value = { Processes };

    ghost use Rattle.cmh_text.specs.Names.{AreNamed};

    ghost view = { λ l. record { graph = l.graph.now; list = l.list.items } };

    ghost invariant = { AreNamed };
}

impl<'a> LastNames<'a> {
    /// The names of no processes.
    pub(crate) fn new(alloc: Global, graph: &'a WaitGraph) -> LastNames<'a>
        ensures { result ≡ record { graph = graph.now; list = [] } }
    {
        LastNames {
            graph,
            list: Vec::new(alloc),
            text: String::new(alloc),
        }
    }

    /// Goes over to another list. Names that both lists end with stay in the text. Where memory is refused, no names are
    /// left.
    pub(crate) fn renew(&mut self, alloc: Global, list: &[u32]) -> Allocated<()>
        requires { All (λ p. p < process_count self.old.graph) list.now }
        ensures graph { self.new.graph ≡ self.old.graph }
        ensures list { OnOk result (self.new.list ≡ list.now) }
        ensures none { OnErr result (self.new.list ≡ []) }
    {
        let none = LastNames::new(alloc, self.graph);
        let LastNames {
            graph,
            list: mut old,
            mut text,
        } = mem::replace(self, none);
        let kept = kept_count(&old, list);
        let added = &list[..list.len() - kept];
        let mut front = String::new(alloc);
        prepare_text(&mut front, names_room(graph, added));
        push_names(&mut front, graph, added)?;
        let cut = names_room(graph, &old[..old.len() - kept]);
        text.replace_range(..cut, &front)?;
        old.clear();
        old.extend_from_slice(list)?;
        *self = LastNames {
            graph,
            list: old,
            text,
        };
        Ok(())
    }

    /// Whether the list begins with that process.
    pub(crate) fn begins_with(&self, p: u32) -> bool
        ensures { result ≡ option_eq nat_eq (slice_get self.now.list 0) (Some p) }
    {
        self.list.first().copied() == Some(p)
    }

    /// Puts a process before the list. Where memory is refused, no names are left.
    pub(crate) fn put_before(&mut self, alloc: Global, p: u32) -> Allocated<()>
        requires { p < process_count self.old.graph }
        ensures graph { self.new.graph ≡ self.old.graph }
        ensures list { OnOk result (self.new.list ≡ p ∷ self.old.list) }
        ensures none { OnErr result (self.new.list ≡ []) }
    {
        let none = LastNames::new(alloc, self.graph);
        let LastNames {
            graph,
            mut list,
            mut text,
        } = mem::replace(self, none);
        let mut front = String::new(alloc);
        front.push(' ')?;
        front.push_str(graph.name(p))?;
        text.insert_str(0, &front)?;
        list.insert(0, p)?;
        *self = LastNames { graph, list, text };
        Ok(())
    }

    /// The text of the names.
    pub(crate) fn text(&self) -> &str
        ensures { result.now ≡ spaced_words (names_of self.now.graph self.now.list) }
    {
        &self.text
    }
}

/// How many processes at the end of the old list are also those at the end of the new one, if one of the lists is the
/// end of the other.
fn kept_count(old: &[u32], new: &[u32]) -> usize
    ensures within { (result ≤ length old.now) × (result ≤ length new.now) }
    ensures same { drop (length old.now - result) old.now ≡ drop (length new.now - result) new.now }
{
    if new.ends_with(old) {
        old.len()
    } else if old.ends_with(new) {
        new.len()
    } else {
        0
    }
}

/// Appends the name of each process after a space.
pub(crate) fn push_names(text: &mut String, graph: &WaitGraph, list: &[u32]) -> Allocated<()>
    requires { All (λ p. p < process_count graph.now) list.now }
    ensures { OnOk result (string_bytes text.new
        ≡ string_bytes text.old ++ spaced_words (names_of graph.now list.now)) }
{
    for p in list {
        text.push(' ')?;
        text.push_str(graph.name(*p))?;
    }
    Ok(())
}

/// The room for each name after a space.
pub(crate) fn names_room(graph: &WaitGraph, list: &[u32]) -> usize
    requires { All (λ p. p < process_count graph.now) list.now }
    ensures { result ≡ min (length (spaced_words (names_of graph.now list.now))) (2 ^ 64 - 1) }
{
    let mut room = 0usize;
    for p in list {
        room = room.saturating_add(1).saturating_add(graph.name(*p).len());
    }
    room
}
