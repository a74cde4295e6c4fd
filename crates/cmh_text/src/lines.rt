//! The lines of the report, each appended to the text before it. The room for a line is asked for at once.

ghost use Rattle.std.specs.Prelude.{◌≡◌, ℕ, List, ◌++◌, ◌∷◌, [], ◌<◌, All, OnOk, codes, decimal, string_bytes};
ghost use Rattle.cmh_graph.specs.Graph.{process_count};
ghost use Rattle.cmh_text.specs.Report.{line, names_of, names_or_dash, spaced_words};

use crate::groups::Group;
use crate::names::{LastNames, names_room, push_names};
use cmh_memory::{Allocated, prepare_text};
use std::alloc::Global;

/// The room for the words and the numbers of a line, names apart.
const WORDS_ROOM: usize = 32;

/// So many names are written as fast as they are copied.
const FEW: usize = 8;

/// Appends the names, or a dash where there are none.
fn push_names_or_dash(
    alloc: Global,
    text: &mut String,
    list: &[u32],
    last: &mut LastNames,
) -> Allocated<()>
    requires { All (λ p. p < process_count last.old.graph) list.now }
    ensures graph { last.new.graph ≡ last.old.graph }
    ensures text { OnOk result (string_bytes text.new
        ≡ string_bytes text.old ++ spaced_words (names_or_dash last.old.graph list.now)) }
{
    if list.is_empty() {
        return text.push_str(" -");
    }
    if list.len() <= FEW {
        return push_names(text, last.graph, list);
    }
    last.renew(alloc, list)?;
    let names = last.text();
    prepare_text(text, names.len().saturating_add(WORDS_ROOM));
    text.push_str(names)
}

/// Appends the line of a deadlocked process.
pub(crate) fn push_deadlocked(text: &mut String, name: &str, number: u32) -> Allocated<()>
    ensures { OnOk result (string_bytes text.new ≡ string_bytes text.old
        ++ line (codes "deadlocked" ∷ name.now ∷ codes "group" ∷ decimal number ∷ [])) }
{
    prepare_text(text, name.len().saturating_add(WORDS_ROOM));
    write!(text, "deadlocked {name} group {number}\n")
}

/// Appends the line of a free process with these names on its path, each after a space.
#[tactic(auto, using(crate::proofs::LineLemmas::free_pieces))]
pub(crate) fn push_free(text: &mut String, name: &str, names: &str) -> Allocated<()>
    ensures { OnOk result ((path : List (List ℕ)) → names.now ≡ spaced_words path
        → string_bytes text.new ≡ string_bytes text.old
        ++ line (codes "free" ∷ name.now ∷ codes "path" ∷ path)) }
{
    let room = names.len().saturating_add(name.len());
    prepare_text(text, room.saturating_add(WORDS_ROOM));
    write!(text, "free {name} path")?;
    text.push_str(names)?;
    text.push_str("\n")?;
    Ok(())
}

/// Appends the line of a group of one process that waits for nobody.
pub(crate) fn push_alone(text: &mut String, name: &str, number: u32) -> Allocated<()>
    ensures { OnOk result (string_bytes text.new ≡ string_bytes text.old
        ++ line (codes "group" ∷ decimal number ∷ codes "|" ∷ name.now
        ∷ codes "|" ∷ codes "-" ∷ codes "|" ∷ codes "sites" ∷ codes "1" ∷ [])) }
{
    prepare_text(text, name.len().saturating_add(WORDS_ROOM));
    write!(text, "group {number} | {name} | - | sites 1\n")?;
    Ok(())
}

/// Appends the line of the group with this number.
pub(crate) fn push_group(
    alloc: Global,
    text: &mut String,
    number: u32,
    group: &Group,
    last: &mut LastNames,
) -> Allocated<()>
    requires { All (λ p. p < process_count last.old.graph) group.now.core.items
        × All (λ p. p < process_count last.old.graph) group.now.rest.items }
    ensures graph { last.new.graph ≡ last.old.graph }
    ensures text { OnOk result (string_bytes text.new ≡ string_bytes text.old
        ++ line (codes "group" ∷ decimal number
        ∷ codes "|" ∷ names_of last.old.graph group.now.core.items
        ++ codes "|" ∷ names_or_dash last.old.graph group.now.rest.items
        ++ codes "|" ∷ codes "sites" ∷ decimal group.now.site_count ∷ [])) }
{
    let graph = last.graph;
    prepare_text(
        text,
        names_room(graph, &group.core).saturating_add(WORDS_ROOM),
    );
    write!(text, "group {number} |")?;
    push_names(text, graph, &group.core)?;
    text.push_str(" |")?;
    push_names_or_dash(alloc, text, &group.rest, last)?;
    write!(text, " | sites {}\n", group.site_count)?;
    Ok(())
}
