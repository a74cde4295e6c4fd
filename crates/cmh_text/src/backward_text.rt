//! A text that is made from its end.
//!
//! A line written by itself would be a system call for some 20 bytes. A chunk joined at once would need room for all
//! its lines beside its text.

ghost use Rattle.std.specs.Prelude.{◌≡◌, ◌++◌, [], IfOk, OnOk, flat_map, reverse, string_bytes};

use cmh_memory::Allocated;
use cmh_stream::Pieces;
use std::alloc::Global;
use std::marker::Model;
use std::mem;

/// The least number of bytes of lines that are joined to one piece. The heap doesn't ask the system for a block of that
/// size by itself, so the next lines take the place of these.
const JOINED: usize = 65_536;

/// A text whose lines come from the last to the first. They are joined to pieces as they come, so no more lines are
/// held than make a piece.
#[derive(Drop)]
pub(crate) struct BackwardText {
    /// The end of the text, from its last piece to its first.
    joined: Vec<String>,
    /// The lines before it, from the last to the first.
    lines: Vec<String>,
    /// How many bytes the lines have.
    room: usize,
}

impl Model for BackwardText {
    ghost use Rattle.std.specs.Prelude.{ℕ, List, ◌++◌, flat_map, reverse, string_bytes};

    ghost Value = { List ℕ };

    ghost view = { λ t. flat_map (λ s. string_bytes s) (reverse t.lines.items)
        ++ flat_map (λ s. string_bytes s) (reverse t.joined.items) };
}

impl BackwardText {
    /// No line, which takes no memory.
    pub(crate) fn new(alloc: Global) -> BackwardText
        ensures { result ≡ [] }
    {
        BackwardText {
            joined: Vec::new(alloc),
            lines: Vec::new(alloc),
            room: 0,
        }
    }

    /// Puts a line before the others.
    pub(crate) fn push(&mut self, alloc: Global, line: String) -> Allocated<()>
        ensures { OnOk result (self.new ≡ string_bytes line ++ self.old) }
    {
        self.room = self.room.saturating_add(line.len());
        self.lines.push(line)?;
        if self.room < JOINED {
            return Ok(());
        }
        self.join(alloc)
    }

    /// Joins the lines to a piece.
    fn join(&mut self, alloc: Global) -> Allocated<()>
        ensures { OnOk result (self.new ≡ self.old) }
    {
        let lines = mem::replace(&mut self.lines, Vec::new(alloc));
        self.joined
            .push(pieces_from_last(alloc, lines)?.into_string(alloc)?)?;
        self.room = 0;
        Ok(())
    }

    /// The text from its beginning.
    pub(crate) fn into_pieces(self, alloc: Global) -> Allocated<Pieces>
        ensures { IfOk result (λ text. text ≡ self) }
    {
        let mut pieces = Pieces::new(alloc);
        pieces.push(pieces_from_last(alloc, self.lines)?.into_string(alloc)?)?;
        pieces.append(pieces_from_last(alloc, self.joined)?)?;
        Ok(pieces)
    }
}

/// The texts one after the other, the last first.
fn pieces_from_last(alloc: Global, mut texts: Vec<String>) -> Allocated<Pieces>
    ensures { IfOk result (λ text. text ≡ flat_map (λ s. string_bytes s) (reverse texts.items)) }
{
    let mut pieces = Pieces::new(alloc);
    while let Some(next) = texts.pop() {
        pieces.push(next)?;
    }
    Ok(pieces)
}
