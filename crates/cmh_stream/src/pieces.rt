//! A text that was made in pieces.

ghost use Rattle.std.specs.Prelude.{◌≡◌, ◌<◌, ◌++◌, ◌^◌, [], length, flat_map, IfOk, OnErr, OnOk, string_bytes};

use cmh_memory::{Allocated, joined_len, prepare_text};
use std::alloc::Global;
use std::marker::Model;

/// A text in pieces, which stands for the bytes of them all. Nothing is copied to put one piece behind the others, nor
/// to put them into a sink.
#[derive(Drop)]
pub struct Pieces {
    list: Vec<String>,
    len: usize,
}

impl Model for Pieces {
    ghost use Rattle.std.specs.Prelude.{◌≡◌, ◌<◌, ◌^◌, ℕ, List, length, flat_map, string_bytes};

    ghost Value = { List ℕ };

    ghost view = { λ p. flat_map (λ s. string_bytes s) p.list.items };

    ghost invariant = { λ p. let n = length (flat_map (λ s. string_bytes s) p.list.items) in
        (p.len ≡ n) × (n < 2 ^ 64) };
}

impl Pieces {
    /// No piece, which takes no memory.
    pub fn new(alloc: Global) -> Pieces
        ensures { result ≡ [] }
    {
        Pieces {
            list: Vec::new(alloc),
            len: 0,
        }
    }

    /// How many bytes there are in all pieces.
    pub fn len(&self) -> usize
        ensures { result ≡ length self.now }
    {
        self.len
    }

    /// Puts a piece behind the others.
    ///
    /// # Errors
    ///
    /// Where memory is refused. No piece was added.
    pub fn push(&mut self, piece: String) -> Allocated<()>
        ensures added { OnOk result (self.new ≡ self.old ++ string_bytes piece) }
        ensures same { OnErr result (self.new ≡ self.old) }
    {
        let len = joined_len(self.len, piece.len())?;
        self.list.push(piece)?;
        self.len = len;
        Ok(())
    }

    /// Puts all pieces of another text behind these.
    ///
    /// # Errors
    ///
    /// Where memory is refused. No piece was added.
    pub fn append(&mut self, other: Pieces) -> Allocated<()>
        ensures added { OnOk result (self.new ≡ self.old ++ other) }
        ensures same { OnErr result (self.new ≡ self.old) }
    {
        let len = joined_len(self.len, other.len)?;
        let mut list = other.list;
        self.list.append(&mut list)?;
        self.len = len;
        Ok(())
    }

    /// The pieces.
    pub(crate) fn list(&self) -> &[String]
        ensures text { flat_map (λ s. string_bytes s) result.now ≡ self.now }
        ensures fits { length (flat_map (λ s. string_bytes s) result.now) < 2 ^ 64 }
    {
        &self.list
    }

    /// The text in one piece. A lone piece is the text; of several, each is given back once it stands in the text.
    pub fn into_string(self, alloc: Global) -> Allocated<String>
        ensures { IfOk result (λ text. string_bytes text ≡ self) }
    {
        let mut list = self.list;
        if list.len() <= 1 {
            return Ok(list.pop().unwrap_or(String::new(alloc)));
        }
        let mut text = String::new(alloc);
        prepare_text(&mut text, self.len);
        for piece in list {
            text.push_str(&piece)?;
        }
        Ok(text)
    }
}
