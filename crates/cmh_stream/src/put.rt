//! Whole texts for a sink.

ghost use Rattle.std.specs.Prelude.{◌≡◌, ◌++◌, length, true, false, IfErr, IsErr, MatchResult, OnOk, OnErr, Some, codes};
ghost use Rattle.std.specs.Fmt.{decimal};
ghost use Rattle.std.specs.Io.KnownBytes.{Keeps};
ghost use Rattle.cmh_stream.specs.Put.{Puts, PutsAndFinishes};

use crate::{Pieces, Sink};
use std::error::Error;
use std::fmt;

/// A sink has failed before it handed on a whole text.
#[derive(Clone, Copy, PartialEq, Eq, Hash, Debug)]
pub struct WriteFault {
    /// How many bytes of the text it had taken, from the front.
    pub written: usize,
}

impl fmt::Display for WriteFault {
    ghost output = { λ e. Some (codes "write fault after " ++ decimal e.written ++ codes " bytes") };

    fn fmt<W: fmt::Write>(&self, f: &mut fmt::Formatter<W>) -> fmt::Result {
        write!(f, "write fault after {} bytes", self.written)
    }
}

impl Error for WriteFault {}

/// Puts the whole text into the sink and finishes it.
///
/// # Errors
///
/// `WriteFault` where the sink fails. Its count is the whole length where all was taken and the sink failed to hand it
/// on.
pub fn put_all<K: Sink>(sink: &mut K, bytes: &[u8]) -> Result<(), WriteFault>
    ensures { PutsAndFinishes bytes.now result
        (K.state sink.old) (K.state sink.new) (K.contents sink.old) (K.contents sink.new) }
{
    put_text(sink, bytes)?;
    finish(sink, bytes.len())
}

/// Puts a text in pieces into the sink and finishes it, as `put_all` does. The pieces needn't be joined.
///
/// # Errors
///
/// `WriteFault` where the sink fails. It counts the bytes of all pieces, as that of `put_all` does.
pub fn put_pieces<K: Sink>(sink: &mut K, text: &Pieces) -> Result<(), WriteFault>
    ensures { PutsAndFinishes text.now result
        (K.state sink.old) (K.state sink.new) (K.contents sink.old) (K.contents sink.new) }
{
    let pieces = text.list();
    let mut written = 0;
    for piece in pieces {
        if let Err(fault) = put_text(sink, piece.as_bytes()) {
            return Err(WriteFault {
                written: written + fault.written,
            });
        }
        written += piece.len();
    }
    finish(sink, written)
}

/// Puts the text into the sink, and doesn't finish it.
fn put_text<K: Sink>(sink: &mut K, bytes: &[u8]) -> Result<(), WriteFault>
    ensures puts { Puts bytes.now result
        (K.state sink.old) (K.state sink.new) (K.contents sink.old) (K.contents sink.new) }
    ensures opens { OnOk result ((K.state sink.new).is_finished ≡ true
        → ((K.state sink.old).is_finished ≡ true) × (length bytes.now ≡ 0)) }
    ensures stays { (K.state sink.old).has_failed ≡ true → MatchResult result
        (λ _. ((K.state sink.new).has_failed ≡ true) × (length bytes.now ≡ 0))
        (λ e. e.written ≡ 0) }
{
    let mut written = 0;
    while written < bytes.len() {
        let Ok(count) = sink.put(&bytes[written..]) else {
            return Err(WriteFault { written });
        };
        written += count;
    }
    Ok(())
}

/// Finishes the sink, which was given `written` bytes.
fn finish<K: Sink>(sink: &mut K, written: usize) -> Result<(), WriteFault>
    ensures takes_nothing { (K.state sink.new).taken ≡ (K.state sink.old).taken }
    ensures known { Keeps (K.contents sink.old) (K.contents sink.new) }

    ensures finishes { OnOk result ((K.state sink.new).is_finished ≡ true) }
    ensures keeps_finish { OnErr result (
        (K.state sink.new).is_finished ≡ (K.state sink.old).is_finished) }

    ensures works { OnOk result ((K.state sink.new).has_failed ≡ false) }
    ensures stops { OnErr result ((K.state sink.new).has_failed ≡ true) }
    ensures stays { (K.state sink.old).has_failed ≡ true → IsErr result }
    ensures count { IfErr result (λ e. e.written ≡ written) }
{
    sink.finish().map_err(|_| WriteFault { written })
}
