//! From a source to all its bytes, if they aren't too many for a dump.

ghost use Rattle.std.specs.Io.KnownBytes.{Consumes, IsAtEnd};
ghost use Rattle.std.specs.Prelude.{◌≡◌, ◌⊎◌, ◌↔◌, ◌≤◌, ◌+◌, ◌++◌, length, vec_len, true, IfErr, IfOk, OnOk, IsErrOf};
ghost use Rattle.cmh_dump.specs.Source.{GaveAtMost};

use crate::{DumpFault, MAX_BYTES};
use cmh_stream::Source;
use std::alloc::Global;

/// The most bytes that a source is asked for at once.
const CHUNK: usize = 65_536;

/// The bytes that the source gives up to its end. At most one byte more than a dump may have is taken, and what was
/// taken stays taken, whatever the answer is.
///
/// # Errors
///
/// `Memory`, `ReadFault` where the source has failed, and `TooLong` where it gave more than `MAX_BYTES` bytes.
pub fn read_all<S: Source>(alloc: Global, source: &mut S) -> Result<Vec<u8>, DumpFault>
    ensures given { IfOk result (λ v.
        (S.state source.new).given ≡ (S.state source.old).given ++ v.items) }
    ensures whole { IfOk result (λ v. (S.state source.new).has_ended ≡ true) }
    ensures short { IfOk result (λ v. vec_len v ≤ MAX_BYTES) }

    ensures read_fault { IsErrOf result DumpFault.ReadFault
        ↔ ((S.state source.new).has_failed ≡ true) }
    ensures too_long { IsErrOf result DumpFault.TooLong
        → length (S.state source.new).given ≡ length (S.state source.old).given + (MAX_BYTES + 1) }
    ensures only { IfErr result (λ e. (e ≡ DumpFault.Memory)
        ⊎ (e ≡ DumpFault.ReadFault) ⊎ (e ≡ DumpFault.TooLong)) }

    ensures taken { GaveAtMost (MAX_BYTES + 1) (S.state source.old) (S.state source.new) }

    ensures known { IfOk result (λ v.
        Consumes (S.remaining source.old) (S.remaining source.new) v.items) }
    ensures at_end { OnOk result (IsAtEnd (S.remaining source.new)) }
{
    let mut bytes = Vec::new(alloc);
    let mut chunk = [0u8; CHUNK];
    while bytes.len() <= MAX_BYTES {
        let room = (MAX_BYTES + 1 - bytes.len()).min(chunk.len());
        let Ok(count) = source.fill(&mut chunk[..room]) else {
            return Err(DumpFault::ReadFault);
        };
        if count == 0 {
            return Ok(bytes);
        }
        bytes.extend_from_slice(&chunk[..count])?;
    }
    Err(DumpFault::TooLong)
}
