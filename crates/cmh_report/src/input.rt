//! From a source to the graph that its bytes mean.

ghost use Rattle.std.specs.Prelude.{◌+◌, Ok, IfOk, IfErr};
ghost use Rattle.cmh_dump.specs.Source.{GaveAtMost};
ghost use Rattle.cmh_dump.specs.declared.TheConstants.{MAX_BYTES};
ghost use Rattle.cmh_report.specs.Ends.{GaveDump, IsRefused};

use cmh_dump::{DumpFault, read_all, read_dump};
use cmh_graph::WaitGraph;
use cmh_stream::Source;
use std::alloc::Global;

/// The graph that the bytes of the source mean.
pub(crate) fn read_graph<S: Source>(alloc: Global, source: &mut S) -> Result<WaitGraph, DumpFault>
    ensures ok { IfOk result (λ g.
        GaveDump (S.state source.old) (S.state source.new) (Ok g)) }
    ensures refused { IfErr result (IsRefused (S.state source.old) (S.state source.new)) }
    ensures at_most { GaveAtMost (MAX_BYTES + 1) (S.state source.old) (S.state source.new) }
{
    let bytes = read_all(alloc, source)?;
    read_dump(alloc, &bytes)
}
