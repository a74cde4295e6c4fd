//! Each public item as a client writes it.

use super::expect_eq;
use cmh_stream::{Pieces, ReadOf, Sink, Source, Stopped, WriteFault, WriteOf, put_all, put_pieces};

/// Hands the bytes of a source to a sink, in pieces.
fn copy<S: Source, K: Sink>(source: &mut S, sink: &mut K) -> Result<(), Stopped> {
    let mut buf = [0u8; 4];
    for _ in 0..100 {
        let count: usize = source.fill(&mut buf)?;
        if count == 0 {
            return sink.finish();
        }
        let _: usize = sink.put(&buf[..count])?;
    }
    Err(Stopped)
}

#[test]
fn every_item(rt: HostRuntime) {
    let mut bytes = Vec::new(rt.alloc());
    let mut source = ReadOf::new(b"seven b".as_slice());
    let mut sink = WriteOf::new(&mut bytes);
    expect_eq(&rt, copy(&mut source, &mut sink), Ok(()));
    expect_eq(&rt, source.failed(), false);
    expect_eq(&rt, sink.failed(), false);
    let answer: Result<(), WriteFault> = put_all(&mut sink, b".");
    expect_eq(&rt, answer, Ok(()));
    let pieces: Pieces = Pieces::new(rt.alloc());
    let answer: Result<(), WriteFault> = put_pieces(&mut sink, &pieces);
    expect_eq(&rt, answer, Ok(()));
    expect_eq(&rt, bytes.as_slice(), b"seven b.".as_slice());
}
