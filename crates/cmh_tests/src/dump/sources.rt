//! Reading of sources to their ends.

use super::{TWO_IN_A_CYCLE, expect};
use cmh_dump::{MAX_BYTES, ReadOf, Source, read_all};
use std::alloc::{AllocError, Global};
use std::io;
use std::io::{ErrorKind, Read};
use std::test::Fail;

/// A reader that fails after its bytes.
#[derive(Drop)]
struct Broken<'a> {
    bytes: &'a [u8],
}

impl Read for Broken<'_> {
    fn read(&mut self, buf: &mut [u8]) -> io::Result<usize> {
        if self.bytes.is_empty() {
            return Err(io::Error::from(ErrorKind::BrokenPipe));
        }
        self.bytes.read(buf)
    }
}

/// How many bytes the reader gives, or the text of the fault.
fn read_outcome<R: Read + Drop>(alloc: Global, reader: R) -> Result<String, AllocError> {
    match read_all(alloc, &mut ReadOf::new(reader)) {
        Ok(bytes) => bytes.len().to_string(alloc),
        Err(fault) => fault.to_string(alloc),
    }
}

/// Whether this is the outcome of reading.
fn is_read<R: Read + Drop>(alloc: Global, reader: R, wanted: &str) -> Result<bool, AllocError> {
    Ok(read_outcome(alloc, reader)?.as_str() == wanted)
}

#[test]
fn failing_sources(rt: HostRuntime) -> Result<(), Fail> {
    let alloc = rt.alloc();
    let dump = TWO_IN_A_CYCLE.as_bytes();
    let broken = Broken { bytes: &dump[..20] };
    expect(&rt, is_read(alloc, broken, "read fault")?);
    expect(&rt, is_read(alloc, Broken { bytes: dump }, "read fault")?);
    expect(&rt, is_read(alloc, dump, "157")?);
    Ok(())
}

#[test]
fn whole_sources(rt: HostRuntime) -> Result<(), Fail> {
    let mut source = ReadOf::new(TWO_IN_A_CYCLE.as_bytes());
    let bytes = read_all(rt.alloc(), &mut source)?;
    let is_whole = bytes.as_slice() == TWO_IN_A_CYCLE.as_bytes();
    drop(bytes);
    expect(&rt, is_whole);
    expect(&rt, source.fill(&mut [0u8; 4]) == Ok(0));
    expect(&rt, !source.failed());
    Ok(())
}

#[test]
fn long_sources(rt: HostRuntime) -> Result<(), Fail> {
    let alloc = rt.alloc();
    let mut bytes = vec![in alloc; b' '; MAX_BYTES]?;
    expect(&rt, is_read(alloc, bytes.as_slice(), "8388608")?);
    bytes.push(b' ')?;
    expect(&rt, is_read(alloc, bytes.as_slice(), "too long")?);
    Ok(())
}
