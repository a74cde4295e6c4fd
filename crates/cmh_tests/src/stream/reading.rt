//! What comes out of sources, and how often their readers are called.

use super::memory::Bytes;
use super::{expect, expect_eq};
use cmh_stream::{ReadOf, Source, Stopped};
use std::alloc::AllocError;
use std::io;
use std::io::{ErrorKind, Read};

/// The size of a buffer that one call fills.
const SIXTY_FOUR_KILOBYTES: usize = 65_536;

/// A reader that counts its calls. The second is interrupted or finds nothing, and all others fill the buffer.
#[derive(Drop)]
struct Counted {
    reads: usize,
    is_interrupted: bool,
}

impl Read for Counted {
    fn read(&mut self, buf: &mut [u8]) -> io::Result<usize> {
        self.reads = self.reads.saturating_add(1);
        if self.reads != 2 {
            return Ok(buf.len());
        }
        if self.is_interrupted {
            return Err(io::Error::from(ErrorKind::Interrupted));
        }
        Ok(0)
    }
}

#[test]
fn no_read_after_the_end_or_a_failure(rt: HostRuntime) -> Result<(), AllocError> {
    let mut buf = vec![in rt.alloc(); 0u8; SIXTY_FOUR_KILOBYTES]?;
    for is_interrupted in [false, true] {
        let mut reader = Counted {
            reads: 0,
            is_interrupted,
        };
        let mut source = ReadOf::new(&mut reader);
        let answer = if is_interrupted { Err(Stopped) } else { Ok(0) };
        expect_eq(&rt, source.fill(&mut buf), Ok(SIXTY_FOUR_KILOBYTES));
        for _ in 0..3 {
            expect_eq(&rt, source.fill(&mut buf), answer);
            expect_eq(&rt, source.failed(), is_interrupted);
        }
        expect_eq(&rt, reader.reads, 2);
    }
    Ok(())
}

#[test]
fn reads_in_pieces(rt: HostRuntime) {
    let mut source = ReadOf::new(b"seven b".as_slice());
    let mut buf = [0u8; 4];
    expect_eq(&rt, source.fill(&mut []), Ok(0));
    expect_eq(&rt, source.fill(&mut buf), Ok(4));
    expect_eq(&rt, buf, *b"seve");
    expect_eq(&rt, source.fill(&mut buf), Ok(3));
    expect_eq(&rt, &buf[..3], b"n b".as_slice());
    expect_eq(&rt, source.fill(&mut buf), Ok(0));
    expect(&rt, !source.failed());
}

#[test]
fn a_source_of_ones_own(rt: HostRuntime) {
    let mut source = Bytes::new(b"seven b", 6);
    let mut buf = [0u8; 5];
    expect_eq(&rt, source.fill(&mut buf), Ok(5));
    expect_eq(&rt, buf, *b"seven");
    expect_eq(&rt, source.fill(&mut buf), Err(Stopped));
    expect(&rt, source.failed());
}
