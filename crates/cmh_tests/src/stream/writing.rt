//! What goes into sinks, and how often their writers are called.

use super::memory::Page;
use super::{expect, expect_eq};
use cmh_stream::{Pieces, Sink, Stopped, WriteFault, WriteOf, put_all, put_pieces};
use std::alloc::AllocError;
use std::io;
use std::io::{ErrorKind, Write};

const TEXT: &[u8] = b"eleven byte";

/// The size of a text that one call writes.
const TWO_MEGABYTES: usize = 2_097_152;

/// A writer that counts its calls, and takes up to `most` bytes at a time and `room` bytes in all. Then it fails or
/// takes nothing. It may fail to flush.
#[derive(Drop)]
struct Narrow {
    bytes: Vec<u8>,
    most: usize,
    room: usize,
    fails_full: bool,
    fails_flush: bool,
    writes: usize,
    flushes: usize,
}

impl Write for Narrow {
    fn write(&mut self, buf: &[u8]) -> io::Result<usize> {
        self.writes = self.writes.saturating_add(1);
        let room = self.room.saturating_sub(self.bytes.len());
        if room == 0 && self.fails_full {
            return Err(io::Error::from(ErrorKind::Interrupted));
        }
        let count = buf.len().min(room).min(self.most);
        self.bytes.extend_from_slice(&buf[..count])?;
        Ok(count)
    }

    fn flush(&mut self) -> io::Result<()> {
        self.flushes = self.flushes.saturating_add(1);
        if self.fails_flush {
            return Err(io::Error::from(ErrorKind::Other));
        }
        Ok(())
    }
}

fn narrow_writer(rt: HostRuntime, most: usize, room: usize) -> Narrow {
    Narrow {
        bytes: Vec::new(rt.alloc()),
        most,
        room,
        fails_full: false,
        fails_flush: false,
        writes: 0,
        flushes: 0,
    }
}

#[test]
fn a_narrow_writer_gets_it_all(rt: HostRuntime) {
    let mut writer = narrow_writer(rt, 3, 100);
    let mut sink = WriteOf::new(&mut writer);
    expect_eq(&rt, put_all(&mut sink, TEXT), Ok(()));
    expect(&rt, !sink.failed());
    expect_eq(&rt, writer.bytes.as_slice(), TEXT);
    expect_eq(&rt, (writer.writes, writer.flushes), (4, 1));
}

#[test]
fn no_write_after_a_writer_is_full(rt: HostRuntime) {
    for fails_full in [false, true] {
        let mut writer = Narrow {
            fails_full,
            ..narrow_writer(rt, 100, 7)
        };
        let mut sink = WriteOf::new(&mut writer);
        let cut = WriteFault { written: 7 };
        expect_eq(&rt, put_all(&mut sink, TEXT), Err(cut));
        expect(&rt, sink.failed());
        expect_eq(&rt, sink.put(b"x"), Err(Stopped));
        expect_eq(&rt, sink.finish(), Err(Stopped));
        expect_eq(&rt, writer.bytes.as_slice(), b"eleven ".as_slice());
        expect_eq(&rt, (writer.writes, writer.flushes), (2, 0));
    }
}

#[test]
fn no_write_after_a_flush_has_failed(rt: HostRuntime) {
    let mut writer = Narrow {
        fails_flush: true,
        ..narrow_writer(rt, 100, 100)
    };
    let mut sink = WriteOf::new(&mut writer);
    let whole = WriteFault { written: 11 };
    expect_eq(&rt, put_all(&mut sink, TEXT), Err(whole));
    expect(&rt, sink.failed());
    expect_eq(&rt, sink.put(b"x"), Err(Stopped));
    expect_eq(&rt, sink.finish(), Err(Stopped));
    expect_eq(&rt, (writer.writes, writer.flushes), (1, 1));
}

#[test]
fn one_write_for_a_long_text(rt: HostRuntime) -> Result<(), AllocError> {
    let bytes = vec![in rt.alloc(); b'x'; TWO_MEGABYTES]?;
    let mut writer = narrow_writer(rt, TWO_MEGABYTES, TWO_MEGABYTES);
    let mut sink = WriteOf::new(&mut writer);
    expect_eq(&rt, put_all(&mut sink, &bytes), Ok(()));
    expect_eq(&rt, writer.bytes.len(), TWO_MEGABYTES);
    expect_eq(&rt, (writer.writes, writer.flushes), (1, 1));
    Ok(())
}

/// `TEXT` in pieces, of which one is empty.
fn text_in_pieces(rt: HostRuntime) -> Result<Pieces, AllocError> {
    let mut pieces = Pieces::new(rt.alloc());
    for piece in ["ele", "", "ven b", "yte"] {
        pieces.push(String::from_str(rt.alloc(), piece)?)?;
    }
    Ok(pieces)
}

#[test]
fn pieces_are_one_text(rt: HostRuntime) -> Result<(), AllocError> {
    let mut pieces = Pieces::new(rt.alloc());
    pieces.push(String::from_str(rt.alloc(), "one ")?)?;
    pieces.append(text_in_pieces(rt)?)?;
    expect_eq(&rt, pieces.len(), 15);
    let text = pieces.into_string(rt.alloc())?;
    expect_eq(&rt, text.as_str(), "one eleven byte");
    Ok(())
}

#[test]
fn one_write_for_each_piece(rt: HostRuntime) -> Result<(), AllocError> {
    let mut writer = narrow_writer(rt, 100, 100);
    let mut sink = WriteOf::new(&mut writer);
    expect_eq(&rt, put_pieces(&mut sink, &text_in_pieces(rt)?), Ok(()));
    expect_eq(&rt, writer.bytes.as_slice(), TEXT);
    expect_eq(&rt, (writer.writes, writer.flushes), (3, 1));
    Ok(())
}

#[test]
fn a_writer_that_is_full_amid_the_pieces(rt: HostRuntime) -> Result<(), AllocError> {
    let mut writer = narrow_writer(rt, 3, 7);
    let mut sink = WriteOf::new(&mut writer);
    let cut = WriteFault { written: 7 };
    expect_eq(&rt, put_pieces(&mut sink, &text_in_pieces(rt)?), Err(cut));
    expect_eq(&rt, writer.bytes.as_slice(), b"eleven ".as_slice());
    Ok(())
}

#[test]
fn a_sink_of_ones_own(rt: HostRuntime) {
    let mut page = Page::new(Vec::new(rt.alloc()), 8);
    expect_eq(&rt, put_all(&mut page, b"seven b"), Ok(()));
    let cut = WriteFault { written: 1 };
    expect_eq(&rt, put_all(&mut page, TEXT), Err(cut));
    expect(&rt, page.failed());
    expect_eq(&rt, page.bytes(), b"seven be".as_slice());
}
