//! Readers and writers that fail, a source that counts, and a gate that does.

use cmh_stream::{Source, Stopped};
use cmh_work::Gate;
use std::io;
use std::io::{ErrorKind, Read, Write};
use std::sync::atomic::{AtomicU64, Ordering};

/// Gives its bytes, and then fails.
#[derive(Drop)]
pub struct Cut<'a> {
    pub bytes: &'a [u8],
}

impl Read for Cut<'_> {
    fn read(&mut self, buf: &mut [u8]) -> io::Result<usize> {
        if self.bytes.is_empty() {
            return Err(io::Error::from(ErrorKind::Other));
        }
        self.bytes.read(buf)
    }
}

/// Takes as many bytes as it has room for, and may fail to hand them on.
#[derive(Drop)]
pub struct Page {
    pub bytes: Vec<u8>,
    pub room: usize,
    pub fails_flush: bool,
}

impl Write for Page {
    fn write(&mut self, buf: &[u8]) -> io::Result<usize> {
        let room = self.room.saturating_sub(self.bytes.len());
        let count = buf.len().min(room);
        self.bytes.extend_from_slice(&buf[..count])?;
        Ok(count)
    }

    fn flush(&mut self) -> io::Result<()> {
        if self.fails_flush {
            return Err(io::Error::from(ErrorKind::Other));
        }
        Ok(())
    }
}

/// A source that counts how often it was asked after it had ended or failed.
#[derive(Drop)]
pub struct Asked<S> {
    pub source: S,
    pub is_over: bool,
    pub again: u32,
}

impl<S: Source> Source for Asked<S> {
    ghost state = { λ s. S.state s.source };

    ghost remaining = { λ s. S.remaining s.source };

    fn fill(&mut self, buf: &mut [u8]) -> Result<usize, Stopped> {
        if self.is_over {
            self.again = self.again.saturating_add(1);
        }
        let answer = self.source.fill(buf);
        self.is_over = match answer {
            Ok(count) => count == 0 && !buf.is_empty(),
            Err(_) => true,
        };
        answer
    }

    fn failed(&self) -> bool {
        self.source.failed()
    }
}

/// A gate that counts how often it was passed.
#[derive(Drop)]
pub struct Passed {
    pub times: AtomicU64,
}

impl Gate for Passed {
    fn pass(&self, _initiator: u32) {
        self.times.fetch_add(1, Ordering::SeqCst);
    }
}
