//! A reader that fails, and a writer that keeps what it takes.

use std::alloc::Global;
use std::io;
use std::io::{ErrorKind, Read, Write};

/// Fails at its first read.
#[derive(Drop)]
pub struct Broken {}

impl Read for Broken {
    fn read(&mut self, _buf: &mut [u8]) -> io::Result<usize> {
        Err(io::Error::from(ErrorKind::Other))
    }
}

/// Takes all bytes.
#[derive(Drop)]
pub struct Page {
    pub bytes: Vec<u8>,
}

impl Page {
    pub fn new(alloc: Global) -> Page {
        Page {
            bytes: Vec::new(alloc),
        }
    }
}

impl Write for Page {
    fn write(&mut self, buf: &[u8]) -> io::Result<usize> {
        self.bytes.extend_from_slice(buf)?;
        Ok(buf.len())
    }

    fn flush(&mut self) -> io::Result<()> {
        Ok(())
    }
}
