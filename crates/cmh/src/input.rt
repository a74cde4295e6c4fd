//! Standard input, which may be a terminal.

use std::io;
use std::io::{IsTerminal, Read, Write};

const FROM_TERMINAL: &str =
    "cmh: reading the dump from the terminal, up to Ctrl-D; to read a file, add < dump.json\n";

/// Standard input, and where a line is written before the first read of a terminal. Without it a user who forgot the
/// dump would wait without a word.
#[derive(Drop)]
pub(crate) struct Input<I, E> {
    input: I,
    err: E,
    is_read: bool,
}

impl<I, E> Input<I, E> {
    /// An input of which nothing was read, and where the line is written if it is a terminal.
    pub(crate) fn new(input: I, err: E) -> Input<I, E> {
        Input {
            input,
            err,
            is_read: false,
        }
    }
}

impl<I: Read + IsTerminal, E: Write> Read for Input<I, E> {
    fn read(&mut self, buf: &mut [u8]) -> io::Result<usize> {
        if !self.is_read && self.input.is_terminal() {
            // Where standard error fails, nothing more can be said, and the dump is read all the same.
            let _ = self.err.write_all(FROM_TERMINAL.as_bytes());
        }
        self.is_read = true;
        self.input.read(buf)
    }
}
