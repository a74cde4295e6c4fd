//! A sink over any writer.

ghost use Rattle.std.specs.Prelude.{◌≡◌, [], false};

use crate::noted_writer::NotedWriter;
use crate::{Sink, Stopped};
use std::io::Write;

/// A sink over a writer. Its `finish` flushes the writer.
#[derive(Drop)]
pub struct WriteOf<W> {
    writer: NotedWriter<W>,
}

impl<W: Write> WriteOf<W> {
    /// A sink that hands all that it takes to the writer.
    pub fn new(writer: W) -> WriteOf<W>
        ensures taken { (⟦<WriteOf<W> as Sink>⟧.state result).taken ≡ [] }
        ensures contents { ⟦<WriteOf<W> as Sink>⟧.contents result ≡ W.contents writer }
        ensures unfinished { (⟦<WriteOf<W> as Sink>⟧.state result).is_finished ≡ false }
        ensures works { (⟦<WriteOf<W> as Sink>⟧.state result).has_failed ≡ false }
    {
        WriteOf {
            writer: NotedWriter::new(writer),
        }
    }
}

impl<W: Write> Sink for WriteOf<W> {
    ghost state = { λ s. record {
      taken = s.writer.tape.bytes;
      is_finished = s.writer.flushed;
      has_failed = s.writer.failed;
    } };

    ghost contents = { λ s. W.contents s.writer.writer };

    /// Each error of the writer is a failure, an interrupted call among them, and so is a call that takes nothing where
    /// there is something.
    fn put(&mut self, bytes: &[u8]) -> Result<usize, Stopped> {
        if self.writer.has_failed() {
            return Err(Stopped);
        }
        match self.writer.write(bytes) {
            Ok(count) if count > 0 || bytes.is_empty() => Ok(count),
            _ => Err(Stopped),
        }
    }

    fn finish(&mut self) -> Result<(), Stopped> {
        if self.writer.has_failed() || self.writer.flush().is_err() {
            return Err(Stopped);
        }
        Ok(())
    }

    fn failed(&self) -> bool {
        self.writer.has_failed()
    }
}
