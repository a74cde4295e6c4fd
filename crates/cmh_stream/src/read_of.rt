//! A source over any reader.

ghost use Rattle.std.specs.Prelude.{◌≡◌, [], Some, false, if◌then◌else◌};

use crate::noted_reader::NotedReader;
use crate::{Source, Stopped};
use std::io::Read;

/// A source over a reader. It reads no more once the reader has ended or failed.
#[derive(Drop)]
pub struct ReadOf<R> {
    reader: NotedReader<R>,
}

impl<R: Read> ReadOf<R> {
    /// A source that gives what the reader has.
    pub fn new(reader: R) -> ReadOf<R>
        ensures given { (⟦<ReadOf<R> as Source>⟧.state result).given ≡ [] }
        ensures remaining { ⟦<ReadOf<R> as Source>⟧.remaining result ≡ R.remaining reader }
        ensures going { (⟦<ReadOf<R> as Source>⟧.state result).has_ended ≡ false }
        ensures works { (⟦<ReadOf<R> as Source>⟧.state result).has_failed ≡ false }
    {
        ReadOf {
            reader: NotedReader::new(reader),
        }
    }
}

impl<R: Read> Source for ReadOf<R> {
    ghost state = { λ s. record {
      given = s.reader.tape.bytes;
      has_ended = s.reader.ended;
      has_failed = s.reader.failed;
    } };

    ghost remaining = { λ s. if s.reader.ended then Some [] else R.remaining s.reader.reader };

    /// Each error of the reader is a failure, an interrupted call among them.
    fn fill(&mut self, buf: &mut [u8]) -> Result<usize, Stopped> {
        if self.reader.has_failed() {
            return Err(Stopped);
        }
        if self.reader.has_ended() {
            return Ok(0);
        }
        match self.reader.read(buf) {
            Ok(count) => Ok(count),
            Err(_) => Err(Stopped),
        }
    }

    fn failed(&self) -> bool {
        self.reader.has_failed()
    }
}
