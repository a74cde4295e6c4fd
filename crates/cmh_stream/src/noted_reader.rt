//! A reader whose answers are noted.

ghost use Rattle.std.specs.Prelude.{◌≡◌, ◌<◌, ◌≤◌, [], ◌++◌, length, take, true, false, IfOk, OnOk, OnErr};
ghost use Rattle.std.specs.Io.KnownBytes.{ReadConsumes};

use crate::tape::Tape;
use std::io;
use std::io::Read;

/// A reader, and what it has answered.
#[derive(Drop)]
pub(crate) struct NotedReader<R> {
    reader: R,
    ended: bool,
    failed: bool,
    tape: Tape,
}

impl<R: Read> NotedReader<R> {
    /// Makes no call of the reader.
    pub(crate) fn new(reader: R) -> NotedReader<R>
        ensures fresh { result.reader ≡ reader }
        ensures nothing { result.tape.bytes ≡ [] }
        ensures going { result.ended ≡ false }
        ensures works { result.failed ≡ false }
    {
        NotedReader {
            reader,
            ended: false,
            failed: false,
            tape: Tape::new(),
        }
    }

    /// One call of the reader. An error stays noted, and so does an end.
    pub(crate) fn read(&mut self, buf: &mut [u8]) -> io::Result<usize>
        ensures within { IfOk result (λ n. n ≤ length buf.new) }
        ensures known { ReadConsumes
            (R.remaining self.old.reader) (R.remaining self.new.reader) result buf.new }
        ensures gave { IfOk result (λ n.
            self.new.tape.bytes ≡ self.old.tape.bytes ++ take n buf.new) }
        ensures gave_nothing { OnErr result (self.new.tape.bytes ≡ self.old.tape.bytes) }
        ensures worked { OnOk result (self.new.failed ≡ self.old.failed) }
        ensures failed { OnErr result (self.new.failed ≡ true) }
        ensures ended { IfOk result (λ n. 0 < length buf.new → n ≡ 0 → self.new.ended ≡ true) }
        ensures goes_on { IfOk result (λ n. 0 < n → self.new.ended ≡ self.old.ended) }
        ensures asked_nothing { length buf.new ≡ 0 → self.new.ended ≡ self.old.ended }
        ensures kept_end { OnErr result (self.new.ended ≡ self.old.ended) }
    {
        let answer = self.reader.read(buf);
        match &answer {
            Ok(count) => {
                self.ended = self.ended || (*count == 0 && !buf.is_empty());
                self.tape = self.tape.append(&buf[..*count]);
            }
            Err(_) => self.failed = true,
        }
        answer
    }

    /// Whether a call has given nothing for a buffer with room.
    pub(crate) fn has_ended(&self) -> bool
        ensures { result ≡ self.now.ended }
    {
        self.ended
    }

    /// Whether a call was answered by an error.
    pub(crate) fn has_failed(&self) -> bool
        ensures { result ≡ self.now.failed }
    {
        self.failed
    }
}
