//! A writer whose answers are noted.

ghost use Rattle.std.specs.Prelude.{◌≡◌, ◌<◌, ◌≤◌, [], ◌++◌, length, take, true, false, IfOk, OnOk, OnErr};
ghost use Rattle.std.specs.Io.KnownBytes.{Keeps, WriteAppends};

use crate::tape::Tape;
use std::io;
use std::io::Write;

/// A writer, and what it has answered.
#[derive(Drop)]
pub(crate) struct NotedWriter<W> {
    writer: W,
    flushed: bool,
    failed: bool,
    tape: Tape,
}

impl<W: Write> NotedWriter<W> {
    /// Makes no call of the writer.
    pub(crate) fn new(writer: W) -> NotedWriter<W>
        ensures fresh { result.writer ≡ writer }
        ensures nothing { result.tape.bytes ≡ [] }
        ensures unflushed { result.flushed ≡ false }
        ensures works { result.failed ≡ false }
    {
        NotedWriter {
            writer,
            flushed: false,
            failed: false,
            tape: Tape::new(),
        }
    }

    /// One call of the writer. An error stays noted, and so does a call that takes nothing where there is something.
    pub(crate) fn write(&mut self, bytes: &[u8]) -> io::Result<usize>
        ensures within { IfOk result (λ n. n ≤ length bytes.now) }
        ensures known { WriteAppends
            (W.contents self.old.writer) (W.contents self.new.writer) result bytes.now }
        ensures took { IfOk result (λ n.
            self.new.tape.bytes ≡ self.old.tape.bytes ++ take n bytes.now) }
        ensures took_nothing { OnErr result (self.new.tape.bytes ≡ self.old.tape.bytes) }
        ensures worked { IfOk result (λ n. (n ≡ 0 → length bytes.now ≡ 0)
            → self.new.failed ≡ self.old.failed) }
        ensures full { IfOk result (λ n. n ≡ 0 → 0 < length bytes.now → self.new.failed ≡ true) }
        ensures failed { OnErr result (self.new.failed ≡ true) }
        ensures opened { IfOk result (λ n. 0 < n → self.new.flushed ≡ false) }
        ensures asked_nothing { IfOk result (λ n. n ≡ 0 → self.new.flushed ≡ self.old.flushed) }
        ensures kept_flush { OnErr result (self.new.flushed ≡ self.old.flushed) }
    {
        let answer = self.writer.write(bytes);
        match &answer {
            Ok(count) => {
                self.failed = self.failed || (*count == 0 && !bytes.is_empty());
                self.flushed = self.flushed && *count == 0;
                self.tape = self.tape.append(&bytes[..*count]);
            }
            Err(_) => self.failed = true,
        }
        answer
    }

    /// One call of the writer. An error stays noted.
    pub(crate) fn flush(&mut self) -> io::Result<()>
        ensures known { Keeps (W.contents self.old.writer) (W.contents self.new.writer) }
        ensures took_nothing { self.new.tape.bytes ≡ self.old.tape.bytes }
        ensures worked { OnOk result (self.new.failed ≡ self.old.failed) }
        ensures failed { OnErr result (self.new.failed ≡ true) }
        ensures flushed { OnOk result (self.new.flushed ≡ true) }
        ensures kept_flush { OnErr result (self.new.flushed ≡ self.old.flushed) }
    {
        let answer = self.writer.flush();
        match &answer {
            Ok(()) => self.flushed = true,
            Err(_) => self.failed = true,
        }
        answer
    }

    /// Whether a call was answered by an error, or took nothing where there was something.
    pub(crate) fn has_failed(&self) -> bool
        ensures { result ≡ self.now.failed }
    {
        self.failed
    }
}
