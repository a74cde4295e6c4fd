//! A source and a sink of the user's own: bytes in memory that fail at some place.

ghost use Rattle.std.specs.Prelude.{◌≡◌, ◌≤◌, length, take, true};

use cmh_stream::{Sink, Source, Stopped};

/// Gives its bytes, and fails where it is to give the one at `fails_at`.
#[derive(Drop)]
pub struct Bytes<'a> {
    bytes: &'a [u8],
    at: usize,
    fails_at: usize,
    ended: bool,
    failed: bool,
    ghost within: { at ≤ length bytes.now },
    ghost at_end: { ended ≡ true → at ≡ length bytes.now },
}

impl<'a> Bytes<'a> {
    pub fn new(bytes: &'a [u8], fails_at: usize) -> Bytes<'a> {
        Bytes {
            bytes,
            at: 0,
            fails_at,
            ended: false,
            failed: false,
        }
    }
}

impl Source for Bytes<'_> {
    ghost state = { λ s. record {
      given = take s.at s.bytes.now;
      has_ended = s.ended;
      has_failed = s.failed;
    } };

    fn fill(&mut self, buf: &mut [u8]) -> Result<usize, Stopped> {
        let left = &self.bytes[self.at..];
        let count = buf.len().min(left.len());
        self.failed = self.failed || (self.at <= self.fails_at && self.fails_at < self.at + count);
        if self.failed {
            return Err(Stopped);
        }
        buf[..count].copy_from_slice(&left[..count]);
        self.at += count;
        self.ended = self.ended || (count == 0 && !buf.is_empty());
        Ok(count)
    }

    fn failed(&self) -> bool {
        self.failed
    }
}

/// Takes bytes up to its room, and fails where it is to take more.
#[derive(Drop)]
pub struct Page {
    bytes: Vec<u8>,
    room: usize,
    finished: bool,
    failed: bool,
}

impl Page {
    pub fn new(bytes: Vec<u8>, room: usize) -> Page {
        Page {
            bytes,
            room,
            finished: false,
            failed: false,
        }
    }

    pub fn bytes(&self) -> &[u8] {
        &self.bytes
    }
}

impl Sink for Page {
    ghost state = { λ s. record {
      taken = s.bytes.items;
      is_finished = s.finished;
      has_failed = s.failed;
    } };

    fn put(&mut self, bytes: &[u8]) -> Result<usize, Stopped> {
        let room = self.room.saturating_sub(self.bytes.len());
        let count = bytes.len().min(room);
        self.failed = self.failed
            || (count == 0 && !bytes.is_empty())
            || self.bytes.extend_from_slice(&bytes[..count]).is_err();
        if self.failed {
            return Err(Stopped);
        }
        self.finished = self.finished && count == 0;
        Ok(count)
    }

    fn finish(&mut self) -> Result<(), Stopped> {
        if self.failed {
            return Err(Stopped);
        }
        self.finished = true;
        Ok(())
    }

    fn failed(&self) -> bool {
        self.failed
    }
}
