//! Dumps and sources that are read while memory is short.

ghost use Rattle.std.specs.Prelude.{◌<◌};

use super::TWO_IN_A_CYCLE;
use crate::shortage::take_all_but;
use cmh_dump::{DumpFault, ReadOf, read_all, read_dump};
use std::alloc::Global;
use std::io;
use std::io::Read;
use std::test::Fail;

/// The most bytes that are left for a call.
const ROOM: usize = 65_536;

/// A reader that gives at most 2,048 bytes a call, so that what is read grows often.
#[derive(Drop)]
struct Narrow<'a> {
    bytes: &'a [u8],
}

impl Read for Narrow<'_> {
    fn read(&mut self, buf: &mut [u8]) -> io::Result<usize> {
        let count = buf.len().min(2_048);
        self.bytes.read(&mut buf[..count])
    }
}

/// What is done while memory is short.
#[derive(Clone, Copy, Debug)]
enum Call {
    ReadDump,
    ReadAll,
}

/// How many bytes more a call has than the one before. `read_all` asks for whole blocks of 2,048 bytes. After a smaller
/// step the heap would keep what is left over, under a kilobyte, apart.
fn step(call: Call) -> usize
    ensures { 0 < result }
{
    match call {
        Call::ReadDump => 16,
        Call::ReadAll => 2_048,
    }
}

/// Whether the call gives the same answer as with enough memory.
fn answer(alloc: Global, call: Call) -> Result<bool, DumpFault> {
    match call {
        Call::ReadDump => {
            let graph = read_dump(alloc, TWO_IN_A_CYCLE.as_bytes())?;
            Ok(graph.len() == 2 && graph.dependents(0) == [1].as_slice())
        }
        Call::ReadAll => {
            let text = [b'x'; 20_000];
            let bytes = read_all(alloc, &mut ReadOf::new(Narrow { bytes: &text }))?;
            Ok(bytes.as_slice() == text.as_slice())
        }
    }
}

/// What the answers were.
#[derive(Clone, Copy, Debug, PartialEq, Eq)]
struct Answers {
    right: bool,
    wrong: bool,
    refused: bool,
}

/// Some answers were out of memory, and all others were right.
const AS_THEY_SHOULD_BE: Answers = Answers {
    right: true,
    wrong: false,
    refused: true,
};

/// Makes the call with ample memory, so that the stack has grown as far as it needs, and then with more and more of it.
fn sweep(alloc: Global, call: Call) -> Result<Answers, Fail> {
    let ample = answer(alloc, call);
    let shortage = take_all_but(alloc, ROOM)?;
    let mut answers = Answers {
        right: false,
        wrong: !matches!(ample, Ok(true)),
        refused: false,
    };
    for left in (0..ROOM).step_by(step(call)) {
        let taken: Result<Vec<u8>, _> = Vec::with_capacity(alloc, ROOM - left);
        match answer(alloc, call) {
            Ok(true) => answers.right = true,
            Err(DumpFault::Memory) => answers.refused = true,
            _ => answers.wrong = true,
        }
        drop(taken);
    }
    drop(shortage);
    Ok(answers)
}

#[test]
fn out_of_memory(rt: HostRuntime) -> Result<(), Fail> {
    for call in [Call::ReadDump, Call::ReadAll] {
        let answers = sweep(rt.alloc(), call)?;
        assert!(rt; answers == AS_THEY_SHOULD_BE, "{call:?}: {answers:?}");
    }
    Ok(())
}
