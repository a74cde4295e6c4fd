//! A list that is read while memory is short.

use super::expect;
use crate::{ListFault, read_list};
use std::alloc::Global;
use std::test::Fail;

/// The most memory that is left for a call, and how many bytes more each call has than the one before.
const ROOM: usize = 32_768;

const STEP: usize = 16;

/// Takes all the memory that there is, in blocks of falling sizes.
fn take_all(alloc: Global, blocks: &mut Vec<Vec<u8>>) {
    let mut size = 1usize << 46;
    for _ in 0..100_000 {
        if size < 16 {
            return;
        }
        match Vec::with_capacity(alloc, size) {
            Ok(block) => {
                if blocks.push(block).is_err() {
                    return;
                }
            }
            Err(_) => size /= 2,
        }
    }
}

/// How often the list was read, and how often memory was refused, in calls with more and more memory. None where a call
/// answered something else.
fn answers(alloc: Global) -> Option<(u32, u32)> {
    let (mut read, mut refused) = (0u32, 0u32);
    for k in 0..ROOM / STEP {
        let taken: Result<Vec<u8>, _> = Vec::with_capacity(alloc, ROOM - STEP * k);
        match read_list(alloc, "1,1,1") {
            Ok(list) if list.as_slice() == [1, 1, 1].as_slice() => read = read.saturating_add(1),
            Err(ListFault::Memory) => refused = refused.saturating_add(1),
            _ => return None,
        }
        drop(taken);
    }
    Some((read, refused))
}

#[test]
fn out_of_memory_for_a_list(rt: HostRuntime) -> Result<(), Fail> {
    let alloc = rt.alloc();
    let mut blocks = Vec::with_capacity(alloc, 100_000)?;
    let room: Vec<u8> = Vec::with_capacity(alloc, ROOM)?;
    let _pin: Vec<u8> = Vec::with_capacity(alloc, 64)?;
    take_all(alloc, &mut blocks);
    drop(room);
    let found = answers(alloc);
    drop(blocks);
    expect(
        &rt,
        found.is_some_and(|(read, refused)| read > 0 && refused > 0),
    );
    Ok(())
}
