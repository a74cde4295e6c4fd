//! Memory that is short.

use std::alloc::Global;
use std::test::Fail;

/// How many blocks may be taken. Room for them is taken at first.
const BLOCKS: usize = 100_000;

/// Takes all the memory that there is, in blocks of falling sizes: of the small ones each size, since the heap keeps
/// small blocks that were given back by their size.
pub(crate) fn take_all(alloc: Global, blocks: &mut Vec<Vec<u8>>) {
    let mut size = 1usize << 46;
    for _ in 0..BLOCKS {
        if size < 16 {
            return;
        }
        match Vec::with_capacity(alloc, size) {
            Ok(block) => {
                if blocks.push(block).is_err() {
                    return;
                }
            }
            Err(_) if size > 1_024 => size /= 2,
            Err(_) => size -= 16,
        }
    }
}

/// All the memory that there is, but for this room. It is short until what is answered is dropped.
pub(crate) fn take_all_but(alloc: Global, room: usize) -> Result<Vec<Vec<u8>>, Fail> {
    let mut blocks = Vec::with_capacity(alloc, BLOCKS)?;
    let room: Vec<u8> = Vec::with_capacity(alloc, room)?;
    let _pin: Vec<u8> = Vec::with_capacity(alloc, 64)?;
    take_all(alloc, &mut blocks);
    drop(room);
    Ok(blocks)
}
