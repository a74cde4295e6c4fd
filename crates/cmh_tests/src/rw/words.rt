//! The lock on the words, by one thread with two seats.

use super::expect;
use crate::graphs::{TWO_IN_A_CYCLE, graph_of};
use cmh_rw::{Entry, RwWords};
use std::test::Fail;

/// A writer keeps a reader out, and a reader keeps a writer out.
#[test]
fn lock_words_by_two_seats(rt: HostRuntime) -> Result<(), Fail> {
    let graph = graph_of(rt.alloc(), &TWO_IN_A_CYCLE, &[])?;
    let (words, mut x) = RwWords::open(rt.alloc(), &graph)?;
    let Some(mut y) = words.split(&mut x) else {
        panic!(rt; "a seat with the whole share is split")
    };
    let Entry::Held = words.try_write(&mut x) else {
        panic!(rt; "the lock is free")
    };
    let Entry::Busy(found) = words.try_read(&mut y) else {
        panic!(rt; "a writer holds the lock")
    };
    expect(&rt, found == 4_294_967_296);
    words.end_write(&mut x);
    let Entry::Held = words.try_read(&mut y) else {
        panic!(rt; "no writer holds the lock")
    };
    let Entry::Busy(found) = words.try_write(&mut x) else {
        panic!(rt; "a reader holds the lock")
    };
    expect(&rt, found == 1);
    words.end_read(&mut y);
    Ok(())
}
