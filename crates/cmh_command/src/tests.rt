//! Command lines and lists, as a client writes them.

mod args;
mod lists;
mod memory;

use std::fmt::Debug;
use std::process::Abort;

/// Fails the test where what was found is not what was wanted. As a call it is one step of a test's proof; written out,
/// a comparison is several, and proofs of tests grow faster than their steps.
fn expect_eq<R: Abort, T: PartialEq + Debug + Drop>(rt: &R, found: T, wanted: T) {
    assert_eq!(*rt; found, wanted);
}

/// Fails the test where it doesn't hold.
fn expect<R: Abort>(rt: &R, holds: bool) {
    assert!(*rt; holds);
}
