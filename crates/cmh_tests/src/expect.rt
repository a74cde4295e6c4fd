//! What each test asks. As a call a comparison is one step of a test's proof; written out it is several, and proofs of
//! tests grow faster than their steps.

use std::fmt::Debug;
use std::process::Abort;

/// Fails the test where what was found is not what was wanted.
pub(crate) fn expect_eq<R: Abort, T: PartialEq + Debug + Drop>(rt: &R, found: T, wanted: T) {
    assert_eq!(*rt; found, wanted);
}

/// The same for lists.
pub(crate) fn expect_list<R: Abort, T: PartialEq + Debug>(rt: &R, found: &[T], wanted: &[T]) {
    assert_eq!(*rt; found, wanted);
}

/// Fails the test where it doesn't hold.
pub(crate) fn expect<R: Abort>(rt: &R, holds: bool) {
    assert!(*rt; holds);
}
