//! Assertions as calls. An `assert_eq!` expands to its code and the failure's message at each use, and the prover
//! checks each of them.

use std::fmt::Debug;
use std::process::Abort;

/// Fails the test if the values differ.
pub(super) fn expect_eq<R: Abort, T: PartialEq + Debug>(rt: &R, found: &T, wanted: &T) {
    assert_eq!(rt; found, wanted);
}

/// Fails the test if the values differ, and reports the place.
pub(super) fn expect_eq_at<R: Abort, P: Debug, T: PartialEq + Debug>(
    rt: &R,
    place: &P,
    found: &T,
    wanted: &T,
) {
    assert_eq!(rt; found, wanted, "at {place:?}");
}

/// Fails the test if the condition is false, and reports the place.
pub(super) fn expect_at<R: Abort, P: Debug>(rt: &R, place: &P, holds: bool) {
    assert!(rt; holds, "at {place:?}");
}
