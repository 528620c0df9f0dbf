//! Assertions as calls. An `assert_eq!` is its whole code at each place, with the message of a failure, and the prover
//! goes through that each time anew.

use std::alloc::{AllocError, Global};
use std::fmt::Debug;
use std::process::Abort;
use swd_image_files::{Image, ImageFileFault};

/// Pieces: the address and the bytes of each.
pub(super) type Pieces = &'static [(u32, &'static [u8])];

/// A file that was read.
pub(super) type Read = Result<Image<Global>, ImageFileFault>;

/// Ends the test where it found another value than it wanted.
pub(super) fn expect_eq<R: Abort, T: PartialEq + Debug>(rt: &R, found: &T, wanted: &T) {
    assert_eq!(rt; found, wanted);
}

/// The same at one of several places, which is told.
pub(super) fn expect_eq_at<R: Abort, P: Debug, T: PartialEq + Debug>(
    rt: &R,
    place: &P,
    found: &T,
    wanted: &T,
) {
    assert_eq!(rt; found, wanted, "at {place:?}");
}

/// Ends the test where this doesn't hold at one of several places, which is told.
pub(super) fn expect_at<R: Abort, P: Debug>(rt: &R, place: &P, holds: bool) {
    assert!(rt; holds, "at {place:?}");
}

/// Expects an image of these pieces.
pub(super) fn expect_pieces<R: Abort>(rt: &R, name: &str, read: &Read, wanted: Pieces) {
    match read {
        Ok(image) => {
            expect_eq_at(rt, &name, &image.ranges.len(), &wanted.len());
            for (piece, wanted) in image.pieces().zip(wanted) {
                expect_eq_at(rt, &name, &piece.addr, &wanted.0);
                expect_eq_at(rt, &name, &piece.bytes, &wanted.1);
            }
        }
        Err(_) => expect_at(rt, &name, false),
    }
}

/// Why a file isn't read.
pub(super) fn said(alloc: Global, read: &Read) -> Result<String, AllocError> {
    match read {
        Ok(_) => format!(in alloc; "read"),
        Err(fault) => format!(in alloc; "{fault}"),
    }
}
