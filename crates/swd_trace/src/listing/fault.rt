//! What can be wrong with a listing.

use thiserror::Error;

/// The reason why a listing was rejected. Lines count from 1.
#[derive(Clone, Copy, Debug, PartialEq, Eq, Error)]
pub enum ListFault {
    /// The first line that isn't the line of an item, or at which the bits of the list exceed 2^64 - 1.
    #[error("list line {line}: bad line")]
    BadLine { line: u64 },
    /// The line of the first item at which the list differs from the reading of its bits.
    #[error("list line {line}: not normal")]
    NotNormal { line: u64 },
    /// Out of memory for the items.
    #[error("no memory")]
    Memory,
    /// The reader failed, or didn't end within 2^64 - 1 reads.
    #[error("read failed")]
    Read,
}
