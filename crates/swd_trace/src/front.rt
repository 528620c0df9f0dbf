//! How held bits begin: as a transaction, as a part of one, or as neither.

use swd_bits::Tx;

/// What is at the front of held bits.
#[derive(Clone, Copy, Debug)]
pub enum Front {
    /// A whole transaction, and its number of bits.
    Whole(Tx, u8),
    /// The beginning of a transaction. With fewer bits than this it remains a beginning.
    Begun(u8),
    /// No transaction begins with these bits.
    Broken,
}
