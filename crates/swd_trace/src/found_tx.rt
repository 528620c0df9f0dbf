//! A whole transaction found in bits before they are held.

use swd_bits::TxBits;

/// A whole transaction at the front of new bits, after any idle cycles.
#[derive(Clone, Copy, Debug, PartialEq, Eq)]
pub struct FoundTx {
    /// The number of idle cycles before it, including those that were held.
    pub idle: u64,
    /// The number of new bits taken, including those of idle cycles.
    pub taken: u8,
    /// The bits of the transaction.
    pub tx: TxBits,
}
