//! Counts the bits of items.
ghost use Rattle.std.specs.Prelude.{◌≡◌, length, true};
ghost use Rattle.swd_bits.specs.Transactions.{tx_spelling_bits};
ghost use Rattle.swd_trace.specs.Texts.{item_bits};

use crate::item::Item;
use swd_bits::{MOVED_BITS, REFUSED_BITS, SWITCH_BITS, Tx, TxEnd, UNACKNOWLEDGED_BITS};

// Returns how many bits a transaction has.
fn tx_bit_count(tx: &Tx) -> u8
    ensures { result ≡ length (tx_spelling_bits tx.now true true) }
{
    match tx.result {
        TxEnd::Moved { .. } => MOVED_BITS,
        TxEnd::Wait | TxEnd::Fault => REFUSED_BITS,
        TxEnd::NoAck(_) => UNACKNOWLEDGED_BITS,
    }
}

impl Item {
    /// Returns how many bits the item has.
    pub fn bit_count(&self) -> u64
        ensures { result ≡ length (item_bits self.now) }
    {
        match self {
            Item::Reset(count) | Item::Idle(count) => *count,
            Item::Switch => u64::from(SWITCH_BITS),
            Item::Junk(_) => 1,
            Item::Cut(bits) => u64::from(bits.len),
            Item::Tx(tx) => u64::from(tx_bit_count(tx)),
        }
    }
}
