//! The word of one transaction, from its bits.
ghost use Rattle.std.specs.Prelude.{◌<◌, ◌^◌, IfSome, true};
ghost use Rattle.swd_bits.specs.declared.request.Request.{Request};
ghost use Rattle.swd_bits.specs.Bits.{low_bits};
ghost use Rattle.swd_bits.specs.Transactions.{SpellsTx};

use swd_bits::{MOVED_BITS, Tx, TxBits, TxEnd};

/// Returns the word that a transaction moved, from its 46 bits, the first in time least significant. Returns `None` if
/// they aren't a transaction with the acknowledgement OK and right parity.
pub fn word_moved(bits: u64) -> Option<u32>
    requires { bits < 2 ^ 46 }
    ensures { IfSome result (λ word. (request : Request)
        × SpellsTx (record { request = request; result = TxEnd.Moved word true }) (low_bits 46 bits)) }
{
    let bits = TxBits {
        len: MOVED_BITS,
        bits,
    };
    match Tx::of(bits)?.result {
        TxEnd::Moved { word, parity_ok } if parity_ok => Some(word),
        _ => None,
    }
}
