//! Up to 63 bits in time order, in one number.
ghost use Rattle.std.specs.Prelude.{◌≡◌, ◌+◌, ◌-◌, ◌^◌, ◌<◌, ◌≤◌, ◌++◌, ◌∷◌, []};
ghost use Rattle.swd_bits.specs.Bits.{low_bits};
ghost use Rattle.swd_bits.specs.BitLists.{tx_bits_of, IsWellFormedTxBits};

/// Bits in time order: the lowest `len` bits of `bits`, the first in time least significant. No bit is set above them.
/// A transaction has 46, 13 or 12.
#[derive(Clone, Copy, Debug, PartialEq, Eq)]
pub struct TxBits {
    pub len: u8,
    pub bits: u64,
}

impl TxBits {
    // Returns one bit.
    pub(crate) fn one(bit: bool) -> TxBits
        ensures whole { IsWellFormedTxBits result }
        ensures len { result.len ≡ 1 }
        ensures bits { tx_bits_of result ≡ bit ∷ [] }
    {
        TxBits {
            len: 1,
            bits: u64::from(bit),
        }
    }

    // Appends `more` to these bits.
    pub(crate) fn then(self, more: TxBits) -> TxBits
        requires whole { IsWellFormedTxBits self }
        requires small { IsWellFormedTxBits more }
        requires room { self.len + more.len ≤ 63 }
        ensures whole { IsWellFormedTxBits result }
        ensures len { result.len ≡ self.len + more.len }
        ensures bits { tx_bits_of result ≡ tx_bits_of self ++ tx_bits_of more }
    {
        TxBits {
            len: self.len + more.len,
            bits: more.bits << self.len | self.bits,
        }
    }

    // Returns the first `len` bits as a number, and the bits after them.
    #[inline(always)]
    pub(crate) fn split(self, len: u8) -> (u64, TxBits)
        requires whole { IsWellFormedTxBits self }
        requires within { len ≤ self.len }
        requires short { self.len ≤ 63 }
        ensures small { result.0 < 2 ^ len }
        ensures whole { IsWellFormedTxBits result.1 }
        ensures len { result.1.len + len ≡ self.len }
        ensures bits { tx_bits_of self ≡ low_bits len result.0 ++ tx_bits_of result.1 }
    {
        let rest = TxBits {
            len: self.len - len,
            bits: self.bits >> len,
        };
        (self.bits & ((1 << len) - 1), rest)
    }
}
