//! Parses the numbers and bits of a listing line.
ghost use Rattle.std.specs.Prelude.{◌≡◌, ℕ, ◌^◌, ◌<◌, map, IfSome};
ghost use Rattle.std.specs.Fmt.{decimal};
ghost use Rattle.swd_bits.specs.BitLists.{tx_bits_of};
ghost use Rattle.swd_bits.specs.Listing.{hex8};
ghost use Rattle.swd_bits.specs.declared.tx_bits.TxBits.{TxBits};
ghost use Rattle.swd_trace.specs.Listed.{IsCutItemBits};
ghost use Rattle.swd_trace.specs.Texts.{trace_digit};

use std::str;
use swd_bits::TxBits;

// The most bits of a cut end: one fewer than those of a line reset.
const LONGEST_CUT: usize = 49;

/// Returns the number with these decimal digits. Of any other bytes it may return some number.
pub(crate) fn count_in(digits: &[u8]) -> Option<u64>
    ensures { (count : ℕ) → count < 2 ^ 64 → digits.now ≡ decimal count → result ≡ Some count }
{
    match str::from_utf8(digits) {
        Ok(text) => text.parse().ok(),
        Err(_) => None,
    }
}

/// Returns the number of the three acknowledgement bits. Of any other bytes it may return some number.
pub(crate) fn seen_in(digits: &[u8]) -> Option<u8>
    ensures { (seen : ℕ) → seen < 8 → digits.now ≡ decimal seen → result ≡ Some seen }
{
    match str::from_utf8(digits) {
        Ok(text) => text.parse().ok(),
        Err(_) => None,
    }
}

/// Returns the word with these eight hexadecimal digits. Of any other bytes it may return some word.
pub(crate) fn word_in(digits: &[u8]) -> Option<u32>
    ensures { (word : ℕ) → word < 2 ^ 32 → digits.now ≡ hex8 word → result ≡ Some word }
{
    match str::from_utf8(digits) {
        Ok(text) => u32::from_str_radix(text, 16).ok(),
        Err(_) => None,
    }
}

/// Returns the 1 to 49 bits with these characters. Of any other bytes it may return some bits.
pub(crate) fn bits_in(digits: &[u8]) -> Option<TxBits>
    ensures legal { IfSome result IsCutItemBits }
    ensures found { (bits : TxBits) → IsCutItemBits bits → digits.now ≡ map trace_digit (tx_bits_of bits)
        → result ≡ Some bits }
{
    let len = digits.len();
    if len == 0 || len > LONGEST_CUT {
        return None;
    }
    let mut bits = 0u64;
    for i in 0..len {
        bits = bits * 2 + u64::from(digits[len - 1 - i] == b'1');
    }
    Some(TxBits {
        len: len as u8,
        bits,
    })
}
