//! Finds the characters `0` and `1` at the front of a text, 64 bytes at once.
ghost use Rattle.std.specs.Prelude.{◌≡◌, ℕ, ◌<◌, ◌≤◌, ◌==◌, true, length, slice_index, take, map};
ghost use Rattle.std.specs.Simd.Lanes.{mask_l};
ghost use Rattle.swd_bits.specs.Bits.{low_bits};
ghost use Rattle.swd_trace.specs.Texts.{trace_digit};
ghost use Rattle.swd_text.specs.Digits.{is_not_text_digit};

use std::simd::prelude::*;

/// The number of bytes that one call examines.
pub const WIDTH: usize = 64;

/// The bits of digits at the front of a text.
#[derive(Clone, Copy, Debug, PartialEq, Eq)]
pub struct Digits {
    /// How many digits there are.
    pub count: u8,
    /// Their bits: the lowest `count`, the first one least significant. The others have no meaning.
    pub bits: u64,
}

/// Returns the digits among the first 64 bytes of a text, up to the first other byte. The text has at least as many.
#[inline]
pub fn digits_of(text: &[u8]) -> Digits
    requires { WIDTH ≤ length text.now }
    ensures most { result.count ≤ WIDTH }
    ensures ends { result.count < WIDTH → is_not_text_digit (slice_index text.now result.count) ≡ true }
    ensures bits { (n : ℕ) → n ≤ result.count → take n text.now ≡ map trace_digit (low_bits n result.bits) }
{
    let bytes = u8x64::from_slice(text);
    Digits {
        count: others(bytes).trailing_zeros() as u8,
        bits: ones(bytes),
    }
}

// Sets bit k where byte k is `1`.
#[inline(always)]
fn ones(bytes: u8x64) -> u64
    ensures { result ≡ mask_l (map (λ byte. byte == 49) bytes) }
{
    bytes.simd_eq(u8x64::splat(b'1')).to_bitmask()
}

// Sets bit k where byte k is neither `0` nor `1`.
#[inline(always)]
fn others(bytes: u8x64) -> u64
    ensures { result ≡ mask_l (map is_not_text_digit bytes) }
{
    // `0` and `1` are 48 and 49.
    (bytes >> u8x64::splat(1))
        .simd_ne(u8x64::splat(24))
        .to_bitmask()
}
