//! Data phases: a word and its parity, 33 bits.
ghost use Rattle.std.specs.Prelude.{◌≡◌, ◌≢◌, ℕ, ◌^◌, ◌<◌, IfSome, IfNone};
ghost use Rattle.swd_bits.specs.Bits.{low_bits};
ghost use Rattle.swd_bits.specs.Wire.{phase};
ghost use Rattle.swd_bits.specs.Phases.{data_phase_number, data_phase_word};

/// Returns the 33 bits of a word's data phase (IHI 0031, B4, "Data transfer"), the first in time least significant.
/// They are the word, least significant bit first, and its parity, 1 if the word has an odd number of ones.
pub fn data_bits(word: u32) -> u64
    ensures bound { result < 2 ^ 33 }
    ensures bits { low_bits 33 result ≡ phase word }
    ensures number { result ≡ data_phase_number word }
{
    let parity = u64::from(word.count_ones() % 2);
    parity << 32 | u64::from(word)
}

/// Returns the word of a data phase of 33 bits, the first in time least significant, or `None` if the parity is wrong.
pub fn word_of(sent: u64) -> Option<u32>
    requires { sent < 2 ^ 33 }
    ensures found { IfSome result (λ word. phase word ≡ low_bits 33 sent) }
    ensures only { IfSome result (λ word. (other : ℕ) → other < 2 ^ 32 → phase other ≡ low_bits 33 sent
        → other ≡ word) }
    ensures none { IfNone result ((word : ℕ) → word < 2 ^ 32 → phase word ≢ low_bits 33 sent) }
    ensures number { result ≡ data_phase_word sent }
{
    let word = (sent & 0xffff_ffff) as u32;
    if data_bits(word) == sent {
        Some(word)
    } else {
        None
    }
}
