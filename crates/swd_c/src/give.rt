//! The rest of a write's data phase inside which the line failed.
ghost use Rattle.std.specs.Prelude.{◌≡◌, ◌≤◌, ◌<◌, ◌+◌, ◌-◌, ◌%◌, ◌^◌, ℕ, true, if◌then◌else◌, count_ones, replicate};
ghost use Rattle.swd_bits.specs.Bits.{low_bits, odd};
ghost use Rattle.swd_c.specs.Gives.{c_api_cut_phase};

// The last bit of a data phase.
const LAST: u32 = 32;

/// Returns the bits that end a data phase of these 33 bits inside which the line failed, so that the target drops it,
/// and doesn't write another word: the first in time least significant, `33 - made` of them. The host drove `made` bits
/// in clocks that were made. Then `failed` clocks failed, in each of which it drove the next bit, and which were made
/// or weren't. Whatever was made, the parity of what the target took is wrong.
///
/// Returns 0 if all 33 were made.
#[unsafe(no_mangle)]
pub extern "C" fn swd_give_rest(bits: u64, made: u32, failed: u32) -> u64
    ensures drops { made ≤ 32 → (again : ℕ) → again ≤ failed → made + again ≤ 32
        → odd (c_api_cut_phase bits made again result) ≡ true }
    ensures bound { made ≤ 32 → result < 2 ^ (33 - made) }
    ensures whole { 32 < made → result ≡ 0 }
{
    if made > LAST {
        return 0;
    }
    let after = LAST - made;
    // The last bit that the target takes, however many of the clocks that failed were made.
    let place = after.saturating_sub(failed);
    let level = (bits >> made) % 2 == 1;
    let before = levels(level, place);
    let deciding = deciding(bits & ((1 << made) - 1), level, after);
    (levels(level, after - place) << 1 | deciding) << place | before
}

// Returns so many bits of this level.
fn levels(level: bool, count: u32) -> u64
    requires { count ≤ 32 }
    ensures bound { result < 2 ^ count }
    ensures bits { (n : ℕ) → n ≤ count → low_bits n result ≡ replicate n level }
{
    if level { (1 << count) - 1 } else { 0 }
}

// Returns the bit with which the number of ones among these bits, and so many of this level, is odd.
fn deciding(bits: u64, level: bool, count: u32) -> u64
    requires { count ≤ 32 }
    ensures { result ≡ (count_ones bits + (if level then count else 0) + 1) % 2 }
{
    let levels = if level { count } else { 0 };
    u64::from((bits.count_ones() + levels + 1) % 2)
}
