//! Finds the transaction at the front of held bits.
ghost use Rattle.std.specs.Prelude.{◌≡◌, ◌-◌, ◌/◌, ◌%◌, ◌^◌, ◌<◌, ◌≤◌, List, Bool, ◌++◌, IfSome};
ghost use Rattle.swd_bits.specs.Bits.{low_bits};
ghost use Rattle.swd_bits.specs.declared.request.Request.{Request};
ghost use Rattle.swd_trace.specs.Stands.{stands, stand_after_request, stand_tx_len};
ghost use Rattle.swd_trace.specs.Fronts.{IsDecoderFront, IsTxAtDecoderFront};

use crate::front::Front;
use swd_bits::{MOVED_BITS, REFUSED_BITS, Request, Tx, TxBits, UNACKNOWLEDGED_BITS};

/// Returns what is at the front of `len` held bits, 1 to 50, the first of which is a one: a whole transaction
/// (IHI 0031, B4), the beginning of one, or neither.
#[inline(always)]
pub fn front_of(bits: u64, len: u8) -> Front
    requires whole { bits < 2 ^ len }
    requires started { bits % 2 ≡ 1 }
    requires some { 0 < len }
    requires short { len ≤ 50 }
    ensures { IsDecoderFront result (low_bits len bits) }
{
    if len < 6 {
        return Front::Begun(6);
    }
    if (bits >> 1 & 0x1f).count_ones() % 2 == 1 {
        return Front::Broken;
    }
    if len < 7 {
        return Front::Begun(7);
    }
    if bits >> 6 & 1 == 1 {
        return Front::Broken;
    }
    if len < 8 {
        return Front::Begun(8);
    }
    if bits >> 7 & 1 == 0 {
        return Front::Broken;
    }
    front_of_request(bits, len)
}

// Does the same where the first eight bits are a request.
#[inline(always)]
fn front_of_request(bits: u64, len: u8) -> Front
    requires whole { bits < 2 ^ len }
    requires asked { 8 ≤ len }
    requires short { len ≤ 50 }
    requires request { (q : Request) × ((more : List Bool)
        → stands (low_bits len bits ++ more) ≡ stand_after_request q (low_bits (len - 8) (bits / 2 ^ 8) ++ more)) }
    ensures { IsDecoderFront result (low_bits len bits) }
{
    if len < UNACKNOWLEDGED_BITS {
        return Front::Begun(UNACKNOWLEDGED_BITS);
    }
    let whole = whole_len(bits >> 9 & 7);
    if len < whole {
        return Front::Begun(whole);
    }
    let front = TxBits {
        len: whole,
        bits: bits & ((1 << whole) - 1),
    };
    match Tx::of(front) {
        Some(tx) => Front::Whole(tx, whole),
        None => Front::Broken,
    }
}

/// Returns the bits of an acknowledged transaction at the front of 64 bits, if it finds one.
#[inline(always)]
pub(crate) fn acknowledged(bits: u64) -> Option<TxBits>
    ensures { IfSome result (λ spelled. IsTxAtDecoderFront bits spelled) }
{
    let Some(_) = Request::of((bits % 256) as u8) else {
        return None;
    };
    let len = whole_len(bits >> 9 & 7);
    if len == UNACKNOWLEDGED_BITS {
        return None;
    }
    Some(TxBits {
        len,
        bits: bits & ((1 << len) - 1),
    })
}

// Returns how many bits a transaction has, by the number of its acknowledgement.
#[inline(always)]
fn whole_len(seen: u64) -> u8
    requires { seen < 8 }
    ensures { result ≡ stand_tx_len seen }
{
    match seen {
        1 => MOVED_BITS,
        2 | 4 => REFUSED_BITS,
        _ => UNACKNOWLEDGED_BITS,
    }
}
