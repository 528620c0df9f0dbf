//! What held bits begin with.
ghost use Rattle.std.specs.Prelude.{◌≡◌, ◌%◌, ◌<◌, ◌≤◌, true, false, List, Bool, [], ◌++◌, ◌&&◌, replicate, IfSome};
ghost use Rattle.swd_bits.specs.Bits.{low_bits};
ghost use Rattle.swd_bits.specs.BitLists.{tx_bits_of, IsWellFormedTxBits};
ghost use Rattle.swd_trace.specs.Reading.{trace_all_ones};
ghost use Rattle.swd_resync.specs.Parts.{resync_is_refusal};
ghost use Rattle.swd_resync.specs.Holding.{resync_held};
ghost use Rattle.swd_resync.specs.Sights.{IsSight, IsTxSight};

use crate::held::{HeldBits, WINDOW_BITS};
use crate::sight::Sight;
use crate::stage::WholeTx;
use swd_bits::{MOVED_BITS, Tx, TxBits, TxEnd};
use swd_trace::{Front, front_of};

/// Returns what is at the front of the held bits. `over` means that a data phase follows WAIT and FAULT; `ended` means
/// that no bits follow.
pub(crate) fn look(over: bool, ended: bool, held: &HeldBits) -> Sight
    ensures { IsSight over ended result (resync_held held.now) }
{
    let window = held.window();
    if window.len == 0 {
        return if ended { Sight::End } else { Sight::Wait };
    }
    if window.bits % 2 == 0 {
        return Sight::Zero;
    }
    if !is_ones(window) {
        return seen(over, ended, window);
    }
    if window.len == WINDOW_BITS {
        return Sight::Ones;
    }
    begun(ended, window)
}

// Returns what is at the front, where the first bit is a one and not all bits are ones.
fn seen(over: bool, ended: bool, window: TxBits) -> Sight
    requires spelled { IsWellFormedTxBits window }
    requires most { window.len ≤ 50 }
    requires one { window.bits % 2 ≡ 1 }
    requires some { 0 < window.len }
    requires zero { trace_all_ones (tx_bits_of window) ≡ false }
    ensures { (back : List Bool) → (window.len < 50 → back ≡ [])
        → IsSight over ended result (tx_bits_of window ++ back) }
{
    match front_of(window.bits, window.len) {
        Front::Begun(_) => begun(ended, window),
        Front::Broken => Sight::Junk,
        Front::Whole(tx, len) => {
            if !has_phase(over, &tx) {
                return Sight::Tx(tx, len);
            }
            if window.len < MOVED_BITS {
                return begun(ended, window);
            }
            Sight::Tx(tx, MOVED_BITS)
        }
    }
}

/// Returns the transaction at the front of `count` bits, if it finds a whole one. No data phase follows its WAIT or
/// FAULT.
pub(crate) fn whole_tx(bits: u64, count: u8) -> Option<WholeTx>
    ensures within { IfSome result (λ found. found.len ≤ count) }
    ensures sight { IfSome result (λ found. IsTxSight false found.tx found.len (low_bits found.len bits)) }
{
    let len = count.min(WINDOW_BITS);
    let window = bits & ((1 << len) - 1);
    if window % 2 == 0 {
        return None;
    }
    match front_of(window, len) {
        Front::Whole(tx, len) => Some(WholeTx { tx, len }),
        Front::Begun(_) | Front::Broken => None,
    }
}

// Returns the beginning of a transaction or of fifty ones: cut if no bits follow, else undecided.
fn begun(ended: bool, window: TxBits) -> Sight
    ensures cut { ended ≡ true → result ≡ Sight.Cut window }
    ensures wait { ended ≡ false → result ≡ Sight.Wait }
{
    if ended {
        Sight::Cut(window)
    } else {
        Sight::Wait
    }
}

/// Returns whether all bits are ones.
pub(crate) fn is_ones(window: TxBits) -> bool
    requires spelled { IsWellFormedTxBits window }
    requires most { window.len ≤ 50 }
    ensures ones { result ≡ true → tx_bits_of window ≡ replicate window.len true }
    ensures zero { result ≡ false → trace_all_ones (tx_bits_of window) ≡ false }
{
    window.bits == (1 << window.len) - 1
}

/// Returns whether WAIT or FAULT ended a transaction, and a data phase follows.
pub(crate) fn has_phase(over: bool, tx: &Tx) -> bool
    ensures { result ≡ (over && resync_is_refusal tx.now.result) }
{
    over && matches!(tx.result, TxEnd::Wait | TxEnd::Fault)
}
