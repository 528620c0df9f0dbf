//! Decides whether a stretch begins or continues at a place of a capture. `over` means that a data phase follows WAIT
//! and FAULT; `ended` means that no bits follow the held ones. The functions return `None` if more bits are needed.
ghost use Rattle.std.specs.Prelude.{◌≡◌, ℕ, ◌+◌, ◌-◌, ◌/◌, ◌^◌, ◌<◌, ◌≤◌, List, Bool, ◌++◌, ◌||◌, length, drop, true};
ghost use Rattle.std.specs.Prelude.{false};
ghost use Rattle.std.specs.Prelude.{IfSome, IfNone};
ghost use Rattle.std.specs.Int.{bit_at};
ghost use Rattle.swd_bits.specs.Bits.{low_bits};
ghost use Rattle.swd_bits.specs.BitLists.{tx_bits_of, IsWellFormedTxBits};
ghost use Rattle.swd_trace.specs.Reading.{whole_tx_item};
ghost use Rattle.swd_resync.specs.Parts.{resync_sound, resync_sound_next, pair, begins_stretch, stretch_continues};
ghost use Rattle.swd_resync.specs.Parts.{stretch_ended_or_reset, stretch_after_tx, stretch_resumes, has_other_length};
ghost use Rattle.swd_resync.specs.Parts.{other_tx_len};
ghost use Rattle.swd_resync.specs.Parts.{before_pair, stretch_gap, in_stretch};
ghost use Rattle.swd_trace.specs.declared.item.Item.TheVariants.{Tx as TxItem};
ghost use Rattle.swd_resync.specs.Holding.{resync_held, IsResyncNear};
ghost use Rattle.swd_resync.specs.Sights.{IsTxSight, SightMore};
ghost use Rattle.swd_resync.specs.Judged.{Judges, IsJudgedClear, IsJudgedMost, stretch_tx_step, IsTxFate};

use crate::held::HeldBits;
use crate::look::{has_phase, is_ones, look};
use crate::overrun::Overrun;
use swd_bits::{Ack, MOVED_BITS, REFUSED_BITS, Request, Tx, TxBits, TxEnd};

// The number of bits of a request.
const REQUEST_BITS: u8 = 8;

/// What becomes of a transaction of a stretch.
#[derive(Clone, Copy)]
pub(crate) enum TxFate {
    /// It is reported.
    Reported,
    /// It is reported with its other length: whether a data phase follows WAIT and FAULT is the other way round.
    OtherLength,
    /// This number of bits is skipped, up to the stretch that begins inside it.
    Withdrawn(u8),
}

// Returns the number of bits of the sound transaction at the front, or 0 if there is no such transaction. A
// transaction is sound if it was acknowledged, and its word, if one was moved, has right parity.
fn sound_bits(over: bool, ended: bool, held: &HeldBits) -> Option<u8>
    ensures judges { Judges ended 0 (λ bits. resync_sound over bits) (resync_held held.now) result }
    ensures clear { IsJudgedClear ended (resync_held held.now) result }
    ensures short { IsJudgedMost 46 result }
    ensures fits { IsJudgedMost (length (resync_held held.now)) result }
{
    look(over, ended, held).sound_bits()
}

// Returns whether a sound transaction follows after any zeros.
fn sound_follows(ended: bool, held: &HeldBits) -> Option<bool>
    ensures { Judges ended 0 (λ bits. resync_sound_next bits) (resync_held held.now) result }
{
    match sound_bits(false, ended, &held.behind_zeros()) {
        None => None,
        Some(len) => Some(len > 0),
    }
}

/// Returns a number of bits at the front that come before the next stretch, whatever follows. The last seven are never
/// among them, since a transaction can begin only with the eight bits of a request.
pub(crate) fn bits_before_start(window: TxBits) -> u8
    requires spelled { IsWellFormedTxBits window }
    requires most { window.len ≤ 50 }
    ensures within { result ≤ window.len }
    ensures before { (over : Bool) (back : List Bool) → result ≤ stretch_gap over (tx_bits_of window ++ back) }
{
    let mut rest = from_first_place(window);
    while rest.len >= REQUEST_BITS && begins_nothing(rest) {
        rest = from_first_place(TxBits {
            len: rest.len - 1,
            bits: rest.bits / 2,
        });
    }
    window.len - rest.len
}

// Returns the bits from the first place on where a stretch may begin, as `places_of` says, or the last seven if there
// is no such place.
#[inline(always)]
fn from_first_place(window: TxBits) -> TxBits
    requires spelled { IsWellFormedTxBits window }
    requires most { window.len ≤ 50 }
    ensures spelled { IsWellFormedTxBits result }
    ensures within { result.len ≤ window.len }
    ensures before { (over : Bool) (back : List Bool)
        → stretch_gap over (tx_bits_of window ++ back) ≡ (window.len - result.len)
        + stretch_gap over (tx_bits_of result ++ back) }
{
    // With eight ones here this is such a place, as many in a row may be: no others are looked for.
    if window.bits % 256 == 255 {
        return window;
    }
    let skipped = (places_of(window.bits).trailing_zeros() as u8).min(window.len.saturating_sub(7));
    TxBits {
        len: window.len - skipped,
        bits: window.bits >> skipped,
    }
}

// Returns a one for each place where a stretch may begin: the eight bits from it on are ones, or they are a request,
// and no two of the three bits where its acknowledgement would be are ones. It examines all places at once.
#[inline(always)]
fn places_of(bits: u64) -> u64
    ensures { (over : Bool) (len place : ℕ) (back : List Bool) → 8 ≤ len → place + len ≤ 64 → bits / 2 ^ place < 2 ^ len
        → bit_at result place ≡ 0 → begins_stretch over (low_bits len (bits / 2 ^ place) ++ back) ≡ false }
{
    let ones = bits >> 1 & bits >> 2 & bits >> 3 & bits >> 4 & bits >> 5 & bits >> 6;
    let odd = bits >> 1 ^ bits >> 2 ^ bits >> 3 ^ bits >> 4 ^ bits >> 5;
    let several = bits >> 9 & bits >> 10 | (bits >> 9 | bits >> 10) & bits >> 11;
    bits & bits >> 7 & (ones | !(bits >> 6 | odd | several))
}

// Returns whether neither a transaction nor fifty ones begin with these bits.
#[inline(always)]
fn begins_nothing(window: TxBits) -> bool
    requires spelled { IsWellFormedTxBits window }
    requires some { 8 ≤ window.len }
    requires most { window.len ≤ 50 }
    ensures { result ≡ true → (over : Bool) (back : List Bool)
        → begins_stretch over (tx_bits_of window ++ back) ≡ false }
{
    !is_ones(window) && (lacks_request(window) || lacks_ack(window))
}

// Returns whether no transaction begins with these bits, since they begin with no request.
#[inline(always)]
fn lacks_request(window: TxBits) -> bool
    requires some { 8 ≤ window.len }
    ensures { result ≡ true → (over : Bool) (back : List Bool) → pair over (tx_bits_of window ++ back) ≡ false }
{
    Request::of((window.bits % 256) as u8).is_none()
}

// Returns whether no sound transaction begins with these bits, since the three where its acknowledgement would be,
// after eight bits and a turnaround, are not OK, WAIT or FAULT.
#[inline(always)]
fn lacks_ack(window: TxBits) -> bool
    ensures { result ≡ true → (over : Bool) (back : List Bool) → pair over (tx_bits_of window ++ back) ≡ false }
{
    window.len >= 12 && Ack::of(((window.bits >> 9) % 8) as u8).is_none()
}

// Returns whether two sound transactions are at the front, with at most zeros between them.
fn pair_stands(over: bool, ended: bool, held: &HeldBits) -> Option<bool>
    ensures { Judges ended 46 (λ bits. pair over bits) (resync_held held.now) result }
{
    match sound_bits(over, ended, held) {
        None => None,
        Some(0) => Some(false),
        Some(len) => sound_follows(ended, &held.without(len)),
    }
}

/// Returns whether a stretch begins here: with fifty ones, or with a pair.
pub(crate) fn stretch_begins(over: bool, ended: bool, held: &HeldBits) -> Option<bool>
    ensures { Judges ended 46 (λ bits. begins_stretch over bits) (resync_held held.now) result }
{
    match look(over, ended, held).is_reset() {
        None => None,
        Some(true) => Some(true),
        Some(false) => pair_stands(over, ended, held),
    }
}

// Returns whether the bits after any zeros don't begin with a junk bit.
fn reading_goes_on(ended: bool, held: &HeldBits) -> Option<bool>
    ensures { Judges ended 0 (λ bits. stretch_continues bits) (resync_held held.now) result }
{
    match look(false, ended, &held.behind_zeros()).is_junk() {
        None => None,
        Some(junk) => Some(!junk),
    }
}

// Returns whether no bit or fifty ones follow.
fn ends_or_resets(ended: bool, held: &HeldBits) -> Option<bool>
    ensures { Judges ended 0 (λ bits. stretch_ended_or_reset bits) (resync_held held.now) result }
{
    look(false, ended, held).is_end_or_reset()
}

// Returns whether, after any zeros, a sound transaction comes, fifty ones, or the end.
fn reading_resumes(ended: bool, held: &HeldBits) -> Option<bool>
    ensures { Judges ended 0 (λ bits. stretch_resumes bits) (resync_held held.now) result }
{
    look(false, ended, &held.behind_zeros()).is_sound()
}

// Returns whether a stretch continues after a transaction that these bits follow.
fn stretch_goes_on(ended: bool, tx: &Tx, behind: &HeldBits) -> Option<bool>
    ensures { Judges ended 0 (λ bits. stretch_after_tx tx.now.result bits) (resync_held behind.now) result }
{
    match tx.result {
        TxEnd::NoAck(_) => ends_or_resets(ended, behind),
        _ => reading_goes_on(ended, behind),
    }
}

/// Returns how many bits WAIT and FAULT have, if it is the other way round whether a data phase follows them.
pub(crate) fn other_len(over: bool) -> u8
    ensures { result ≡ other_tx_len over }
{
    if over { REFUSED_BITS } else { MOVED_BITS }
}

// Returns whether a stretch would continue soundly, had the transaction at the front its other length.
fn other_length_fits(over: bool, ended: bool, tx: &Tx, held: &HeldBits) -> Option<bool>
    ensures { Judges ended 46 (λ bits. has_other_length over (TxItem tx.now) bits) (resync_held held.now) result }
{
    if !has_phase(true, tx) {
        return Some(false);
    }
    let len = other_len(over);
    if held.window().len < len {
        return if ended { Some(false) } else { None };
    }
    reading_resumes(ended, &held.without(len))
}

/// Returns whether a stretch begins with the capture, at whose front, after any zeros, a transaction of `len` bits is.
pub(crate) fn starts_with(
    over: bool,
    ended: bool,
    held: &HeldBits,
    tx: &Tx,
    len: u8,
) -> Option<bool>
    requires { IsTxSight over tx.now len (resync_held held.now) }
    ensures { Judges ended 92 (λ bits. stretch_after_tx tx.now.result (drop len bits)
        || has_other_length over (TxItem tx.now) bits) (resync_held held.now) result }
{
    match stretch_goes_on(ended, tx, &held.without(len)) {
        None => None,
        Some(true) => Some(true),
        Some(false) => other_length_fits(over, ended, tx, held),
    }
}

// Returns how many of the first `count` bits come before a pair: all if no pair begins among them.
fn bits_before_pair(over: bool, ended: bool, held: &HeldBits, count: u8) -> Option<u8>
    requires short { count ≤ 45 }
    requires held { count ≤ length (resync_held held.now) }
    ensures judges { Judges ended (46 + count) (λ bits. before_pair over count bits) (resync_held held.now) result }
    ensures most { IsJudgedMost count result }
{
    if count == 0 {
        return Some(0);
    }
    match pair_stands(over, ended, held) {
        None => None,
        Some(true) => Some(0),
        Some(false) => match bits_before_pair(over, ended, &held.without(1), count - 1) {
            None => None,
            Some(before) => Some(before + 1),
        },
    }
}

// Returns what becomes of the transaction at the front, which has `len` bits, where the stretch doesn't continue after
// it.
fn fate_if_lost(over: Overrun, ended: bool, held: &HeldBits, tx: &Tx, len: u8) -> Option<TxFate>
    requires { IsTxSight over.phases tx.now len (resync_held held.now) }
    ensures fits { IfSome result (λ fate. IsTxFate over.phases tx.now len (resync_held held.now) fate) }
    ensures told { IfSome result (λ fate. (more : List Bool) → SightMore ended more
        → stretch_after_tx tx.now.result (drop len (resync_held held.now ++ more)) ≡ false
        → in_stretch over (whole_tx_item tx.now len) (resync_held held.now ++ more)
        ≡ stretch_tx_step over tx.now len fate) }
    ensures waits { IfNone result ((ended ≡ false) × IsResyncNear 92 (resync_held held.now)) }
{
    match other_length_fits(over.phases, ended, tx, held) {
        None => None,
        Some(true) => Some(TxFate::OtherLength),
        Some(false) => match bits_before_pair(over.phases, ended, &held.without(1), len - 1) {
            None => None,
            Some(before) => {
                if before == len - 1 {
                    Some(TxFate::Reported)
                } else {
                    Some(TxFate::Withdrawn(before + 1))
                }
            }
        },
    }
}

/// Returns what becomes of the transaction at the front, which has `len` bits.
pub(crate) fn fate_of_tx(
    over: Overrun,
    ended: bool,
    held: &HeldBits,
    tx: &Tx,
    len: u8,
) -> Option<TxFate>
    requires { IsTxSight over.phases tx.now len (resync_held held.now) }
    ensures fits { IfSome result (λ fate. IsTxFate over.phases tx.now len (resync_held held.now) fate) }
    ensures told { IfSome result (λ fate. (more : List Bool) → SightMore ended more
        → in_stretch over (whole_tx_item tx.now len) (resync_held held.now ++ more)
        ≡ stretch_tx_step over tx.now len fate) }
    ensures waits { IfNone result ((ended ≡ false) × IsResyncNear 92 (resync_held held.now)) }
{
    match stretch_goes_on(ended, tx, &held.without(len)) {
        None => None,
        Some(true) => Some(TxFate::Reported),
        Some(false) => fate_if_lost(over, ended, held, tx, len),
    }
}
