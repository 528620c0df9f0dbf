//! The bits that a decoder of captures holds.
ghost use Rattle.swd_resync.specs.Queues.{IsResyncHeld};

use crate::queue::{BACK_BITS, FRONT_BITS, Queue};
use swd_bits::TxBits;

/// How many bits are examined: fifty ones are a line reset, and no transaction has more.
pub(crate) const WINDOW_BITS: u8 = 50;

/// Bits in time order.
#[derive(Clone, Copy, Debug)]
pub(crate) struct HeldBits {
    queue: Queue,
    ghost holds: { IsResyncHeld queue },
}

impl HeldBits {
    ghost use Rattle.std.specs.Prelude.{◌≡◌, ◌⊎◌, ◌+◌, ◌-◌, ◌^◌, ◌<◌, ◌≤◌, List, Bool, [], ◌∷◌, ◌++◌, length, drop};
    ghost use Rattle.std.specs.Prelude.{true, replicate, IfSome, IfNone};
    ghost use Rattle.swd_bits.specs.Bits.{low_bits};
    ghost use Rattle.swd_bits.specs.BitLists.{tx_bits_of, IsWellFormedTxBits};
    ghost use Rattle.swd_resync.specs.Parts.{past_zeros};
    ghost use Rattle.swd_resync.specs.Holding.{resync_held, resync_behind_run, ResyncTakesMany};

    /// Returns an empty list.
    pub(crate) fn new() -> HeldBits
        ensures bits { resync_held result ≡ [] }
        ensures room { resync_behind_run result ≡ 0 }
    {
        HeldBits {
            queue: Queue::new(),
        }
    }

    /// Returns the lowest `count` bits, the least significant first.
    pub(crate) fn of(bits: u64, count: u8) -> HeldBits
        requires most { count ≤ 50 }
        ensures bits { resync_held result ≡ low_bits count bits }
        ensures room { resync_behind_run result ≡ 0 }
    {
        HeldBits {
            queue: Queue::new().with_front(u128::from(bits), count),
        }
    }

    /// Returns whether so many bits are held.
    pub(crate) fn has_len(&self, len: u8) -> bool
        requires most { len ≤ 50 }
        ensures { result ≡ true → length (resync_held self.now) ≡ len }
    {
        self.queue.front_len == len
    }

    /// Returns how many bits are held behind the first `len`, apart from the run of zeros and the bits behind it.
    pub(crate) fn len_behind(&self, len: u8) -> u8 {
        self.queue.front_len.saturating_sub(len)
    }

    /// Appends a bit.
    pub(crate) fn push(&mut self, bit: bool)
        requires room { resync_behind_run self.old < 63 }
        requires count { length (resync_held self.old) < 2 ^ 64 - 1 }
        ensures bits { resync_held self.new ≡ resync_held self.old ++ bit ∷ [] }
        ensures room { resync_behind_run self.new ≤ resync_behind_run self.old + 1 }
    {
        self.queue = self.queue.with(bit);
    }

    /// Appends one or more of the lowest `count` bits, the least significant first, and returns how many: as many as
    /// there is room for before the run of zeros, in it, or behind it.
    pub(crate) fn push_many(&mut self, bits: u64, count: u8) -> u8
        requires room { resync_behind_run self.old ≤ 50 }
        requires some { 0 < count }
        requires within { count ≤ 64 }
        requires counted { length (resync_held self.old) + count < 2 ^ 64 }
        ensures bits { resync_held self.new ≡ resync_held self.old ++ low_bits result bits }
        ensures some { 0 < result }
        ensures most { result ≤ count }
        ensures many { ResyncTakesMany (self.old.queue.front_len + self.old.queue.back_len) bits count result }
        ensures room { resync_behind_run self.new ≤ 63 }
    {
        let queue = self.queue;
        if queue.front_len < FRONT_BITS {
            let taken = count.min(FRONT_BITS - queue.front_len);
            self.queue = queue.with_front(u128::from(bits), taken);
            return taken;
        }
        if queue.back_len == 0 && bits % 2 == 0 {
            let taken = (bits.trailing_zeros() as u8).min(count);
            self.queue = queue.with_more_zeros(taken);
            return taken;
        }
        let taken = count.min(BACK_BITS - queue.back_len);
        self.queue = queue.with_back(bits, taken);
        taken
    }

    /// Returns how many bits at the front equal `bit`, at most fifty.
    pub(crate) fn run_of(&self, bit: bool) -> u8
        ensures most { result ≤ 50 }
        ensures run { (back : List Bool) × (resync_held self.now ≡ replicate result bit ++ back) }
        ensures some { (back : List Bool) → resync_held self.now ≡ bit ∷ back → 0 < result }
    {
        let window = self.window();
        let others = if bit { !window.bits } else { window.bits };
        (others.trailing_zeros() as u8).min(window.len)
    }

    /// Returns the first bits, at most fifty.
    pub(crate) fn window(&self) -> TxBits
        ensures spelled { IsWellFormedTxBits result }
        ensures most { result.len ≤ 50 }
        ensures first { (back : List Bool) × (resync_held self.now ≡ tx_bits_of result ++ back)
            × (result.len < 50 → back ≡ []) }
    {
        let len = self.queue.front_len.min(WINDOW_BITS);
        TxBits {
            len,
            bits: (self.queue.front & ((1 << len) - 1)) as u64,
        }
    }

    /// Returns the first bit.
    pub(crate) fn first(&self) -> Option<bool>
        ensures some { IfSome result (λ bit. (back : List Bool) × (resync_held self.now ≡ bit ∷ back)) }
        ensures none { IfNone result (resync_held self.now ≡ []) }
    {
        if self.queue.front_len == 0 {
            return None;
        }
        Some(self.queue.front % 2 == 1)
    }

    /// Returns the bits after the first `count` ones.
    pub(crate) fn without(&self, count: u8) -> HeldBits
        requires most { count ≤ 50 }
        requires held { count ≤ length (resync_held self.now) }
        ensures bits { resync_held result ≡ drop count (resync_held self.now) }
        ensures room { resync_behind_run result ≤ resync_behind_run self.now }
    {
        HeldBits {
            queue: self.queue.shifted(count),
        }
    }

    /// Returns the bits after the zeros at the front.
    pub(crate) fn behind_zeros(&self) -> HeldBits
        ensures { resync_held result ≡ past_zeros (resync_held self.now) }
    {
        if self.queue.front == 0 {
            let behind = Queue {
                front: u128::from(self.queue.back),
                front_len: self.queue.back_len,
                zeros: 0,
                back: 0,
                back_len: 0,
            };
            return HeldBits { queue: behind };
        }
        HeldBits {
            queue: self.queue.shifted(self.queue.front.trailing_zeros() as u8),
        }
    }
}
