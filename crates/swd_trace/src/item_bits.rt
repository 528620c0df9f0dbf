//! The bits of an item, taken one after another.
ghost use Rattle.std.specs.Prelude.{◌≡◌, ◌+◌, ◌^◌, ◌<◌, ◌≤◌, ◌++◌, ◌∷◌, ◌↔◌, [], Bool, true, false, List};
ghost use Rattle.std.specs.Prelude.{length, IsTrue, IfSome, IfNone};

use crate::decoder::Decoder;
use crate::item::Item;
use swd_bits::{SWITCH, SWITCH_BITS, TxBits};

/// The remaining bits of an item: a run of equal bits, and others after it.
#[derive(Clone, Copy, Debug)]
pub(crate) struct ItemBits {
    // a run of `run` bits that equal `one`
    pub(crate) one: bool,
    pub(crate) run: u64,
    // the `len` bits after it, the first one least significant
    pub(crate) len: u8,
    pub(crate) bits: u64,
}

impl ItemBits {
    ghost use Rattle.swd_trace.specs.Held.{decoder_rest, decoder_fed, IsDecoderSettled};
    ghost use Rattle.swd_trace.specs.ItemBits.{item_bits_left};
    ghost use Rattle.swd_trace.specs.Listed.{IsEncodableItem};
    ghost use Rattle.swd_trace.specs.Texts.{item_bits};

    /// Returns the bits of an item, turnarounds as 1.
    pub(crate) fn of(item: &Item) -> ItemBits
        requires { IsEncodableItem item.now }
        ensures bits { item_bits_left result ≡ item_bits item.now }
        ensures short { result.len ≤ 63 }
    {
        match item {
            Item::Reset(count) => ItemBits::of_run(true, *count),
            Item::Switch => ItemBits::of_bits(TxBits {
                len: SWITCH_BITS,
                bits: SWITCH,
            }),
            Item::Idle(count) => ItemBits::of_run(false, *count),
            Item::Tx(tx) => ItemBits::of_bits(tx.bits()),
            Item::Junk(bit) => ItemBits::of_run(*bit, 1),
            Item::Cut(bits) => ItemBits::of_bits(*bits),
        }
    }

    fn of_run(one: bool, run: u64) -> ItemBits
        ensures { result ≡ record { one = one; run = run; len = 0; bits = 0 } }
    {
        ItemBits {
            one,
            run,
            len: 0,
            bits: 0,
        }
    }

    fn of_bits(bits: TxBits) -> ItemBits
        ensures { result ≡ record { one = false; run = 0; len = bits.len; bits = bits.bits } }
    {
        ItemBits {
            one: false,
            run: 0,
            len: bits.len,
            bits: bits.bits,
        }
    }

    /// Returns whether no bits remain.
    pub(crate) fn is_empty(&self) -> bool
        ensures { IsTrue result ↔ (length (item_bits_left self.now) ≡ 0) }
    {
        self.run == 0 && self.len == 0
    }

    /// Takes the next bit. Returns `None` if no bits remain.
    #[inline]
    pub(crate) fn take_bit(&mut self) -> Option<bool>
        ensures bit { IfSome result (λ bit. item_bits_left self.old ≡ bit ∷ item_bits_left self.new) }
        ensures none { IfNone result ((item_bits_left self.old ≡ []) × (self.new ≡ self.old)) }
    {
        if self.run > 0 {
            self.run -= 1;
            return Some(self.one);
        }
        if self.len > 0 {
            let bit = self.bits % 2 == 1;
            self.bits /= 2;
            self.len -= 1;
            return Some(bit);
        }
        None
    }

    /// Feeds one or more of the next bits to a decoder.
    pub(crate) fn feed(&mut self, decoder: &mut Decoder)
        requires some { 0 < length (item_bits_left self.old) }
        requires short { self.old.len ≤ 63 }
        requires settled { IsDecoderSettled decoder.old }
        requires room { decoder_fed decoder.old + length (item_bits_left self.old) < 2 ^ 64 }
        ensures law { (more : List Bool)
            → decoder_rest decoder.new (item_bits_left self.new ++ more)
            ≡ decoder_rest decoder.old (item_bits_left self.old ++ more) }
        ensures short { self.new.len ≤ 63 }
        ensures fewer { length (item_bits_left self.new) < length (item_bits_left self.old) }
        ensures fed { decoder_fed decoder.new + length (item_bits_left self.new)
            ≡ decoder_fed decoder.old + length (item_bits_left self.old) }
    {
        if self.run > 0 {
            self.run -= decoder.take_run(self.one, self.run);
        } else {
            let taken = decoder.take_bits(self.bits, self.len);
            self.bits >>= taken;
            self.len -= taken;
        }
    }
}
