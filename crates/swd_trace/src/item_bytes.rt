//! The trace text of an item, byte by byte.
ghost use Rattle.std.specs.Prelude.{◌≡◌, ◌<◌, ◌≤◌, ◌++◌, ◌∷◌, [], length, take, map, true, false};
ghost use Rattle.std.specs.Iterator.{YieldsFirst, item_count};
ghost use Rattle.swd_trace.specs.Listed.{IsLegalItem};
ghost use Rattle.swd_trace.specs.Texts.{item_text, trace_digit as digit_of};
ghost use Rattle.swd_trace.specs.ItemBits.{item_bits_left};
ghost use Rattle.swd_trace.specs.ItemBytes.{item_bytes_left};

use crate::item::Item;
use crate::item_bits::ItemBits;

/// The bytes of an item's trace text: a character `0` or `1` for each bit in time order, turnarounds as 1,
/// and then a line feed.
#[derive(Clone, Copy, Debug)]
pub struct ItemBytes {
    left: ItemBits,
    // whether the line feed remains
    unended: bool,
}

impl ItemBytes {
    /// Returns the bytes of an item.
    pub fn of(item: &Item) -> ItemBytes
        requires { IsLegalItem item.now }
        ensures { item_bytes_left result ≡ item_text item.now }
    {
        ItemBytes::with_end(ItemBits::of(item))
    }

    // Returns the characters of these bits and a line feed.
    pub(crate) fn with_end(left: ItemBits) -> ItemBytes
        ensures { item_bytes_left result ≡ map digit_of (item_bits_left left) ++ 10 ∷ [] }
    {
        ItemBytes {
            left,
            unended: true,
        }
    }

    /// Copies the next bytes into `piece`, all of them or as many as fit. Returns how many.
    #[inline]
    pub fn fill(&mut self, piece: &mut [u8]) -> usize
        ensures within { result ≤ length piece.new }
        ensures bytes { item_bytes_left self.old ≡ take result piece.new ++ item_bytes_left self.new }
        ensures end { result < length piece.new → item_bytes_left self.new ≡ [] }
    {
        let (filled, left) = put(*self, piece);
        *self = left;
        filled
    }
}

// Copies the next bytes into `piece`. Returns how many, and the bytes that remain. These are passed by value
// to an outlined function, so that they stay in registers: this is half of an encoder's work.
#[inline(never)]
fn put(bytes: ItemBytes, piece: &mut [u8]) -> (usize, ItemBytes)
    ensures within { result.0 ≤ length piece.new }
    ensures bytes { item_bytes_left bytes ≡ take result.0 piece.new ++ item_bytes_left result.1 }
    ensures end { result.0 < length piece.new → item_bytes_left result.1 ≡ [] }
{
    let mut left = bytes;
    let mut filled = 0;
    for place in piece.iter_mut() {
        let Some(byte) = left.next() else {
            return (filled, left);
        };
        *place = byte;
        filled += 1;
    }
    (filled, left)
}

#[inline]
fn digit(bit: bool) -> u8
    ensures { result ≡ digit_of bit }
{
    // No branch: the branch predictor can't predict a bit of data.
    b'0' + u8::from(bit)
}

impl Iterator for ItemBytes {
    type Item = u8;

    ghost next_gives = { YieldsFirst item_bytes_left };

    ghost remaining = { item_count item_bytes_left };

    #[inline]
    fn next(&mut self) -> Option<u8> {
        if let Some(bit) = self.left.take_bit() {
            return Some(digit(bit));
        }
        if self.unended {
            self.unended = false;
            return Some(b'\n');
        }
        None
    }
}
