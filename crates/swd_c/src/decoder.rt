//! The decoder in the caller's memory.
ghost use Rattle.std.specs.Prelude.{◌≡◌, ◌+◌, ◌^◌, ◌<◌, ◌≤◌, ◌++◌, [], Bool, List, false, IsTrue};
ghost use Rattle.swd_bits.specs.Bits.{low_bits};
ghost use Rattle.swd_trace.specs.declared.item.Item.{Item as ItemType};
ghost use Rattle.swd_trace.specs.Decided.{IsDecided, DecidesNoItem};
ghost use Rattle.swd_trace.specs.DecoderNumbers.{DecoderFieldsHaveRead, IsDecoder, rest_in};
ghost use Rattle.swd_trace.specs.Reading.{reading_of};
ghost use Rattle.swd_c.specs.Decoders.{CApiDecoderGaveItem, CApiDecoderGaveLast};

use crate::item::SwdItem;
use swd_trace::{Decoder, DecoderFields};

/// Makes a decoder before its first bit.
#[unsafe(no_mangle)]
pub extern "C" fn swd_decoder_new(decoder: &mut DecoderFields)
    ensures law { (more : List Bool) → rest_in decoder.new more ≡ reading_of more }
    ensures is { IsDecoder decoder.new }
    ensures fed { decoder.new.fed ≡ 0 }
{
    *decoder = Decoder::new().fields();
}

/// Takes one or more of the lowest `count` bits of `bits`, the first in time least significant. Returns how many it
/// took: the first ones.
///
/// Returns 0 only for one of these reasons: the fields are those of no decoder; an item is due; `count` is 0 or above
/// 64; the number of bits taken so far plus `count` would exceed 2^64 - 1. The fields are unchanged then.
#[unsafe(no_mangle)]
pub extern "C" fn swd_decoder_take(decoder: &mut DecoderFields, bits: u64, count: u8) -> u8
    ensures law { 0 < result → (more : List Bool)
        → rest_in decoder.new more ≡ rest_in decoder.old (low_bits result bits ++ more) }
    ensures is { 0 < result → IsDecoder decoder.new }
    ensures takes { IsDecoder decoder.old → DecidesNoItem (rest_in decoder.old) → 0 < count → count ≤ 64
        → decoder.old.fed + count < 2 ^ 64 → 0 < result }
    ensures most { result ≤ count }
    ensures fed { decoder.new.fed ≡ decoder.old.fed + result }
    ensures same { result ≡ 0 → decoder.new ≡ decoder.old }
{
    let Some(mut now) = decoder.decoder() else {
        return 0;
    };
    if now.due().is_some() {
        return 0;
    }
    if count == 0 || count > 64 || now.fed() > u64::MAX - u64::from(count) {
        return 0;
    }
    let taken = now.take_bits(bits, count);
    *decoder = now.fields();
    taken
}

/// Takes the next decided item, and returns whether there was one. Returns false only if no item is decided yet or the
/// fields are those of no decoder. Fields and item are unchanged then.
#[unsafe(no_mangle)]
pub extern "C" fn swd_decoder_due(decoder: &mut DecoderFields, item: &mut SwdItem) -> bool
    ensures item { IsTrue result → CApiDecoderGaveItem decoder.old decoder.new item.new }
    ensures none { result ≡ false → IsDecoder decoder.old → DecidesNoItem (rest_in decoder.old) }
    ensures decided { result ≡ false → IsDecoder decoder.old → (bits : List Bool) (items : List ItemType)
        → DecoderFieldsHaveRead decoder.old bits items → IsDecided bits items }
    ensures same { result ≡ false → decoder.new ≡ decoder.old }
    ensures item_same { result ≡ false → item.new ≡ item.old }
{
    let Some(mut now) = decoder.decoder() else {
        return false;
    };
    let Some(due) = now.due() else {
        return false;
    };
    *item = SwdItem::of(&due);
    *decoder = now.fields();
    true
}

/// Takes the next item of a trace that ends here, and returns whether there was one. Returns false only if none is left
/// or the fields are those of no decoder. Fields and item are unchanged then.
#[unsafe(no_mangle)]
pub extern "C" fn swd_decoder_last(decoder: &mut DecoderFields, item: &mut SwdItem) -> bool
    ensures item { IsTrue result → CApiDecoderGaveLast decoder.old decoder.new item.new }
    ensures none { result ≡ false → IsDecoder decoder.old → rest_in decoder.old [] ≡ [] }
    ensures same { result ≡ false → decoder.new ≡ decoder.old }
    ensures item_same { result ≡ false → item.new ≡ item.old }
{
    let Some(mut now) = decoder.decoder() else {
        return false;
    };
    let Some(last) = now.last() else {
        return false;
    };
    *item = SwdItem::of(&last);
    *decoder = now.fields();
    true
}
