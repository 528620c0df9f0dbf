//! Checks whether a list of items is the reading of its own bits.
ghost use Rattle.std.specs.Prelude.{◌≡◌, ◌+◌, ◌^◌, ◌<◌, ◌≤◌, ◌++◌, [], List, Bool, length, IsTrue, IsFalse, IfSome};
ghost use Rattle.swd_trace.specs.Held.{decoder_fed, IsDecoderSettled};
ghost use Rattle.swd_trace.specs.Listed.{IsLegalItem, AreLegalItems};
ghost use Rattle.swd_trace.specs.Normality.{ListingAgrees, ListingDiffers, HasNextItem, IsListingDifference};
ghost use Rattle.swd_trace.specs.Texts.{item_bits, bits_of_items};

use crate::decoder::Decoder;
use crate::item::Item;
use crate::item_bits::ItemBits;

/// Returns the first item, from 0, at which a list and the reading of its bits differ. Returns `None` if they
/// are equal.
///
/// A decoder reads the bits, each run in one step, so the time doesn't depend on the counts.
pub(crate) fn first_difference(items: &[Item]) -> Option<usize>
    requires legal { AreLegalItems items.now }
    requires counted { length (bits_of_items items.now) < 2 ^ 64 }
    ensures tells { IsListingDifference items.now result }
    ensures within { IfSome result (λ at. at ≤ length items.now) }
{
    let mut decoder = Decoder::new();
    let mut same = 0;
    for item in items {
        if !take_item(&mut decoder, item, items, &mut same) {
            return Some(same);
        }
    }
    last_difference(decoder, items, same)
}

// Feeds an item's bits to a decoder, and returns whether the items decoded by then are the next ones of the
// list.
fn take_item(decoder: &mut Decoder, item: &Item, items: &[Item], same: &mut usize) -> bool
    requires settled { IsDecoderSettled decoder.old }
    requires legal { IsLegalItem item.now }
    requires room { decoder_fed decoder.old + length (item_bits item.now) < 2 ^ 64 }
    ensures yes { IsTrue result → (ahead : List Bool)
        → ListingAgrees items.now same.old decoder.old (item_bits item.now ++ ahead)
        → ListingAgrees items.now same.new decoder.new ahead }
    ensures settled { IsTrue result → IsDecoderSettled decoder.new }
    ensures fed { IsTrue result → decoder_fed decoder.new ≡ decoder_fed decoder.old + length (item_bits item.now) }
    ensures no { IsFalse result → (ahead : List Bool)
        → ListingAgrees items.now same.old decoder.old (item_bits item.now ++ ahead)
        → ListingDiffers items.now same.new }
{
    let mut left = ItemBits::of(item);
    while !left.is_empty() {
        left.feed(decoder);
        if !take_due(decoder, items, same) {
            return false;
        }
    }
    true
}

// Takes the items that are due, and returns whether they are the next ones of the list.
fn take_due(decoder: &mut Decoder, items: &[Item], same: &mut usize) -> bool
    ensures yes { IsTrue result → (ahead : List Bool) → ListingAgrees items.now same.old decoder.old ahead
        → ListingAgrees items.now same.new decoder.new ahead }
    ensures settled { IsTrue result → IsDecoderSettled decoder.new }
    ensures fed { decoder_fed decoder.new ≡ decoder_fed decoder.old }
    ensures no { IsFalse result → (ahead : List Bool) → ListingAgrees items.now same.old decoder.old ahead
        → ListingDiffers items.now same.new }
{
    while let Some(item) = decoder.due() {
        if !has_next(items, *same, &item) {
            return false;
        }
        *same += 1;
    }
    true
}

// Does the same at the end of the trace, where the first `same` items are equal.
fn last_difference(mut decoder: Decoder, items: &[Item], same: usize) -> Option<usize>
    requires { ListingAgrees items.now same decoder [] }
    ensures tells { IsListingDifference items.now result }
    ensures within { IfSome result (λ at. at ≤ length items.now) }
{
    let mut same = same;
    while let Some(item) = decoder.last() {
        if !has_next(items, same, &item) {
            return Some(same);
        }
        same += 1;
    }
    if same == items.len() {
        None
    } else {
        Some(same)
    }
}

// Returns whether `item` follows the first `same` items of the list.
fn has_next(items: &[Item], same: usize, item: &Item) -> bool
    ensures yes { IsTrue result → HasNextItem items.now same item.now }
    ensures no { IsFalse result → HasNextItem items.now same item.now → ⊥ }
{
    same < items.len() && is_same(&items[same], item)
}

fn is_same(item: &Item, other: &Item) -> bool
    ensures yes { IsTrue result → item.now ≡ other.now }
    ensures no { IsFalse result → item.now ≡ other.now → ⊥ }
{
    *item == *other
}
