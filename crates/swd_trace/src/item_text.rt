//! The listing line of an item, on the stack.
ghost use Rattle.std.specs.Prelude.{◌≡◌, ◌+◌, ◌-◌, ◌<◌, ◌≤◌, ◌++◌, ◌∷◌, [], codes, map};
ghost use Rattle.std.specs.Fmt.{decimal};
ghost use Rattle.arrayvec.specs.ArrayString.{array_string_len};
ghost use Rattle.swd_bits.specs.BitLists.{tx_bits_of};
ghost use Rattle.swd_trace.specs.Texts.{trace_digit, item_line};

use crate::item::Item;
use arrayvec::ArrayString;
use std::fmt;
use swd_bits::TxBits;

/// An upper bound on the length of an item's listing line in bytes, without the line feed.
pub const LONGEST_LINE: usize = 264;

/// The listing line of an item.
pub type ItemLine = ArrayString<LONGEST_LINE>;

impl Item {
    /// Returns the item's listing line, without the line feed, as in `idle 8` or `dp 0 read ok 2ba01477`.
    ///
    /// `Display` prints the same line. This call can't fail, and its contract gives the bytes.
    pub fn line(&self) -> ItemLine
        ensures { result.bytes ≡ item_line self.now }
    {
        let mut text = ItemLine::new();
        self.push_line(&mut text);
        text
    }

    /// Appends the item's listing line, without the line feed.
    pub fn push_line<const N: usize>(&self, text: &mut ArrayString<N>)
        requires { array_string_len text.old + LONGEST_LINE ≤ N }
        ensures bytes { text.new.bytes ≡ text.old.bytes ++ item_line self.now }
        ensures len { array_string_len text.new ≤ array_string_len text.old + LONGEST_LINE }
    {
        match self {
            Item::Reset(count) => {
                text.push_str("reset ");
                push_count(text, *count);
            }
            Item::Switch => text.push_str("switch"),
            Item::Idle(count) => {
                text.push_str("idle ");
                push_count(text, *count);
            }
            Item::Tx(tx) => tx.push_line(text),
            Item::Junk(bit) => {
                text.push_str("junk ");
                text.push_str(bit_text(*bit));
            }
            Item::Cut(bits) => push_cut(text, *bits),
        }
    }
}

impl fmt::Display for Item {
    ghost use Rattle.std.specs.Prelude.{Some};

    ghost output = { λ item. Some (item_line item) };

    fn fmt<W: fmt::Write>(&self, f: &mut fmt::Formatter<W>) -> fmt::Result {
        f.write_str(self.line().as_str())
    }
}

fn push_count<const N: usize>(text: &mut ArrayString<N>, count: u64)
    requires { array_string_len text.old + 20 ≤ N }
    ensures bytes { text.new.bytes ≡ text.old.bytes ++ decimal count }
    ensures len { array_string_len text.new ≤ array_string_len text.old + 20 }
{
    let mut digits = itoa::Buffer::new();
    text.push_str(digits.format(count));
}

fn push_cut<const N: usize>(text: &mut ArrayString<N>, bits: TxBits)
    requires { array_string_len text.old + 259 ≤ N }
    ensures bytes { text.new.bytes ≡ text.old.bytes ++ (codes "cut " ++ map trace_digit (tx_bits_of bits)) }
    ensures len { array_string_len text.new ≤ array_string_len text.old + 259 }
{
    text.push_str("cut ");
    push_bits(text, bits);
}

fn bit_text(bit: bool) -> &'static str
    ensures { result.now ≡ trace_digit bit ∷ [] }
{
    if bit { "1" } else { "0" }
}

/// Appends bits as digits, the first one first.
pub fn push_bits<const N: usize>(text: &mut ArrayString<N>, bits: TxBits)
    requires { array_string_len text.old + bits.len ≤ N }
    ensures bytes { text.new.bytes ≡ text.old.bytes ++ map trace_digit (tx_bits_of bits) }
    ensures len { array_string_len text.new ≡ array_string_len text.old + bits.len }
{
    let mut rest = bits.bits;
    for _ in 0..bits.len {
        text.push_str(bit_text(rest % 2 == 1));
        rest /= 2;
    }
}
