//! Appends pieces of SVG text.
ghost use Rattle.std.specs.Prelude.{◌≡◌, ◌+◌, ◌*◌, ◌<◌, ◌≤◌, ◌++◌, length};
ghost use Rattle.std.specs.Fmt.{decimal};
ghost use Rattle.arrayvec.specs.ArrayString.{array_string_len};
ghost use Rattle.swd_bits.specs.BitLists.{tx_bits_of};
ghost use Rattle.swd_draw.specs.Marks.{ack_value, box_text, field_wave, label_text, level_piece, rect_text, times};
ghost use Rattle.swd_draw.specs.Marks.{box_title, value_text, wave};

use crate::field::{Name, Shade};
use arrayvec::ArrayString;
use swd_bits::{TxBits, push_word};
use swd_trace::push_bits;

/// The most bytes of a box with its name and its value.
pub(crate) const LONGEST_BOX: usize = 320;

/// The most bytes of a wave in one bit.
pub(crate) const LONGEST_PIECE: usize = 12;

/// The most bits that a value shows.
pub(crate) const MOST_DIGITS: u8 = 63;

/// The value in a box.
pub(crate) type Value = ArrayString<64>;

/// Appends a number.
pub(crate) fn push_number<const N: usize>(text: &mut ArrayString<N>, number: u64)
    requires { array_string_len text.old + 20 ≤ N }
    ensures bytes { text.new.bytes ≡ text.old.bytes ++ decimal number }
    ensures len { array_string_len text.new ≤ array_string_len text.old + 20 }
{
    let mut digits = itoa::Buffer::new();
    text.push_str(digits.format(number));
}

// Appends a rectangle.
#[tactic(auto, unfolding(crate::specs::Marks::rect_text))]
fn push_rect<const N: usize>(text: &mut ArrayString<N>, x: u64, width: u64, shade: Shade)
    requires { array_string_len text.old + 90 ≤ N }
    ensures bytes { text.new.bytes ≡ text.old.bytes ++ rect_text x width shade }
    ensures len { array_string_len text.new ≤ array_string_len text.old + 90 }
{
    text.push_str("<rect x='");
    push_number(text, x);
    text.push_str("' y='74' width='");
    push_number(text, width);
    text.push_str("' height='50' class='");
    text.push_str(shade.class());
    text.push_str("'/>");
}

// Appends a text at a place: `start` and `rest` are the element around the place.
#[tactic(auto, unfolding(crate::specs::Marks::label_text))]
fn push_label<const N: usize>(
    text: &mut ArrayString<N>,
    start: &str,
    x: u64,
    rest: &str,
    label: &str,
)
    requires room { array_string_len text.old + length start.now + length rest.now + length label.now + 27 ≤ N }
    ensures bytes { text.new.bytes ≡ text.old.bytes ++ label_text start.now x rest.now label.now }
    ensures len { array_string_len text.new
        ≤ array_string_len text.old + length start.now + length rest.now + length label.now + 27 }
{
    text.push_str(start);
    push_number(text, x);
    text.push_str(rest);
    text.push_str(label);
    text.push_str("</text>");
}

// Appends the name over `len` bits.
fn push_title<const N: usize>(text: &mut ArrayString<N>, x: u64, len: u8, name: &str)
    requires short { length name.now ≤ 16 }
    requires within { x < 65536 }
    requires room { array_string_len text.old + 90 ≤ N }
    ensures bytes { text.new.bytes ≡ text.old.bytes ++ box_title x len name.now }
    ensures len { array_string_len text.new ≤ array_string_len text.old + 90 }
{
    if len < 3 {
        push_label(
            text,
            "<text transform='translate(",
            x + 3,
            ",110)rotate(-90)'>",
            name,
        );
    } else {
        push_label(text, "<text x='", x, "' y='88' class='m'>", name);
    }
}

/// Appends a box over `len` bits from the bit `at` on, with its name and its value, and a line feed.
#[tactic(auto, unfolding(crate::specs::Marks::box_text))]
pub(crate) fn push_box<const N: usize>(
    text: &mut ArrayString<N>,
    at: u8,
    len: u8,
    shade: Shade,
    name: &str,
    value: &str,
)
    requires name { length name.now ≤ 16 }
    requires value { length value.now ≤ 64 }
    requires room { array_string_len text.old + LONGEST_BOX ≤ N }
    ensures bytes { text.new.bytes ≡ text.old.bytes ++ box_text at len shade name.now value.now }
    ensures len { array_string_len text.new ≤ array_string_len text.old + LONGEST_BOX }
{
    let left = 64 + 12 * u64::from(at);
    let middle = left + 6 * u64::from(len);
    push_rect(text, left, 12 * u64::from(len), shade);
    push_title(text, middle, len, name);
    push_label(text, "<text x='", middle, "' y='120' class='m'>", value);
    text.push_str("\n");
}

/// Appends a piece of a path `n` times.
pub(crate) fn push_times<const N: usize>(text: &mut ArrayString<N>, piece: &str, n: u8)
    requires short { length piece.now ≤ LONGEST_PIECE }
    requires room { array_string_len text.old + LONGEST_PIECE * n ≤ N }
    ensures bytes { text.new.bytes ≡ text.old.bytes ++ times n piece.now }
    ensures len { array_string_len text.new ≤ array_string_len text.old + LONGEST_PIECE * n }
{
    for _ in 0..n {
        text.push_str(piece);
    }
}

#[tactic(auto, unfolding(crate::specs::Marks::level_piece))]
fn level_text(bit: bool) -> &'static str
    ensures bytes { result.now ≡ level_piece bit }
    ensures len { length result.now ≤ LONGEST_PIECE }
{
    if bit { "V48h12" } else { "V64h12" }
}

// Appends the wave of bits.
fn push_wave<const N: usize>(text: &mut ArrayString<N>, bits: TxBits)
    requires { array_string_len text.old + LONGEST_PIECE * bits.len ≤ N }
    ensures bytes { text.new.bytes ≡ text.old.bytes ++ wave (tx_bits_of bits) }
    ensures len { array_string_len text.new ≤ array_string_len text.old + LONGEST_PIECE * bits.len }
{
    let mut rest = bits.bits;
    for _ in 0..bits.len {
        text.push_str(level_text(rest % 2 == 1));
        rest /= 2;
    }
}

/// Appends the wave of a field.
#[tactic(auto, unfolding(crate::specs::Marks::between_piece))]
pub(crate) fn push_field_wave<const N: usize>(text: &mut ArrayString<N>, shade: Shade, bits: TxBits)
    requires { array_string_len text.old + LONGEST_PIECE * bits.len ≤ N }
    ensures bytes { text.new.bytes ≡ text.old.bytes ++ field_wave shade bits }
    ensures len { array_string_len text.new ≤ array_string_len text.old + LONGEST_PIECE * bits.len }
{
    match shade {
        Shade::Undriven | Shade::Hidden => push_times(text, "V56h12", bits.len),
        Shade::Host | Shade::Target | Shade::Wrong | Shade::Unknown => push_wave(text, bits),
    }
}

// Appends the name of an acknowledgement, or its bits.
#[tactic(auto, unfolding(crate::specs::Marks::ack_value))]
fn push_ack(text: &mut Value, bits: TxBits)
    requires short { bits.len ≤ MOST_DIGITS }
    requires room { array_string_len text.old ≡ 0 }
    ensures { text.new.bytes ≡ text.old.bytes ++ ack_value bits }
{
    match bits.bits {
        1 => text.push_str("OK"),
        2 => text.push_str("WAIT"),
        4 => text.push_str("FAULT"),
        _ => push_bits(text, bits),
    }
}

/// Returns the value of a field.
#[tactic(auto, unfolding(crate::specs::Marks::value_text))]
pub(crate) fn value_of(name: Name, bits: TxBits) -> Value
    requires { bits.len ≤ MOST_DIGITS }
    ensures { result.bytes ≡ value_text name bits }
{
    let mut text = Value::new();
    match name {
        Name::Turnaround | Name::Ignored => {}
        Name::Ack => push_ack(&mut text, bits),
        Name::ReadData | Name::WriteData => push_word(&mut text, (bits.bits % (1 << 32)) as u32),
        _ => push_bits(&mut text, bits),
    }
    text
}
