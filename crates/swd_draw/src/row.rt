//! The row of a part.
ghost use Rattle.std.specs.Prelude.{◌≡◌, ◌+◌, ◌≤◌, ◌++◌, ◌∷◌, [], Bool, List, length};
ghost use Rattle.arrayvec.specs.ArrayString.{array_string_len};
ghost use Rattle.swd_resync.specs.declared.part.Part.{Part};
ghost use Rattle.swd_capture.specs.Tellers.{IsCaptureTellerAfter};
ghost use Rattle.swd_trace.specs.Reading.{switch_item};
ghost use Rattle.swd_draw.specs.Fields.{drawn_field, drawn_ignored_fields, drawn_tx_fields};
ghost use Rattle.swd_draw.specs.Rows.{drawn_cut_field, fields_body, drawn_item_body, drawn_part_body, drawn_line_form};
ghost use Rattle.swd_draw.specs.Rows.{drawing_row, row_end, row_head};
ghost use Rattle.swd_draw.specs.Strips.{strip_text};

use crate::field::{Field, Name, Shade};
use crate::pieces::{push_number, push_times};
use crate::run::{LONGEST_RUN, push_run};
use crate::strip::Strip;
use crate::tx_strip::{add_ignored, add_tx, one_bit};
use arrayvec::ArrayString;
use swd_bits::{SWITCH, SWITCH_BITS, Tx, TxBits};
use swd_capture::Teller;
use swd_resync::{PHASE_BITS, Part};
use swd_trace::Item;

// The most bytes of a row.
const ROOM: usize = 8192;

// The most bytes of the waves and boxes of a row.
const LONGEST_BODY: usize = 7000;

/// The text of a row.
pub(crate) type RowText = ArrayString<ROOM>;

// Appends the waves of SWCLK and SWDIO, and the boxes.
#[tactic(auto, unfolding(crate::specs::Marks::clock_piece, crate::specs::Strips::strip_text))]
fn push_strip(text: &mut RowText, strip: &Strip)
    requires short { strip.now.at ≤ 100 }
    requires few { strip.now.count ≤ 14 }
    requires room { array_string_len text.old + LONGEST_BODY ≤ ROOM }
    ensures bytes { text.new.bytes ≡ text.old.bytes ++ strip_text strip.now }
    ensures len { array_string_len text.new ≤ array_string_len text.old + LONGEST_BODY }
{
    text.push_str("<path d='M58,40h6");
    push_times(text, "h6v-16h6v16", strip.at);
    text.push_str("'/><path d='M58,56h6");
    text.push_str(strip.wave.as_str());
    text.push_str("'/>");
    text.push_str(strip.boxes.as_str());
}

// Appends the waves and the box of one field.
fn push_field(text: &mut RowText, field: Field)
    requires len { field.bits.len ≤ 49 }
    requires room { array_string_len text.old + LONGEST_BODY ≤ ROOM }
    ensures bytes { text.new.bytes ≡ text.old.bytes ++ fields_body (field ∷ []) }
    ensures len { array_string_len text.new ≤ array_string_len text.old + LONGEST_BODY }
{
    let mut strip = Strip::new();
    strip.add(field);
    push_strip(text, &strip);
}

// Appends the waves and the boxes of a transaction, and of a data phase of `ignored` bits behind it.
fn push_tx(text: &mut RowText, tx: &Tx, ignored: u8)
    requires len { ignored ≤ 33 }
    requires room { array_string_len text.old + LONGEST_BODY ≤ ROOM }
    ensures bytes { text.new.bytes ≡ text.old.bytes
        ++ fields_body (drawn_tx_fields tx.now ++ drawn_ignored_fields ignored) }
    ensures len { array_string_len text.new ≤ array_string_len text.old + LONGEST_BODY }
{
    let mut strip = Strip::new();
    add_tx(&mut strip, tx);
    add_ignored(&mut strip, ignored);
    push_strip(text, &strip);
}

// Returns the field of a switch sequence.
fn switch_field() -> Field
    ensures field { result ≡ drawn_field Name.Switch Shade.Host switch_item }
    ensures len { result.bits.len ≤ 49 }
{
    Field {
        name: Name::Switch,
        shade: Shade::Host,
        bits: TxBits {
            len: SWITCH_BITS,
            bits: SWITCH,
        },
    }
}

// Returns the field of a cut end.
fn cut(bits: TxBits) -> Field
    ensures field { result ≡ drawn_cut_field bits }
    ensures len { result.bits.len ≤ 49 }
{
    Field {
        name: Name::Cut,
        shade: Shade::Unknown,
        bits: TxBits {
            len: bits.len.min(49),
            bits: bits.bits,
        },
    }
}

// Appends the waves and the boxes of an item.
fn push_item(text: &mut RowText, item: &Item)
    requires { array_string_len text.old + LONGEST_BODY ≤ ROOM }
    ensures bytes { text.new.bytes ≡ text.old.bytes ++ drawn_item_body item.now }
    ensures len { array_string_len text.new ≤ array_string_len text.old + LONGEST_BODY }
{
    match item {
        Item::Reset(count) => push_run(text, Name::Reset, *count),
        Item::Switch => push_field(text, switch_field()),
        Item::Idle(count) => push_run(text, Name::Idle, *count),
        Item::Tx(tx) => push_tx(text, tx, 0),
        Item::Junk(bit) => push_field(text, one_bit(Name::Junk, Shade::Unknown, *bit)),
        Item::Cut(bits) => push_field(text, cut(*bits)),
    }
}

// Appends the waves and the boxes of a part.
fn push_body(text: &mut RowText, part: &Part)
    requires { array_string_len text.old + LONGEST_BODY ≤ ROOM }
    ensures bytes { text.new.bytes ≡ text.old.bytes ++ drawn_part_body part.now }
    ensures len { array_string_len text.new ≤ array_string_len text.old + LONGEST_BODY }
{
    match part {
        Part::Item(item) => push_item(text, item),
        Part::Phased(tx) => push_tx(text, tx, PHASE_BITS),
        Part::Skip(count) => push_run(text, Name::Skip, *count),
    }
}

// Appends the beginning of a row.
#[tactic(auto, unfolding(crate::specs::Rows::row_head))]
fn push_head(text: &mut RowText, index: usize)
    requires index { index ≤ 1000 }
    requires room { array_string_len text.old + 200 ≤ ROOM }
    ensures bytes { text.new.bytes ≡ text.old.bytes ++ row_head index }
    ensures len { array_string_len text.new ≤ array_string_len text.old + 200 }
{
    text.push_str("<g transform='translate(0,");
    push_number(text, 64 + 140 * index as u64);
    text.push_str(")'><text x='10' y='14' class='l'>");
}

/// Appends the row of the part at an index. `teller` was given the parts before it.
#[tactic(auto, unfolding(crate::specs::Rows::row_names, crate::specs::Rows::row_end))]
pub(crate) fn push_row(text: &mut RowText, teller: &mut Teller, part: &Part, index: usize)
    requires index { index ≤ 1000 }
    requires room { array_string_len text.old ≡ 0 }
    ensures after { (names : Bool) (before : List Part) → IsCaptureTellerAfter (drawn_line_form names) before teller.old
        → IsCaptureTellerAfter (drawn_line_form names) (before ++ part.now ∷ []) teller.new }
    ensures bytes { (names : Bool) (before : List Part)
        → IsCaptureTellerAfter (drawn_line_form names) before teller.old
        → index ≡ length before
        → text.new.bytes ≡ text.old.bytes ++ drawing_row names before part.now }
{
    push_head(text, index);
    teller.tell(part, text);
    text.push_str("</text><text x='10' y='36'>SWCLK</text><text x='10' y='60'>SWDIO</text>");
    push_body(text, part);
    text.push_str("</g>\n");
}
