//! The beginning of a drawing.
ghost use Rattle.std.specs.Prelude.{◌≡◌, ◌+◌, ◌≤◌, ◌++◌, length};
ghost use Rattle.arrayvec.specs.ArrayString.{array_string_len};
ghost use Rattle.swd_draw.specs.Drawings.{caption, caption_end, head, key_text, legend, opening, style_text};

use crate::field::Shade;
use crate::pieces::push_number;
use crate::row::RowText;

// Appends the opening of the document, of this height.
#[tactic(auto, unfolding(crate::specs::Drawings::opening))]
fn push_opening(text: &mut RowText, height: u64)
    requires { array_string_len text.old + 200 ≤ 8192 }
    ensures bytes { text.new.bytes ≡ text.old.bytes ++ opening height }
    ensures len { array_string_len text.new ≤ array_string_len text.old + 200 }
{
    text.push_str("<svg xmlns='http://www.w3.org/2000/svg' version='1.1' width='672' height='");
    push_number(text, height);
    text.push_str("' viewBox='0 0 672 ");
    push_number(text, height);
    text.push_str("'>\n");
}

// Appends the style: fonts, lines, and the colour of each class of boxes.
#[tactic(auto, unfolding(crate::specs::Drawings::style_text))]
fn push_style(text: &mut RowText)
    requires { array_string_len text.old + 400 ≤ 8192 }
    ensures bytes { text.new.bytes ≡ text.old.bytes ++ style_text }
    ensures len { array_string_len text.new ≤ array_string_len text.old + 400 }
{
    text.push_str(
        "<style type='text/css'>text{font-family:monospace;font-size:9px}.l{font-size:12px}",
    );
    text.push_str(".m{text-anchor:middle}path{fill:none;stroke:#000}rect{stroke:#000}");
    text.push_str(".h{fill:#cfe2f3}.t{fill:#d9ead3}.u{fill:#ccc}.w{fill:#f4a6a0}.n{fill:#fff}");
    text.push_str(".p{fill:#fff;stroke:none}</style><rect width='672' height='100%' class='p'/>\n");
}

// Appends the key of a class of boxes.
#[tactic(auto, unfolding(crate::specs::Drawings::key_text))]
fn push_key(text: &mut RowText, x: u64, shade: Shade, meaning: &str)
    requires x { x ≤ 1000 }
    requires short { length meaning.now ≤ 40 }
    requires room { array_string_len text.old + 200 ≤ 8192 }
    ensures bytes { text.new.bytes ≡ text.old.bytes ++ key_text x shade meaning.now }
    ensures len { array_string_len text.new ≤ array_string_len text.old + 200 }
{
    text.push_str("<rect x='");
    push_number(text, x);
    text.push_str("' y='28' width='12' height='12' class='");
    text.push_str(shade.class());
    text.push_str("'/><text x='");
    push_number(text, x + 18);
    text.push_str("' y='37'>");
    text.push_str(meaning);
    text.push_str("</text>");
}

// Appends the meanings of the colours.
#[tactic(auto, unfolding(crate::specs::Drawings::legend))]
fn push_legend(text: &mut RowText)
    requires { array_string_len text.old + 1100 ≤ 8192 }
    ensures bytes { text.new.bytes ≡ text.old.bytes ++ legend }
    ensures len { array_string_len text.new ≤ array_string_len text.old + 1100 }
{
    push_key(text, 10, Shade::Host, "driven by the host");
    push_key(text, 142, Shade::Target, "driven by the target");
    push_key(text, 286, Shade::Undriven, "turnaround: not driven");
    push_key(text, 440, Shade::Wrong, "wrong parity");
    push_key(text, 546, Shade::Unknown, "not known");
    text.push_str("\n");
}

// Appends how many items are left out, or that these are all.
#[tactic(auto, unfolding(crate::specs::Drawings::caption_end))]
fn push_caption_end(text: &mut RowText, left_out: u64)
    requires { array_string_len text.old + 100 ≤ 8192 }
    ensures bytes { text.new.bytes ≡ text.old.bytes ++ caption_end left_out }
    ensures len { array_string_len text.new ≤ array_string_len text.old + 100 }
{
    if left_out == 0 {
        text.push_str(". The trace ends here.</text>");
    } else {
        text.push_str(". Items left out: ");
        push_number(text, left_out);
        text.push_str(".</text>");
    }
}

// Appends the line that says how many items are drawn, and how many are left out.
#[tactic(auto, unfolding(crate::specs::Drawings::caption))]
fn push_caption(text: &mut RowText, count: u64, left_out: u64)
    requires { array_string_len text.old + 200 ≤ 8192 }
    ensures bytes { text.new.bytes ≡ text.old.bytes ++ caption count left_out }
    ensures len { array_string_len text.new ≤ array_string_len text.old + 200 }
{
    text.push_str("<text x='10' y='18' class='l'>Items drawn: ");
    push_number(text, count);
    push_caption_end(text, left_out);
}

/// Appends the beginning of a drawing of `count` items. `left_out` is how many more the trace has.
#[tactic(auto, unfolding(crate::specs::Drawings::head))]
pub(crate) fn push_drawing_head(text: &mut RowText, count: usize, left_out: u64)
    requires count { count ≤ 1000 }
    requires room { array_string_len text.old ≡ 0 }
    ensures { text.new.bytes ≡ text.old.bytes ++ head count left_out }
{
    push_opening(text, 72 + 140 * count as u64);
    push_style(text);
    push_caption(text, count as u64, left_out);
    push_legend(text);
}
