//! The wave and the box of a run of equal bits, which may be long.
ghost use Rattle.std.specs.Prelude.{◌≡◌, ◌+◌, ◌<◌, ◌≤◌, ◌++◌, length};
ghost use Rattle.arrayvec.specs.ArrayString.{array_string_len};
ghost use Rattle.swd_draw.specs.Rows.{drawn_bits, level_of, run_body, run_wave, shade_of};

use crate::field::{Name, Shade};
use crate::pieces::{LONGEST_BOX, LONGEST_PIECE, Value, push_box, push_number, push_times};
use arrayvec::ArrayString;

/// The most bytes of a run.
pub(crate) const LONGEST_RUN: usize = 1000;

// The most bytes of a run's wave.
const LONGEST_RUN_WAVE: usize = 240;

// Returns how many bits wide a run is drawn.
fn drawn(count: u64) -> u8
    ensures { result ≡ drawn_bits count }
{
    if count < 17 { count as u8 } else { 16 }
}

// Appends the wave of a run, with a break if it has more bits than are drawn.
#[tactic(auto, unfolding(crate::specs::Marks::break_piece, crate::specs::Rows::run_wave))]
fn push_run_wave<const N: usize>(text: &mut ArrayString<N>, piece: &str, count: u64)
    requires short { length piece.now ≤ LONGEST_PIECE }
    requires room { array_string_len text.old + LONGEST_RUN_WAVE ≤ N }
    ensures bytes { text.new.bytes ≡ text.old.bytes ++ run_wave piece.now count }
    ensures len { array_string_len text.new ≤ array_string_len text.old + LONGEST_RUN_WAVE }
{
    if count < 17 {
        push_times(text, piece, count as u8);
    } else {
        push_times(text, piece, 7);
        text.push_str("h6l3,-6l6,12l3,-6h6");
        push_times(text, piece, 7);
    }
}

// Returns the wave of SWDIO in one bit of a run.
#[tactic(auto, unfolding(crate::specs::Rows::level_of))]
fn level(name: Name) -> &'static str
    ensures bytes { result.now ≡ level_of name }
    ensures len { length result.now ≤ LONGEST_PIECE }
{
    match name {
        Name::Reset => "V48h12",
        Name::Idle => "V64h12",
        _ => "V56h12",
    }
}

// Returns who drives the line in a run.
#[tactic(auto, unfolding(crate::specs::Rows::shade_of))]
fn shade(name: Name) -> Shade
    ensures { result ≡ shade_of name }
{
    match name {
        Name::Reset | Name::Idle => Shade::Host,
        _ => Shade::Hidden,
    }
}

/// Appends the waves and the box of a run.
#[tactic(auto, unfolding(crate::specs::Rows::run_body, crate::specs::Marks::clock_piece))]
pub(crate) fn push_run<const N: usize>(text: &mut ArrayString<N>, name: Name, count: u64)
    requires { array_string_len text.old + LONGEST_RUN ≤ N }
    ensures bytes { text.new.bytes ≡ text.old.bytes ++ run_body name count }
    ensures len { array_string_len text.new ≤ array_string_len text.old + LONGEST_RUN }
{
    let mut value = Value::new();
    push_number(&mut value, count);
    text.push_str("<path d='M58,40h6");
    push_run_wave(text, "h6v-16h6v16", count);
    text.push_str("'/><path d='M58,56h6");
    push_run_wave(text, level(name), count);
    text.push_str("'/>");
    push_box(
        text,
        0,
        drawn(count),
        shade(name),
        name.text(),
        value.as_str(),
    );
}
