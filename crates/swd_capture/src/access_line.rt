//! Formats the lines of accesses and gaps, on the stack.
ghost use Rattle.std.specs.Prelude.{◌≡◌, ◌+◌, ◌≤◌, ◌++◌, ◌∷◌, []};
ghost use Rattle.std.specs.Fmt.{decimal};
ghost use Rattle.arrayvec.specs.ArrayString.{array_string_len};
ghost use Rattle.swd_capture.specs.Accesses.{observer_text_access, observer_text_gap, observer_text_word};

use arrayvec::ArrayString;
use swd_bits::push_word;
use swd_observer::{How, ObservedAccess};

/// The most bytes of a line, with its line feed.
pub(crate) const LONGEST: usize = 46;

/// A line with its line feed.
pub(crate) type Line = ArrayString<LONGEST>;

/// Returns the line of an access: `@PLACE r ADDR WORD`, or with `w` for a write. ` may` or ` not` follows if it may
/// not have taken effect, or didn't.
pub(crate) fn line_of(told: &ObservedAccess) -> Line
    ensures bytes { result.bytes ≡ observer_text_access told.now ++ 10 ∷ [] }
{
    let mut line = Line::new();
    push_place(&mut line, told.place);
    line.push_str(if told.read { " r " } else { " w " });
    push_known(&mut line, told.addr);
    line.push_str(" ");
    push_known(&mut line, told.word);
    line.push_str(match told.how {
        How::Took => "\n",
        How::May => " may\n",
        How::Not => " not\n",
    });
    line
}

/// Returns the line of a gap: `@PLACE gap`.
pub(crate) fn line_of_gap(place: u64) -> Line
    ensures bytes { result.bytes ≡ observer_text_gap place ++ 10 ∷ [] }
{
    let mut line = Line::new();
    push_place(&mut line, place);
    line.push_str(" gap\n");
    line
}

fn push_place(line: &mut Line, place: u64)
    requires { array_string_len line.old + 21 ≤ LONGEST }
    ensures bytes { line.new.bytes ≡ line.old.bytes ++ (64 ∷ decimal place) }
    ensures len { array_string_len line.new ≤ array_string_len line.old + 21 }
{
    let mut digits = itoa::Buffer::new();
    line.push_str("@");
    line.push_str(digits.format(place));
}

// Appends eight hexadecimal digits, or eight question marks for an unknown word.
fn push_known(line: &mut Line, word: Option<u32>)
    requires { array_string_len line.old + 8 ≤ LONGEST }
    ensures bytes { line.new.bytes ≡ line.old.bytes ++ observer_text_word word }
    ensures len { array_string_len line.new ≡ array_string_len line.old + 8 }
{
    match word {
        Some(word) => push_word(line, word),
        None => line.push_str("????????"),
    }
}
