//! The lines of two parts, with their places and their registers' names.
ghost use Rattle.std.specs.Prelude.{◌≡◌, [], ◌∷◌, ◌++◌, true};
ghost use Rattle.swd_capture.specs.declared.printed.LineForm.{LineForm as Form};
ghost use Rattle.swd_capture.specs.Printing.{capture_printed_entry};

use arrayvec::ArrayString;
use swd_capture::{LineForm, Printed, Teller};
use swd_resync::Part;

/// Returns the lines of the first two parts of a trace.
pub fn lines(first: &Part, second: &Part) -> ArrayString<1024>
    ensures { let form : Form = record { places = true; names = true } in result.bytes
        ≡ capture_printed_entry (Printed.Lines form) [] first.now
        ++ capture_printed_entry (Printed.Lines form) (first.now ∷ []) second.now }
{
    let form = LineForm {
        places: true,
        names: true,
    };
    let mut teller = Teller::new(Printed::Lines(form));
    let mut text = ArrayString::new();
    teller.tell(first, &mut text);
    teller.tell(second, &mut text);
    text
}
