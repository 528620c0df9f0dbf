//! A capture that may begin anywhere, line by line.
ghost use Rattle.std.specs.Prelude.{◌≡◌, ◌++◌, List, OnOk, false, true};
ghost use Rattle.swd_resync.specs.declared.part.Part.{Part};
ghost use Rattle.swd_capture.specs.declared.printed.LineForm.{LineForm as Form};
ghost use Rattle.swd_capture.specs.Printing.{capture_printout};
ghost use Rattle.swd_capture_text.specs.Captures.{CaptureTextReadsAs};

use swd_capture::{LineForm, Printed};
use swd_capture_text::{Reading, print_capture};
use swd_text::DecodeFault;

/// Appends a line for each item and each skip of a capture, with its place and the names of its registers.
pub fn lines(mut text: &[u8], listing: &mut Vec<u8>) -> Result<(), DecodeFault>
    ensures { let form : Form = record { places = true; names = true } in OnOk result ((parts : List Part)
        × CaptureTextReadsAs (Reading.Capture false) text.now parts
        × (listing.new.items ≡ listing.old.items ++ capture_printout (Printed.Lines form) parts)) }
{
    let reading = Reading::Capture { over: false };
    let form = LineForm {
        places: true,
        names: true,
    };
    print_capture(reading, Printed::Lines(form), &mut text, listing)
}
