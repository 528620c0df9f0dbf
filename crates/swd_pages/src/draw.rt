//! A trace as a drawing.
ghost use Rattle.std.specs.Prelude.{◌≡◌, ◌++◌, List, OnOk};
ghost use Rattle.swd_resync.specs.declared.part.Part.{Part};
ghost use Rattle.swd_capture_text.specs.Captures.{CaptureTextReadsAs};
ghost use Rattle.swd_draw.specs.Drawings.{drawing as drawing_of_parts};

use swd_capture_text::Reading;
use swd_draw::{DrawnForm, draw_capture};
use swd_text::DecodeFault;

/// Appends the SVG drawing of a trace file.
pub fn drawing(mut text: &[u8], form: DrawnForm, svg: &mut Vec<u8>) -> Result<(), DecodeFault>
    ensures { OnOk result ((parts : List Part) × CaptureTextReadsAs Reading.Trace text.now parts
        × (svg.new.items ≡ svg.old.items ++ drawing_of_parts form parts)) }
{
    draw_capture(Reading::Trace, form, &mut text, svg)
}
