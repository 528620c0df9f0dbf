//! Properties of the output. The functions do nothing: their contracts state the properties.
ghost use Rattle.std.specs.Prelude.{◌≡◌, Bool, List};
ghost use Rattle.swd_trace.specs.Reading.{reading_of};
ghost use Rattle.swd_resync.specs.AsItems.{resync_items};
ghost use Rattle.swd_capture_text.specs.declared.reading.Reading.TheVariants.{Trace};
ghost use Rattle.swd_capture_text.specs.Captures.{CaptureTextsAreRead};
ghost use Rattle.swd_capture_text.specs.Readings.{source_reading_parts};

/// States that the parts of a trace count as the items of its reading: for places, names and accesses.
pub fn traces_are_their_items()
    ensures { (bits : List Bool) → resync_items (source_reading_parts Trace bits) ≡ reading_of bits }
{}

/// States that the text of a trace is read as its items, if these are what their bits are read as. So
/// [`print_capture`](crate::print_capture) prints of that text what [`print_items`](crate::print_items) writes of the
/// items.
pub fn texts_are_their_items()
    ensures { CaptureTextsAreRead }
{}
