//! Worked captures: their parts, what is printed and drawn of them; at ends that fail, and cut off at each byte.
mod access_faults;
mod captures;
mod drawings;
mod drawn;
mod expect;
mod part_rows;
mod parts;
mod phase_rows;
mod printed;

use std::alloc::Global;
use std::test::Fail;
use swd_capture::{LineForm, Printed};
use swd_text::encode_text;

const LINES: Printed = Printed::Lines(LineForm {
    places: false,
    names: false,
});

const PLACES: Printed = Printed::Lines(LineForm {
    places: true,
    names: false,
});

const NAMES: Printed = Printed::Lines(LineForm {
    places: false,
    names: true,
});

const BOTH: Printed = Printed::Lines(LineForm {
    places: true,
    names: true,
});

// The trace text of a listing.
fn trace_of(alloc: Global, listing: &[u8]) -> Result<Vec<u8>, Fail> {
    let mut listing = listing;
    let mut trace = Vec::new(alloc);
    match encode_text(alloc, &mut listing, &mut trace) {
        Ok(()) => Ok(trace),
        Err(_) => Err(Fail::from("no normal listing")),
    }
}
