//! Prints a whole trace file.
ghost use Rattle.std.specs.Prelude.{◌≡◌, List, ℕ, Option, Some, []};
ghost use Rattle.swd_capture_text.specs.Captures.{Prints};
ghost use Rattle.swd_page.specs.Pages.{page_outcome, page_printed, page_reading, page_text};

use crate::page::SwdPage;
use swd_capture::{LineForm, Printed};
use swd_capture_text::{Reading, print_capture};
use swd_observer::TraceStart;
use swd_text::{DecodeFault, TextFault};

// Returns how a trace file is read.
fn reading_of(number: u8) -> Reading
    ensures { result ≡ page_reading number }
{
    match number {
        0 => Reading::Trace,
        1 => Reading::Capture { over: false },
        _ => Reading::Capture { over: true },
    }
}

// Returns what is printed of it.
fn printed_of(number: u8) -> Printed
    ensures { result ≡ page_printed number }
{
    match number {
        0 => Printed::Lines(LineForm {
            places: true,
            names: false,
        }),
        1 => Printed::Accesses {
            start: TraceStart::Any,
        },
        _ => Printed::Accesses {
            start: TraceStart::Made,
        },
    }
}

// Returns `kind` and `number` of a page.
fn numbers_of(ended: Result<(), DecodeFault>) -> (u8, u64)
    ensures { page_outcome result.0 result.1 ≡ ended }
{
    match ended {
        Ok(()) => (0, 0),
        Err(DecodeFault::Text(TextFault::BadChar { place })) => (1, place),
        Err(DecodeFault::Text(TextFault::TooLong)) => (2, 0),
        Err(DecodeFault::Write { written }) => (3, written),
        Err(DecodeFault::Read) => (4, 0),
    }
}

/// Prints a trace file to the page, as `swd decode` does. What the page had before has no meaning.
///
/// `reading` is 0 for a trace; 1 for a capture, as with `--resync`; any other value for one with overrun detection, as
/// with `--resync --overrun`. `printed` is 0 for a line for each part, as with `--places`; 1 for a line for each
/// access, as with `--accesses`; any other value for one of a target that begins in its reset state, as with
/// `--accesses --made`.
#[unsafe(no_mangle)]
pub extern "C" fn swd_page_print(page: &mut SwdPage, text: &[u8], reading: u8, printed: u8)
    ensures prints { (left : Option (List ℕ)) × Prints (page_reading reading) (page_printed printed)
        (page_outcome page.new.kind page.new.number) (Some text.now) left (Some []) (Some (page_text page.new)) }
{
    let mut rest = text;
    page.len = 0;
    let ended = print_capture(reading_of(reading), printed_of(printed), &mut rest, page);
    let (kind, number) = numbers_of(ended);
    page.kind = kind;
    page.number = number;
}
