//! Prints the accesses that a trace shows.
ghost use Rattle.swd_capture_text.specs.Captures.{accesses_printed};

use crate::items::print_items;
use std::io::Write;
use swd_capture::Printed;
use swd_observer::TraceStart;
use swd_text::ItemsPrinter;
use swd_trace::Item;

/// Prints the accesses that the items of a trace show, as `swd decode --accesses` does.
#[derive(Clone, Copy, Debug, PartialEq, Eq)]
pub struct AccessesPrinter {
    /// Whether the target begins in its reset state, as with `--made`. Otherwise nothing is known of it at first.
    pub made: bool,
}

impl ItemsPrinter for AccessesPrinter {
    ghost text = { accesses_printed };

    fn print<W: Write>(&self, writer: &mut W, items: &[Item]) -> Result<(), u64> {
        let start = if self.made {
            TraceStart::Made
        } else {
            TraceStart::Any
        };
        print_items(Printed::Accesses { start }, writer, items)
    }
}
