//! Prints a trace or a capture from its text: the engine of `swd decode` with an option.
#![tactic(auto)]

mod accesses_printer;
mod items;
pub mod laws;
mod parts;
mod printer;
mod printing;
mod queue;
mod reading;
mod source;

pub use accesses_printer::AccessesPrinter;
pub use items::print_items;
pub use parts::{PartReader, PartSink, read_parts};
pub use printing::print_capture;
pub use reading::Reading;
pub use source::Source;
