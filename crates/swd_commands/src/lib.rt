//! Carries out the program `swd`: makes the one call of the command that its arguments are, and returns the status. The
//! caller passes the standard streams, and the machine's files and clock.
#![tactic(auto)]

mod arguments;
mod character;
mod check;
mod conform;
mod conversion;
mod probes;
mod program;
mod target;
mod usage;

pub use arguments::run_arguments;
pub use program::run_words;
