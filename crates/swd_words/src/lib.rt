//! Parses the command line of `swd`: its commands with their arguments, the help, and the usage errors.
#![tactic(auto)]

mod argument;
mod check_words;
mod conform_words;
mod core_words;
mod decode_words;
mod draw_words;
mod fault;
mod format_words;
mod image_words;
mod info_words;
mod lead_words;
mod memory_words;
mod target_words;
mod usage;
mod words;

pub use fault::LineFault;
pub use usage::{commands_line, usage_line};
pub use words::line;
