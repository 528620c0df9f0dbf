//! Prints a trace or a capture in one of three forms: a line for each part, the counts of the kinds of parts, or the
//! accesses of the target's memory. A line may have the part's place, the register's name, and the flags of its word.
#![tactic(auto)]

mod access_line;
mod flags;
mod held_back;
mod junk_line;
mod laws;
mod names;
mod printed;
mod table;
mod teller;
mod watching;

pub use held_back::{DueParts, HeldBack};
pub use laws::{rows_are_named_by_kind, skips_are_forgotten, traces_are_observed};
pub use printed::{LineForm, Printed};
pub use table::ROWS;
pub use teller::{LONGEST_ENTRY, MOST_JUNK, Teller};
