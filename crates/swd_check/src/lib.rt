//! Checks whether a trace is that of a target that keeps the standard: the engine of `swd check`.
//!
//! `swd_checker` decides whether some run of the port model explains the items. A `Check` adds what is said of its
//! verdict, and what is looked at beside it: overrun detection, which the model doesn't have, a plain memory, and this
//! project's own registers.
#![tactic(auto)]

mod beside;
mod check;
mod checked;
mod exact;
mod items;
mod leaving;
mod overrun;
mod plain;
mod recent;
mod rules;
mod text;
mod why;

pub use check::{Check, CheckOptions};
pub use checked::{Checked, LONGEST_CHECKED};
pub use items::CheckedItems;
pub use leaving::Leaving;
pub use plain::{NotPlain, PlainMemory, Read};
pub use text::{check_text, check_to};
pub use why::{Broken, Why};
