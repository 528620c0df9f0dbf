//! What both ends of an OpenOCD remote_bitbang connection share: the characters for serial wire, and the
//! sequences of clocks that a host sends with them.
#![tactic(auto)]

mod character;
pub mod laws;
mod sequence;

pub use character::{Character, level_byte, level_of};
pub use sequence::Sequence;
