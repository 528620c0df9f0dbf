//! A simulated target, clock by clock, as a bit-banging host or a logic analyser sees it, and a bench that makes it a
//! wire.
#![tactic(auto)]

mod clocked;
mod clocked_bench;
mod fields;
mod frame;
pub mod laws;
mod marked;
mod phases;

pub use clocked::Clocked;
pub use clocked_bench::ClockedBench;
pub use fields::{ClockedFields, FrameFields, LineFields};
pub use marked::FaultyClocked;
