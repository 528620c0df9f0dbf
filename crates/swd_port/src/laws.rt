//! The laws of the port model, on which the proofs of hosts and targets rest. A function here does nothing: its
//! contract is the law.

mod memory;
mod steps;
mod wire;
mod words;

pub use memory::{accesses, completion, plain_memories, transfers};
pub use steps::{never_stuck, sessions_fit};
pub use wire::{answers, calls, data_phases, line_resets, requests};
pub use words::{phases, registers, words_read};
