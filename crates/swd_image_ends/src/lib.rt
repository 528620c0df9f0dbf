//! Loads images into a target behind OpenOCD's remote_bitbang characters or into a simulated one, verifies them, and
//! dumps its memory. Reads the file of an image.
#![tactic(auto)]

mod file;
mod jobs;
pub mod laws;
mod memory;
mod pieces;

pub use file::{FileFault, read_file};
pub use jobs::{DumpJob, LoadJob, VerifyJob};
pub use memory::{memory_bytes, memory_with, simulated_target};
pub use pieces::{load_pieces, verify_pieces};
pub use swd_remote::over_line;
