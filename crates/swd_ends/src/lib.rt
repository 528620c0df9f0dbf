//! The two ends of a remote_bitbang connection. [`run_remote`] runs a script at a target behind OpenOCD's characters.
//! [`read_target`] makes the target of a script for an external host, and [`target_pins`] that of a memory.
//! [`serve_logged`] serves that host and writes the target's log.
#![tactic(auto)]

mod accesses_job;
mod clocked_probe;
pub mod laws;
mod live_files;
mod portions;
mod remote;
mod run_job;
mod serving;
mod target_log;

pub use accesses_job::AccessesJob;
pub use clocked_probe::ClockedProbe;
pub use live_files::{LiveFiles, serve_logged};
pub use remote::{RemoteFault, RemoteRan, run_remote};
pub use run_job::RunJob;
pub use serving::{TargetFault, read_target, target_pins};
