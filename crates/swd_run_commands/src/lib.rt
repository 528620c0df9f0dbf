//! Carries out `swd run`, at a simulated target or at one behind the standard streams, `swd info`, `swd target`
//! and `swd probe`.
#![tactic(auto)]

mod core_command;
mod host;
mod info_command;
mod memory_target;
mod records;
mod remote_command;
mod run_command;
mod session;
mod target_command;
mod unread;

pub use core_command::{perform_core, print_core};
pub use info_command::perform_info;
pub use run_command::perform_run;
pub use target_command::perform_target;
