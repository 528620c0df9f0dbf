//! Peripherals for tests of a host, and to copy: what a plain memory forgives, they don't. Each is a [`Peripheral`], so
//! [`Attached`] makes a device of it for a simulated target.
//!
//! - [`Registers`]: a status, a key, a FIFO and a flag;
//! - [`Flash`]: a flash controller with a page of one double word;
//! - [`CoreTarget`]: a memory, and a [`Core`] with halting debug beside it;
//! - [`LoggedCore`]: the same as a device with a log.
//!
//! [`Peripheral`]: swd_target::Peripheral
//! [`Attached`]: swd_target::Attached
#![tactic(auto)]

mod core_target;
mod flash;
mod halting;
mod logged_core;
mod registers;
mod seen;

pub use core_target::CoreTarget;
pub use flash::{Flash, Lock};
pub use halting::Core;
pub use logged_core::LoggedCore;
pub use registers::{Key, Registers};
pub use seen::Seen;
