//! Loads images into a target's memory, verifies them, and dumps memory. An image is bytes at any address. Works over
//! any wire.
#![tactic(auto)]

mod calls;
mod dumping;
mod fault;
mod loading;
mod paced;
mod range;
mod reading;
mod reports;
mod verifying;
mod writing;

pub use dumping::dump;
pub use fault::ImageFault;
pub use loading::load;
pub use paced::{Counted, PacedReports};
pub use reports::{CallReports, NoReports};
pub use swd_run::{Limits, Progress};
pub use verifying::{ByteDifference, verify};
