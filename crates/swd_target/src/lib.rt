//! A simulated target: the device behind it, such as a memory, and a bench, which is a wire to the target.
#![tactic(auto)]

mod acknowledgement;
mod bench;
mod buffered;
mod content;
mod device;
mod fields;
pub mod laws;
mod memory;
mod peripheral;
mod phase;
mod plan;
pub mod port;
mod quirks;
mod request;
mod target;
mod transfer_log;
mod window;
mod words;

pub use bench::Bench;
pub use buffered::BufferedBench;
pub use device::Device;
pub use fields::{ContentFields, PendingFields, TargetFields};
pub use memory::{MakeFault, Memory};
pub use peripheral::{Attached, Peripheral};
pub use quirks::Quirks;
pub use swd_port::{Mark, Transfer};
pub use transfer_log::TransferLog;
