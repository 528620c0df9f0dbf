//! Why something wasn't tried.
use std::alloc::AllocError;
use swd_host::Refused;
use swd_image::ImageFault;
use swd_script::ScriptFault;
use swd_target::MakeFault;
use thiserror::Error;

/// The reason why something wasn't tried.
#[derive(Clone, Copy, Debug, Error)]
pub enum Fault {
    /// Out of memory.
    #[error("out of memory")]
    Memory,
    /// A list was refused.
    #[error(transparent)]
    Refused(#[from] Refused),
    /// There is no such memory.
    #[error(transparent)]
    Make(#[from] MakeFault),
    /// An image stopped.
    #[error(transparent)]
    Image(#[from] ImageFault),
    /// The script isn't valid.
    #[error("the script isn't valid")]
    Script,
}

impl From<AllocError> for Fault {
    fn from(_error: AllocError) -> Fault {
        Fault::Memory
    }
}
