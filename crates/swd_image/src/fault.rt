//! Errors of loads, dumps and verifications.
use swd_host::End;
use thiserror::Error;

/// The error of a load, a dump or a verification.
#[derive(Clone, Copy, Debug, PartialEq, Eq, Error)]
pub enum ImageFault {
    /// The image extends past ffffffff. Nothing was sent.
    #[error("the image extends past ffffffff")]
    Range,
    /// Out of memory. Calls may have been made before.
    #[error("no memory")]
    Memory,
    /// A call ended early. The value is its end, never `All`.
    #[error("the run ended early: {0}")]
    Stopped(End),
    /// The word at this byte address met a bus error, as the first one of its call. The call itself ended `All`, and
    /// no call was made after it.
    #[error("bus error at {0:08x}")]
    BusFault(u32),
    /// The writer of the reports failed, or took no bytes. Exactly the first bytes of the reports were written, and not
    /// all. The call whose report it was went on to its end, and no call was made after it.
    #[error("write failed")]
    Report,
}
