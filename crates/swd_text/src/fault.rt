//! Errors of the conversions.
ghost use Rattle.std.specs.Prelude.{◌≡◌};
ghost use Rattle.swd_text.specs.Decoding.{decode_text_fault};

use swd_io::Unread;
use swd_trace::ListFault;
use thiserror::Error;

/// An error in a trace text.
#[derive(Clone, Copy, Debug, PartialEq, Eq, Error)]
pub enum TextFault {
    /// The byte at `place`, counted from 0, isn't allowed in a trace text. Places above 2^64 - 1 are reported
    /// as 2^64 - 1.
    #[error("trace byte {place}: bad character")]
    BadChar { place: u64 },
    /// The text has more than 2^64 - 1 bits.
    #[error("trace too long")]
    TooLong,
}

/// The error at which a consumer of a trace text stops.
#[derive(Clone, Copy, Debug, PartialEq, Eq)]
pub enum TakeFault {
    /// The trace text is invalid.
    Text(TextFault),
    /// The writer failed, as at `DecodeFault::Write`.
    Write { written: u64 },
}

/// The error of the conversion of a trace text.
#[derive(Clone, Copy, Debug, PartialEq, Eq, Error)]
pub enum DecodeFault {
    /// The trace text is invalid.
    #[error(transparent)]
    Text(TextFault),
    /// The reader failed.
    #[error("read failed")]
    Read,
    /// The writer failed, or took no bytes, after exactly the first `written` bytes of the output. Numbers
    /// above 2^64 - 1 are reported as 2^64 - 1.
    #[error("write failed")]
    Write { written: u64 },
}

impl DecodeFault {
    /// Returns the error of a trace text that wasn't read to its end.
    pub(crate) fn of(unread: Unread<TakeFault>) -> DecodeFault
        ensures { result ≡ decode_text_fault unread }
    {
        match unread {
            Unread::Reader => DecodeFault::Read,
            Unread::Consumer(TakeFault::Text(fault)) => DecodeFault::Text(fault),
            Unread::Consumer(TakeFault::Write { written }) => DecodeFault::Write { written },
        }
    }
}

/// The error of the conversion of a listing.
#[derive(Clone, Copy, Debug, PartialEq, Eq, Error)]
pub enum EncodeFault {
    /// The listing wasn't read: it is invalid, the reader failed, or memory ran out for its items.
    #[error(transparent)]
    List(ListFault),
    /// The writer failed, or took no bytes, after exactly the first `written` bytes of the output. Numbers
    /// above 2^64 - 1 are reported as 2^64 - 1.
    #[error("write failed")]
    Write { written: u64 },
}
