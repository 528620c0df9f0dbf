//! What happened to a memory access, as far as the wire shows it.

/// How much is known of an access.
#[derive(Clone, Copy, Debug, PartialEq, Eq)]
pub enum How {
    /// It took effect, exactly once.
    Took,
    /// It took effect once, or not at all: the wire doesn't show which.
    May,
    /// It isn't in the target's log: it met a bus error, which a plain memory isn't changed by, or its data was
    /// corrupted on the wire or given up by the debug port, and it was never made.
    Not,
}

/// An access of the memory behind the access port, by a request for DRW. Unknown values are `None`.
#[derive(Clone, Copy, Debug, PartialEq, Eq)]
pub struct ObservedAccess {
    /// The number of bits of the trace before the first bit of its request.
    pub place: u64,
    /// Whether it is a read.
    pub read: bool,
    /// The byte address: TAR.
    pub addr: Option<u32>,
    /// The word that was read or written, 32 bits.
    pub word: Option<u32>,
    pub how: How,
}
