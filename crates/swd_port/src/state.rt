//! The states of a target, and its replies.

use crate::register::Register;

/// Whether requests are answered.
#[derive(Clone, Copy, Debug, PartialEq, Eq)]
pub enum Reset {
    /// No line reset yet: no request is answered.
    Unreset,
    /// DPIDR wasn't read since the last line reset: only that read is answered.
    Fresh,
    /// Every request is answered.
    Live,
}

/// Whether the debug power, or the system power, that was requested in CTRL/STAT is acknowledged.
#[derive(Clone, Copy, Debug, PartialEq, Eq)]
pub enum PowerUp {
    /// It wasn't seen since the request. It counts as acknowledged, unless the next read of CTRL/STAT finds it not
    /// acknowledged.
    Unseen,
    /// A read of CTRL/STAT found it not acknowledged yet.
    Late,
    /// It was seen as acknowledged, and stays so until CTRL/STAT is written again.
    Seen,
}

/// A DRW transfer that was accepted and hasn't taken effect yet.
#[derive(Clone, Copy, Debug, PartialEq, Eq)]
pub enum Drw {
    /// The read of a word.
    Reads,
    /// The write of this word.
    Writes(u32),
}

/// The reply to a request: the acknowledgement that the target drives.
#[derive(Clone, Copy, Debug, PartialEq, Eq)]
pub enum Reply {
    /// OK: a data phase follows.
    Okay,
    /// WAIT: the target is busy, and the request may be sent again.
    Waits,
    /// FAULT: a sticky flag is set, or an access port isn't powered.
    Faults,
    /// No acknowledgement: the target drives nothing.
    Silent,
}

/// What the target does on the line after an acknowledgement.
#[derive(Clone, Copy, Debug, PartialEq, Eq)]
pub enum AfterAck {
    /// Nothing.
    Idle,
    /// It drives these 33 bits of a read's data phase, the first bit in time least significant: 32
    /// of the word, and above them the parity.
    Drives(u64),
    /// It awaits the data phase of a write of this register. The second field is the bit of the 33 that will arrive
    /// changed, if any; bit 0 is the first in time.
    Awaits(Register, Option<u8>),
}
