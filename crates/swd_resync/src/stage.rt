//! The stage of a decoder of captures.

use crate::overrun::Overrun;
use crate::part::Part;
use swd_bits::Tx;

/// What the removed bits imply.
#[derive(Clone, Copy, Debug)]
pub(crate) enum RemovalStage {
    /// The number of zeros so far, before it is known whether a stretch begins with the capture.
    Start(u64),
    /// In a stretch, with this number of idle cycles not reported yet.
    Stretch(u64),
    /// In a stretch, with this number of ones of a line reset not reported yet.
    Reset(u64),
    /// A line reset was reported.
    AfterReset,
    /// A switch from JTAG was reported.
    AfterSwitch,
    /// In a stretch, after the 33 bits of a data phase that wasn't foreseen, not reported yet.
    AfterPhase,
    /// Between stretches, with this number of skipped bits.
    Between(u64),
}

/// A step of a decoder: the number of bits to remove, what is known of overrun detection and the stage after them, and
/// a part if one is decided.
#[derive(Clone, Copy)]
pub(crate) struct Move {
    pub(crate) count: u8,
    pub(crate) over: Overrun,
    pub(crate) stage: RemovalStage,
    pub(crate) part: Option<Part>,
}

/// A transaction at the front of held bits, and its number of bits.
#[derive(Clone, Copy, Debug)]
pub(crate) struct WholeTx {
    pub(crate) tx: Tx,
    pub(crate) len: u8,
}

/// A step, and the transaction directly behind the bits that it removes, if it saw one.
#[derive(Clone, Copy)]
pub(crate) struct Step {
    pub(crate) next: Move,
    pub(crate) behind: Option<WholeTx>,
}
