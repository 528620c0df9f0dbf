//! The calls of a wire.

use crate::cue::Cue;

/// A call of a wire: the host's cue, and what it saw.
#[derive(Clone, Copy, Debug, PartialEq, Eq)]
pub struct Call {
    pub cue: Cue,
    /// The three bits seen after a request, or the 33 bits of a read's data phase, the first in time least significant;
    /// 0 for any other cue.
    pub seen: u64,
}
