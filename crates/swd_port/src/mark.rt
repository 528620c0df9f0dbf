//! Marks: the faults injected into the requests of a wire.
ghost use Rattle.std.specs.Prelude.{◌≡◌, ◌↔◌, IsTrue};
ghost use Rattle.swd_port.specs.Choices.{IsPortMark, port_loses};

use std::fmt;

/// The fault injected into one request and its data phase.
#[derive(Clone, Copy, Debug, PartialEq, Eq)]
pub enum Mark {
    /// No fault.
    Clean,
    /// The target is busy. It answers WAIT where the request may get it and would get OK otherwise. A read of
    /// CTRL/STAT, which never gets WAIT, finds power-up not acknowledged, unless it was read as acknowledged before.
    Wait,
    /// This bit of the 33 of its data phase arrives changed, if it has one. Bit 0 is the first in time and the word's
    /// least significant, bit 32 the parity.
    Flip(u8),
    /// The target doesn't see the request.
    Deaf,
    /// The host sees this bit of the three of the acknowledgement changed, if one is driven. Bit 0 is the first in
    /// time.
    Mute(u8),
}

impl Mark {
    /// Returns whether the bit is in range: below 33 for `Flip`, below 3 for `Mute`.
    pub fn legal(&self) -> bool
        ensures { IsTrue result ↔ IsPortMark self.now }
    {
        match *self {
            Mark::Flip(place) => place < 33,
            Mark::Mute(place) => place < 3,
            _ => true,
        }
    }

    /// Returns whether the acknowledgement may be lost: `Deaf` and `Mute`.
    pub fn is_lost(&self) -> bool
        ensures { IsTrue result ↔ (port_loses self.now ≡ 1) }
    {
        matches!(self, Mark::Deaf | Mark::Mute(_))
    }
}

/// Writes the mark as a line of a plan: `.`, `wait`, `flip 32`, `deaf` or `mute 2`.
impl fmt::Display for Mark {
    fn fmt<W: fmt::Write>(&self, f: &mut fmt::Formatter<W>) -> fmt::Result {
        match self {
            Mark::Clean => f.write_str("."),
            Mark::Wait => f.write_str("wait"),
            Mark::Flip(place) => write!(f, "flip {place}"),
            Mark::Deaf => f.write_str("deaf"),
            Mark::Mute(place) => write!(f, "mute {place}"),
        }
    }
}
