//! Acknowledgements: the three bits with which a target answers a request.
ghost use Rattle.std.specs.Prelude.{◌≡◌, ◌≢◌, ◌<◌, IfSome, IfNone};
ghost use Rattle.swd_bits.specs.Bits.{low_bits};
ghost use Rattle.swd_bits.specs.Acks.{bits_of_ack};
ghost use Rattle.swd_bits.specs.AckNumbers.{ack_number};
ghost use Rattle.swd_bits.specs.declared.ack.Ack.{Ack};

use std::fmt;

/// An acknowledgement (IHI 0031, B4, "Acknowledge response").
#[derive(Clone, Copy, Debug, PartialEq, Eq)]
pub enum Ack {
    /// The request is accepted: its data phase follows.
    Ok,
    /// The target is busy: the request may be sent again.
    Wait,
    /// A sticky flag is set.
    Fault,
}

impl Ack {
    /// Returns the acknowledgement with these three bits, the first in time least significant: 1 is OK, 2 is WAIT, 4 is
    /// FAULT. Returns `None` for the other five numbers.
    #[inline(always)]
    pub fn of(seen: u8) -> Option<Ack>
        requires { seen < 8 }
        ensures found { IfSome result (λ a. bits_of_ack a ≡ low_bits 3 seen) }
        ensures only { IfSome result (λ a. (other : Ack) → bits_of_ack other ≡ low_bits 3 seen → other ≡ a) }
        ensures none { IfNone result ((a : Ack) → bits_of_ack a ≢ low_bits 3 seen) }
    {
        match seen {
            1 => Some(Ack::Ok),
            2 => Some(Ack::Wait),
            4 => Some(Ack::Fault),
            _ => None,
        }
    }

    /// Returns its three bits, the first in time least significant: OK is 1, WAIT is 2, FAULT is 4.
    #[inline(always)]
    pub fn bits(self) -> u8
        ensures number { result ≡ ack_number self }
        ensures bits { low_bits 3 result ≡ bits_of_ack self }
    {
        match self {
            Ack::Ok => 1,
            Ack::Wait => 2,
            Ack::Fault => 4,
        }
    }
}

/// Writes the name in the standard: `OK`, `WAIT` or `FAULT`.
impl fmt::Display for Ack {
    fn fmt<W: fmt::Write>(&self, f: &mut fmt::Formatter<W>) -> fmt::Result {
        f.write_str(match self {
            Ack::Ok => "OK",
            Ack::Wait => "WAIT",
            Ack::Fault => "FAULT",
        })
    }
}
