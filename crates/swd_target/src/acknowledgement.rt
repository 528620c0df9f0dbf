//! Acknowledgements on the wire, as the target drives them and as the host sees them.
ghost use Rattle.std.specs.Prelude.{◌≡◌, ◌<◌};
ghost use Rattle.swd_port.specs.Choices.{IsPortMark};
ghost use Rattle.swd_port.specs.Answers.{port_ack_driven, port_seen_at};

use swd_bits::Ack;
use swd_port::{Mark, Reply};

// Returns the three bits that the target drives, the first in time least significant. An undriven line reads 1.
fn bits_of(reply: Reply) -> u8
    ensures value { result ≡ port_ack_driven reply }
    ensures range { result < 8 }
{
    match reply {
        Reply::Okay => Ack::Ok.bits(),
        Reply::Waits => Ack::Wait.bits(),
        Reply::Faults => Ack::Fault.bits(),
        Reply::Silent => 7,
    }
}

/// Returns the three bits that the host sees of a reply under a mark, the first in time least significant.
pub fn seen_under(mark: Mark, reply: Reply) -> u8
    requires { IsPortMark mark }
    ensures value { result ≡ port_seen_at mark reply }
    ensures range { result < 8 }
{
    match (mark, reply) {
        (_, Reply::Silent) => 7,
        (Mark::Mute(place), reply) => bits_of(reply) ^ 1 << place,
        (_, reply) => bits_of(reply),
    }
}
