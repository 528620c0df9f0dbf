//! An image that is loaded over a wire.
ghost use Rattle.std.specs.Prelude.{◌≡◌, OnOk};
ghost use Rattle.swd_port.specs.declared.wire.Due.TheVariants.{Nothing};
ghost use Rattle.swd_port.specs.PlainBus.{plain_of};
ghost use Rattle.swd_port.specs.PlainBus.{IsPlain};
ghost use Rattle.swd_host.specs.Reports.{IsAtRest};
ghost use Rattle.swd_image.specs.Images.{IsImageLoaded};

use std::alloc::Global;
use swd_image::{ImageFault, Limits, NoReports, load};
use swd_port::Wire;

/// Writes bytes from an address on. Each access may meet eight events, and a call is resumed once after a lost
/// acknowledgement.
pub fn flash<W: Wire>(
    alloc: Global,
    wire: &mut W,
    addr: u32,
    bytes: &[u8],
) -> Result<(), ImageFault>
    requires { (W.port wire.old).link.due ≡ Nothing }
    ensures { OnOk result (W.lawful wire.new → IsAtRest (W.port wire.old)
        → IsPlain (W.port wire.old).target.memory
        → IsImageLoaded addr bytes.now (plain_of (W.port wire.old).target.memory)
        (plain_of (W.port wire.new).target.memory)) }
{
    let limits = Limits {
        tries: 8,
        resumes: 1,
        bursts: true,
    };
    load(alloc, wire, addr, bytes, limits, &mut NoReports)
}
