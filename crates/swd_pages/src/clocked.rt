//! Bits that a host drives at a simulated target, clock by clock.
ghost use Rattle.std.specs.Prelude.{◌≤◌};

use swd_clocked::Clocked;
use swd_target::Memory;

/// Drives `count` bits of a number, the first in time least significant.
pub fn send(target: &mut Clocked<Memory>, bits: u64, count: u32)
    requires { count ≤ 64 }
{
    for place in 0..count {
        target.cycle(Some(bits >> place & 1 == 1));
    }
}

/// Releases the line for `count` clocks, and returns their bits, the first in time least significant.
pub fn sample(target: &mut Clocked<Memory>, count: u32) -> u64
    requires { count ≤ 64 }
{
    let mut bits = 0;
    for place in 0..count {
        bits |= u64::from(target.cycle(None)) << place;
    }
    bits
}

/// Reads a target's identification, from a line reset on. Returns the three bits of the acknowledgement, and the 33
/// bits of the data phase.
pub fn identification(target: &mut Clocked<Memory>) -> (u64, u64) {
    send(target, u64::MAX, 56);
    send(target, 0, 2);
    send(target, 0xa5, 8);
    target.cycle(None);
    (sample(target, 3), sample(target, 33))
}
