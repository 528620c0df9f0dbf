//! What stands behind a simulated access port.
ghost use Rattle.std.specs.Prelude.{◌≡◌, []};
ghost use Rattle.swd_port.specs.declared.access.Access.TheVariants.{Read, Write};
ghost use Rattle.swd_port.specs.Bus.{Bus, bus_after, bus_succeeds};
ghost use Rattle.swd_port.specs.PlainBus.{bus_of};

use crate::memory::Memory;
use std::alloc::Allocator;
use swd_port::{Access, Answer};

/// What stands behind a simulated access port: memory, registers, or whatever else answers accesses of 32-bit words.
///
/// A [`Memory`] is a device. For registers implement [`Peripheral`](crate::Peripheral), of which
/// [`Attached`](crate::Attached) makes a device: it keeps the log that contracts read.
pub trait Device {
    /// The bus that the device is, with the log of the transfers that succeeded.
    ghost bus: { Self → Bus };

    /// Performs a read of a byte address, and returns the word, or `None` for a bus error. A read may have an effect,
    /// and so may a bus error. Any address may come, not just a multiple of 4.
    fn read(&mut self, addr: u32) -> Option<u32>
        ensures word { result ≡ (bus self.old).answers [] (Read addr) }
        ensures after { bus self.new ≡ bus_after (Read addr) (bus self.old) };

    /// Performs a write of a word to a byte address, and returns whether it succeeded. False is a bus error, which may
    /// have an effect too.
    fn write(&mut self, addr: u32, word: u32) -> bool
        ensures done { result ≡ bus_succeeds (Write addr word) (bus self.old) }
        ensures after { bus self.new ≡ bus_after (Write addr word) (bus self.old) };

    /// Returns whether this access would succeed now. It changes nothing. A target whose transfers take effect late
    /// asks it before it answers WAIT, since WAIT replaces only OK, and not the FAULT of a bus error.
    fn would_succeed(&self, access: Access) -> bool
        ensures { result ≡ bus_succeeds access (bus self.now) };
}

impl<A: Allocator> Device for Memory<A> {
    ghost bus = { bus_of };

    #[inline(always)]
    fn read(&mut self, addr: u32) -> Option<u32> {
        match self.transfer(Access::Read(addr)) {
            Answer::Value(word) => Some(word),
            _ => None,
        }
    }

    #[inline(always)]
    fn write(&mut self, addr: u32, word: u32) -> bool {
        matches!(&self.transfer(Access::Write(addr, word)), Answer::Written)
    }

    fn would_succeed(&self, access: Access) -> bool {
        match access {
            Access::Read(addr) => self.is_ready(addr),
            Access::Write(addr, _) => self.is_ready(addr),
        }
    }
}
