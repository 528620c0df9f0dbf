//! A peripheral behind a simulated access port.
ghost use Rattle.std.specs.Prelude.{◌≡◌, ℕ, Option, [], is_some};
ghost use Rattle.swd_port.specs.declared.access.Access.{Access as Accessed};
ghost use Rattle.swd_port.specs.declared.access.Access.TheVariants.{Read, Write};
ghost use Rattle.swd_target.specs.Devices.{bus_by};

use crate::device::Device;
use crate::transfer_log::TransferLog;
use swd_port::{Access, Transfer};

/// Registers behind an access port, of words of 32 bits. [`Attached`] makes a [`Device`] of a peripheral.
///
/// An implementer states by `answer` and `after` what one access does, and its three methods are proved to do that.
/// What follows for any number of accesses is proved once, for all peripherals:
///
/// ```text
/// // A register that a read increments. Any write is a bus error.
/// struct Ticks {
///     count: u32,
/// }
///
/// impl Peripheral for Ticks {
///     ghost answer = { ticks_answer }; // in specs/: `Some s.count` of a read, `None` of a write
///     ghost after = { ticks_after }; // in specs/: a read makes it `(s.count + 1) % 2 ^ 32`
///
///     fn read(&mut self, _addr: u32) -> Option<u32> {
///         let count = self.count;
///         self.count = count.wrapping_add(1);
///         Some(count)
///     }
///
///     fn write(&mut self, _addr: u32, _word: u32) -> bool {
///         false
///     }
///
///     fn would_succeed(&self, access: Access) -> bool {
///         matches!(&access, Access::Read(_))
///     }
/// }
///
/// let mut bench = Bench::new(Attached::new(Ticks { count: 0 }), quirks, Vec::new(alloc));
/// // .. run accesses over the bench, and then:
/// bench.device().peripheral().count
/// ```
pub trait Peripheral {
    /// The answer to an access: `None` for a bus error, and for a read the word that it returns. The word is of no
    /// meaning for a write.
    ghost answer: { Accessed → Self → Option ℕ };

    /// The peripheral after an access. A read may change it, and so may a bus error.
    ghost after: { Accessed → Self → Self };

    /// Performs a read of a byte address, and returns the word, or `None` for a bus error.
    fn read(&mut self, addr: u32) -> Option<u32>
        ensures answer { result ≡ answer (Read addr) self.old }
        ensures after { self.new ≡ after (Read addr) self.old };

    /// Performs a write of a word to a byte address, and returns whether it succeeded. False is a bus error.
    fn write(&mut self, addr: u32, word: u32) -> bool
        ensures answer { result ≡ is_some (answer (Write addr word) self.old) }
        ensures after { self.new ≡ after (Write addr word) self.old };

    /// Returns whether this access would succeed now. It changes nothing.
    fn would_succeed(&self, access: Access) -> bool
        ensures { result ≡ is_some (answer access self.now) };
}

/// A peripheral as a [`Device`]. Contracts see which of its transfers succeeded; a program pays nothing for that.
#[derive(Debug, Drop)]
pub struct Attached<P> {
    peripheral: P,
    log: TransferLog,
}

impl<P: Peripheral> Attached<P> {
    /// Attaches a peripheral. No transfer was made yet.
    pub fn new(peripheral: P) -> Attached<P>
        ensures peripheral { result.peripheral ≡ peripheral }
        ensures log { result.log.transfers ≡ [] }
    {
        Attached {
            peripheral,
            log: TransferLog::new(),
        }
    }

    /// Returns the peripheral.
    pub fn peripheral(&self) -> &P
        ensures { result.now ≡ self.now.peripheral }
    {
        &self.peripheral
    }

    /// Consumes the device, and returns the peripheral.
    pub fn into_peripheral(self) -> P
        ensures { result ≡ self.peripheral }
    {
        self.peripheral
    }
}

impl<P: Peripheral> Device for Attached<P> {
    ghost bus = { λ d. bus_by P.answer P.after d.log.transfers d.peripheral };

    #[inline(always)]
    fn read(&mut self, addr: u32) -> Option<u32> {
        let word = self.peripheral.read(addr);
        if let Some(word) = word {
            self.log = self.log.and(&Transfer {
                read: true,
                addr,
                word,
            });
        }
        word
    }

    #[inline(always)]
    fn write(&mut self, addr: u32, word: u32) -> bool {
        let done = self.peripheral.write(addr, word);
        if done {
            self.log = self.log.and(&Transfer {
                read: false,
                addr,
                word,
            });
        }
        done
    }

    #[inline(always)]
    fn would_succeed(&self, access: Access) -> bool {
        self.peripheral.would_succeed(access)
    }
}
