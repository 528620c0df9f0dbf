//! A memory and a core as a device with a log.
ghost use Rattle.std.specs.Prelude.{◌≤◌, vec_len};
ghost use Rattle.std.specs.Vec.{vec_capacity};

use crate::core_target::CoreTarget;
use std::alloc::{Allocator, Global};
use swd_port::{Access, Transfer};
use swd_target::{Device, Peripheral};

/// A [`CoreTarget`] as a [`Device`] that keeps a log of the transfers that succeeded, those of the debug registers too.
///
/// Once the log is full each access is a bus error, which changes nothing and isn't logged, as at a
/// [`Memory`](swd_target::Memory).
#[derive(Debug, Drop)]
pub struct LoggedCore<A: Allocator = Global> {
    target: CoreTarget<A>,
    log: Vec<Transfer, A>,
    room: u32,
    ghost logged: { vec_len log ≤ room },
    ghost fits: { room ≤ vec_capacity log },
}

impl<A: Allocator> LoggedCore<A> {
    ghost use Rattle.std.specs.Prelude.{◌≡◌, [], IfSome, is_some};
    ghost use Rattle.swd_port.specs.declared.access.Access.TheVariants.{Read, Write};
    ghost use Rattle.swd_devices.specs.LoggedCores.{core_target_parts, logged_core_after, logged_core_answer};
    ghost use Rattle.swd_devices.specs.LoggedCores.{logged_core_has_room, logged_core_state};

    /// Creates the device, with an empty log for up to `room` transfers. It allocates here and never again. Returns
    /// `None` if out of memory.
    pub fn new(alloc: A, target: CoreTarget<A>, room: u32) -> Option<LoggedCore<A>>
        ensures { IfSome result (λ made. logged_core_state made
            ≡ record { target = core_target_parts target; log = []; room = room }) }
    {
        let Ok(log) = Vec::with_capacity(alloc, room as usize) else {
            return None;
        };
        Some(LoggedCore { target, log, room })
    }

    /// Returns the memory and the core.
    pub fn target(&self) -> &CoreTarget<A>
        ensures { result.now ≡ self.now.target }
    {
        &self.target
    }

    /// Returns the transfers that succeeded, the oldest first.
    pub fn log(&self) -> &[Transfer]
        ensures { result.now ≡ (logged_core_state self.now).log }
    {
        &self.log
    }

    // Returns whether a further transfer can succeed.
    fn has_room(&self) -> bool
        ensures { result ≡ logged_core_has_room (logged_core_state self.now) }
    {
        self.log.len() < self.room as usize
    }

    // Performs a read, and logs it if it succeeds.
    fn log_read(&mut self, addr: u32) -> Option<u32>
        ensures word { result ≡ logged_core_answer (Read addr) (logged_core_state self.old) }
        ensures after { logged_core_state self.new ≡ logged_core_after (Read addr) (logged_core_state self.old) }
    {
        if !self.has_room() {
            return None;
        }
        let Some(word) = self.target.read(addr) else {
            return None;
        };
        let transfer = Transfer {
            read: true,
            addr,
            word,
        };
        self.log.push(transfer).unwrap();
        Some(word)
    }

    // Performs a write, and logs it if it succeeds.
    fn log_write(&mut self, addr: u32, word: u32) -> bool
        ensures done { result ≡ is_some (logged_core_answer (Write addr word) (logged_core_state self.old)) }
        ensures after { logged_core_state self.new ≡ logged_core_after (Write addr word) (logged_core_state self.old) }
    {
        if !self.has_room() {
            return false;
        }
        if !self.target.write(addr, word) {
            return false;
        }
        let transfer = Transfer {
            read: false,
            addr,
            word,
        };
        self.log.push(transfer).unwrap();
        true
    }
}

impl<A: Allocator> Device for LoggedCore<A> {
    ghost use Rattle.swd_devices.specs.LoggedCores.{logged_core_bus, logged_core_state};

    ghost bus = { λ s. logged_core_bus (logged_core_state s) };

    fn read(&mut self, addr: u32) -> Option<u32> {
        self.log_read(addr)
    }

    fn write(&mut self, addr: u32, word: u32) -> bool {
        self.log_write(addr, word)
    }

    fn would_succeed(&self, access: Access) -> bool {
        self.has_room() && self.target.would_succeed(access)
    }
}
