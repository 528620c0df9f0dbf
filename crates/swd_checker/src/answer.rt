//! The answer that is due in a world.
ghost use Rattle.std.specs.Prelude.{◌≡◌, ◌↔◌, true};
ghost use Rattle.swd_port.specs.Answers.{is_port_unpowered, port_is_answered};
ghost use Rattle.swd_checker.specs.Worlds.{is_checked_power_there};
ghost use Rattle.swd_checker.specs.Steps.{world_register, world_due, MayGiveUp};

use crate::world::World;
use swd_bits::Request;
use swd_port::{Register, Reply, Reset};

impl World {
    /// Returns the register that a request names.
    #[inline(always)]
    pub(crate) fn register(&self, request: Request) -> Register
        ensures { result ≡ world_register self.now request }
    {
        Register::named_where(self.mem_ap, self.bank0, request)
    }

    /// Returns the answer to a request where nothing is pending, and no WAIT is asked for.
    #[inline(always)]
    pub(crate) fn due(&self, request: Request) -> Reply
        ensures { result ≡ world_due self.now request }
    {
        let register = self.register(request);
        if !self.answers(register) {
            Reply::Silent
        } else if register.is_exempt() {
            Reply::Okay
        } else if self.sticky_error || self.write_error || self.is_unpowered(request) {
            Reply::Faults
        } else {
            Reply::Okay
        }
    }

    /// Returns whether the request is one of an access port without debug power.
    pub(crate) fn is_unpowered(&self, request: Request) -> bool
        ensures { result ≡ is_port_unpowered request.ap (is_checked_power_there self.now.debug) }
    {
        request.ap && !self.debug.is_there()
    }

    /// Returns whether a target may give the pending write up before a request: the request is one that can't wait.
    #[inline(always)]
    pub(crate) fn may_give_up(&self, request: Request) -> bool
        ensures { (result ≡ true) ↔ MayGiveUp self.now request }
    {
        !request.ap && self.is_writing() && self.register(request).is_exempt()
    }

    // Returns whether a request for the register is acknowledged.
    #[inline(always)]
    fn answers(&self, register: Register) -> bool
        ensures { result ≡ port_is_answered self.now.reset register }
    {
        match self.reset {
            Reset::Unreset => false,
            Reset::Fresh => matches!(&register, Register::DpidrRead),
            Reset::Live => true,
        }
    }
}
