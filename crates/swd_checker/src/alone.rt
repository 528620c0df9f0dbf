//! A read of DRW or RDBUFF with right parity in a world, in place: there is one world after it.
ghost use Rattle.std.specs.Prelude.{◌≡◌, ◌⊎◌, IfSome};
ghost use Rattle.swd_checker.specs.Alone.{WorldReturns, world_reading, world_read_pending};
ghost use Rattle.swd_checker.specs.Worlds.{world_succeeded};

use crate::held::Held;
use crate::near::Near;
use crate::tar::Tar;
use crate::world::{Transfer, World};
use swd_bits::Request;
use swd_port::{Register, Reply};

impl World {
    /// Returns what is known of the read buffer once a read of DRW or RDBUFF returned it as this word. `None` if it
    /// can't have been returned, or the register is another one.
    #[inline(always)]
    pub(crate) fn returned(&self, register: Register, request: Request, word: u32) -> Option<Held>
        ensures read { IfSome result (λ held. (register ≡ Register.DrwRead) ⊎ (register ≡ Register.RdbuffRead)) }
        ensures returns { IfSome result (λ held. WorldReturns self.now request word held) }
    {
        match register {
            Register::DrwRead => self.read_back(request, word),
            Register::RdbuffRead => self.read_back(request, word),
            _ => None,
        }
    }

    // The same of any register.
    #[inline(always)]
    fn read_back(&self, request: Request, word: u32) -> Option<Held>
        ensures { IfSome result (λ held. WorldReturns self.now request word held) }
    {
        match self.due(request) {
            Reply::Okay => self.moved_buffer().narrowed(Near::of(word)),
            _ => None,
        }
    }

    /// Takes the read that returned the read buffer, of which this is known.
    #[inline(always)]
    pub(crate) fn take_read(&mut self, register: Register, ap: bool, held: Held)
        ensures { self.new ≡ world_reading register ap held self.old }
    {
        self.tar = self.moved_tar();
        self.debug = self.debug.confirmed(ap);
        self.pending = pending_behind(register);
        self.awaits = false;
        self.read_ok = true;
        self.last_returned = held;
        self.buffer = Held::Unknown;
    }

    // Returns what is known of the read buffer once the pending transfer succeeded.
    #[inline(always)]
    fn moved_buffer(&self) -> Held
        ensures { result ≡ (world_succeeded self.now).buffer }
    {
        match self.pending {
            Some(Transfer::Read) => Held::Word,
            Some(Transfer::Write) => self.buffer,
            None => self.buffer,
        }
    }

    // Returns what is known of TAR once the pending transfer succeeded.
    #[inline(always)]
    fn moved_tar(&self) -> Tar
        ensures { result ≡ (world_succeeded self.now).tar }
    {
        match self.pending {
            Some(_) => if self.increments {
                self.tar.incremented()
            } else {
                self.tar
            },
            None => self.tar,
        }
    }
}

// Returns the transfer that is pending after a read.
#[inline(always)]
fn pending_behind(register: Register) -> Option<Transfer>
    ensures { result ≡ world_read_pending register }
{
    match register {
        Register::DrwRead => Some(Transfer::Read),
        _ => None,
    }
}
