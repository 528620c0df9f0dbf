//! Which access an engine may start.
ghost use Rattle.std.specs.Prelude.{◌≡◌, Some};
ghost use Rattle.swd_host.specs.Addresses.{continues_burst};
ghost use Rattle.swd_host.specs.Engines.{engine_outcome, engine_may_start};
ghost use Rattle.swd_host.specs.Tasks.{access_of_task};
ghost use Rattle.swd_host.specs.Accepting.{engine_accepts, engine_has_sent_next};

use crate::engine::{Ahead, Engine};
use crate::outcome::Outcome;
use crate::task::{Task, address_of, continues};
use swd_port::Access;

impl Engine {
    /// Returns whether `start` may take this access now. The engine has to rest and not have stopped, and the address
    /// has to be a multiple of 4. Where the DRW request of the burst's next access was sent already, this access has to
    /// continue the burst; the word of a write isn't compared.
    pub fn accepts(&self, access: Access) -> bool
        ensures { result ≡ engine_accepts self.now access }
    {
        self.is_ready()
            && address_of(access) % 4 == 0
            && (!self.has_sent_on() || self.leads_to(access))
    }

    // Returns whether the engine has reached an outcome that isn't a stop.
    fn is_ready(&self) -> bool
        ensures { result ≡ engine_may_start (engine_outcome self.now) }
    {
        matches!(
            self.finished(),
            Some(Outcome::Opened | Outcome::Answered(_))
        )
    }

    // Returns whether the DRW request of the next access was answered OK already.
    fn has_sent_on(&self) -> bool
        ensures { result ≡ engine_has_sent_next self.now }
    {
        self.is_ahead() || !matches!(&self.ahead, Ahead::Unsent)
    }

    // Returns whether the access continues the burst of the current one.
    fn leads_to(&self, access: Access) -> bool
        ensures { result ≡ continues_burst (access_of_task self.now.task) (Some access) }
    {
        continues(self.task.access(), Some(access))
    }
}

impl Task {
    // Returns the access itself.
    fn access(self) -> Access
        ensures { result ≡ access_of_task self }
    {
        match self {
            Task::Read(addr) | Task::BurstRead(addr) => Access::Read(addr),
            Task::Write(addr, word) | Task::BurstWrite(addr, word) => Access::Write(addr, word),
        }
    }
}
