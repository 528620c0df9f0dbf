//! Worlds: descriptions of the states in which a target may be.
ghost use Rattle.std.specs.Prelude.{◌≡◌, ◌↔◌, IsTrue, true, false, Some, if◌then◌else◌};
ghost use Rattle.swd_checker.specs.Worlds.{world_succeeded, world_failed, world_after_reset, world_after_wait};
ghost use Rattle.swd_checker.specs.Worlds.{world_after_fault, world_after_damage, is_checked_power_there};
ghost use Rattle.swd_checker.specs.Worlds.{world_made, world_confirmed, world_given_up, PowerSeen, TransferWrite};
ghost use Rattle.swd_checker.specs.Words.{IsCheckedStatus, is_checked_power_on, is_checked_power_seen};
ghost use Rattle.swd_checker.specs.Steps.{checked_power_requested, checked_power_found};
ghost use Rattle.swd_checker.specs.Covering.{PowerIncludes, WorldIncludes, AreWorldsJoined, IsWorldAlike, IsWorldWider};
ghost use Rattle.swd_checker.specs.Covering.{IsWorldWithTar};
ghost use Rattle.swd_checker.specs.Reaching.{AreReachedJoined};
ghost use Rattle.swd_checker.specs.Joining.{WorldCovers, AreWorldsAlike};

use crate::held::Held;
use crate::near::bit;
use crate::tar::Tar;
use swd_port::{Register, Reset};

/// One of the powers that CTRL/STAT requests.
#[derive(Clone, Copy, PartialEq, Eq)]
pub(crate) enum Power {
    /// It isn't requested.
    Off,
    /// It is requested, and whether it is acknowledged wasn't seen yet.
    Unseen,
    /// It is requested, and a read of CTRL/STAT found it not acknowledged yet.
    Late,
    /// It is requested and acknowledged.
    Seen,
}

/// The direction of a transfer.
#[derive(Clone, Copy)]
pub(crate) enum Transfer {
    Read,
    Write,
}

/// States in which a target may be.
#[derive(Clone, Copy)]
pub(crate) struct World {
    pub(crate) reset: Reset,
    pub(crate) sticky_error: bool,
    pub(crate) write_error: bool,
    pub(crate) read_ok: bool,
    pub(crate) debug: Power,
    pub(crate) system: Power,
    /// Whether SELECT names bank 0 of access port 0.
    pub(crate) mem_ap: bool,
    /// Whether DPBANKSEL is 0.
    pub(crate) bank0: bool,
    /// Whether AddrInc is single.
    pub(crate) increments: bool,
    /// The DRW transfer that was accepted. It may have taken effect already, or have met a bus error.
    pub(crate) pending: Option<Transfer>,
    /// Whether write data is awaited: the OK of a write wasn't seen.
    pub(crate) awaits: bool,
    pub(crate) tar: Tar,
    pub(crate) buffer: Held,
    pub(crate) last_returned: Held,
}

impl Power {
    /// Returns whether it is requested.
    pub(crate) fn is_on(self) -> bool
        ensures { result ≡ is_checked_power_on self }
    {
        !matches!(&self, Power::Off)
    }

    /// Returns whether it was seen to be acknowledged.
    pub(crate) fn is_seen(self) -> bool
        ensures { result ≡ is_checked_power_seen self }
    {
        matches!(&self, Power::Seen)
    }

    /// Returns whether an access port may work with it.
    pub(crate) fn is_there(self) -> bool
        ensures { result ≡ is_checked_power_there self }
    {
        matches!(&self, Power::Unseen | Power::Seen)
    }

    /// Returns the power where CTRL/STAT's request bit was written.
    pub(crate) fn requested(on: bool) -> Power
        ensures { result ≡ checked_power_requested on }
    {
        if on { Power::Unseen } else { Power::Off }
    }

    /// Returns debug power once OK was answered to a request that can be refused. `ap` says whether the request is one
    /// of an access port.
    #[inline(always)]
    pub(crate) fn confirmed(self, ap: bool) -> Power
        ensures { result ≡ (if ap then PowerSeen else self) }
    {
        if ap { Power::Seen } else { self }
    }

    /// Returns the power once a read of CTRL/STAT found it acknowledged.
    pub(crate) fn seen(self) -> Power
        ensures { checked_power_found self false ≡ Some result }
    {
        match self {
            Power::Off => Power::Off,
            _ => Power::Seen,
        }
    }

    /// Returns the power once a read of CTRL/STAT found it acknowledged, or late if it may be.
    pub(crate) fn found(self, late: bool) -> Option<Power>
        ensures { result ≡ checked_power_found self late }
    {
        match (self, late) {
            (power, false) => Some(power.seen()),
            (Power::Unseen | Power::Late, true) => Some(Power::Late),
            (_, true) => None,
        }
    }

    /// Returns whether all that the other explains is explained by this.
    pub(crate) fn covers(self, other: Power) -> bool
        ensures { result ≡ true → PowerIncludes self other }
    {
        self == other || (self == Power::Unseen && other == Power::Seen)
    }
}

impl World {
    /// Returns the state of a target before any line reset.
    pub(crate) fn made() -> World
        ensures { result ≡ world_made }
    {
        World {
            reset: Reset::Unreset,
            sticky_error: false,
            write_error: false,
            read_ok: false,
            debug: Power::Off,
            system: Power::Off,
            mem_ap: true,
            bank0: true,
            increments: false,
            pending: None,
            awaits: false,
            tar: Tar::at(0),
            buffer: Held::Unknown,
            last_returned: Held::Unknown,
        }
    }

    /// Returns the world once the pending transfer succeeded.
    #[inline(always)]
    pub(crate) fn succeeded(self) -> World
        ensures { result ≡ world_succeeded self }
    {
        let mut now = self;
        let Some(transfer) = self.pending else {
            return now;
        };
        now.pending = None;
        if self.increments {
            now.tar = self.tar.incremented();
        }
        match transfer {
            Transfer::Read => now.buffer = Held::Word,
            Transfer::Write => {}
        }
        now
    }

    /// Returns the world once the pending transfer met a bus error.
    pub(crate) fn failed(self) -> World
        ensures { result ≡ world_failed self }
    {
        World {
            pending: None,
            sticky_error: true,
            tar: Tar::Unknown,
            buffer: Held::Unknown,
            ..self
        }
    }

    /// Returns the world once OK was answered to a request that can be refused, before what the request does. It is one
    /// of an access port, or of the debug port.
    #[inline(always)]
    pub(crate) fn confirmed(self, ap: bool) -> World
        ensures { result ≡ world_confirmed ap self }
    {
        let mut now = self.succeeded();
        if ap {
            now.debug = Power::Seen;
        }
        now
    }

    /// Returns the world after a line reset.
    pub(crate) fn after_reset(self) -> World
        ensures { result ≡ world_after_reset self }
    {
        World {
            reset: Reset::Fresh,
            write_error: self.write_error || self.awaits,
            awaits: false,
            ..self
        }
    }

    /// Returns the world after WAIT.
    pub(crate) fn after_wait(self, register: Register) -> World
        ensures { result ≡ world_after_wait register self }
    {
        World {
            read_ok: self.read_ok && !register.is_posted(),
            ..self
        }
    }

    /// Returns the world after FAULT. Nothing may be pending.
    pub(crate) fn after_fault(self, register: Register, ap: bool) -> World
        ensures { result ≡ world_after_fault register ap self }
    {
        World {
            read_ok: self.read_ok && !register.is_posted(),
            sticky_error: self.sticky_error || (ap && !self.debug.is_there()),
            ..self
        }
    }

    /// Returns the world after a write whose data arrived damaged.
    pub(crate) fn after_damage(self) -> World
        ensures { result ≡ world_after_damage self }
    {
        World {
            write_error: true,
            ..self
        }
    }

    /// Returns whether a write is pending.
    #[inline(always)]
    pub(crate) fn is_writing(&self) -> bool
        ensures { (result ≡ true) ↔ (self.now.pending ≡ Some TransferWrite) }
    {
        matches!(&self.pending, Some(Transfer::Write))
    }

    /// Returns the world once the pending write was given up.
    pub(crate) fn given_up(self) -> World
        ensures { result ≡ world_given_up self }
    {
        let mut now = self;
        now.pending = None;
        now.write_error = true;
        now
    }

    /// Returns whether all that the other explains is explained by this.
    pub(crate) fn covers(self, other: World) -> bool
        ensures { result ≡ true → WorldIncludes self other }
    {
        if self.is_wider(other) {
            self.tar.covers(other.tar)
        } else {
            false
        }
    }

    /// Returns a world that explains exactly what these two do, if one of them explains all that the other does, or
    /// they differ in neighbouring addresses of TAR alone.
    pub(crate) fn joined(self, other: World) -> Option<World>
        ensures joined { AreWorldsJoined self other result }
        ensures reaches { AreReachedJoined self other result }
    {
        if self.covers(other) {
            return Some(self);
        }
        if other.covers(self) {
            return Some(other);
        }
        if self.is_same_but_tar(other) {
            self.with_tar(self.tar.joined(other.tar))
        } else {
            None
        }
    }

    // Returns the world with these addresses of TAR, if any.
    fn with_tar(self, tar: Option<Tar>) -> Option<World>
        ensures { IsWorldWithTar self tar result }
    {
        match tar {
            Some(tar) => Some(World { tar, ..self }),
            None => None,
        }
    }

    // Returns whether the two may differ in TAR alone.
    fn is_same_but_tar(self, other: World) -> bool
        ensures wider { result ≡ true → IsWorldWider self other }
        ensures alike { result ≡ true → AreWorldsAlike self other }
    {
        self.is_wider(other) && other.is_wider(self)
    }

    // Returns whether all that the other explains, but for TAR, is explained by this.
    fn is_wider(self, other: World) -> bool
        ensures wider { result ≡ true → IsWorldWider self other }
        ensures covers { result ≡ true → WorldCovers self other }
    {
        self.is_alike(other)
            && self.debug.covers(other.debug)
            && self.system.covers(other.system)
            && self.buffer.covers(other.buffer)
            && self.last_returned.covers(other.last_returned)
    }

    /// Returns whether a read of CTRL/STAT may return this word, once each power was found acknowledged or late.
    pub(crate) fn shows(self, word: u32) -> bool
        ensures { IsTrue result ↔ IsCheckedStatus self word }
    {
        bit(word, 5) == self.sticky_error
            && bit(word, 6) == self.read_ok
            && bit(word, 7) == self.write_error
            && bit(word, 28) == self.debug.is_on()
            && bit(word, 29) == self.debug.is_seen()
            && bit(word, 30) == self.system.is_on()
            && bit(word, 31) == self.system.is_seen()
    }

    // Returns whether the two may differ only in what one may cover of the other.
    fn is_alike(self, other: World) -> bool
        ensures { result ≡ true → IsWorldAlike self other }
    {
        is_same_reset(self.reset, other.reset)
            && is_same_transfer(self.pending, other.pending)
            && self.sticky_error == other.sticky_error
            && self.write_error == other.write_error
            && self.read_ok == other.read_ok
            && self.mem_ap == other.mem_ap
            && self.bank0 == other.bank0
            && self.increments == other.increments
            && self.awaits == other.awaits
    }
}

// Returns whether requests are answered alike.
fn is_same_reset(reset: Reset, other: Reset) -> bool
    ensures { result ≡ true → reset ≡ other }
{
    match (reset, other) {
        (Reset::Unreset, Reset::Unreset) => true,
        (Reset::Fresh, Reset::Fresh) => true,
        (Reset::Live, Reset::Live) => true,
        _ => false,
    }
}

// Returns whether the same transfer is pending.
fn is_same_transfer(pending: Option<Transfer>, other: Option<Transfer>) -> bool
    ensures { result ≡ true → pending ≡ other }
{
    match (pending, other) {
        (None, None) => true,
        (Some(Transfer::Read), Some(Transfer::Read)) => true,
        (Some(Transfer::Write), Some(Transfer::Write)) => true,
        _ => false,
    }
}
