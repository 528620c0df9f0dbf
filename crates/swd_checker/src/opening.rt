//! What is known of a target before its worlds are few enough to be held.
ghost use Rattle.std.specs.Prelude.{ℕ, ◌≡◌, Bool, true, false};
ghost use Rattle.swd_bits.specs.declared.request.Request.{Request};
ghost use Rattle.swd_bits.specs.declared.tx.TxEnd.{TxEnd};
ghost use Rattle.swd_port.specs.Port.{Target};
ghost use Rattle.swd_checker.specs.declared.world.Power.{Power};
ghost use Rattle.swd_checker.specs.Described.{WorldDescribes};
ghost use Rattle.swd_checker.specs.Holding.{WorldsHold, WorldsKeep, WorldsGrow};
ghost use Rattle.swd_checker.specs.Exact.{IsWorldSound};
ghost use Rattle.swd_checker.specs.Reaching.{AreKeptSound};
ghost use Rattle.swd_checker.specs.Openings.{OpeningLeads, WorldsOpen, IsOpenedAtStatus, IsOpenedAtOkay, world_unknown};
ghost use Rattle.swd_checker.specs.Openings.{checked_passes, checked_may_be_refused, checked_leaves_rest};
ghost use Rattle.swd_checker.specs.Openings.{checked_reads_status, checked_selects, is_checked_moved, is_opening_over};
ghost use Rattle.swd_checker.specs.Knowing.{opening_after_end, opening_after_fault, opening_after_moved};
ghost use Rattle.swd_checker.specs.Knowing.{opening_after_other, opening_after_whole, is_opening_decided};

use crate::after::selecting;
use crate::held::Held;
use crate::near::bit;
use crate::tar::Tar;
use crate::world::{Power, World};
use crate::worlds::Worlds;
use swd_bits::{Reg4, Request, Tx, TxEnd};
use swd_port::Reset;

/// What is known of a target at first.
#[derive(Clone, Copy)]
pub(crate) enum Opening {
    /// Nothing: any state.
    Anything,
    /// SELECT is 0, and nothing is pending.
    Resting,
    /// The last write was SELECT, with this word. It was answered OK, and its data may have been damaged.
    Selected(u32),
    /// The worlds are held.
    Over,
}

impl Opening {
    /// Returns whether the worlds are held.
    #[inline(always)]
    pub(crate) fn is_over(self) -> bool
        ensures { result ≡ is_opening_over self }
    {
        matches!(&self, Opening::Over)
    }

    /// Returns what is known after a transaction. The worlds aren't held.
    pub(crate) fn after(self, tx: &Tx) -> Opening
        ensures leads { (self ≡ Opening.Over → ⊥) → OpeningLeads self tx.now.result tx.now.request result }
        ensures exact { result ≡ opening_after_end self tx.now.result tx.now.request }
    {
        match tx.result {
            TxEnd::Wait => self,
            TxEnd::Moved { word, parity_ok } => self.after_word(tx.request, word, parity_ok),
            TxEnd::Fault => self.after_fault(),
            TxEnd::NoAck(_) => self.after_other(tx.request),
        }
    }

    // Returns what is known after FAULT.
    fn after_fault(self) -> Opening
        ensures leads { (q : Request) → OpeningLeads self TxEnd.Fault q result }
        ensures exact { result ≡ opening_after_fault self }
    {
        match self {
            Opening::Resting => Opening::Resting,
            _ => Opening::Anything,
        }
    }

    // Returns what is known after OK and a data phase.
    fn after_word(self, request: Request, word: u32, parity_ok: bool) -> Opening
        ensures leads { OpeningLeads self (TxEnd.Moved word parity_ok) request result }
        ensures exact { result ≡ opening_after_end self (TxEnd.Moved word parity_ok) request }
    {
        if parity_ok {
            self.after_whole_word(request, word)
        } else {
            self.after_moved(request)
        }
    }

    // The same where the word's parity was right.
    fn after_whole_word(self, request: Request, word: u32) -> Opening
        ensures leads { (ok : Bool) → ok ≡ true → OpeningLeads self (TxEnd.Moved word ok) request result }
        ensures exact { result ≡ opening_after_whole self request word }
    {
        if selects(request) {
            Opening::Selected(word)
        } else {
            self.after_moved(request)
        }
    }

    // The same where the request isn't a write of SELECT whose word was sent with right parity.
    fn after_moved(self, request: Request) -> Opening
        ensures leads { (word : ℕ) (ok : Bool) → OpeningLeads self (TxEnd.Moved word ok) request result }
        ensures exact { result ≡ opening_after_moved self request }
    {
        match self {
            Opening::Selected(select) => after_selected(request, select),
            _ => self.after_other(request),
        }
    }

    // Returns what is known after a request that may have been accepted.
    fn after_other(self, request: Request) -> Opening
        ensures leads { (end : TxEnd) → OpeningLeads self end request result }
        ensures exact { result ≡ opening_after_other self request }
    {
        match self {
            Opening::Resting => after_resting(request),
            _ => Opening::Anything,
        }
    }
}

// Returns what is known after OK to a request, where the last write was SELECT.
fn after_selected(request: Request, select: u32) -> Opening
    ensures leads { (word : ℕ) (ok : Bool)
        → OpeningLeads (Opening.Selected select) (TxEnd.Moved word ok) request result }
    ensures exact { result ≡ opening_after_moved (Opening.Selected select) request }
{
    if passes(request) {
        Opening::Selected(select)
    } else {
        Opening::Anything
    }
}

// Returns what is known after a request, where the target was at rest.
fn after_resting(request: Request) -> Opening
    ensures leads { (end : TxEnd) → OpeningLeads Opening.Resting end request result }
    ensures exact { result ≡ opening_after_other Opening.Resting request }
{
    if leaves_rest(request) {
        Opening::Resting
    } else {
        Opening::Anything
    }
}

impl Worlds {
    /// Holds the worlds before this transaction, if they are few enough. Returns whether they are.
    pub(crate) fn begin(&mut self, opening: Opening, tx: &Tx) -> bool
        ensures opens { result ≡ true → WorldsOpen opening tx.now.result tx.now.request self.new }
        ensures sound { result ≡ true → AreKeptSound self.new.kept.items }
        ensures exact { result ≡ is_opening_decided opening tx.now.result tx.now.request }
    {
        match opening {
            Opening::Resting => self.open_resting(tx),
            Opening::Selected(select) => self.open_selected(tx, select),
            _ => false,
        }
    }

    // The same of a target at rest.
    fn open_resting(&mut self, tx: &Tx) -> bool
        ensures opens { result ≡ true → WorldsOpen Opening.Resting tx.now.result tx.now.request self.new }
        ensures sound { result ≡ true → AreKeptSound self.new.kept.items }
        ensures exact { result ≡ is_opening_decided Opening.Resting tx.now.result tx.now.request }
    {
        match tx.result {
            TxEnd::Moved { word, parity_ok } => self.open_moved(tx.request, word, parity_ok),
            _ => false,
        }
    }

    // The same of a target at rest that answered OK.
    fn open_moved(&mut self, request: Request, word: u32, parity_ok: bool) -> bool
        ensures opens { result ≡ true → WorldsOpen Opening.Resting (TxEnd.Moved word parity_ok) request self.new }
        ensures sound { result ≡ true → AreKeptSound self.new.kept.items }
        ensures exact { result ≡ is_opening_decided Opening.Resting (TxEnd.Moved word parity_ok) request }
    {
        if parity_ok {
            self.open_reading(request, word)
        } else {
            false
        }
    }

    // The same where the word's parity was right.
    fn open_reading(&mut self, request: Request, word: u32) -> bool
        ensures opens { result ≡ true → (ok : Bool) → ok ≡ true
            → WorldsOpen Opening.Resting (TxEnd.Moved word ok) request self.new }
        ensures sound { result ≡ true → AreKeptSound self.new.kept.items }
        ensures exact { result ≡ checked_reads_status request.addr request.ap request.read }
    {
        if reads_status(request) {
            self.open_at_status(word);
            true
        } else {
            false
        }
    }

    // The same where the last write was SELECT.
    fn open_selected(&mut self, tx: &Tx, select: u32) -> bool
        ensures opens { result ≡ true → WorldsOpen (Opening.Selected select) tx.now.result tx.now.request self.new }
        ensures sound { result ≡ true → AreKeptSound self.new.kept.items }
        ensures exact { result ≡ is_opening_decided (Opening.Selected select) tx.now.result tx.now.request }
    {
        if is_moved(tx.result) {
            self.open_refusable(tx, select)
        } else {
            false
        }
    }

    // The same where the target answered OK.
    fn open_refusable(&mut self, tx: &Tx, select: u32) -> bool
        ensures opens { result ≡ true → is_checked_moved tx.now.result ≡ true
            → WorldsOpen (Opening.Selected select) tx.now.result tx.now.request self.new }
        ensures sound { result ≡ true → AreKeptSound self.new.kept.items }
        ensures exact { result ≡ checked_may_be_refused tx.now.request.addr tx.now.request.ap tx.now.request.read }
    {
        if may_be_refused(tx.request) {
            self.open_at_okay(select);
            true
        } else {
            false
        }
    }

    // Holds the worlds of a target at rest whose CTRL/STAT reads this word.
    fn open_at_status(&mut self, word: u32)
        ensures crowded { self.new.crowded ≡ false }
        ensures opens { (x : Target) → IsOpenedAtStatus word x → WorldsHold self.new false x }
        ensures sound { AreKeptSound self.new.kept.items }
    {
        self.empty();
        self.add_any(World {
            sticky_error: bit(word, 5),
            read_ok: bit(word, 6),
            write_error: bit(word, 7),
            ..unknown()
        });
    }

    // Holds the worlds of a target that answers OK to a request that it may refuse, after SELECT was written: no flag
    // is set, so the write arrived, and nothing is pending.
    fn open_at_okay(&mut self, select: u32)
        ensures crowded { self.new.crowded ≡ false }
        ensures opens { (x : Target) → IsOpenedAtOkay select x → WorldsHold self.new false x }
        ensures sound { AreKeptSound self.new.kept.items }
    {
        let world = selecting(unknown(), select);
        self.empty();
        self.add_any(World {
            read_ok: false,
            ..world
        });
        self.add_any(World {
            read_ok: true,
            ..world
        });
    }

    // Adds this world with AddrInc single and off, and with each state of each power.
    fn add_any(&mut self, world: World)
        ensures keeps { WorldsKeep self.old self.new }
        ensures grows { WorldsGrow 18 self.old self.new }
        ensures sound { AreKeptSound self.old.kept.items → IsWorldSound world → AreKeptSound self.new.kept.items }
        ensures adds { (debug system : Power) (increments : Bool) (x : Target) → (debug ≡ Power.Seen → ⊥)
            → (system ≡ Power.Seen → ⊥)
            → WorldDescribes (record world { debug = debug; system = system; increments = increments }) x
            → WorldsHold self.new world.awaits x }
    {
        self.add_any_system(World {
            debug: Power::Off,
            ..world
        });
        self.add_any_system(World {
            debug: Power::Unseen,
            ..world
        });
        self.add_any_system(World {
            debug: Power::Late,
            ..world
        });
    }

    // The same with this debug power.
    fn add_any_system(&mut self, world: World)
        ensures keeps { WorldsKeep self.old self.new }
        ensures grows { WorldsGrow 6 self.old self.new }
        ensures sound { AreKeptSound self.old.kept.items → IsWorldSound world → AreKeptSound self.new.kept.items }
        ensures adds { (system : Power) (increments : Bool) (x : Target) → (system ≡ Power.Seen → ⊥)
            → WorldDescribes (record world { system = system; increments = increments }) x
            → WorldsHold self.new world.awaits x }
    {
        self.add_any_increment(World {
            system: Power::Off,
            ..world
        });
        self.add_any_increment(World {
            system: Power::Unseen,
            ..world
        });
        self.add_any_increment(World {
            system: Power::Late,
            ..world
        });
    }

    // The same with these powers.
    fn add_any_increment(&mut self, world: World)
        ensures keeps { WorldsKeep self.old self.new }
        ensures grows { WorldsGrow 2 self.old self.new }
        ensures sound { AreKeptSound self.old.kept.items → IsWorldSound world → AreKeptSound self.new.kept.items }
        ensures adds { (increments : Bool) (x : Target) → WorldDescribes (record world { increments = increments }) x
            → WorldsHold self.new world.awaits x }
    {
        self.add(
            World {
                increments: false,
                ..world
            },
            0,
        );
        self.add(
            World {
                increments: true,
                ..world
            },
            0,
        );
    }
}

// Returns a world that is live, with no flag set, nothing pending and SELECT 0, of which no word is known.
fn unknown() -> World
    ensures { result ≡ world_unknown }
{
    World {
        reset: Reset::Live,
        tar: Tar::Unknown,
        buffer: Held::Unknown,
        last_returned: Held::Unknown,
        ..World::made()
    }
}

// Returns whether there was a data phase.
fn is_moved(end: TxEnd) -> bool
    ensures { result ≡ is_checked_moved end }
{
    matches!(&end, TxEnd::Moved { .. })
}

// Returns whether OK to this request may show no flag and change none, whatever SELECT is. A read of address 4 may be
// one of CTRL/STAT, since the last write of SELECT may have been damaged.
fn passes(request: Request) -> bool
    ensures { result ≡ checked_passes request.addr request.ap request.read }
{
    match request.addr {
        Reg4::R0 | Reg4::R4 => !request.ap && request.read,
        Reg4::R8 | Reg4::RC => false,
    }
}

// Returns whether the target may refuse the request, whatever SELECT is.
fn may_be_refused(request: Request) -> bool
    ensures { result ≡ checked_may_be_refused request.addr request.ap request.read }
{
    match request.addr {
        Reg4::R0 => request.ap,
        Reg4::R4 => request.ap || !request.read,
        Reg4::R8 | Reg4::RC => true,
    }
}

// Returns whether the request neither starts a transfer nor writes SELECT, whatever SELECT is.
fn leaves_rest(request: Request) -> bool
    ensures { result ≡ checked_leaves_rest request.addr request.ap request.read }
{
    match request.addr {
        Reg4::R0 | Reg4::R4 => true,
        Reg4::R8 => request.ap || request.read,
        Reg4::RC => !request.ap,
    }
}

// Returns whether the request reads CTRL/STAT, where DPBANKSEL is 0.
fn reads_status(request: Request) -> bool
    ensures { result ≡ checked_reads_status request.addr request.ap request.read }
{
    match request.addr {
        Reg4::R4 => !request.ap && request.read,
        Reg4::R0 | Reg4::R8 | Reg4::RC => false,
    }
}

// Returns whether the request writes SELECT.
fn selects(request: Request) -> bool
    ensures { result ≡ checked_selects request.addr request.ap request.read }
{
    match request.addr {
        Reg4::R8 => !request.ap && !request.read,
        Reg4::R0 | Reg4::R4 | Reg4::RC => false,
    }
}
