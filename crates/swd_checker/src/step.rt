//! The worlds after a transaction.
ghost use Rattle.std.specs.Prelude.{ℕ, ◌≡◌, ◌<◌, ◌+◌, ◌&&◌, ◌||◌, Bool, true, false, not, None, Some};
ghost use Rattle.std.specs.Prelude.{◌↔◌, is_some, IfSome};
ghost use Rattle.swd_port.specs.Registers.{register_bit};
ghost use Rattle.swd_port.specs.Port.{Port, Target};
ghost use Rattle.swd_port.specs.Choices.{Choice};
ghost use Rattle.swd_port.specs.Answers.{is_exempt_register};
ghost use Rattle.swd_port.specs.Asking.{port_answer, port_after_okay, port_after_wait, port_after_fault, port_value_in};
ghost use Rattle.swd_port.specs.Asking.{is_port_posted};
ghost use Rattle.swd_port.specs.Moving.{Arrives, port_after_bits};
ghost use Rattle.swd_checker.specs.Worlds.{HeldWord};
ghost use Rattle.swd_checker.specs.Described.{IsWorldNow, WorldDescribes, IsCheckedNear, checked_changed_at};
ghost use Rattle.swd_checker.specs.Described.{checked_near_at};
ghost use Rattle.swd_checker.specs.Holding.{WorldsHold, WorldsKeep, WorldsHoldPort};
ghost use Rattle.swd_checker.specs.Laws.{WorldDescribesPort};
ghost use Rattle.swd_checker.specs.Steps.{WorldAccepts, world_register, world_due, world_cleared};
ghost use Rattle.swd_checker.specs.Asking.{IsAskedBy, IsAskedAlike, IsAskedAccepted, IsAskedTo};
ghost use Rattle.swd_checker.specs.declared.step.Asked.{Asked};
ghost use Rattle.swd_checker.specs.Adding.{WorldsReturn, WorldsPost, WorldsRead, WorldsFind, WorldsFindPowers};
ghost use Rattle.swd_checker.specs.Adding.{WorldsArrive, WorldsDamage, WorldsLose, IsCheckedPrompt};
ghost use Rattle.swd_checker.specs.Adding.{is_debug_late, is_system_late};
ghost use Rattle.swd_checker.specs.Checked.{CheckedTransacts, CheckedTransactsKept, CheckedHasMoved, WasCheckedLost};
ghost use Rattle.swd_checker.specs.Checked.{IsCheckedOkay};
ghost use Rattle.swd_checker.specs.Worlds.{Power, world_after_damage, world_failed};
ghost use Rattle.swd_checker.specs.Words.{IsCheckedStatus};
ghost use Rattle.swd_checker.specs.Steps.{checked_power_found};
ghost use Rattle.swd_checker.specs.Exact.{IsNearSound};
ghost use Rattle.swd_checker.specs.Reaching.{CheckedLink, WorldReaches, WorldsReach, HeldNarrows, LinkSteps, LinkHas};
ghost use Rattle.swd_checker.specs.Reaching.{LinkLeads};
ghost use Rattle.swd_checker.specs.Reaching.{checked_near_changed};
ghost use Rattle.swd_checker.specs.Reached.{MayFault, WorldsRefuse, WorldsDefer, world_accepted, WorldsPostTar};
ghost use Rattle.swd_checker.specs.Reached.{WorldsPostHeld, WorldsReturnAny, WorldsFindAll, WorldsReadStatus};
ghost use Rattle.swd_checker.specs.Reached.{WorldsReadSeen, WorldsArriveAt, WorldsTransfer, WorldsMove};
ghost use Rattle.swd_checker.specs.Reached.{WorldsLoseAny, WorldsLoseSeen, WorldsLoseOkay};

use crate::after::{
    at_tar, cleared, live, may_clear, may_show, posted, powered, selecting, written,
};
use crate::held::Held;
use crate::near::{Near, Words};
use crate::tar::Tar;
use crate::world::{Transfer, World};
use crate::worlds::Worlds;
use swd_bits::{Request, Tx, TxEnd};
use swd_port::{Csw, Register, Reply};

/// The number that is seen where nobody drives an acknowledgement.
const UNDRIVEN: u8 = 7;

/// A transaction's request in a world that may answer it.
#[derive(Clone, Copy)]
struct Asked {
    world: World,
    request: Request,
    register: Register,
    /// The least number of requests that were damaged or lost.
    faults: u64,
    /// Whether nothing is damaged or lost.
    clean: bool,
}

impl Worlds {
    /// Adds the worlds after a transaction in this world. Where `clean` is true, nothing is damaged or lost.
    #[inline(always)]
    pub(crate) fn step(&mut self, world: World, faults: u64, tx: &Tx, clean: bool)
        ensures keeps { WorldsKeep self.old self.new }
        ensures steps { (s t : Port) → CheckedTransacts clean tx.now.result tx.now.request s t
            → WorldDescribesPort world s → WorldsHoldPort self.new t }
        ensures reaches { (link : CheckedLink) → WorldsReach link self.old
            → LinkSteps link clean tx.now → LinkHas link world → WorldsReach link self.new }
    {
        self.step_kept(world, faults, tx, clean);
        if world.may_give_up(tx.request) {
            self.step_given_up(world.given_up(), faults, tx, clean);
        }
    }

    // Adds the worlds after a transaction before which the pending write was given up, which leads to this world. The
    // target answers OK to it.
    #[inline(never)]
    fn step_given_up(&mut self, world: World, faults: u64, tx: &Tx, clean: bool)
        ensures keeps { WorldsKeep self.old self.new }
        ensures steps { (s t : Port) → is_exempt_register (world_register world tx.now.request) ≡ true
            → (h : CheckedTransactsKept clean tx.now.result tx.now.request s t)
            → IsCheckedOkay clean tx.now.result tx.now.request s t h → WorldDescribesPort world s
            → WorldsHoldPort self.new t }
        ensures reaches { (link : CheckedLink) → WorldsReach link self.old
            → LinkSteps link clean tx.now → LinkLeads true link clean tx.now world → WorldsReach link self.new }
    {
        let asked = Asked {
            world,
            request: tx.request,
            register: world.register(tx.request),
            faults,
            clean,
        };
        match tx.result {
            TxEnd::Moved { word, parity_ok } => self.moves(asked, word, parity_ok),
            TxEnd::NoAck(_) => self.lose_okay(asked),
            _ => {}
        }
    }

    // Adds the worlds after OK that was lost.
    fn lose_okay(&mut self, asked: Asked)
        ensures keeps { WorldsKeep self.old self.new }
        ensures loses { (seen : ℕ) (s t : Port) → IsAskedBy asked
            → (h : WasCheckedLost asked.clean asked.request seen s t)
            → IsCheckedOkay asked.clean (TxEnd.NoAck seen) asked.request s t h → WorldDescribesPort asked.world s
            → WorldsHoldPort self.new t }
        ensures reaches { (link : CheckedLink) → WorldsReach link self.old
            → IsAskedBy asked
            → (asked.clean ≡ false → WorldsLoseOkay link asked.world asked.request asked.register) →
            WorldsReach link self.new }
    {
        if !asked.clean {
            self.accept_unseen(asked.with_fault());
        }
    }

    // Adds the worlds after a transaction before which no write was given up.
    #[inline(always)]
    fn step_kept(&mut self, world: World, faults: u64, tx: &Tx, clean: bool)
        ensures keeps { WorldsKeep self.old self.new }
        ensures steps { (s t : Port) → CheckedTransactsKept clean tx.now.result tx.now.request s t
            → WorldDescribesPort world s → WorldsHoldPort self.new t }
        ensures reaches { (link : CheckedLink) → WorldsReach link self.old
            → LinkSteps link clean tx.now → LinkHas link world → WorldsReach link self.new }
    {
        let request = tx.request;
        let asked = Asked {
            world,
            request,
            register: world.register(request),
            faults,
            clean,
        };
        match tx.result {
            TxEnd::Fault => self.refuse(asked),
            TxEnd::Wait => self.defer(asked),
            TxEnd::Moved { word, parity_ok } => self.moves(asked, word, parity_ok),
            TxEnd::NoAck(seen) => self.lose(asked, seen),
        }
    }

    // Adds the world if the condition holds.
    #[inline(always)]
    fn add_if(&mut self, condition: bool, world: World, faults: u64)
        ensures keeps { WorldsKeep self.old self.new }
        ensures adds { condition ≡ true → (x : Target) → WorldDescribes world x → WorldsHold self.new world.awaits x }
        ensures reaches { (link : CheckedLink) → WorldsReach link self.old
            → (condition ≡ true → WorldReaches link world) → WorldsReach link self.new }
    {
        if condition {
            self.add(world, faults);
        }
    }

    // Adds the worlds after FAULT: a flag is set, an access port isn't powered, or the pending transfer failed.
    fn refuse(&mut self, asked: Asked)
        ensures keeps { WorldsKeep self.old self.new }
        ensures refuses { (x : Target) → IsAskedBy asked → WorldDescribes asked.world x → x.pending ≡ None
            → port_answer x asked.request ≡ Reply.Faults
            → WorldsHold self.new asked.world.awaits (port_after_fault asked.register asked.request.ap x) }
        ensures reaches { (link : CheckedLink) → WorldsReach link self.old
            → IsAskedBy asked → WorldsRefuse link asked.world asked.request asked.register → WorldsReach link self.new }
    {
        let world = asked.world;
        let (register, ap) = (asked.register, asked.request.ap);
        self.add_if(
            asked.is_refused(),
            world.succeeded().after_fault(register, ap),
            asked.faults,
        );
        self.add_if(
            asked.may_have_failed(),
            world.failed().after_fault(register, ap),
            asked.faults,
        );
    }

    // Adds the world after WAIT.
    fn defer(&mut self, asked: Asked)
        ensures keeps { WorldsKeep self.old self.new }
        ensures defers { (x : Target) → IsAskedBy asked → WorldDescribes asked.world x
            → port_answer x asked.request ≡ Reply.Okay → is_exempt_register asked.register ≡ false
            → WorldsHold self.new asked.world.awaits (port_after_wait asked.register x) }
        ensures reaches { (link : CheckedLink) → WorldsReach link self.old
            → IsAskedBy asked → WorldsDefer link asked.world asked.request asked.register → WorldsReach link self.new }
    {
        self.add_if(
            asked.may_wait(),
            asked.world.after_wait(asked.register),
            asked.faults,
        );
    }

    // Adds the worlds after OK and a data phase.
    #[inline(always)]
    fn moves(&mut self, asked: Asked, word: u32, parity_ok: bool)
        ensures keeps { WorldsKeep self.old self.new }
        ensures moves { (s t : Port) → IsAskedBy asked
            → CheckedHasMoved asked.clean asked.request word parity_ok s t → WorldDescribesPort asked.world s
            → WorldsHoldPort self.new t }
        ensures reaches { (link : CheckedLink) → WorldsReach link self.old
            → IsAskedBy asked
            → WorldsMove link asked.world asked.request asked.register asked.clean word parity_ok → WorldsReach link
            self.new }
    {
        match asked.accepted(false) {
            Some(now) => self.transfer(now, word, parity_ok),
            None => {}
        }
    }

    // Adds the worlds after the data phase.
    #[inline(always)]
    fn transfer(&mut self, now: Asked, word: u32, parity_ok: bool)
        ensures keeps { WorldsKeep self.old self.new }
        ensures moves { (asked : Asked) (s t : Port) → IsAskedAlike now asked → now.world.awaits ≡ false
            → IsAskedTo asked now.world → IsAskedBy asked
            → CheckedHasMoved asked.clean asked.request word parity_ok s t → WorldDescribesPort asked.world s
            → WorldsHoldPort self.new t }
        ensures reaches { (link : CheckedLink) → WorldsReach link self.old
            → WorldsTransfer link now.world now.register now.request.read now.clean word parity_ok → WorldsReach link
            self.new }
    {
        match (now.request.read, parity_ok) {
            (false, true) => self.write(now, word),
            (false, false) => self.write_damaged(now, word),
            (true, true) => self.read(now, Near::of(word), true),
            (true, false) => self.read_damaged(now, word),
        }
    }

    // Adds the worlds after a request whose acknowledgement wasn't seen.
    fn lose(&mut self, asked: Asked, seen: u8)
        ensures keeps { WorldsKeep self.old self.new }
        ensures loses { (s t : Port) → IsAskedBy asked → WasCheckedLost asked.clean asked.request seen s t
            → WorldDescribesPort asked.world s → WorldsHoldPort self.new t }
        ensures reaches { (link : CheckedLink) → WorldsReach link self.old
            → IsAskedBy asked
            → WorldsLoseSeen link asked.world asked.request asked.register asked.clean seen
            → WorldsReach link self.new }
    {
        if asked.is_quiet(seen) {
            self.add(asked.world, asked.faults);
        } else if !asked.clean {
            self.lose_any(asked.with_fault());
        }
    }

    // Adds the worlds after a request that the target didn't see, or whose answer was damaged.
    fn lose_any(&mut self, lost: Asked)
        ensures keeps { WorldsKeep self.old self.new }
        ensures loses { IsAskedBy lost → WorldsLose self.new lost.world lost.request lost.register }
        ensures reaches { (link : CheckedLink) → WorldsReach link self.old
            → IsAskedBy lost → WorldsLoseAny link lost.world lost.request lost.register → WorldsReach link self.new }
    {
        self.add(lost.world, lost.faults);
        self.refuse(lost);
        self.accept_unseen(lost);
    }

    // Adds the worlds after OK that wasn't seen.
    fn accept_unseen(&mut self, lost: Asked)
        ensures keeps { WorldsKeep self.old self.new }
        ensures accepts { (c : Choice) (x : Target) → IsAskedBy lost → WorldDescribes lost.world x
            → (is_exempt_register lost.register ≡ false → x.pending ≡ None)
            → port_answer x lost.request ≡ Reply.Okay → IsCheckedPrompt c
            → WorldsHold self.new (not lost.request.read) (port_after_okay c lost.register x) }
        ensures reaches { (link : CheckedLink) → WorldsReach link self.old
            → IsAskedBy lost → WorldsLoseOkay link lost.world lost.request lost.register → WorldsReach link self.new }
    {
        match lost.accepted(!lost.request.read) {
            Some(now) => self.return_unseen(now),
            None => {}
        }
    }

    // Adds the worlds after a read that returned one of these words. `parity_ok` says that no bit of it was changed.
    #[inline(always)]
    fn read(&mut self, now: Asked, seen: Near, parity_ok: bool)
        ensures keeps { WorldsKeep self.old self.new }
        ensures reads { WorldsRead self.new now.world now.register seen parity_ok }
        ensures reaches { (link : CheckedLink) → WorldsReach link self.old
            → IsNearSound seen → WorldsReadSeen link now.world now.register seen parity_ok → WorldsReach link self.new }
    {
        match now.register {
            Register::CtrlStatRead => self.read_status(now, seen, parity_ok),
            Register::ResendRead => self.resend(now, seen),
            _ => self.read_other(now, seen),
        }
    }

    // The same where the register is neither CTRL/STAT nor RESEND.
    fn read_other(&mut self, now: Asked, seen: Near)
        ensures keeps { WorldsKeep self.old self.new }
        ensures reads { (parity_ok : Bool) → (now.register ≡ Register.CtrlStatRead → ⊥)
            → WorldsRead self.new now.world now.register seen parity_ok }
        ensures reaches { (link : CheckedLink) → WorldsReach link self.old
            → IsNearSound seen → (now.register ≡ Register.CtrlStatRead → ⊥)
            → (now.register ≡ Register.ResendRead → ⊥) → (ok : Bool)
            → WorldsReadSeen link now.world now.register seen ok → WorldsReach link self.new }
    {
        if now.register.is_posted() {
            self.read_posted(now, seen);
        } else {
            self.return_unseen(now);
        }
    }

    // Adds the worlds after a read that returned the read buffer.
    fn read_posted(&mut self, now: Asked, seen: Near)
        ensures keeps { WorldsKeep self.old self.new }
        ensures reads { (parity_ok : Bool) → is_port_posted now.register ≡ true
            → WorldsRead self.new now.world now.register seen parity_ok }
        ensures reaches { (link : CheckedLink) → WorldsReach link self.old
            → IsNearSound seen → ((held : Held) → HeldNarrows now.world.buffer seen held
            → WorldsPostHeld link now.world now.register held) → is_port_posted now.register ≡ true → WorldsReach link
            self.new }
    {
        match now.world.buffer.narrowed(seen) {
            Some(buffer) => self.post(now, buffer),
            None => {}
        }
    }

    // The same where the word was seen with wrong parity.
    fn read_damaged(&mut self, now: Asked, word: u32)
        ensures keeps { WorldsKeep self.old self.new }
        ensures reads { now.clean ≡ false → (place : ℕ) → place < 33 → (c : Choice) (x : Target)
            → WorldAccepts now.world now.register c x → IsCheckedPrompt c
            → port_value_in c now.register x ≡ checked_changed_at word place
            → WorldsHold self.new now.world.awaits (port_after_okay c now.register x) }
        ensures reaches { (link : CheckedLink) → WorldsReach link self.old
            → (now.clean ≡ false
            → WorldsReadSeen link now.world now.register (checked_near_changed word) false)
            → WorldsReach link self.new }
    {
        if !now.clean {
            self.read(now.with_fault(), Near::seen(word, false), false);
        }
    }

    // Adds the world after RESEND returned one of these words.
    fn resend(&mut self, now: Asked, seen: Near)
        ensures keeps { WorldsKeep self.old self.new }
        ensures resends { (c : Choice) (x : Target) → now.register ≡ Register.ResendRead
            → WorldAccepts now.world now.register c x → IsCheckedNear seen (port_value_in c now.register x)
            → WorldsHold self.new now.world.awaits (port_after_okay c now.register x) }
        ensures reaches { (link : CheckedLink) → WorldsReach link self.old
            → IsNearSound seen → ((held : Held) → HeldNarrows now.world.last_returned seen held
            → WorldReaches link (record now.world { last_returned = held })) → WorldsReach link self.new }
    {
        match now.world.last_returned.narrowed(seen) {
            Some(last_returned) => self.add(
                World {
                    last_returned,
                    ..now.world
                },
                now.faults,
            ),
            None => {}
        }
    }

    // Adds the worlds after OK to a request whose data wasn't seen, or that returns no word that is known.
    fn return_unseen(&mut self, now: Asked)
        ensures keeps { WorldsKeep self.old self.new }
        ensures returns { WorldsReturn self.new now.world now.register }
        ensures reaches { (link : CheckedLink) → WorldsReach link self.old
            → WorldsReturnAny link now.world now.register → WorldsReach link self.new }
    {
        match now.register {
            Register::DpidrRead => self.add(live(now.world), now.faults),
            Register::CtrlStatRead => self.add(
                World {
                    debug: now.world.debug.seen(),
                    system: now.world.system.seen(),
                    ..now.world
                },
                now.faults,
            ),
            _ => self.return_other(now),
        }
    }

    // The same where the register is neither DPIDR nor CTRL/STAT.
    fn return_other(&mut self, now: Asked)
        ensures keeps { WorldsKeep self.old self.new }
        ensures returns { (now.register ≡ Register.DpidrRead → ⊥) → (now.register ≡ Register.CtrlStatRead → ⊥)
            → WorldsReturn self.new now.world now.register }
        ensures reaches { (link : CheckedLink) → WorldsReach link self.old
            → (now.register ≡ Register.DpidrRead → ⊥) → (now.register ≡ Register.CtrlStatRead → ⊥)
            → WorldsReturnAny link now.world now.register → WorldsReach link self.new }
    {
        if now.register.is_posted() {
            self.post(now, now.world.buffer);
        } else {
            self.add(now.world, now.faults);
        }
    }

    // Adds the worlds after an AP read or RDBUFF read that returned the read buffer.
    #[inline(always)]
    fn post(&mut self, now: Asked, buffer: Held)
        ensures keeps { WorldsKeep self.old self.new }
        ensures posts { WorldsPost self.new now.world now.register buffer }
        ensures reaches { (link : CheckedLink) → WorldsReach link self.old
            → is_port_posted now.register ≡ true → WorldsPostHeld link now.world now.register buffer → WorldsReach link
            self.new }
    {
        let world = posted(now.world, buffer);
        match now.register {
            Register::CswRead => self.add(
                World {
                    buffer: Held::Csw(world.increments),
                    ..world
                },
                now.faults,
            ),
            Register::TarRead => self.post_tar(world, now.faults),
            Register::DrwRead => self.add(
                World {
                    pending: Some(Transfer::Read),
                    ..world
                },
                now.faults,
            ),
            Register::ApOtherRead => self.post_elsewhere(world, now.faults),
            _ => self.add(world, now.faults),
        }
    }

    // Adds the worlds after a read of a register elsewhere: it has a word, or is a bus error.
    fn post_elsewhere(&mut self, world: World, faults: u64)
        ensures keeps { WorldsKeep self.old self.new }
        ensures word { (x : Target) → WorldDescribes (record world { buffer = HeldWord }) x
            → WorldsHold self.new world.awaits x }
        ensures error { (x : Target) → WorldDescribes (record world { sticky_error = true }) x
            → WorldsHold self.new world.awaits x }
        ensures reaches { (link : CheckedLink) → WorldsReach link self.old
            → WorldReaches link (record world { buffer = HeldWord })
            → WorldReaches link (record world { sticky_error = true }) → WorldsReach link self.new }
    {
        self.add(
            World {
                buffer: Held::Word,
                ..world
            },
            faults,
        );
        self.add(
            World {
                sticky_error: true,
                ..world
            },
            faults,
        );
    }

    // Adds the worlds after a read of TAR: from here on TAR and the read buffer are the same word.
    fn post_tar(&mut self, world: World, faults: u64)
        ensures keeps { WorldsKeep self.old self.new }
        ensures posts { (x : Target) → IsWorldNow world x → x.buffer ≡ x.tar → WorldsHold self.new world.awaits x }
        ensures reaches { (link : CheckedLink) → WorldsReach link self.old
            → WorldsPostTar link world → WorldsReach link self.new }
    {
        let Tar::From { first, more } = world.tar else {
            self.add(world, faults);
            return;
        };
        for index in 0..u16::from(more) + 1 {
            self.add(at_tar(world, first, index), faults);
        }
    }

    // Adds the worlds after a read of CTRL/STAT. A bus error may show already. A power is found late at a busy target
    // alone, whose data isn't damaged.
    fn read_status(&mut self, now: Asked, seen: Near, may_be_late: bool)
        ensures keeps { WorldsKeep self.old self.new }
        ensures reads { (c : Choice) (x : Target) → (may_be_late ≡ false → IsCheckedPrompt c)
            → WorldsFind self.new now.world seen c x }
        ensures reaches { (link : CheckedLink) → WorldsReach link self.old
            → IsNearSound seen → WorldsReadStatus link now.world seen may_be_late → WorldsReach link self.new }
    {
        self.find_powers(now.world, now.faults, seen, may_be_late);
        if may_show(now.world) {
            self.find_powers(now.world.failed(), now.faults, seen, may_be_late);
        }
    }

    // Adds the worlds in which each power is found acknowledged, or late.
    fn find_powers(&mut self, world: World, faults: u64, seen: Near, may_be_late: bool)
        ensures keeps { WorldsKeep self.old self.new }
        ensures finds { (c : Choice) (x : Target) → (may_be_late ≡ false → IsCheckedPrompt c)
            → WorldsFindPowers self.new world seen c x }
        ensures reaches { (link : CheckedLink) → WorldsReach link self.old
            → IsNearSound seen → WorldsFindAll link world seen may_be_late → WorldsReach link self.new }
    {
        self.find(world, faults, seen, (false, false));
        if may_be_late {
            self.find_late(world, faults, seen);
        }
    }

    // Adds the worlds in which a power is found late.
    fn find_late(&mut self, world: World, faults: u64, seen: Near)
        ensures keeps { WorldsKeep self.old self.new }
        ensures finds { (c : Choice) (x : Target) → (is_debug_late c x || is_system_late c x) ≡ true
            → WorldsFindPowers self.new world seen c x }
        ensures reaches { (link : CheckedLink) → WorldsReach link self.old
            → IsNearSound seen → WorldsFindAll link world seen true → WorldsReach link self.new }
    {
        self.find(world, faults, seen, (false, true));
        self.find(world, faults, seen, (true, false));
        self.find(world, faults, seen, (true, true));
    }

    // Adds the world in which debug power is found late or not, and system power.
    fn find(&mut self, world: World, faults: u64, seen: Near, late: (bool, bool))
        ensures keeps { WorldsKeep self.old self.new }
        ensures finds { (c : Choice) (x : Target) → late.0 ≡ is_debug_late c x → late.1 ≡ is_system_late c x
            → WorldsFindPowers self.new world seen c x }
        ensures reaches { (link : CheckedLink) → WorldsReach link self.old
            → IsNearSound seen → ((debug system : Power) → checked_power_found world.debug late.0 ≡ Some debug
            → checked_power_found world.system late.1 ≡ Some system → (word : ℕ) → IsCheckedNear seen word
            → IsCheckedStatus (record world { debug = debug; system = system }) word
            → WorldReaches link (record world { debug = debug; system = system })) → WorldsReach link self.new }
    {
        let Some(debug) = world.debug.found(late.0) else {
            return;
        };
        let Some(system) = world.system.found(late.1) else {
            return;
        };
        let found = World {
            debug,
            system,
            ..world
        };
        self.add_if(seen.among(Words::Status(found)).is_some(), found, faults);
    }

    // Adds the worlds after a write whose word was sent: it arrives, or arrives damaged.
    #[inline(always)]
    fn write(&mut self, now: Asked, word: u32)
        ensures keeps { WorldsKeep self.old self.new }
        ensures arrives { WorldsArrive self.new now.world now.register word }
        ensures damages { now.clean ≡ false → WorldsDamage self.new now.world }
        ensures reaches { (link : CheckedLink) → WorldsReach link self.old
            → (now.clean ≡ false → WorldReaches link (world_after_damage now.world))
            → WorldsArriveAt link now.world now.register word → WorldsReach link self.new }
    {
        self.add_if(
            !now.clean,
            now.world.after_damage(),
            now.with_fault().faults,
        );
        self.arrive(now, word);
    }

    // Adds the worlds after a write whose word was sent with wrong parity: it arrives so, or is cured.
    fn write_damaged(&mut self, now: Asked, word: u32)
        ensures keeps { WorldsKeep self.old self.new }
        ensures damages { WorldsDamage self.new now.world }
        ensures cures { now.clean ≡ false → (place : ℕ) → place < 33
            → WorldsArrive self.new now.world now.register (checked_changed_at word place) }
        ensures reaches { (link : CheckedLink) → WorldsReach link self.old
            → WorldReaches link (world_after_damage now.world) → (now.clean ≡ false → (place : ℕ) → place < 33
            → WorldsArriveAt link now.world now.register (checked_changed_at word place)) → WorldsReach link self.new }
    {
        self.add(now.world.after_damage(), now.faults);
        if !now.clean {
            self.cure(now.with_fault(), Near::seen(word, false));
        }
    }

    // Adds the worlds after one of these words arrived.
    fn cure(&mut self, now: Asked, sent: Near)
        ensures keeps { WorldsKeep self.old self.new }
        ensures cures { (word : ℕ) → IsCheckedNear sent word → WorldsArrive self.new now.world now.register word }
        ensures reaches { (link : CheckedLink) → WorldsReach link self.old
            → ((place : ℕ) → place < 33 → WorldsArriveAt link now.world now.register (checked_near_at sent place)) →
            WorldsReach link self.new }
    {
        for place in 0..33 {
            self.cure_at(now, sent, place);
        }
    }

    // Adds the worlds after the word with the bit at one place changed arrived, if that place is one of the set.
    fn cure_at(&mut self, now: Asked, sent: Near, place: u8)
        requires { place < 33 }
        ensures keeps { WorldsKeep self.old self.new }
        ensures cures { register_bit place sent.places ≡ true
            → WorldsArrive self.new now.world now.register (checked_near_at sent place) }
        ensures reaches { (link : CheckedLink) → WorldsReach link self.old
            → WorldsArriveAt link now.world now.register (checked_near_at sent place) → WorldsReach link self.new }
    {
        match sent.at(place) {
            Some(word) => self.arrive(now, word),
            None => {}
        }
    }

    // Adds the worlds after a write's word arrived.
    #[inline]
    fn arrive(&mut self, now: Asked, word: u32)
        ensures keeps { WorldsKeep self.old self.new }
        ensures arrives { WorldsArrive self.new now.world now.register word }
        ensures reaches { (link : CheckedLink) → WorldsReach link self.old
            → WorldsArriveAt link now.world now.register word → WorldsReach link self.new }
    {
        match now.register {
            Register::AbortWrite => self.abort(now.world, now.faults, word),
            Register::CtrlStatWrite => self.add(powered(now.world, word), now.faults),
            Register::SelectWrite => self.add(selecting(now.world, word), now.faults),
            Register::CswWrite => self.add(
                World {
                    increments: Csw::of(word).addr_inc == 1,
                    ..written(now.world)
                },
                now.faults,
            ),
            Register::TarWrite => self.add(
                World {
                    tar: Tar::at(word),
                    ..written(now.world)
                },
                now.faults,
            ),
            Register::DrwWrite => self.add(
                World {
                    pending: Some(Transfer::Write),
                    ..written(now.world)
                },
                now.faults,
            ),
            Register::ApOtherWrite => self.arrive_elsewhere(written(now.world), now.faults),
            _ => self.add(now.world, now.faults),
        }
    }

    // Adds the worlds after a write of a register elsewhere: it has no effect, or is a bus error.
    fn arrive_elsewhere(&mut self, world: World, faults: u64)
        ensures keeps { WorldsKeep self.old self.new }
        ensures nothing { (x : Target) → WorldDescribes world x → WorldsHold self.new world.awaits x }
        ensures error { (x : Target) → WorldDescribes (record world { sticky_error = true }) x
            → WorldsHold self.new world.awaits x }
        ensures reaches { (link : CheckedLink) → WorldsReach link self.old
            → WorldReaches link world → WorldReaches link (record world { sticky_error = true }) → WorldsReach link
            self.new }
    {
        self.add(world, faults);
        self.add(
            World {
                sticky_error: true,
                ..world
            },
            faults,
        );
    }

    // Adds the worlds after ABORT. A bus error before it is cleared by STKERRCLR.
    fn abort(&mut self, world: World, faults: u64, word: u32)
        ensures keeps { WorldsKeep self.old self.new }
        ensures aborts { (refuses : Bool) (x : Target) → WorldDescribes world x
            → WorldsHold self.new world.awaits (port_after_bits refuses (Arrives Register.AbortWrite word) x) }
        ensures reaches { (link : CheckedLink) → WorldsReach link self.old
            → WorldReaches link (world_cleared word world)
            → ((is_some world.pending && register_bit 2 word) ≡ true
            → WorldReaches link (world_cleared word (world_failed world))) → WorldsReach link self.new }
    {
        self.add(cleared(world, word), faults);
        self.add_if(
            may_clear(world, word),
            cleared(world.failed(), word),
            faults,
        );
    }
}

impl Asked {
    // Returns the same in the world once the target answered OK, before what the request does, where write data is
    // awaited or not. The pending transfer succeeded, unless the request is never refused.
    #[inline(always)]
    fn accepted(self, awaits: bool) -> Option<Asked>
        ensures same { IfSome result (λ now. IsAskedAlike now self × (now.world.awaits ≡ awaits)) }
        ensures world { (c : Choice) (x : Target) → IsAskedBy self → WorldDescribes self.world x
            → (is_exempt_register self.register ≡ false → x.pending ≡ None)
            → port_answer x self.request ≡ Reply.Okay → IsAskedAccepted result self.register c x }
        ensures exact { IfSome result (λ now. (world_due self.world self.request ≡ Reply.Okay) × (now.world
            ≡ world_accepted awaits self.register self.request.ap self.world)) }
    {
        match self.world.due(self.request) {
            Reply::Okay => Some(self.okayed(awaits)),
            _ => None,
        }
    }

    // The same where OK is due.
    #[inline(always)]
    fn okayed(self, awaits: bool) -> Asked
        ensures same { IsAskedAlike result self }
        ensures awaits { result.world.awaits ≡ awaits }
        ensures world { (c : Choice) (x : Target) → IsAskedBy self → WorldDescribes self.world x
            → (is_exempt_register self.register ≡ false → x.pending ≡ None)
            → port_answer x self.request ≡ Reply.Okay → WorldAccepts result.world self.register c x }
        ensures exact { result.world ≡ world_accepted awaits self.register self.request.ap self.world }
    {
        if self.register.is_exempt() {
            Asked {
                world: World {
                    awaits,
                    ..self.world
                },
                ..self
            }
        } else {
            Asked {
                world: World {
                    awaits,
                    ..self.world.confirmed(self.request.ap)
                },
                ..self
            }
        }
    }

    // Returns whether nobody is to answer, and these three bits are those of a line that nobody drives.
    fn is_quiet(self, seen: u8) -> bool
        ensures quiet { result ≡ true → world_due self.world self.request ≡ Reply.Silent }
        ensures other { result ≡ false → world_due self.world self.request ≡ Reply.Silent → seen ≡ UNDRIVEN → ⊥ }
        ensures undriven { result ≡ true → seen ≡ UNDRIVEN }
    {
        self.world.due(self.request) == Reply::Silent && seen == UNDRIVEN
    }

    // Returns whether FAULT is due.
    fn is_refused(self) -> bool
        ensures { (result ≡ true) ↔ (world_due self.world self.request ≡ Reply.Faults) }
    {
        self.world.due(self.request) == Reply::Faults
    }

    // Returns whether the pending transfer, if it was a bus error, is due to make the answer FAULT.
    fn may_have_failed(self) -> bool
        ensures pending { result ≡ true → is_some self.world.pending ≡ true }
        ensures refused { is_some self.world.pending ≡ true → world_due self.world self.request ≡ Reply.Faults
            → result ≡ true }
        ensures okay { is_some self.world.pending ≡ true → world_due self.world self.request ≡ Reply.Okay
            → is_exempt_register self.register ≡ false → result ≡ true }
        ensures due { result ≡ true → MayFault self.world self.request self.register }
    {
        self.world.pending.is_some() && (self.is_refused() || self.may_wait())
    }

    // Returns whether WAIT may replace the answer, OK.
    fn may_wait(self) -> bool
        ensures { (result ≡ true) ↔ ((world_due self.world self.request ≡ Reply.Okay)
            × (is_exempt_register self.register ≡ false)) }
    {
        self.world.due(self.request) == Reply::Okay && !self.register.is_exempt()
    }

    // Counts one request more that was damaged or lost.
    fn with_fault(self) -> Asked
        ensures same { IsAskedAlike result self }
        ensures world { result.world ≡ self.world }
    {
        Asked {
            faults: self.faults.saturating_add(1),
            ..self
        }
    }
}
