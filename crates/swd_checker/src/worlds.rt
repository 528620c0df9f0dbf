//! The list of worlds.
ghost use Rattle.std.specs.Prelude.{ℕ, ◌≡◌, ◌≢◌, ◌≤◌, ◌<◌, [], ◌∷◌, Bool, true, false, length};
ghost use Rattle.swd_trace.specs.declared.item.Item.{Item};
ghost use Rattle.swd_port.specs.Port.{Port, Target};
ghost use Rattle.swd_port.specs.Leading.{PortLeads};
ghost use Rattle.swd_checker.specs.Described.{WorldDescribes};
ghost use Rattle.swd_checker.specs.Holding.{WorldsHold, WorldsKeep, WorldsGrow, IsKeptJoined, WorldsHoldPort};
ghost use Rattle.swd_checker.specs.Holding.{AnyKeptHolds};
ghost use Rattle.swd_checker.specs.Checked.{CheckedTransacts};
ghost use Rattle.swd_checker.specs.Reaching.{CheckedLink, WorldReaches, WorldsReach, LinkSteps, IsReachedJoined};
ghost use Rattle.swd_checker.specs.Reaching.{AreKeptSound, checked_link};

use crate::world::World;
use arrayvec::ArrayVec;
use swd_bits::{Tx, TxEnd};

/// The most worlds that a checker holds.
pub(crate) const MOST_WORLDS: usize = 64;

/// A world, and a number of requests: no run that leads to it has fewer damaged or lost ones.
#[derive(Clone, Copy)]
pub(crate) struct Kept {
    pub(crate) world: World,
    pub(crate) faults: u64,
}

/// The worlds that the items so far leave.
#[derive(Drop)]
pub(crate) struct Worlds {
    pub(crate) kept: ArrayVec<Kept, MOST_WORLDS>,
    /// Whether there were more of them than are held.
    pub(crate) crowded: bool,
}

impl Default for Kept {
    /// Returns an arbitrary world, for arrays with unused entries.
    fn default() -> Kept {
        Kept {
            world: World::made(),
            faults: 0,
        }
    }
}

/// Returns a copy of these worlds.
#[inline(always)]
pub(crate) fn copy_of<const MOST: usize>(kept: &[Kept]) -> ArrayVec<Kept, MOST>
    requires { length kept.now ≤ MOST }
    ensures { result.items ≡ kept.now }
{
    let mut copy = ArrayVec::new();
    let _ = copy.try_extend_from_slice(kept);
    copy
}

impl Worlds {
    /// Returns no world.
    pub(crate) fn none() -> Worlds
        ensures empty { result.kept.items ≡ [] }
        ensures crowded { result.crowded ≡ false }
    {
        Worlds {
            kept: ArrayVec::new(),
            crowded: false,
        }
    }

    /// Returns this world alone.
    pub(crate) fn one(world: World) -> Worlds
        ensures kept { result.kept.items ≡ (record { world = world; faults = 0 }) ∷ [] }
        ensures crowded { result.crowded ≡ false }
    {
        let mut worlds = Worlds::none();
        worlds.kept.push(Kept { world, faults: 0 });
        worlds
    }

    /// Forgets the worlds.
    pub(crate) fn empty(&mut self)
        ensures empty { self.new.kept.items ≡ [] }
        ensures crowded { self.new.crowded ≡ false }
    {
        self.kept.clear();
        self.crowded = false;
    }

    /// Holds these worlds again, and no others.
    pub(crate) fn restore(&mut self, kept: &[Kept])
        requires { length kept.now ≤ MOST_WORLDS }
        ensures kept { self.new.kept.items ≡ kept.now }
        ensures crowded { self.new.crowded ≡ false }
    {
        self.empty();
        let _ = self.kept.try_extend_from_slice(kept);
    }

    /// Adds a world. One that is covered goes, and two that join become one.
    pub(crate) fn add(&mut self, world: World, faults: u64)
        ensures keeps { WorldsKeep self.old self.new }
        ensures adds { (x : Target) → WorldDescribes world x → WorldsHold self.new world.awaits x }
        ensures grows { WorldsGrow 1 self.old self.new }
        ensures some { 0 < length self.new.kept.items }
        ensures reaches { (link : CheckedLink) → WorldsReach link self.old → WorldReaches link world
            → WorldsReach link self.new }
    {
        let mut added = Kept { world, faults };
        for _ in 0..MOST_WORLDS {
            let Some(found) = self.joining(&added) else {
                break;
            };
            self.kept.remove(found.0);
            added = found.1;
        }
        if self.kept.is_full() {
            self.crowded = true;
        } else {
            self.kept.push(added);
        }
    }

    /// Takes a line reset in each of the worlds.
    #[inline(never)]
    pub(crate) fn reset(&mut self)
        ensures resets { (ones : ℕ) (s t : Port) → ones ≢ 0 → PortLeads s ones t → self.old.crowded ≡ false
            → WorldsHoldPort self.old s → WorldsHoldPort self.new t }
        ensures crowded { self.new.crowded ≡ false }
        ensures some { 0 < length self.old.kept.items → 0 < length self.new.kept.items }
        ensures reaches { (clean : Bool) (n ones : ℕ) → ones ≢ 0 → AreKeptSound self.old.kept.items
            → WorldsReach (checked_link self.old.kept.items clean n (Item.Reset ones)) self.new }
    {
        let mut before = Worlds::none();
        before.restore(self.kept.as_slice());
        self.empty();
        self.reset_each(before.kept.as_slice());
    }

    // Adds each of these worlds after a line reset.
    fn reset_each(&mut self, before: &[Kept])
        ensures resets { (ones : ℕ) (s t : Port) → ones ≢ 0 → PortLeads s ones t → AnyKeptHolds before.now s
            → WorldsHoldPort self.new t }
        ensures grows { WorldsGrow (length before.now) self.old self.new }
        ensures some { 0 < length before.now → 0 < length self.new.kept.items }
        ensures reaches { (clean : Bool) (n ones : ℕ) → ones ≢ 0 → AreKeptSound before.now
            → WorldsReach (checked_link before.now clean n (Item.Reset ones)) self.old
            → WorldsReach (checked_link before.now clean n (Item.Reset ones)) self.new }
    {
        for kept in before {
            self.add(kept.world.after_reset(), kept.faults);
        }
    }

    /// Takes a transaction in each of these worlds: adds the worlds after it. Where `clean` is true, nothing is damaged
    /// or lost.
    pub(crate) fn step_each(&mut self, before: &[Kept], tx: &Tx, clean: bool)
        ensures steps { (s t : Port) → CheckedTransacts clean tx.now.result tx.now.request s t
            → AnyKeptHolds before.now s → WorldsHoldPort self.new t }
        ensures reaches { (link : CheckedLink) → link.from ≡ before.now → LinkSteps link clean tx.now
            → AreKeptSound before.now → WorldsReach link self.old → WorldsReach link self.new }
    {
        for kept in before {
            self.step(kept.world, kept.faults, tx, clean);
        }
    }

    /// Takes a read of DRW or RDBUFF with right parity, if there is one world and the read may have returned its word.
    /// Otherwise it returns `false` and changes nothing. [`Worlds::step_each`] leads to the same world.
    #[inline(always)]
    pub(crate) fn read_alone(&mut self, tx: &Tx) -> bool
        ensures steps { result ≡ true → (clean : Bool) (s t : Port)
            → CheckedTransacts clean tx.now.result tx.now.request s t
            → AnyKeptHolds self.old.kept.items s → WorldsHoldPort self.new t }
        ensures reaches { result ≡ true → (link : CheckedLink) (clean : Bool) → link.from ≡ self.old.kept.items
            → LinkSteps link clean tx.now → AreKeptSound self.old.kept.items → WorldsReach link self.new }
        ensures some { result ≡ true → 0 < length self.new.kept.items }
        ensures crowded { self.new.crowded ≡ self.old.crowded }
        ensures none { result ≡ false → self.new ≡ self.old }
    {
        let TxEnd::Moved { word, parity_ok } = tx.result else {
            return false;
        };
        if !parity_ok || !tx.request.read || self.kept.len() != 1 {
            return false;
        }
        let world = &self.kept[0].world;
        let register = world.register(tx.request);
        let Some(held) = world.returned(register, tx.request, word) else {
            return false;
        };
        self.kept[0].world.take_read(register, tx.request.ap, held);
        true
    }

    /// Returns the number of the world that has fewest damaged or lost requests.
    pub(crate) fn fewest_faults(&self) -> u64 {
        let mut fewest = u64::MAX;
        for kept in &self.kept {
            fewest = fewest.min(kept.faults);
        }
        fewest
    }

    // Returns the first world that joins with this one, and what they are together.
    #[inline]
    fn joining(&self, added: &Kept) -> Option<(usize, Kept)>
        ensures joined { IsKeptJoined self.now.kept.items added.now result }
        ensures reaches { IsReachedJoined self.now.kept.items added.now result }
    {
        for place in 0..self.kept.len() {
            let kept = self.kept[place];
            if let Some(world) = kept.world.joined(added.world) {
                let faults = kept.faults.min(added.faults);
                return Some((place, Kept { world, faults }));
            }
        }
        None
    }
}
