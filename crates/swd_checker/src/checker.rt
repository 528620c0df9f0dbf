//! The checker of a trace.

ghost use Rattle.std.specs.Prelude.{ℕ, ◌≡◌, ◌≤◌, Bool, true, false, Some, None, is_some, length};
ghost use Rattle.swd_bits.specs.Transactions.{IsTx};
ghost use Rattle.arrayvec.specs.ArrayVec.{array_vec_len};
ghost use Rattle.swd_port.specs.Port.{Port};
ghost use Rattle.swd_port.specs.Registers.{register_bit};
ghost use Rattle.swd_trace.specs.declared.item.Item.{Item};
ghost use Rattle.swd_checker.specs.Holding.{WorldsHoldPort};
ghost use Rattle.swd_checker.specs.Openings.{OpeningHolds};
ghost use Rattle.swd_checker.specs.Standing.{CheckerHolds, CheckerStarts, CheckerWatches, CheckerLeaves};
ghost use Rattle.swd_checker.specs.Standing.{CheckerKeeps, CheckerKeepsWorlds, CheckerChecks, CheckerIdentifies};
ghost use Rattle.swd_checker.specs.Standing.{checker_gap, checked_gap_none, checked_stray_after};
ghost use Rattle.swd_checker.specs.Standing.{checked_verdict, is_checked_broken};
ghost use Rattle.swd_checker.specs.Fitting.{CheckerBegins, CheckerFollows, CheckerStays, CheckerSettles, CheckerSteps};
ghost use Rattle.swd_checker.specs.Fitting.{CheckerFirst, CheckerOpens, CheckerBeginsBy, CheckerKnows, CheckerNotes};
ghost use Rattle.swd_checker.specs.Knowing.{opening_after_item, opening_after_tx, opening_of_start};
ghost use Rattle.swd_checker.specs.Reaching.{IdentificationNarrows};

mod fields;

use crate::identification::Identification;
use crate::near::Near;
use crate::opening::Opening;
use crate::rule::{Rule, broken_rule};
use crate::world::World;
use crate::worlds::{Kept, MOST_WORLDS, Worlds, copy_of};
use arrayvec::ArrayVec;
pub use fields::CheckerFields;
use swd_bits::{Tx, TxEnd};
use swd_trace::Item;

/// How many bits that belong to no item may follow a lost acknowledgement: the rest of a data phase, and a turnaround.
const STRAY_BITS: u8 = 34;

/// The state of the target before the first item.
#[derive(Clone, Copy, Debug, PartialEq, Eq)]
pub enum CheckStart {
    /// Its reset state: no line reset yet, all registers 0.
    Made,
    /// SELECT is 0, no transfer is pending, and no data phase is due. All else is unknown.
    Rest,
    /// No data phase is due. All else is unknown.
    Any,
}

/// What a checker says of the items that it watched.
#[derive(Clone, Copy, Debug, PartialEq, Eq)]
pub enum Verdict {
    /// Some run of the port model explains them.
    Fits,
    /// No run explains the items up to the one at this place, the number of bits before it.
    Breaks { place: u64, rule: Rule },
    /// It isn't decided: at this place there were more worlds than a checker holds.
    Crowded { place: u64 },
}

/// Decides whether some run of the port model explains the items of a trace. It allocates nothing. Where it says
/// `Breaks`, none does. Where it says `Fits` of a target in its reset state, some run does, if there was no gap. From
/// any other start some run explains the items from the one at which the check begins, from some state.
///
/// Junk bits begin a gap, except for up to 34 after a lost acknowledgement. In a gap nothing is checked, up to the next
/// line reset, and so it is behind a cut end. After a gap, after `Crowded`, and where the target's first state is
/// unknown, the worlds may be too many
/// to be held. So the check begins later there: at the first read of CTRL/STAT of a target at rest, and else at the
/// first OK to a request that can be refused, next to a write of SELECT.
#[derive(Drop)]
pub struct Checker {
    worlds: Worlds,
    opening: Opening,
    identification: Identification,
    clean: bool,
    began: Option<u64>,
    faults_before: u64,
    gaps: u64,
    in_gap: bool,
    stray: u8,
    pub(crate) broken: Option<(u64, Rule)>,
    crowded: Option<u64>,
}

impl Checker {
    /// Returns a checker for a wire on which data may be damaged, and requests and acknowledgements may be lost.
    pub fn new(start: CheckStart) -> Checker
        ensures { CheckerStarts start false result }
    {
        Checker::of(start, false)
    }

    /// Returns a checker for a wire on which nothing is damaged or lost, as in a simulation.
    pub fn clean(start: CheckStart) -> Checker
        ensures { CheckerStarts start true result }
    {
        Checker::of(start, true)
    }

    /// Returns a checker for a wire on which nothing is damaged or lost if `clean` is true.
    pub fn of(start: CheckStart, clean: bool) -> Checker
        ensures starts { CheckerStarts start clean result }
        ensures begins { start ≡ CheckStart.Made → CheckerBegins result }
        ensures first { CheckerFirst start result }
        ensures known { result.opening ≡ opening_of_start start }
        ensures unbegun { (start ≡ CheckStart.Made → ⊥) → result.began ≡ None }
    {
        match start {
            CheckStart::Made => {
                let worlds = Worlds::one(World::made());
                Checker::at(Opening::Over, worlds, Some(0), clean)
            }
            CheckStart::Rest => Checker::at(Opening::Resting, Worlds::none(), None, clean),
            CheckStart::Any => Checker::at(Opening::Anything, Worlds::none(), None, clean),
        }
    }

    // Returns a checker before the first item, whose check began at this place.
    fn at(opening: Opening, worlds: Worlds, began: Option<u64>, clean: bool) -> Checker
        ensures holds { (s : Port) → register_bit 0 s.target.identification ≡ true → OpeningHolds opening worlds s
            → CheckerHolds result s }
        ensures unbroken { result.broken ≡ None }
        ensures wire { result.clean ≡ clean }
        ensures gapless { checker_gap result ≡ checked_gap_none }
        ensures opening { result.opening ≡ opening }
        ensures worlds { result.worlds ≡ worlds }
        ensures began { result.began ≡ began }
        ensures word { result.identification.word ≡ None }
        ensures crowded { result.crowded ≡ None }
    {
        Checker {
            worlds,
            opening,
            identification: Identification::unknown(),
            clean,
            began,
            faults_before: 0,
            gaps: 0,
            in_gap: false,
            stray: 0,
            broken: None,
            crowded: None,
        }
    }

    /// Takes the next item. `place` is the number of bits before it. After `Breaks` it does nothing.
    pub fn watch(&mut self, item: &Item, place: u64)
        ensures watches { CheckerWatches item.now self.old self.new }
        ensures follows { CheckerFollows item.now self.old self.new }
        ensures begins { CheckerBeginsBy item.now place self.old self.new }
        ensures knows { self.old.broken ≡ None
            → CheckerKnows (opening_after_item item.now (checker_gap self.old) self.old.opening) self.old self.new }
        ensures notes { CheckerNotes place self.old self.new }
        ensures ended { is_some self.old.broken ≡ true → self.new ≡ self.old }
    {
        if self.broken.is_none() {
            self.take(item, place);
        }
    }

    /// Leaves the model up to the next line reset: nothing before it is checked. It is no gap that is counted.
    pub fn leave(&mut self)
        ensures leaves { CheckerLeaves self.old self.new }
        ensures opening { self.new.opening ≡ Opening.Anything }
        ensures crowded { self.new.crowded ≡ self.old.crowded }
        ensures began { self.new.began ≡ self.old.began }
        ensures known { self.new.identification ≡ self.old.identification }
    {
        self.in_gap = true;
        self.forget();
    }

    /// Returns what the items so far show.
    pub fn verdict(&self) -> Verdict
        ensures breaks { is_checked_broken result ≡ true → self.now.broken ≡ None → ⊥ }
        ensures goes_on { is_checked_broken result ≡ false → self.now.broken ≡ None }
        ensures fits { result ≡ Verdict.Fits → (self.now.broken ≡ None) × (self.now.crowded ≡ None) }
        ensures exact { result ≡ checked_verdict self.now.broken self.now.crowded }
    {
        if let Some((place, rule)) = self.broken {
            return Verdict::Breaks { place, rule };
        }
        match self.crowded {
            Some(place) => Verdict::Crowded { place },
            None => Verdict::Fits,
        }
    }

    /// Returns the place of the first item that was checked, or `None` if none was yet.
    pub fn began(&self) -> Option<u64>
        ensures { result ≡ self.now.began }
    {
        self.began
    }

    /// Returns how many gaps there were.
    pub fn gaps(&self) -> u64
        ensures { result ≡ self.now.gaps }
    {
        self.gaps
    }

    /// Returns how many requests were damaged or lost at least: no run that explains the items has fewer of them.
    pub fn faults(&self) -> u64 {
        if self.opening.is_over() {
            self.faults_before
                .saturating_add(self.worlds.fewest_faults())
        } else {
            self.faults_before
        }
    }

    /// Returns the number of worlds that are left.
    pub fn worlds(&self) -> usize {
        self.worlds.kept.len()
    }

    // Takes an item where no rule was broken.
    fn take(&mut self, item: &Item, place: u64)
        ensures watches { CheckerWatches item.now self.old self.new }
        ensures follows { CheckerFollows item.now self.old self.new }
        ensures begins { CheckerBeginsBy item.now place self.old self.new }
        ensures knows { CheckerKnows (opening_after_item item.now (checker_gap self.old) self.old.opening) self.old
            self.new }
        ensures notes { CheckerNotes place self.old self.new }
    {
        match *item {
            Item::Junk(_) => self.skip(),
            Item::Reset(_) => self.reset(),
            Item::Tx(tx) => self.take_transaction(&tx, place),
            Item::Cut(_) => self.leave(),
            _ => {}
        }
    }

    // Takes a transaction, in a gap or outside of one.
    fn take_transaction(&mut self, tx: &Tx, place: u64)
        ensures watches { CheckerWatches (Item.Tx tx.now) self.old self.new }
        ensures follows { CheckerFollows (Item.Tx tx.now) self.old self.new }
        ensures begins { CheckerBeginsBy (Item.Tx tx.now) place self.old self.new }
        ensures knows { CheckerKnows (opening_after_item (Item.Tx tx.now) (checker_gap self.old) self.old.opening)
            self.old self.new }
        ensures notes { CheckerNotes place self.old self.new }
    {
        if !self.in_gap {
            self.transact(tx, place);
        }
    }

    // Takes a junk bit.
    fn skip(&mut self)
        ensures watches { (b : Bool) → CheckerWatches (Item.Junk b) self.old self.new }
        ensures follows { (b : Bool) → CheckerFollows (Item.Junk b) self.old self.new }
        ensures knows { (b : Bool)
            → CheckerKnows (opening_after_item (Item.Junk b) (checker_gap self.old) self.old.opening) self.old
            self.new }
        ensures crowded { self.new.crowded ≡ self.old.crowded }
        ensures began { self.new.began ≡ self.old.began }
        ensures known { self.new.identification ≡ self.old.identification }
    {
        if self.stray > 0 {
            self.stray -= 1;
        } else {
            self.begin_gap();
        }
    }

    // Begins a gap, if none has begun.
    fn begin_gap(&mut self)
        ensures watches { self.old.stray ≡ 0 → (b : Bool) → CheckerWatches (Item.Junk b) self.old self.new }
        ensures knows { self.old.stray ≡ 0 → (b : Bool)
            → CheckerKnows (opening_after_item (Item.Junk b) (checker_gap self.old) self.old.opening) self.old
            self.new }
        ensures crowded { self.new.crowded ≡ self.old.crowded }
        ensures began { self.new.began ≡ self.old.began }
        ensures known { self.new.identification ≡ self.old.identification }
    {
        if !self.in_gap {
            self.in_gap = true;
            self.gaps = self.gaps.saturating_add(1);
            self.forget();
        }
    }

    // Forgets the worlds.
    fn forget(&mut self)
        ensures keeps { CheckerKeeps self.old self.new }
        ensures opening { self.new.opening ≡ Opening.Anything }
        ensures broken { self.new.broken ≡ self.old.broken }
        ensures crowded { self.new.crowded ≡ self.old.crowded }
        ensures began { self.new.began ≡ self.old.began }
    {
        self.faults_before = self.faults();
        self.worlds.empty();
        self.opening = Opening::Anything;
    }

    // Takes a line reset.
    fn reset(&mut self)
        ensures watches { (ones : ℕ) → CheckerWatches (Item.Reset ones) self.old self.new }
        ensures follows { (ones : ℕ) → CheckerFollows (Item.Reset ones) self.old self.new }
        ensures opening { self.new.opening ≡ self.old.opening }
        ensures crowded { self.new.crowded ≡ self.old.crowded }
        ensures began { self.new.began ≡ self.old.began }
        ensures known { self.new.identification ≡ self.old.identification }
    {
        self.in_gap = false;
        self.stray = 0;
        self.worlds.reset();
    }

    // Takes a transaction outside of a gap.
    fn transact(&mut self, tx: &Tx, place: u64)
        ensures watches { self.old.in_gap ≡ false → CheckerWatches (Item.Tx tx.now) self.old self.new }
        ensures follows { self.old.in_gap ≡ false → CheckerFollows (Item.Tx tx.now) self.old self.new }
        ensures begins { self.old.in_gap ≡ false → CheckerBeginsBy (Item.Tx tx.now) place self.old self.new }
        ensures knows { CheckerKnows (opening_after_tx self.old.opening tx.now.result tx.now.request) self.old
            self.new }
        ensures notes { CheckerNotes place self.old self.new }
    {
        self.stray = stray_after(tx.result);
        self.check(tx, place);
        self.identify(tx, place);
    }

    // Takes a transaction in the worlds, or looks whether they are few enough to be held.
    fn check(&mut self, tx: &Tx, place: u64)
        ensures keeps { CheckerKeeps self.old self.new }
        ensures checks { CheckerChecks tx.now self.old self.new }
        ensures steps { CheckerSteps tx.now self.old self.new }
        ensures opens { CheckerOpens tx.now place self.old self.new }
        ensures knows { CheckerKnows (opening_after_tx self.old.opening tx.now.result tx.now.request) self.old
            self.new }
        ensures notes { CheckerNotes place self.old self.new }
    {
        if self.opening.is_over() {
            self.step(tx, place);
        } else {
            self.begin(tx, place);
        }
    }

    // Begins the check at a transaction, if the worlds before it are few enough.
    #[inline(never)]
    fn begin(&mut self, tx: &Tx, place: u64)
        ensures keeps { CheckerKeeps self.old self.new }
        ensures checks { (self.old.opening ≡ Opening.Over → ⊥) → CheckerChecks tx.now self.old self.new }
        ensures stays { CheckerStays self.old self.new }
        ensures opens { CheckerOpens tx.now place self.old self.new }
        ensures knows { CheckerKnows (opening_after_tx self.old.opening tx.now.result tx.now.request) self.old
            self.new }
        ensures notes { CheckerNotes place self.old self.new }
    {
        if self.worlds.begin(self.opening, tx) {
            self.opening = Opening::Over;
            self.began = self.began.or(Some(place));
            self.step(tx, place);
        } else {
            self.opening = self.opening.after(tx);
        }
    }

    // Takes a transaction in each of the worlds. Mostly there is one, and the transaction is a read.
    fn step(&mut self, tx: &Tx, place: u64)
        ensures keeps { CheckerKeeps self.old self.new }
        ensures checks { self.old.opening ≡ Opening.Over → CheckerChecks tx.now self.old self.new }
        ensures steps { CheckerSteps tx.now self.old self.new }
        ensures notes { CheckerNotes place self.old self.new }
        ensures began { self.new.began ≡ self.old.began }
    {
        if !self.worlds.read_alone(tx) {
            self.step_any(tx, place);
        }
    }

    // Takes any transaction in each of the worlds. Only those that are held are copied.
    fn step_any(&mut self, tx: &Tx, place: u64)
        ensures keeps { CheckerKeeps self.old self.new }
        ensures checks { self.old.opening ≡ Opening.Over → CheckerChecks tx.now self.old self.new }
        ensures steps { CheckerSteps tx.now self.old self.new }
        ensures notes { CheckerNotes place self.old self.new }
        ensures began { self.new.began ≡ self.old.began }
    {
        let count = self.worlds.kept.len();
        if count <= 1 {
            self.step_few::<1>(tx, place);
        } else if count <= 8 {
            self.step_few::<8>(tx, place);
        } else {
            self.step_few::<MOST_WORLDS>(tx, place);
        }
    }

    // The same where there are at most so many.
    #[inline(never)]
    fn step_few<const MOST: usize>(&mut self, tx: &Tx, place: u64)
        requires most { MOST ≤ MOST_WORLDS }
        requires few { array_vec_len self.old.worlds.kept ≤ MOST }
        ensures keeps { CheckerKeeps self.old self.new }
        ensures checks { self.old.opening ≡ Opening.Over → CheckerChecks tx.now self.old self.new }
        ensures steps { CheckerSteps tx.now self.old self.new }
        ensures notes { CheckerNotes place self.old self.new }
        ensures began { self.new.began ≡ self.old.began }
    {
        let before: ArrayVec<Kept, MOST> = copy_of(self.worlds.kept.as_slice());
        self.worlds.empty();
        self.worlds.step_each(before.as_slice(), tx, self.clean);
        self.settle(before.as_slice(), tx, place);
    }

    // Looks what is left of these worlds after a transaction: too many, or none.
    fn settle(&mut self, before: &[Kept], tx: &Tx, place: u64)
        requires { length before.now ≤ MOST_WORLDS }
        ensures keeps { CheckerKeeps self.old self.new }
        ensures settles { (t : Port) → self.old.opening ≡ Opening.Over → WorldsHoldPort self.old.worlds t
            → OpeningHolds self.new.opening self.new.worlds t × (self.new.broken ≡ self.old.broken) }
        ensures left { CheckerSettles self.old self.new }
        ensures notes { CheckerNotes place self.old self.new }
        ensures began { self.new.began ≡ self.old.began }
    {
        if self.worlds.crowded {
            self.worlds.restore(before);
            self.crowd(place);
        } else if self.worlds.kept.is_empty() {
            self.worlds.restore(before);
            self.broken = Some((place, self.rule_broken(tx)));
        }
    }

    // Gives up the worlds, which are too many.
    fn crowd(&mut self, place: u64)
        ensures keeps { CheckerKeeps self.old self.new }
        ensures opening { self.new.opening ≡ Opening.Anything }
        ensures broken { self.new.broken ≡ self.old.broken }
        ensures crowded { self.new.crowded ≡ None → ⊥ }
        ensures notes { CheckerNotes place self.old self.new }
        ensures began { self.new.began ≡ self.old.began }
    {
        self.crowded = self.crowded.or(Some(place));
        self.forget();
    }

    // Returns the rule that a transaction breaks in the world with the fewest faults.
    fn rule_broken(&self, tx: &Tx) -> Rule {
        match self.likeliest() {
            Some(world) => broken_rule(*world, tx, self.clean),
            None => Rule::Flags,
        }
    }

    /// Returns the world with the fewest damaged or lost requests. After `Breaks` it is one before the item that no run
    /// explains.
    pub(crate) fn likeliest(&self) -> Option<&World> {
        // Mostly there is one.
        if self.worlds.kept.len() == 1 {
            return Some(&self.worlds.kept[0].world);
        }
        let fewest = self.worlds.fewest_faults();
        for kept in &self.worlds.kept {
            if kept.faults == fewest {
                return Some(&kept.world);
            }
        }
        None
    }

    /// Returns what DPIDR's word may be.
    pub(crate) fn identified(&self) -> Option<Near> {
        self.identification.word()
    }

    // Narrows DPIDR's word by a read of it.
    fn identify(&mut self, tx: &Tx, place: u64)
        ensures identifies { CheckerIdentifies tx.now self.old self.new }
        ensures narrows { IsTx tx.now → self.new.broken ≡ None → (self.old.broken ≡ None)
            × IdentificationNarrows tx.now self.old.identification self.new.identification }
        ensures crowded { self.new.crowded ≡ self.old.crowded }
        ensures began { self.new.began ≡ self.old.began }
        ensures unbroken { self.new.broken ≡ None → self.old.broken ≡ None }
        ensures notes { CheckerNotes place self.old self.new }
        ensures keeps { CheckerKeepsWorlds self.old self.new }
    {
        if self.identification.narrow(tx) {
            return;
        }
        self.broken = self.broken.or(Some((place, Rule::Identification)));
    }
}

// Returns how many junk bits may follow.
fn stray_after(end: TxEnd) -> u8
    ensures { result ≡ checked_stray_after end }
{
    match end {
        TxEnd::NoAck(_) => STRAY_BITS,
        _ => 0,
    }
}
