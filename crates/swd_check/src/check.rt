//! The check of a trace.
ghost use Rattle.std.specs.Prelude.{◌≡◌, ℕ, true, false, None, Some, List, [], ◌∷◌, replicate, unwrap_or};
ghost use Rattle.swd_bits.specs.declared.tx.Tx.{Tx as Transaction};
ghost use Rattle.swd_trace.specs.declared.item.Item.{Item};
ghost use Rattle.swd_observer.specs.Traces.{observed_item_len};
ghost use Rattle.swd_check.specs.Checks.{IsCheckedCount};
ghost use Rattle.swd_check.specs.Watched.{CheckIndex, CheckHolds, CheckTakes, CheckSays, CheckJudges, CheckBroke};
ghost use Rattle.swd_check.specs.Watched.{check_index, check_tx, checked_rest};

use crate::beside::Beside;
use crate::checked::Checked;
use crate::leaving::Leaving;
use crate::plain::PlainMemory;
use crate::rules::{Rules, Stand};
use crate::why::{Broken, Why};
use std::alloc::Allocator;
use swd_bits::{MOVED_BITS, REFUSED_BITS, Tx, TxEnd, UNACKNOWLEDGED_BITS};
use swd_checker::CheckStart;
use swd_observer::{Observer, ShownItem, TraceObserver};
use swd_trace::Item;

/// How many junk bits are a gap, whatever was before them.
const GAP_BITS: u64 = 35;

/// How a trace is checked.
#[derive(Clone, Copy, Debug, PartialEq, Eq)]
pub struct CheckOptions {
    pub start: CheckStart,
    /// Whether nothing is damaged or lost on the wire, as in a simulation.
    pub clean: bool,
    /// Whether CSW and CTRL/STAT are those of this project's simulated target.
    pub exact_registers: bool,
    /// Whether overrun detection is on before the first item.
    pub overrun: bool,
}

/// Checks the items of a trace, one after the other.
#[derive(Drop)]
pub struct Check<A: Allocator> {
    rules: Rules,
    /// It has the place of the next item. It watches transactions only if something is looked at beside the rules.
    observer: TraceObserver,
    looks: bool,
    beside: Beside<A>,
    broken: Option<Broken>,
    /// Why the target may keep the standard all the same, if it may.
    excused: Option<Leaving>,
}

impl<A: Allocator + Copy> Check<A> {
    /// Returns a check of no items, with these plain memories.
    pub fn new(options: CheckOptions, plain: PlainMemory<A>) -> Check<A>
        ensures { CheckHolds (check_index options.start options.clean) result [] }
    {
        let beside = Beside::new(options, plain);
        Check {
            rules: Rules::new(options),
            observer: observer_of(options.start),
            looks: beside.looks(),
            beside,
            broken: None,
            excused: None,
        }
    }

    /// Returns a check of a session, which took no items. The target is at rest before it: SELECT is 0, and no transfer
    /// is pending and no data phase due. On the wire data may be damaged, and requests lost.
    pub fn of_session(alloc: A) -> Check<A>
        ensures { CheckHolds checked_rest result [] }
    {
        let options = CheckOptions {
            start: CheckStart::Rest,
            clean: false,
            exact_registers: false,
            overrun: false,
        };
        Check::new(options, PlainMemory::new(alloc))
    }

    /// Returns this check for a session over a way that doesn't tell the bits of a word that was read with wrong
    /// parity, as a probe doesn't, if `untold` is true. No verdict rests on such bits: there the session leaves the
    /// model.
    pub fn with_untold(self, untold: bool) -> Check<A>
        ensures { (i : CheckIndex) (seen : List Item) → CheckHolds i self seen → CheckHolds i result seen }
    {
        Check {
            rules: self.rules.with_untold(untold),
            ..self
        }
    }

    /// Takes the next item.
    pub fn watch(&mut self, item: &Item)
        ensures { CheckTakes (item.now ∷ []) self.old self.new }
    {
        match item {
            Item::Tx(tx) => self.transact(tx),
            _ => self.show(item),
        }
    }

    /// Takes the bits of a data phase that follows WAIT or FAULT. They say nothing.
    pub fn pass(&mut self, bits: u64)
        ensures { CheckTakes (Item.Idle bits ∷ []) self.old self.new }
    {
        self.watch(&Item::Idle(bits))
    }

    /// Takes bits that belong to no item.
    pub fn skip(&mut self, bits: u64)
        ensures { CheckTakes (replicate bits (Item.Junk false)) self.old self.new }
    {
        let behind = self.observer.place.saturating_add(bits);
        for _taken in 0..bits.min(GAP_BITS) {
            self.watch(&Item::Junk(false));
        }
        self.observer.place = behind;
    }

    /// Returns what is said of so many items, which it took.
    pub fn checked(&self, items: u64) -> Checked
        ensures count { IsCheckedCount items result }
        ensures says { (i : CheckIndex) (seen : List Item) → CheckHolds i self.now seen → CheckSays i seen result }
    {
        if let Some(broken) = self.broken {
            return broken_at(broken, self.excused);
        }
        match (
            self.rules.outside(),
            self.crowded(),
            self.rules.is_answered(),
        ) {
            (Some(left), Some(before), _) if before < left.place => {
                Checked::Crowded { place: before }
            }
            (Some(left), _, _) => {
                Checked::Outside {
                    place: left.place,
                    why: left.why,
                }
            }
            (None, Some(place), _) => Checked::Crowded { place },
            (None, None, false) => Checked::Crowded { place: 0 },
            (None, None, true) => Checked::Fits {
                items,
                from: place_after_first(self.rules.began()),
                faults: self.rules.faults(),
                gaps: self.rules.gaps(),
            },
        }
    }

    // Returns the place from which on it isn't decided, since there was too little room, or too little was known.
    fn crowded(&self) -> Option<u64>
        ensures crowded { result ≡ None → self.now.rules.checker.broken ≡ None
            → self.now.rules.checker.crowded ≡ None }
        ensures began { result ≡ None → self.now.rules.checker.began ≡ None → ⊥ }
    {
        let Some(place) = self.rules.crowded() else {
            return self.beside.full();
        };
        match self.beside.full() {
            Some(full) => Some(place.min(full)),
            None => Some(place),
        }
    }

    // Takes an item that is no transaction.
    fn show(&mut self, item: &Item)
        ensures { ((tx : Transaction) → item.now ≡ Item.Tx tx → ⊥) → CheckTakes (item.now ∷ []) self.old self.new }
    {
        let place = self.observer.place;
        let shown = self.observer.watch(item);
        if self.broken.is_some() {
            return;
        }
        self.rules.show(item, place);
        self.beside.show(&shown);
    }

    // Takes a transaction.
    fn transact(&mut self, tx: &Tx)
        ensures { CheckTakes (Item.Tx tx.now ∷ []) self.old self.new }
    {
        if self.looks {
            self.look(tx);
        } else {
            self.follow(tx);
        }
    }

    // Takes a transaction by the rules alone.
    fn follow(&mut self, tx: &Tx)
        ensures { CheckTakes (Item.Tx tx.now ∷ []) self.old self.new }
    {
        let place = self.observer.place;
        self.observer.place = place.saturating_add(bits_in(tx));
        if self.broken.is_some() {
            return;
        }
        let is_first = self.rules.is_decided();
        match self.rules.transact(tx, place) {
            Stand::Inside => self.judge(tx, place, is_first),
            _ => {}
        }
    }

    // Takes a transaction, and what it shows beside the rules.
    fn look(&mut self, tx: &Tx)
        ensures { CheckTakes (Item.Tx tx.now ∷ []) self.old self.new }
    {
        let place = self.observer.place;
        let before = self.observer.observer;
        let shown = self.observer.watch(&Item::Tx(*tx));
        if self.broken.is_some() {
            return;
        }
        let is_first = self.rules.is_decided();
        match self.rules.transact(tx, place) {
            Stand::Inside => self.judge_all(&before, tx, &shown, place, is_first),
            Stand::Leaves => self.leave(),
            Stand::Outside => {}
        }
    }

    // Notes the rule that the last transaction breaks, if it does.
    fn judge(&mut self, tx: &Tx, place: u64, is_first: bool)
        ensures { CheckJudges (check_tx tx.now place is_first) self.old self.new }
    {
        if let Some(reason) = self.rules.reason(tx) {
            self.excused = self.rules.excuse(&reason, tx);
            self.broken = Some(Broken {
                place,
                tx: *tx,
                why: Why::Rule(reason),
                is_first,
            });
        }
    }

    // Notes why the last transaction isn't right, if it isn't.
    fn judge_all(
        &mut self,
        before: &Observer,
        tx: &Tx,
        shown: &ShownItem,
        place: u64,
        is_first: bool,
    )
        ensures { CheckJudges (check_tx tx.now place is_first) self.old self.new }
    {
        match self.rules.reason(tx) {
            Some(reason) => {
                self.excused = self.rules.excuse(&reason, tx);
                self.broken = Some(Broken {
                    place,
                    tx: *tx,
                    why: Why::Rule(reason),
                    is_first,
                });
            }
            None => self.judge_beside(before, tx, shown, place, is_first),
        }
    }

    // The same of a transaction that breaks no rule.
    fn judge_beside(
        &mut self,
        before: &Observer,
        tx: &Tx,
        shown: &ShownItem,
        place: u64,
        is_first: bool,
    )
        ensures { self.old.rules.checker.broken ≡ None → CheckJudges (check_tx tx.now place is_first) self.old
            self.new }
    {
        if let Some(why) = self.beside.take(before, tx, &self.observer.observer, shown) {
            self.broken = Some(Broken {
                place,
                tx: *tx,
                why,
                is_first,
            });
        }
    }

    // Leaves the model up to the next line reset.
    fn leave(&mut self)
        ensures rules { self.new.rules ≡ self.old.rules }
        ensures broken { self.new.broken ≡ self.old.broken }
        ensures place { self.new.observer.place ≡ self.old.observer.place }
    {
        self.observer.observer = Observer::new();
        self.beside.forget();
    }
}

// Returns what is said where an item breaks a rule. Where the target may keep the standard, it isn't decided.
fn broken_at(broken: Broken, excused: Option<Leaving>) -> Checked
    ensures count { (items : ℕ) → IsCheckedCount items result }
    ensures says { (i : CheckIndex) (seen : List Item) → CheckBroke i seen (Some broken) → CheckSays i seen result }
{
    match excused {
        Some(why) => {
            Checked::Outside {
                place: broken.place,
                why,
            }
        }
        None => Checked::Breaks(broken),
    }
}

// Returns an observer of a trace that begins with this state of the target.
fn observer_of(start: CheckStart) -> TraceObserver
    ensures { result.place ≡ 0 }
{
    match start {
        CheckStart::Made => TraceObserver::of_made(),
        CheckStart::Rest | CheckStart::Any => TraceObserver::new(),
    }
}

// Returns the place at which a check began, or `None` if that is before the first bit.
fn place_after_first(began: Option<u64>) -> Option<u64>
    ensures { unwrap_or result 0 ≡ unwrap_or began 0 }
{
    match began {
        Some(0) => None,
        _ => began,
    }
}

// Returns how many bits a transaction has.
fn bits_in(tx: &Tx) -> u64
    ensures { result ≡ observed_item_len (Item.Tx tx.now) }
{
    u64::from(match tx.result {
        TxEnd::Moved { .. } => MOVED_BITS,
        TxEnd::Wait | TxEnd::Fault => REFUSED_BITS,
        TxEnd::NoAck(_) => UNACKNOWLEDGED_BITS,
    })
}
