//! A check of the items of a wire's calls.
ghost use Rattle.std.specs.Prelude.{◌≡◌, ◌∷◌, [], List};
ghost use Rattle.swd_port.specs.Steps.{IsPortSeen};
ghost use Rattle.swd_trace.specs.declared.item.Item.{Item};
ghost use Rattle.swd_recorder.specs.Calls.{IsRecordedCue, recorded_call_items};
ghost use Rattle.swd_check.specs.Watched.{CheckHolds, CheckIndex, CheckSays, CheckTakes};

use crate::check::Check;
use crate::checked::Checked;
use std::alloc::Allocator;
use swd_port::Cue;
use swd_recorder::{InHand, call_items};
use swd_trace::Item;

/// A check of the items of a wire's calls.
#[derive(Drop)]
pub struct CheckedItems<A: Allocator> {
    check: Check<A>,
    // The number of items, at most 2^64 - 1.
    count: u64,
}

impl<A: Allocator + Copy> CheckedItems<A> {
    /// Returns a check that took no item of a call yet.
    pub fn new(check: Check<A>) -> CheckedItems<A>
        ensures { result.check ≡ check }
    {
        CheckedItems { check, count: 0 }
    }

    /// Takes the items of a call at which `seen` was seen, with this incomplete transaction. A line reset inside a
    /// transaction is taken for one in the data of a write.
    pub fn take(&mut self, in_hand: Option<InHand>, cue: Cue, seen: u64)
        requires may { IsRecordedCue cue }
        requires seen { IsPortSeen cue seen }
        ensures { CheckTakes (recorded_call_items in_hand cue seen) self.old.check self.new.check }
    {
        let items = call_items(in_hand, cue, seen);
        self.take_all(items.as_slice());
    }

    /// Returns what is said of the items.
    pub fn checked(&self) -> Checked
        ensures { (i : CheckIndex) (seen : List Item) → CheckHolds i self.now.check seen → CheckSays i seen result }
    {
        self.check.checked(self.count)
    }

    /// Returns whether an item broke a rule.
    pub fn is_broken(&self) -> bool {
        matches!(self.checked(), Checked::Breaks(_))
    }

    // Takes items.
    fn take_all(&mut self, items: &[Item])
        ensures { CheckTakes items.now self.old.check self.new.check }
    {
        for item in items {
            self.take_item(item);
        }
    }

    // Takes an item.
    fn take_item(&mut self, item: &Item)
        ensures { CheckTakes (item.now ∷ []) self.old.check self.new.check }
    {
        self.count = self.count.saturating_add(1);
        self.check.watch(item);
    }
}
