//! The items of a wire's calls, appended call by call.
ghost use Rattle.std.specs.Prelude.{◌≡◌, ◌≢◌, true, false, [], ◌∷◌};
ghost use Rattle.swd_port.specs.Steps.{IsPortSeen};
ghost use Rattle.swd_trace.specs.declared.item.Item.{Item};
ghost use Rattle.swd_recorder.specs.Chains.{Clear, RecordedMayJoin, is_recorded_chain, recorded_lone_idle};
ghost use Rattle.swd_recorder.specs.Items.{recorded_idle_in};

use crate::in_hand::{InHand, is_inside};
use crate::of_call::call_items;
use std::alloc::Allocator;
use swd_port::Cue;
use swd_trace::Item;

/// The items of the calls so far. If the items of a call can't be kept, they are truncated: no item of that
/// call or of a later one is kept.
#[derive(Drop)]
pub(crate) struct Items<A: Allocator> {
    pub(crate) list: Vec<Item, A>,
    pub(crate) is_cut: bool,
    ghost chained: { is_recorded_chain Clear list.items ≡ true },
}

impl<A: Allocator> Items<A> {
    ghost use Rattle.swd_recorder.specs.Chains.{recorded_place_of, recorded_may_lower};
    ghost use Rattle.swd_recorder.specs.Items.{recorded_items_of, recorded_idle_at_end};
    ghost use Rattle.swd_recorder.specs.Kept.{RecorderAdds, recorder_kept_of, recorder_nothing_kept};
    ghost use Rattle.swd_recorder.specs.Steps.{RecorderMayAdd, is_recorded_inside};

    /// Returns an empty list.
    pub(crate) fn new(alloc: A) -> Items<A>
        ensures { recorder_kept_of result ≡ recorder_nothing_kept }
    {
        Items {
            list: Vec::new(alloc),
            is_cut: false,
        }
    }

    /// Appends the items of a call at which `seen` was seen, with this incomplete transaction. A line reset
    /// inside a transaction truncates the items, since what the line carries there is no item.
    pub(crate) fn add(&mut self, in_hand: Option<InHand>, cue: Cue, seen: u64)
        requires may { RecorderMayAdd in_hand cue (recorder_kept_of self.old) }
        requires seen { IsPortSeen cue seen }
        ensures adds { RecorderAdds (recorded_items_of in_hand cue seen) (recorder_kept_of self.old)
            (recorder_kept_of self.new) }
        ensures inside { is_recorded_inside in_hand cue ≡ true → self.new.is_cut ≡ true }
    {
        if is_inside(in_hand, cue) {
            self.is_cut = true;
            return;
        }
        let items = call_items(in_hand, cue, seen);
        self.join(items.as_slice());
    }

    // Appends the items of a call. Zeros after zeros are one item.
    fn join(&mut self, more: &[Item])
        requires { self.old.is_cut ≡ false → RecordedMayJoin (recorded_place_of self.old.list.items) more.now
            (recorded_lone_idle more.now) }
        ensures { RecorderAdds more.now (recorder_kept_of self.old) (recorder_kept_of self.new) }
    {
        if more.is_empty() {
            return;
        }
        match lone_idle(more) {
            Some(zeros) => self.idle(zeros),
            None => self.append(more),
        }
    }

    // Appends items. No idle cycles among them may follow others.
    fn append(&mut self, more: &[Item])
        requires some { more.now ≢ [] }
        requires chained { self.old.is_cut ≡ false
            → is_recorded_chain (recorded_place_of self.old.list.items) more.now ≡ true }
        ensures { RecorderAdds more.now (recorder_kept_of self.old) (recorder_kept_of self.new) }
    {
        if self.is_cut {
            return;
        }
        match self.list.extend_from_slice(more) {
            Ok(()) => {}
            Err(_) => self.is_cut = true,
        }
    }

    // Appends idle cycles. Zeros after zeros are one item.
    fn idle(&mut self, zeros: u64)
        requires { self.old.is_cut ≡ false → recorded_may_lower (recorded_place_of self.old.list.items) zeros ≡ true }
        ensures { RecorderAdds (Item.Idle zeros ∷ []) (recorder_kept_of self.old) (recorder_kept_of self.new) }
    {
        if self.is_cut {
            return;
        }
        let so_far = self.idle_so_far();
        if so_far == 0 {
            self.append(&[Item::Idle(zeros)]);
            return;
        }
        match so_far.checked_add(zeros) {
            Some(sum) => {
                let last = self.list.len() - 1;
                self.list[last] = Item::Idle(sum);
            }
            None => self.is_cut = true,
        }
    }

    // Returns how many idle cycles the last item has: 0 if it isn't idle cycles.
    fn idle_so_far(&self) -> u64
        ensures { result ≡ recorded_idle_at_end self.now.list.items }
    {
        match self.list.last() {
            Some(last) => idle_cycles(last),
            None => 0,
        }
    }
}

// Returns how many idle cycles an item has.
fn idle_cycles(item: &Item) -> u64
    ensures { result ≡ recorded_idle_in item.now }
{
    match item {
        Item::Idle(count) => *count,
        _ => 0,
    }
}

// Returns the zeros of a call that has nothing else.
fn lone_idle(items: &[Item]) -> Option<u64>
    ensures { result ≡ recorded_lone_idle items.now }
{
    match items {
        [Item::Idle(zeros)] => Some(*zeros),
        _ => None,
    }
}
