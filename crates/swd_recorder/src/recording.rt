//! The calls of a wire, and their items.
ghost use Rattle.std.specs.Prelude.{◌≡◌, ◌≤◌, ◌+◌, true, false, [], ◌∷◌};
ghost use Rattle.swd_port.specs.Steps.{PortMayStep, IsPortSeen};
ghost use Rattle.swd_port.specs.Stories.{port_due_by};
ghost use Rattle.swd_recorder.specs.Items.{recorded_in_hand_by, recorded_items_by, recorded_items_of, RecordingCutOff};
ghost use Rattle.swd_recorder.specs.Kept.{RecorderAdds, recorder_nothing_kept, recorder_kept_of};
ghost use Rattle.swd_recorder.specs.Steps.{IsRecordedPlaced, recorded_transactions, recorded_due_count};
ghost use Rattle.swd_recorder.specs.Steps.{recorder_ask_count};

use crate::in_hand::{InHand, in_hand_once};
use crate::items::Items;
use std::alloc::Allocator;
use swd_port::{Call, Cue, NotedCalls};

/// The calls of a wire so far, for contracts alone, and their items.
#[derive(Drop)]
pub(crate) struct Recording<A: Allocator> {
    pub(crate) items: Items<A>,
    in_hand: Option<InHand>,
    pub(crate) noted: NotedCalls,
    ghost held: { in_hand ≡ recorded_in_hand_by noted.calls },
    ghost whole: { items.is_cut ≡ false → items.list.items ≡ recorded_items_by noted.calls },
    ghost cut: { items.is_cut ≡ true → ∥ RecordingCutOff items.list.items noted.calls ∥₁ },
    ghost placed: { IsRecordedPlaced (port_due_by noted.calls) (recorder_kept_of items) },
    ghost most: { recorded_transactions items.list.items ≤ recorder_ask_count noted.calls },
    ghost counted: { items.is_cut ≡ false
        → recorded_transactions items.list.items + recorded_due_count (port_due_by noted.calls)
        ≡ recorder_ask_count noted.calls },
}

impl<A: Allocator> Recording<A> {
    /// Returns a recording without calls.
    pub(crate) fn new(alloc: A) -> Recording<A>
        ensures items { recorder_kept_of result.items ≡ recorder_nothing_kept }
        ensures calls { result.noted.calls ≡ [] }
    {
        Recording {
            items: Items::new(alloc),
            in_hand: None,
            noted: NotedCalls::new(),
        }
    }

    /// Records one more call, at which `seen` was seen.
    pub(crate) fn record(&mut self, cue: Cue, seen: u64)
        requires may { PortMayStep (port_due_by self.old.noted.calls) cue }
        requires seen { IsPortSeen cue seen }
        ensures calls { self.new.noted.calls ≡ record { cue = cue; seen = seen } ∷ self.old.noted.calls }
        ensures adds { RecorderAdds (recorded_items_of (recorded_in_hand_by self.old.noted.calls) cue seen)
            (recorder_kept_of self.old.items)
            (recorder_kept_of self.new.items) }
        ensures stays { self.old.items.is_cut ≡ true
            → recorder_kept_of self.new.items ≡ recorder_kept_of self.old.items }
    {
        self.items.add(self.in_hand, cue, seen);
        self.in_hand = in_hand_once(cue, seen);
        self.noted = self.noted.and(&Call { cue, seen });
    }
}
