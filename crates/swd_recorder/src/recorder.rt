//! A wire that forwards every call to another one, and keeps what was sent and seen.
ghost use Rattle.std.specs.Prelude.{◌≡◌, ◌≤◌, ◌+◌, ◌↔◌, true, false, List, [], ◌∷◌};
ghost use Rattle.swd_port.specs.declared.wire.Due.TheVariants.{Nothing, Lost};
ghost use Rattle.swd_port.specs.Steps.{PortMayStep, IsPortSeen, IsPortStep, port_due_once};
ghost use Rattle.swd_port.specs.Stories.{port_due_by};
ghost use Rattle.swd_port.specs.declared.call.Call.{Call};
ghost use Rattle.swd_port.specs.Laws.Calls.{port_with_asked};
ghost use Rattle.swd_trace.specs.Listed.{AreLegalItems};
ghost use Rattle.swd_trace.specs.Reading.{reading_of};
ghost use Rattle.swd_trace.specs.Texts.{bits_of_items};
ghost use Rattle.swd_recorder.specs.Items.{recorded_in_hand_by, recorded_items_by, recorded_items_of, RecordingCutOff};
ghost use Rattle.swd_recorder.specs.Kept.{RecorderAdds, recorder_nothing_kept};
ghost use Rattle.swd_recorder.specs.Steps.{recorded_transactions, recorded_due_count, RecordedEndsUnacknowledged};

use crate::recording::Recording;
use std::alloc::{Allocator, Global};
use swd_port::{Coming, Cue, Due, Pieces, Wire};
use swd_trace::Item;

/// A wire that forwards every call to another one. It keeps what the host sent and saw since the recorder was
/// made, as the items of a trace.
///
/// A transaction becomes an item once it is complete. Its word is the one that was sent, or for a read the
/// one that was seen, even with wrong parity. Zeros after zeros are one item.
///
/// The items are truncated when memory runs out, when the count of idle cycles would exceed 2^64 - 1, and at
/// a `lead` inside a transaction. From then on they are those of the calls before that one, and calls are
/// still forwarded. No call reports it: ask `is_cut`.
#[derive(Drop)]
pub struct Recorder<W: Wire, A: Allocator = Global> {
    wire: W,
    recording: Recording<A>,
    ghost tracked: { (W.port wire).link.due ≡ port_due_by recording.noted.calls },
}

impl<W: Wire, A: Allocator> Recorder<W, A> {
    ghost use Rattle.swd_recorder.specs.Recorders.{recorder_calls, recorder_kept, recorder_port, recorder_plan};
    ghost use Rattle.swd_recorder.specs.Recorders.{recorder_wire_under};

    /// Returns a recorder over this wire, without items, and with its own count of requests.
    pub fn new(alloc: A, wire: W) -> Recorder<W, A>
        requires { (W.port wire).link.due ≡ Nothing }
        ensures port { recorder_port result ≡ port_with_asked 0 (W.port wire) }
        ensures plan { recorder_plan result ≡ W.plan wire }
        ensures kept { recorder_kept result ≡ recorder_nothing_kept }
        ensures calls { recorder_calls result ≡ [] }
        ensures wire { recorder_wire_under result ≡ wire }
    {
        Recorder {
            wire,
            recording: Recording::new(alloc),
        }
    }

    /// Returns the items so far: those of all calls. Once truncated, they are those of the calls before one
    /// that would have added more.
    ///
    /// They decode from their own bits to the same items, and have at most one transaction for each request.
    /// Unless they are truncated, they have exactly one transaction for each request, except for one that
    /// isn't complete yet. Their last item is then a transaction without acknowledgement exactly if the wire
    /// is lost.
    pub fn items(&self) -> &[Item]
        ensures items { result.now ≡ (recorder_kept self.now).items }
        ensures whole { (recorder_kept self.now).is_cut ≡ false
            → result.now ≡ recorded_items_by (recorder_calls self.now) }
        ensures cut { (recorder_kept self.now).is_cut ≡ true
            → ∥ RecordingCutOff result.now (recorder_calls self.now) ∥₁ }
        ensures legal { AreLegalItems result.now }
        ensures read { reading_of (bits_of_items result.now) ≡ result.now }
        ensures most { recorded_transactions result.now ≤ (recorder_port self.now).tally.asked }
        ensures counted { (recorder_kept self.now).is_cut ≡ false
            → recorded_transactions result.now + recorded_due_count (recorder_port self.now).link.due
            ≡ (recorder_port self.now).tally.asked }
        ensures lost { (recorder_kept self.now).is_cut ≡ false
            → RecordedEndsUnacknowledged result.now ↔ ((recorder_port self.now).link.due ≡ Lost) }
    {
        self.recording.items.list.as_slice()
    }

    /// Returns whether the items are truncated.
    pub fn is_cut(&self) -> bool
        ensures { result ≡ (recorder_kept self.now).is_cut }
    {
        self.recording.items.is_cut
    }

    /// Returns the wire that it forwards to.
    pub fn into_wire(self) -> W
        ensures wire { recorder_wire_under self ≡ result }
        ensures port { recorder_port self ≡ port_with_asked (recorder_port self).tally.asked (W.port result) }
        ensures plan { recorder_plan self ≡ W.plan result }
    {
        let Recorder { wire, .. } = self;
        wire
    }
}

impl<W: Wire, A: Allocator> Wire for Recorder<W, A> {
    ghost use Rattle.swd_recorder.specs.Recorders.{recorder_calls, recorder_kept, recorder_port, recorder_plan};
    ghost use Rattle.swd_recorder.specs.Recorders.{recorder_lawful, recorder_notes, recorder_wire_under};

    ghost port = { recorder_port };

    ghost plan = { recorder_plan };

    ghost lawful = { recorder_lawful };

    ghost notes = { recorder_notes };

    fn due(&self) -> Due {
        self.wire.due()
    }

    fn step(&mut self, cue: Cue) -> u64
        requires { PortMayStep (recorder_port self.old).link.due cue }
        ensures seen { IsPortSeen cue result }
        ensures due { (recorder_port self.new).link.due ≡ port_due_once cue result }
        ensures step { recorder_lawful self.new → recorder_lawful self.old
            × IsPortStep cue result (recorder_port self.old) (recorder_port self.new) }
        ensures plan { recorder_plan self.new ≡ recorder_plan self.old }
        ensures notes { (calls : List Call) → recorder_notes calls self.old
            → recorder_notes (record { cue = cue; seen = result } ∷ calls) self.new }
        ensures calls { recorder_calls self.new ≡ record { cue = cue; seen = result } ∷ recorder_calls self.old }
        ensures noted { (calls : List Call) → W.Wire.notes calls (recorder_wire_under self.old)
            → W.Wire.notes (record { cue = cue; seen = result } ∷ calls) (recorder_wire_under self.new) }
        ensures adds { RecorderAdds (recorded_items_of (recorded_in_hand_by (recorder_calls self.old)) cue result)
            (recorder_kept self.old) (recorder_kept self.new) }
        ensures stays { (recorder_kept self.old).is_cut ≡ true → recorder_kept self.new ≡ recorder_kept self.old }
    {
        let seen = self.wire.step(cue);
        self.recording.record(cue, seen);
        seen
    }

    fn looks_ahead(&self) -> Option<Pieces> {
        self.wire.looks_ahead()
    }

    fn announce(&mut self, coming: &[Coming])
        ensures port { recorder_port self.new ≡ recorder_port self.old }
        ensures plan { recorder_plan self.new ≡ recorder_plan self.old }
        ensures lawful { recorder_lawful self.new → recorder_lawful self.old }
        ensures notes { (calls : List Call) → recorder_notes calls self.old → recorder_notes calls self.new }
        ensures calls { recorder_calls self.new ≡ recorder_calls self.old }
        ensures noted { (calls : List Call) → W.Wire.notes calls (recorder_wire_under self.old)
            → W.Wire.notes calls (recorder_wire_under self.new) }
        ensures kept { recorder_kept self.new ≡ recorder_kept self.old }
    {
        self.wire.announce(coming);
    }
}
