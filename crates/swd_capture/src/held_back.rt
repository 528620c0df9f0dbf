//! Holds the last transaction of a capture back: if a skip follows, it belongs to that gap.
ghost use Rattle.std.specs.Prelude.{◌≡◌, ◌-◌, ◌^◌, length, min, None, Some};
ghost use Rattle.swd_trace.specs.Texts.{bits_of_items};
ghost use Rattle.swd_resync.specs.declared.part.Part.TheVariants.{Item as Told, Skip};
ghost use Rattle.swd_capture.specs.Gaps.{CaptureRun, IsCaptureDue, IsHeldBack, capture_held_items};
ghost use Rattle.swd_capture.specs.Gaps.{capture_due_of, capture_due_of_gap, capture_due_of_idle, capture_due_of_item};
ghost use Rattle.swd_capture.specs.Gaps.{capture_due_of_run, capture_run_after, capture_run_after_item};
ghost use Rattle.swd_capture.specs.Gaps.{capture_run_idle, capture_run_none, capture_run_of};

use crate::teller::place_behind_part;
use swd_resync::Part;
use swd_trace::Item;

/// What is due when a part of a capture comes, in the order of the fields.
#[derive(Clone, Copy, Debug, PartialEq, Eq)]
pub struct DueParts {
    /// The transaction that waited: no skip follows it.
    pub held: Option<Part>,
    /// The number of idle cycles behind it, at most 2^64 - 1.
    pub idle: u64,
    /// The part itself, unless it waits. A skip has the bits of what waited as well, at most 2^64 - 1 in all.
    pub part: Option<Part>,
}

/// The last transaction of a capture, with the idle cycles behind it. It waits for the next part that isn't idle
/// cycles: if that is a skip, the transaction belongs to the gap, since a lost bit often shows only behind the
/// transaction that it damaged.
#[derive(Clone, Copy, Debug, PartialEq, Eq)]
pub struct HeldBack {
    // The transaction that waits.
    part: Option<Part>,
    // The number of idle cycles behind it, at most 2^64 - 1.
    idle: u64,
}

// Returns how many bits a part and idle cycles behind it have, at most 2^64 - 1.
fn held_len(held: Option<Part>, idle: u64) -> u64
    ensures { result ≡ min (length (bits_of_items (capture_held_items held idle))) (2 ^ 64 - 1) }
{
    match held {
        None => 0,
        Some(part) => place_behind_part(0, &part).saturating_add(idle),
    }
}

impl HeldBack {
    /// Returns one that was given no parts.
    pub fn new() -> HeldBack
        ensures { IsHeldBack capture_run_none result }
    {
        HeldBack {
            part: None,
            idle: 0,
        }
    }

    /// Takes the next part, and returns what is due then.
    pub fn take(&mut self, part: &Part) -> DueParts
        ensures waits { (run : CaptureRun) → IsHeldBack run self.old
            → IsHeldBack (capture_run_after run part.now) self.new }
        ensures due { (run : CaptureRun) → IsHeldBack run self.old
            → IsCaptureDue (capture_due_of run part.now) result }
    {
        match part {
            Part::Item(item) => self.take_item(item),
            Part::Phased(tx) => self.hold(Part::Phased(*tx)),
            Part::Skip(count) => self.skip(*count),
        }
    }

    /// Returns what is due where the capture ends: what waits.
    pub fn last(&self) -> DueParts
        ensures { (run : CaptureRun) → IsHeldBack run self.now → IsCaptureDue (capture_due_of_run run None) result }
    {
        DueParts {
            held: self.part,
            idle: self.idle,
            part: None,
        }
    }

    // Takes an item of a stretch.
    fn take_item(&mut self, item: &Item) -> DueParts
        ensures waits { (run : CaptureRun) → IsHeldBack run self.old
            → IsHeldBack (capture_run_after_item run item.now) self.new }
        ensures due { (run : CaptureRun) → IsHeldBack run self.old
            → IsCaptureDue (capture_due_of_item run item.now) result }
    {
        match item {
            Item::Tx(tx) => self.hold(Part::Item(Item::Tx(*tx))),
            Item::Idle(count) => self.rest(*count),
            Item::Reset(_) | Item::Switch | Item::Junk(_) | Item::Cut(_) => self.pass(item),
        }
    }

    // Takes a transaction, which waits from now on.
    fn hold(&mut self, part: Part) -> DueParts
        ensures waits { IsHeldBack (capture_run_of part) self.new }
        ensures due { (run : CaptureRun) → IsHeldBack run self.old
            → IsCaptureDue (capture_due_of_run run None) result }
    {
        let due = self.last();
        self.part = Some(part);
        self.idle = 0;
        due
    }

    // Takes idle cycles, which wait behind a transaction.
    fn rest(&mut self, count: u64) -> DueParts
        ensures waits { (run : CaptureRun) → IsHeldBack run self.old
            → IsHeldBack (capture_run_idle run.part run.idle count) self.new }
        ensures due { (run : CaptureRun) → IsHeldBack run self.old
            → IsCaptureDue (capture_due_of_idle run.part count) result }
    {
        match self.part {
            None => {
                self.idle = 0;
                due_alone(Some(Part::Item(Item::Idle(count))))
            }
            Some(_) => {
                self.idle = self.idle.saturating_add(count);
                due_alone(None)
            }
        }
    }

    // Takes a skip, and with it what waits.
    fn skip(&mut self, count: u64) -> DueParts
        ensures waits { IsHeldBack capture_run_none self.new }
        ensures due { (run : CaptureRun) → IsHeldBack run self.old
            → IsCaptureDue (capture_due_of_gap run count) result }
    {
        let all = held_len(self.part, self.idle).saturating_add(count);
        *self = HeldBack::new();
        due_alone(Some(Part::Skip(all)))
    }

    // Takes an item that isn't a transaction or idle cycles.
    fn pass(&mut self, item: &Item) -> DueParts
        ensures waits { IsHeldBack capture_run_none self.new }
        ensures due { (run : CaptureRun) → IsHeldBack run self.old
            → IsCaptureDue (capture_due_of_run run (Some (Told item.now))) result }
    {
        let due = DueParts {
            held: self.part,
            idle: self.idle,
            part: Some(Part::Item(*item)),
        };
        *self = HeldBack::new();
        due
    }
}

// Returns this part as due, and nothing that waited.
fn due_alone(part: Option<Part>) -> DueParts
    ensures held { result.held ≡ None }
    ensures idle { result.idle ≡ 0 }
    ensures part { result.part ≡ part }
{
    DueParts {
        held: None,
        idle: 0,
        part,
    }
}
