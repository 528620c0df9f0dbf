//! Prints what the parts of a capture show of the target's memory.
ghost use Rattle.std.specs.Prelude.{◌≡◌, ◌+◌, ◌-◌, ◌*◌, ◌≤◌, ◌++◌, ◌∷◌, [], true, false};
ghost use Rattle.std.specs.Prelude.{replicate};
ghost use Rattle.arrayvec.specs.ArrayString.{array_string_len};
ghost use Rattle.swd_trace.specs.declared.item.Item.TheVariants.{Junk};
ghost use Rattle.swd_resync.specs.AsItems.{resync_part_items};
ghost use Rattle.swd_trace.specs.Held.{idle_items};
ghost use Rattle.swd_resync.specs.declared.part.Part.TheVariants.{Phased, Skip};
ghost use Rattle.swd_capture.specs.Gaps.{capture_held_items, capture_items_of_due};
ghost use Rattle.swd_observer.specs.Observing.{observed_last_accesses, observer_unknown};
ghost use Rattle.swd_observer.specs.Traces.{trace_observer_after};
ghost use Rattle.swd_capture.specs.Accesses.{observer_text_of_items, observer_text_of_gap, observer_text_shown};
ghost use Rattle.swd_capture.specs.Accesses.{observer_text_reported, observer_text_of_access};

use crate::access_line::{LONGEST, line_of, line_of_gap};
use crate::held_back::{DueParts, HeldBack};
use arrayvec::ArrayString;
use swd_bits::Tx;
use swd_observer::{Observations, ObservedAccess, Observer, ShownItem, TraceObserver};
use swd_resync::{PHASE_BITS, Part};
use swd_trace::Item;

/// The most bytes of the lines for one part.
pub(crate) const LONGEST_SHOWN: usize = 4 * LONGEST;

// Appends the line of an access, if there is one.
fn push_told<const N: usize>(text: &mut ArrayString<N>, told: Option<ObservedAccess>)
    requires { array_string_len text.old + LONGEST ≤ N }
    ensures bytes { text.new.bytes ≡ text.old.bytes ++ observer_text_of_access told }
    ensures len { array_string_len text.new ≤ array_string_len text.old + LONGEST }
{
    if let Some(told) = told {
        text.push_str(line_of(&told).as_str());
    }
}

// Appends the lines of the accesses that are reported together.
fn push_tells<const N: usize>(text: &mut ArrayString<N>, tells: Observations)
    requires { array_string_len text.old + 3 * LONGEST ≤ N }
    ensures bytes { text.new.bytes ≡ text.old.bytes ++ observer_text_reported tells }
    ensures len { array_string_len text.new ≤ array_string_len text.old + 3 * LONGEST }
{
    push_told(text, tells.older);
    push_told(text, tells.before);
    push_told(text, tells.itself);
}

// Appends the line of a gap, if there is one.
fn push_gap<const N: usize>(text: &mut ArrayString<N>, gap: Option<u64>)
    requires { array_string_len text.old + LONGEST ≤ N }
    ensures bytes { text.new.bytes ≡ text.old.bytes ++ observer_text_of_gap gap }
    ensures len { array_string_len text.new ≤ array_string_len text.old + LONGEST }
{
    if let Some(place) = gap {
        text.push_str(line_of_gap(place).as_str());
    }
}

// Appends the lines of what an item shows.
fn push_shown<const N: usize>(text: &mut ArrayString<N>, shown: ShownItem)
    requires { array_string_len text.old + LONGEST_SHOWN ≤ N }
    ensures bytes { text.new.bytes ≡ text.old.bytes ++ observer_text_shown shown }
    ensures len { array_string_len text.new ≤ array_string_len text.old + LONGEST_SHOWN }
{
    push_tells(text, shown.tells);
    push_gap(text, shown.gap);
}

// Takes an item of a stretch, and appends the lines of what it shows.
fn watch_item<const N: usize>(observer: &mut TraceObserver, item: &Item, text: &mut ArrayString<N>)
    requires { array_string_len text.old + LONGEST_SHOWN ≤ N }
    ensures observer { observer.new ≡ trace_observer_after (item.now ∷ []) observer.old }
    ensures bytes { text.new.bytes ≡ text.old.bytes ++ observer_text_of_items (item.now ∷ []) observer.old }
    ensures len { array_string_len text.new ≤ array_string_len text.old + LONGEST_SHOWN }
{
    push_shown(text, observer.watch(item));
}

// Takes a transaction of a stretch and the data phase after it, which shows nothing, and appends the lines of what the
// transaction shows.
fn watch_phased<const N: usize>(observer: &mut TraceObserver, tx: &Tx, text: &mut ArrayString<N>)
    requires { array_string_len text.old + LONGEST_SHOWN ≤ N }
    ensures observer { observer.new ≡ trace_observer_after (resync_part_items (Phased tx.now)) observer.old }
    ensures bytes { text.new.bytes ≡ text.old.bytes
        ++ observer_text_of_items (resync_part_items (Phased tx.now)) observer.old }
    ensures len { array_string_len text.new ≤ array_string_len text.old + LONGEST_SHOWN }
{
    push_shown(text, observer.watch(&Item::Tx(*tx)));
    let _ = observer.watch(&Item::Idle(u64::from(PHASE_BITS)));
}

// Returns whether the observer is in a gap and knows nothing of the target: a junk bit then only moves its place.
fn is_lost(observer: &TraceObserver) -> bool
    ensures gap { result ≡ true → observer.now.in_gap ≡ true }
    ensures unknown { result ≡ true → observer.now.observer ≡ observer_unknown }
{
    let Observer {
        select,
        increments,
        tar,
        sent,
        begun,
        older,
    } = observer.observer;
    observer.in_gap
        && select.is_none()
        && increments.is_none()
        && tar.is_none()
        && sent.is_none()
        && begun.is_none()
        && older.is_none()
}

// Takes a skip, and appends the lines of what it shows. After its first bit nothing is known of the target.
fn watch_skip<const N: usize>(observer: &mut TraceObserver, count: u64, text: &mut ArrayString<N>)
    requires { array_string_len text.old + LONGEST_SHOWN ≤ N }
    ensures observer { observer.new ≡ trace_observer_after (replicate count (Junk false)) observer.old }
    ensures bytes { text.new.bytes ≡ text.old.bytes
        ++ observer_text_of_items (replicate count (Junk false)) observer.old }
    ensures len { array_string_len text.new ≤ array_string_len text.old + LONGEST_SHOWN }
{
    if count == 0 {
        return;
    }
    if is_lost(observer) {
        observer.place = observer.place.saturating_add(count);
        return;
    }
    push_shown(text, observer.watch(&Item::Junk(false)));
    observer.place = observer.place.saturating_add(count - 1);
}

// Takes a part whatever follows it, and appends the lines of what it shows.
fn watch_now<const N: usize>(observer: &mut TraceObserver, part: &Part, text: &mut ArrayString<N>)
    requires { array_string_len text.old + LONGEST_SHOWN ≤ N }
    ensures observer { observer.new ≡ trace_observer_after (resync_part_items part.now) observer.old }
    ensures bytes { text.new.bytes ≡ text.old.bytes
        ++ observer_text_of_items (resync_part_items part.now) observer.old }
    ensures len { array_string_len text.new ≤ array_string_len text.old + LONGEST_SHOWN }
{
    match part {
        Part::Item(item) => watch_item(observer, item, text),
        Part::Phased(tx) => watch_phased(observer, tx, text),
        Part::Skip(count) => watch_skip(observer, *count, text),
    }
}

// Takes idle cycles, which show nothing, if there are some.
fn watch_idle(observer: &mut TraceObserver, idle: u64)
    ensures { observer.new ≡ trace_observer_after (idle_items idle) observer.old }
{
    if idle > 0 {
        let _ = observer.watch(&Item::Idle(idle));
    }
}

// Takes a transaction that waited, and the idle cycles behind it, and appends the lines of what it shows.
fn watch_held<const N: usize>(
    observer: &mut TraceObserver,
    held: Option<Part>,
    idle: u64,
    text: &mut ArrayString<N>,
)
    requires { array_string_len text.old + LONGEST_SHOWN ≤ N }
    ensures observer { observer.new ≡ trace_observer_after (capture_held_items held idle) observer.old }
    ensures bytes { text.new.bytes ≡ text.old.bytes
        ++ observer_text_of_items (capture_held_items held idle) observer.old }
    ensures len { array_string_len text.new ≤ array_string_len text.old + LONGEST_SHOWN }
{
    if let Some(part) = held {
        watch_now(observer, &part, text);
        watch_idle(observer, idle);
    }
}

// Takes what is due, and appends the lines of what it shows.
fn watch_due<const N: usize>(
    observer: &mut TraceObserver,
    due: &DueParts,
    text: &mut ArrayString<N>,
)
    requires { array_string_len text.old + 2 * LONGEST_SHOWN ≤ N }
    ensures observer { observer.new ≡ trace_observer_after (capture_items_of_due due.now) observer.old }
    ensures bytes { text.new.bytes ≡ text.old.bytes
        ++ observer_text_of_items (capture_items_of_due due.now) observer.old }
    ensures len { array_string_len text.new ≤ array_string_len text.old + 2 * LONGEST_SHOWN }
{
    watch_held(observer, due.held, due.idle, text);
    if let Some(part) = due.part {
        watch_now(observer, &part, text);
    }
}

/// What the parts so far show of the target's memory.
#[derive(Clone, Copy)]
pub(crate) struct Watching {
    pub(crate) observer: TraceObserver,
    held: HeldBack,
}

impl Watching {
    ghost use Rattle.swd_capture.specs.Gaps.{CaptureRun, IsHeldBack, capture_due_at, capture_run_after};
    ghost use Rattle.swd_capture.specs.Gaps.{capture_run_none, capture_run_items};
    ghost use Rattle.swd_capture.specs.Tellers.{CaptureShows, IsCaptureWatching};

    /// Returns one that was given no parts.
    pub(crate) fn new(observer: TraceObserver) -> Watching
        ensures observer { result.observer ≡ observer }
        ensures none { IsCaptureWatching capture_run_none result }
    {
        Watching {
            observer,
            held: HeldBack::new(),
        }
    }

    /// Takes the transaction that waits, and appends the lines of what it shows: no skip follows.
    pub(crate) fn flush<const N: usize>(&mut self, text: &mut ArrayString<N>)
        requires { array_string_len text.old + LONGEST_SHOWN ≤ N }
        ensures shows { (run : CaptureRun) → IsCaptureWatching run self.old → CaptureShows (capture_run_items run)
            capture_run_none self.old self.new text.old.bytes text.new.bytes }
        ensures len { array_string_len text.new ≤ array_string_len text.old + LONGEST_SHOWN }
    {
        let due = self.held.last();
        watch_held(&mut self.observer, due.held, due.idle, text);
        self.held = HeldBack::new();
    }

    /// Takes junk bits or skipped bits, which nothing that waits belongs to.
    pub(crate) fn lose<const N: usize>(&mut self, count: u64, text: &mut ArrayString<N>)
        requires { array_string_len text.old + LONGEST_SHOWN ≤ N }
        ensures held { self.new.held ≡ self.old.held }
        ensures observer { self.new.observer ≡ trace_observer_after (replicate count (Junk false)) self.old.observer }
        ensures bytes { text.new.bytes ≡ text.old.bytes
            ++ observer_text_of_items (replicate count (Junk false)) self.old.observer }
        ensures len { array_string_len text.new ≤ array_string_len text.old + LONGEST_SHOWN }
    {
        watch_skip(&mut self.observer, count, text);
    }

    /// Takes the next part of a capture, and appends the lines that are due then to `text`.
    ///
    /// | Line | What happened to the access |
    /// |---|---|
    /// | `@PLACE r ADDR WORD`, `@PLACE w ADDR WORD` | it took effect, exactly once |
    /// | the same with ` may` | it took effect once, or not at all: the trace doesn't show which |
    /// | the same with ` not` | it isn't in the target's log: a bus error, or data that was corrupted on the wire |
    /// | `@PLACE gap` | no access: a gap begins here, which may hide accesses |
    ///
    /// `PLACE` is in decimal: the number of bits before the first bit of the access's request, or of the gap. `ADDR`
    /// and `WORD` are eight lower-case hexadecimal digits, or `????????` if unknown. Accesses are listed in their
    /// order.
    pub(crate) fn watch<const N: usize>(&mut self, part: &Part, text: &mut ArrayString<N>)
        requires { array_string_len text.old + 2 * LONGEST_SHOWN ≤ N }
        ensures shows { (run : CaptureRun) → IsCaptureWatching run self.old → CaptureShows
            (capture_due_at run part.now) (capture_run_after run part.now)
            self.old self.new text.old.bytes text.new.bytes }
        ensures len { array_string_len text.new ≤ array_string_len text.old + 2 * LONGEST_SHOWN }
    {
        let due = self.held.take(part);
        watch_due(&mut self.observer, &due, text);
    }

    /// Appends the lines of what waits, for a capture that ends here.
    pub(crate) fn push_held<const N: usize>(&self, text: &mut ArrayString<N>)
        requires { array_string_len text.old + LONGEST_SHOWN ≤ N }
        ensures bytes { (run : CaptureRun) → IsCaptureWatching run self.now → text.new.bytes ≡ text.old.bytes
            ++ observer_text_of_items (capture_run_items run) self.now.observer }
        ensures len { array_string_len text.new ≤ array_string_len text.old + LONGEST_SHOWN }
    {
        let mut ended = *self;
        ended.flush(text);
    }

    /// Appends the lines of the accesses that weren't reported yet, for a capture that ends here.
    pub(crate) fn push_last<const N: usize>(&self, text: &mut ArrayString<N>)
        requires { array_string_len text.old + LONGEST_SHOWN ≤ N }
        ensures bytes { (run : CaptureRun) → IsCaptureWatching run self.now → text.new.bytes ≡ text.old.bytes
            ++ observer_text_reported (observed_last_accesses
            (trace_observer_after (capture_run_items run) self.now.observer).observer) }
        ensures len { array_string_len text.new ≤ array_string_len text.old + LONGEST_SHOWN }
    {
        let mut ended = *self;
        let mut lines: ArrayString<LONGEST_SHOWN> = ArrayString::new();
        ended.flush(&mut lines);
        push_tells(text, ended.observer.last());
    }
}
