//! An observer of a whole trace.
ghost use Rattle.std.specs.Prelude.{◌≡◌, not, Some, None};
ghost use Rattle.swd_observer.specs.Traces.{observed_item_len, is_observed_gap, trace_observer_unknown};
ghost use Rattle.swd_observer.specs.Traces.{trace_observer_made, trace_observer_step, observed_shown_at};
ghost use Rattle.swd_observer.specs.Traces.{trace_observer_resting, trace_observer_from};
ghost use Rattle.swd_observer.specs.Observing.{observed_last_accesses};

use crate::observer::{Observations, Observer};
use swd_bits::{MOVED_BITS, REFUSED_BITS, SWITCH_BITS, TxEnd, UNACKNOWLEDGED_BITS};
use swd_trace::Item;

/// What is known of a target before the first item of its trace.
#[derive(Clone, Copy, Debug, PartialEq, Eq)]
pub enum TraceStart {
    /// Nothing.
    Any,
    /// It is at rest: SELECT is 0, no transfer is pending, and no data phase is due. All else is unknown.
    Rest,
    /// It is in its reset state.
    Made,
}

/// What an item of a trace shows, in this order.
#[derive(Clone, Copy, Debug, PartialEq, Eq)]
pub struct ShownItem {
    pub tells: Observations,
    /// The number of bits before a gap, at the gap's first item. A gap is a series of junk bits and cut ends.
    /// It may hide accesses, and after it nothing is known of the target.
    pub gap: Option<u64>,
}

/// An observer of the items of a trace, from its beginning. It counts the bits, so that each access has its
/// place. It allocates nothing.
///
/// ```
/// let mut observer = TraceObserver::new();
/// let shown = observer.watch(&Item::Junk(true));
/// assert_eq!(rt; shown.gap, Some(0));
/// assert!(rt; shown.tells.before.is_none());
/// ```
#[derive(Clone, Copy, Debug)]
pub struct TraceObserver {
    pub observer: Observer,
    /// The number of bits before the next item, at most 2^64 - 1.
    pub place: u64,
    /// Whether the last item was a junk bit or a cut end.
    pub in_gap: bool,
}

impl TraceObserver {
    /// Returns an observer for a trace of a target of which nothing is known.
    pub fn new() -> TraceObserver
        ensures { result ≡ trace_observer_unknown }
    {
        TraceObserver {
            observer: Observer::new(),
            place: 0,
            in_gap: false,
        }
    }

    /// Returns an observer for a trace of a target in its reset state.
    pub fn of_made() -> TraceObserver
        ensures { result ≡ trace_observer_made }
    {
        TraceObserver {
            observer: Observer::of_made(),
            place: 0,
            in_gap: false,
        }
    }

    /// Returns an observer for a trace of a target at rest: SELECT is 0, no transfer is pending, and no data phase is
    /// due. All else is unknown.
    pub fn of_rest() -> TraceObserver
        ensures { result ≡ trace_observer_resting }
    {
        TraceObserver {
            observer: Observer::of_rest(),
            place: 0,
            in_gap: false,
        }
    }

    /// Returns an observer for a trace that begins so.
    pub fn of(start: TraceStart) -> TraceObserver
        ensures { result ≡ trace_observer_from start }
    {
        match start {
            TraceStart::Any => TraceObserver::new(),
            TraceStart::Rest => TraceObserver::of_rest(),
            TraceStart::Made => TraceObserver::of_made(),
        }
    }

    /// Takes the next item, and returns what it shows.
    pub fn watch(&mut self, item: &Item) -> ShownItem
        ensures observer { self.new ≡ trace_observer_step item.now self.old }
        ensures shown { result ≡ observed_shown_at item.now self.old }
    {
        let belongs = belongs(item);
        let gap = if belongs || self.in_gap {
            None
        } else {
            Some(self.place)
        };
        let tells = self.observer.watch(item, self.place);
        self.place = self.place.saturating_add(bits_in(item));
        self.in_gap = !belongs;
        ShownItem { tells, gap }
    }

    /// Returns what a trace that ends here shows of the accesses that weren't reported yet.
    pub fn last(&self) -> Observations
        ensures { result ≡ observed_last_accesses self.now.observer }
    {
        self.observer.last()
    }
}

// Returns whether an item is neither a junk bit nor a cut end.
fn belongs(item: &Item) -> bool
    ensures { result ≡ not (is_observed_gap item.now) }
{
    !matches!(item, Item::Junk(_) | Item::Cut(_))
}

// Returns how many bits an item has.
fn bits_in(item: &Item) -> u64
    ensures { result ≡ observed_item_len item.now }
{
    match *item {
        Item::Reset(count) | Item::Idle(count) => count,
        Item::Switch => u64::from(SWITCH_BITS),
        Item::Junk(_) => 1,
        Item::Cut(bits) => u64::from(bits.len),
        Item::Tx(tx) => u64::from(match tx.result {
            TxEnd::Moved { .. } => MOVED_BITS,
            TxEnd::Wait | TxEnd::Fault => REFUSED_BITS,
            TxEnd::NoAck(_) => UNACKNOWLEDGED_BITS,
        }),
    }
}
