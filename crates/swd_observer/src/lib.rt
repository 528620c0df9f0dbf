//! Reconstructs what a debugger did to a target's memory from the wire alone. An observer takes the items of
//! a trace. For each memory access it reports whether the access took effect, at which address, and with
//! which word, each of which may be unknown.
//!
//! It knows nothing about the host. OK to a write doesn't show yet whether the write takes effect: a later
//! request shows it. If no later request does, the observer says so. `laws` has what is proved: for runs of
//! the port model, the reported accesses are those that the memory logged, in order, where one reported as
//! `May` was logged once or not at all.
//!
//! ```
//! let mut observer = TraceObserver::of_made();
//! let request = Request { ap: true, read: false, addr: Reg4::RC };
//! let result = TxEnd::Moved { word: 0x2a, parity_ok: true };
//! // a write of DRW was answered OK: it isn't reported yet
//! assert!(rt; observer.watch(&Item::Tx(Tx { request, result })).tells.before.is_none());
//! // another one was answered OK, so the first one took effect
//! let shown = observer.watch(&Item::Tx(Tx { request, result }));
//! let first = Told { place: 0, read: false, addr: Some(0), word: Some(0x2a), how: How::Took };
//! assert_eq!(rt; shown.tells.before, Some(first));
//! ```
#![tactic(auto)]

pub mod laws;
mod observer;
mod told;
mod trace;

pub use observer::{Observations, Observer, Older, SentWrite, Standing, StartedTransfer, Written};
pub use told::{How, ObservedAccess};
pub use trace::{ShownItem, TraceObserver, TraceStart};
