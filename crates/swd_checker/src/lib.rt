//! Decides whether some run of the port model explains a trace: any bus, any damage of the wire, any choice that the
//! model leaves to a target.
//!
//! A checker holds the *worlds* that the items so far leave: descriptions of the states in which the target may be. The
//! bus behind the access port is any, so a world has no memory, and a constant number of fields. Where no world is
//! left, no run explains the items.
//!
//! ```
//! let mut checker = Checker::new(CheckStart::Made);
//! let read = Request { ap: false, read: true, addr: Reg4::R4 };
//! checker.watch(&Item::Reset(50), 0);
//! // a read of CTRL/STAT was answered, though DPIDR wasn't read since the line reset
//! checker.watch(&Item::Tx(Tx { request: read, result: TxEnd::Wait }), 50);
//! assert_eq!(rt; checker.verdict(), Verdict::Breaks { place: 50, rule: Rule::Silence });
//! ```
#![tactic(auto)]

mod after;
mod alone;
mod answer;
mod checker;
mod fields;
mod held;
mod identification;
pub mod laws;
mod near;
mod opening;
mod origins;
mod reason;
mod rule;
mod step;
mod tar;
mod whole;
mod world;
mod worlds;

pub use checker::{CheckStart, Checker, CheckerFields, Verdict};
pub use fields::{HeldFields, IntervalFields, WorldFields};
pub use origins::{Origin, Origins};
pub use reason::{Cause, Due, Reason};
pub use rule::Rule;
pub use whole::{ShownPart, broken_item, shown_from, shown_items};
