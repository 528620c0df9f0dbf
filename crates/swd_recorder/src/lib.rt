//! The calls of a wire, as the items of a trace: those of one call, and a recorder: a wire that forwards every call to
//! another one, and keeps what was sent and seen as the items of a trace.
#![tactic(auto)]

mod in_hand;
mod items;
mod of_call;
mod recorder;
mod recording;

pub use in_hand::{InHand, in_hand_once};
pub use of_call::{CallItems, call_items};
pub use recorder::Recorder;
