//! Decodes captures, which may begin in mid-session and lack bits: stretches that decode as traces, and the
//! bits between them.
#![tactic(auto)]

mod decoder;
mod held;
mod judge;
mod laws;
mod look;
mod moves;
mod overrun;
mod part;
mod queue;
mod sight;
mod stage;

pub use decoder::CaptureDecoder;
pub use laws::{
    a_pair_is_found, parts_divide_a_capture, places_are_kept, tests_of_a_capture,
    what_is_never_lost_is_told,
};
pub use part::{FollowedPart, PHASE_BITS, Part};
