//! The host's side of a serial wire. [`run`] performs a list of accesses over any wire, and [`run_block`] reads a block
//! of words. [`Engine`] is the host without I/O, which returns what to send next.
#![tactic(auto)]

mod accepting;
mod block;
mod coming;
mod engine;
mod fields;
mod flags;
pub mod laws;
mod listing;
mod outcome;
mod outside;
mod request;
mod resuming;
mod running;
mod session;
mod sink;
mod step;
mod task;

pub use block::run_block;
pub use engine::Engine;
pub use fields::{EngineFields, JobFields, OutcomeFields, StateFields, TarFields, TaskFields};
pub use listing::{open_target, run_open, run_open_block, run_open_to};
pub use outcome::{End, Ending, Outcome, Refused, Report};
pub use outside::run_over_transport;
pub use resuming::{resume, resume_to};
pub use running::{run, run_to};
pub use session::Session;
pub use sink::AnswerSink;
pub use task::Bursts;
