//! A whole run of the host, step by step. Each call takes the reply to the last cue, and starts the next access if one
//! was answered. It drives no wire and allocates no memory.
#![tactic(auto)]

mod accesses;
mod fields;
pub mod laws;
mod plan;
mod run;

pub use accesses::Accesses;
pub use fields::RunFields;
pub use plan::MOST_PLANNED;
pub use run::{Answers, Refusal, Run};
