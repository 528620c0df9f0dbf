//! A conformance run: a fixed plan of raw requests that reach each rule of the port model, sent over any wire, and
//! what a check says of the items that were sent and seen.
//!
//! `Plan` is the list of steps, which sends and reads nothing. `conform` sends them.
#![tactic(auto)]

mod aim;
mod over_wire;
mod plan;
mod run;
mod send;
mod session;
mod steps;
mod steps_text;

pub use over_wire::conform;
pub use plan::{LEAST_WORDS, MOST_STEPS, Plan, Step, Without};
pub use run::{ConformRun, Conformed, REQUESTS_PER_STEP, Stop};
pub use session::{SessionCheck, over_checked_line};
pub use steps_text::{StepFault, StepTrouble, Steps};
