//! What tests of a host share: the simulated targets as one trait, and runs over them with what has to come of each.
#![tactic(auto)]

mod bridge;
mod run;
mod simulated;

pub use bridge::{Untold, pass_on};
pub use run::{
    ALL_QUIRKS, BASE, FILLER, QUIRKS, READ, READ_WORD, READ_ZERO, RUN, Run, WHOLE, WORD, WRITE,
    WRITTEN, Wanted, are_legal, plan_of, recorder_over, report_of, run_of, target_of,
};
pub use simulated::Simulated;
