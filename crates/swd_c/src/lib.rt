//! Whole runs of the host, the decoder, the clocked target and the checker of a trace for programs in C.
//! `include/swd.h` declares the exports, and `docs/C.md` says how to build the archive and what is proved.
//!
//! All state is in the caller's memory, as structs of integers. Each call returns, allocates no memory, and refuses
//! invalid contents and arguments.
#![tactic(auto)]

mod access;
mod check;
mod cue;
mod decoder;
mod give;
mod item;
mod layout;
mod nowhere;
mod plan;
mod run;
mod target;

pub use access::SwdAccess;
pub use check::{SwdVerdict, swd_check_new, swd_check_verdict, swd_check_watch};
pub use cue::SwdCue;
pub use decoder::{swd_decoder_due, swd_decoder_last, swd_decoder_new, swd_decoder_take};
pub use give::swd_give_rest;
pub use item::SwdItem;
pub use layout::{
    SwdCheckLayout, SwdLayout, SwdPlanLayout, SwdRunLayout, swd_check_layout, swd_layout,
    swd_plan_layout, swd_run_layout, swd_version,
};
pub use nowhere::Nowhere;
pub use plan::{SwdPlanned, swd_run_plan};
pub use run::{
    swd_run_again, swd_run_blocks, swd_run_cue, swd_run_fail, swd_run_new, swd_run_next,
    swd_run_opened,
};
pub use target::{
    SwdTransfer, swd_target_cycle, swd_target_hold, swd_target_new, swd_target_settle,
    swd_target_wants,
};

#[cfg(test)]
mod tests;
