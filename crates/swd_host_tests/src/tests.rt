//! Runs over both simulated targets, beside the worked runs of `swd_rows_tests`.
mod accesses;
mod blocks;
mod expect;
mod losses;
mod polls;
mod refusals;
mod sessions;
