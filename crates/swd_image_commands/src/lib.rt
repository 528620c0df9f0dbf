//! Carries out `swd load`, `swd verify` and `swd dump`, at a target behind the standard streams or at a simulated one.
#![tactic(auto)]

mod image_command;
mod image_file;
mod image_report;
mod pieces;
mod result;
mod simulated_command;

pub use image_command::perform_image;
