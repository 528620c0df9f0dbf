//! Draws a short stretch of a trace or a capture as SVG.
#![tactic(auto)]

mod drawing;
mod field;
mod head;
mod kept;
mod laws;
mod pieces;
mod row;
mod run;
mod strip;
mod tx_strip;

pub use drawing::{DrawnForm, draw_capture};
pub use laws::{fields_are_the_transaction, the_first_parts_are_drawn};
