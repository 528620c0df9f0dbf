//! The input files of a run: the script with its calls, and the plan with a mark for each request.
#![tactic(auto)]

mod batch;
mod command;
mod draft;
mod fault;
pub mod laws;
mod line_reader;
mod line_scan;
mod numeral;
mod plan;
mod script;
mod words;

pub use batch::{Batch, Expected, Until};
pub use fault::ScriptFault;
pub use line_reader::LineReader;
pub use numeral::{decimal_of, hex_of};
pub use plan::{PlanReader, read_plan};
pub use script::{Script, ScriptReader, read_script};
