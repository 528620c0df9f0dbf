//! The engine of `swd run`. It runs a script's calls over any wire, and resumes a call after a lost acknowledgement. It
//! writes their reports and the trace while they go on, and then the accesses that it shows. It returns the first read
//! whose answer wasn't the expected word. [`run_text`] does the same over a simulated target with the marks of a
//! plan.
#![tactic(auto)]

mod batch_runs;
mod counting;
mod engine;
mod fault;
mod going_on;
mod growing;
pub mod laws;
mod limits;
mod options;
mod performing;
mod progress;
mod records;
mod report;
mod reporting;
mod run_sink;
mod running;
mod script_device;
mod texts;
mod trace_file;
mod traced;
mod verified;

pub use batch_runs::{ReportedRun, run_on_reporting};
pub use counting::count_accesses;
pub use engine::{Finished, run_batches};
pub use fault::{EngineFault, RunFault, TextsFault};
pub use going_on::{Resumed, Stop, run_on, run_on_to};
pub use growing::{GrowingFile, Portion};
pub use limits::Limits;
pub use progress::{Progress, TOLD_AFTER};
pub use records::Records;
pub use report::{ReportLine, answer_line, last_line, resume_line};
pub use run_sink::RunSink;
pub use running::{QUIRKS, run_script, run_text};
pub use script_device::{KeepsLog, ScriptDevice, device_of};
pub use texts::{Texts, read_texts};
pub use verified::Difference;
