//! The command processor of a CMSIS-DAP probe for serial wire: packets of a host, as clocks of a line. For firmware,
//! and for a simulated probe. Nothing allocates. A [`ProbeLine`] is all that is read and written.
#![tactic(auto)]

mod block;
mod clocks;
mod command;
mod line;
mod packet;
mod processor;
mod reply;
mod sequences;
mod settings;
mod shape;
mod size;
mod transaction;
mod transfers;

pub use line::ProbeLine;
pub use processor::Processor;
pub use size::LONGEST;
