//! Connects a host to a target by sequences of clocks, for example over OpenOCD's remote_bitbang protocol for
//! serial wire, or by the packets of a debug probe.
#![tactic(auto)]

mod call_sink;
mod kept;
pub mod laws;
mod levels;
mod line;
mod line_job;
mod opening;
mod outgoing;
mod probe;
mod probe_transport;
mod remote;
mod whole_run;

pub use call_sink::CallSink;
pub use kept::{InitialStreams, RemoteStreams, RemoteTransport};
pub use line::{Line, Way};
pub use line_job::{LineJob, over_line, over_watched_line};
pub use opening::Opening;
pub use probe::Probe;
pub use probe_transport::ProbeTransport;
pub use remote::{Fault, Remote};
pub use swd_dap::DapFault;
pub use swd_sequences::Sequence;
pub use whole_run::run_over_line;
