//! OpenOCD's remote_bitbang protocol for serial wire, in front of a clocked target.
#![tactic(auto)]

pub mod laws;
mod pins;
mod protocol;
mod serving;
mod trace;
mod watch;

pub use pins::{PinReply, Pins};
pub use protocol::Protocol;
pub use serving::{Served, serve, serve_watched};
pub use trace::Trace;
pub use watch::Watch;
