//! The registers of a debug port and its memory access port, and the model of the wire to them.
#![tactic(auto)]

mod abort;
mod access;
mod call;
mod coming;
mod count;
mod csw;
mod ctrl_stat;
mod cue;
pub mod laws;
mod mark;
mod noted;
mod outside;
mod register;
mod select;
mod state;
mod wire;

pub use abort::Abort;
pub use access::{Access, Answer, MOST_ACCESSES, Transfer, push_reads};
pub use call::Call;
pub use coming::{Coming, Pieces};
pub use count::Count;
pub use csw::Csw;
pub use ctrl_stat::CtrlStat;
pub use cue::Cue;
pub use mark::Mark;
pub use noted::NotedCalls;
pub use outside::{Disconnected, Loose, Story, Tie, Tied, Transport, TransportWire};
pub use register::Register;
pub use select::Select;
pub use state::{AfterAck, Drw, PowerUp, Reply, Reset};
pub use wire::{Due, Wire};
