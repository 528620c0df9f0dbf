//! A CMSIS-DAP probe in front of a simulated target: a protocol of `swd_bitbang`, of packets in place of characters.
//! Each packet has its length before it, in two bytes, the first least significant, and so has each reply.
#![tactic(auto)]

mod line;
mod packets;

pub use line::PinsLine;
pub use packets::SimulatedProbe;
