//! A debug probe that speaks CMSIS-DAP, as the transport of a wire. Several transactions go by one packet where the
//! host says which come next.
#![tactic(auto)]

mod beginning;
mod doubt;
mod packets;
mod replies;
mod reports;
mod requests;
mod sequences;
mod transfer;
mod transport;

pub use packets::{DapFault, LONGEST, Packets};
pub use reports::Reports;
pub use transport::DapTransport;
