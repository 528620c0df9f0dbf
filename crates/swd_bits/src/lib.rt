//! The bits of Serial Wire Debug: packet requests, acknowledgements, data phases and whole transactions, each as bits
//! in time order, and the trace text and listing line of one transaction.
//!
//! Everything here is a plain value or a total function. Nothing allocates.
#![tactic(auto)]

mod ack;
mod data_phase;
mod gathered;
mod line;
mod message;
mod one;
mod request;
mod scan;
mod switch;
mod tx;
mod tx_bits;

pub use ack::Ack;
pub use data_phase::{data_bits, word_of};
pub use line::{LONGEST_TX_LINE, TxLine, push_word};
pub use one::{OneFault, one_text};
pub use request::{Reg4, Request};
pub use scan::{Scan, Sign};
pub use switch::{SWITCH, SWITCH_BITS};
pub use tx::{
    MOVED_BITS, REFUSED_BITS, Tx, TxEnd, UNACKNOWLEDGED_BITS, transactions_are_told_apart,
};
pub use tx_bits::TxBits;
