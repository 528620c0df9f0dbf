//! Items of a trace of the wire: line resets, switches, idle cycles, transactions, junk bits and a cut end.
#![tactic(auto)]

mod bit_count;
mod decoder;
mod encoder;
mod found_tx;
mod front;
mod grammar;
mod item;
mod item_bits;
mod item_bytes;
mod item_text;
mod laws;
mod listing;
mod mode;

pub use decoder::{Decoder, DecoderFields};
pub use encoder::encode;
pub use found_tx::FoundTx;
pub use front::Front;
pub use grammar::front_of;
pub use item::Item;
pub use item_bytes::ItemBytes;
pub use item_text::{ItemLine, LONGEST_LINE, push_bits};
pub use laws::{
    one_list_is_decided, readings_are_read_again, tests_of_the_reading, transactions_are_read,
};
pub use listing::{ListFault, read_list};
