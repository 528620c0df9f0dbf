//! Converts trace texts to listings, and back.
#![tactic(auto)]

mod comment;
mod decoding;
mod digits;
mod encoding;
mod fault;
mod items_printer;
mod lister;
mod output;
mod reader;
mod tx_line;

pub use comment::comment_len;
pub use decoding::decode_text;
pub use digits::{Digits, WIDTH, digits_of};
pub use encoding::{encode_text, put_items, write_items};
pub use fault::{DecodeFault, EncodeFault, TakeFault, TextFault};
pub use items_printer::ItemsPrinter;
pub use output::end_output;
pub use reader::{BitSink, TextReader, read_text};
