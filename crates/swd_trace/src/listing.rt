//! Reads a listing: one item a line, as the items are printed.

mod fault;
mod line;
mod lines;
mod normal;
mod reader;
mod word;

pub use fault::ListFault;
pub use reader::read_list;
