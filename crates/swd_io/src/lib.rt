//! Input that is read piece by piece, and output that is written in blocks. No read or write is retried, and
//! the number of written bytes is exact.
#![tactic(auto)]

mod block;
mod held;
mod output;
mod pieces;

pub use block::{Block, LONGEST};
pub use output::{Unsent, send};
pub use pieces::{Consumer, Unread, read_pieces};
