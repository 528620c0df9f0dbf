//! The export of the web page that `swd decode` has and the C library hasn't: what `--resync` and `--accesses` print of
//! a whole trace file. `web/make` builds it for WebAssembly.
#![tactic(auto)]

mod page;
mod print;

pub use page::{PAGE_SIZE, SwdPage};
pub use print::swd_page_print;
