//! The machine that a command of `swd` works at: the files that it opens, each in a role, the streams that keep why
//! they failed, its lines on standard error, and the status that it ends with.
#![tactic(auto)]

mod clock;
mod connection;
mod destination;
mod in_use;
mod line_files;
mod list_reason;
mod machine;
mod memory_file;
mod noted;
mod open_files;
mod pace;
mod probe;
mod reached;
mod reason;
mod report;
mod sample;
mod streams;
mod target;
mod verdict;
mod watched;

pub use clock::Clock;
pub use connection::{Untold, gone_status, line_streams};
pub use destination::Destination;
pub use in_use::{
    InUse, ReadRole, StreamsInUse, WriteRole, cut_off, cut_off_named, give_up_named, named_file_of,
    unnamed_file,
};
pub use line_files::{LineFiles, line_ends, open_line};
pub use list_reason::list_line_status;
pub use machine::Console;
pub use memory_file::{HeldMemory, MemoryFile, read_target_files, write_back};
pub use noted::{Seen, SeenLine, TrackedReader};
pub use open_files::{Files, Identity, Opened};
pub use pace::Pace;
pub use reached::{tell_info, tell_session};
pub use reason::{script_status, texts_status};
pub use report::{
    DONE, Escaped, FAULT, STOPPED, advice_on, cannot_open, cannot_open_probe, cannot_use,
    engine_status, run_status, tell, tell_used_up,
};
pub use sample::Sample;
pub use streams::{
    ERRORS, INPUT, Stream, conversion_status, name_or_nothing, status_after, streams_status,
    tell_failure, tell_failure_or,
};
pub use target::at_the_target;
pub use verdict::session_status;
pub use watched::{KeepsError, Watched};
