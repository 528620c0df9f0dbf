//! The reason why arguments are not a command.

use clap::Error;

/// The reason why the arguments are not a command.
#[derive(Drop)]
pub enum LineFault {
    /// The answer of `clap`: a usage error, the help, or the version.
    Clap(Error),
    /// Out of memory.
    Memory,
}
