//! Errors of a script or a plan.
ghost use Rattle.std.specs.Prelude.{◌≡◌};
ghost use Rattle.swd_script.specs.Faults.{script_fault_at};

use thiserror::Error;

/// The error of the first invalid line of a script or a plan.
///
/// Lines count from 1; line numbers above 2^64 - 1 are reported as 2^64 - 1. If a line has several errors,
/// the first of this list is reported, but `NoMemoryLine` before `Number`.
#[derive(Clone, Copy, Debug, PartialEq, Eq, Error)]
pub enum ScriptFault {
    /// An unknown word, a wrong number of words, a byte other than printable ASCII, space and tab, a second
    /// `memory`, a second `room`, `room` after an access or `next`, or another access in the call of a block.
    #[error("line {line}: word")]
    Word { line: u64 },
    /// An argument that isn't a number, has too many digits, or exceeds 2^32 - 1.
    #[error("line {line}: number")]
    Number { line: u64 },
    /// A number out of its range.
    #[error("line {line}: range")]
    Range { line: u64 },
    /// A line before `memory`; line 1 if no line has words.
    #[error("line {line}: no memory line")]
    NoMemoryLine { line: u64 },
    /// Out of memory for what the line says.
    #[error("line {line}: memory")]
    Memory { line: u64 },
}

/// The error of a line.
#[derive(Clone, Copy)]
pub enum LineFault {
    Word,
    Number,
    Range,
    NoMemoryLine,
    Memory,
}

impl LineFault {
    /// Returns the error of the line with this number.
    pub(crate) fn at(self, line: u64) -> ScriptFault
        ensures { result ≡ script_fault_at self line }
    {
        match self {
            LineFault::Word => ScriptFault::Word { line },
            LineFault::Number => ScriptFault::Number { line },
            LineFault::Range => ScriptFault::Range { line },
            LineFault::NoMemoryLine => ScriptFault::NoMemoryLine { line },
            LineFault::Memory => ScriptFault::Memory { line },
        }
    }
}
