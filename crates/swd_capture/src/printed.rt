//! The forms of output.

use swd_observer::TraceStart;

/// The form of a listing line.
#[derive(Clone, Copy, Debug, PartialEq, Eq)]
pub struct LineForm {
    /// Whether each line begins with `@N `: the number of bits before the part's first bit, at most 2^64 - 1.
    pub places: bool,
    /// Whether registers have names, and words are followed by their set flags. Where these depend on SELECT, it has
    /// to be known.
    pub names: bool,
}

/// The form in which a trace or a capture is printed.
#[derive(Clone, Copy, Debug, PartialEq, Eq)]
pub enum Printed {
    /// A line for each part.
    Lines(LineForm),
    /// The count of each kind of part, at the end.
    Counts,
    /// A line for each access of the target's memory that the parts show.
    Accesses {
        /// What is known of the target at first.
        start: TraceStart,
    },
}
