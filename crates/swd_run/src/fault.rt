//! Errors of a script's run.
use swd_script::ScriptFault;
use thiserror::Error;

/// The error of reading a script and a plan.
#[derive(Clone, Copy, Debug, PartialEq, Eq, Error)]
pub enum TextsFault {
    /// The script is invalid.
    #[error("script {0}")]
    Script(ScriptFault),
    /// The plan is invalid.
    #[error("plan {0}")]
    Plan(ScriptFault),
    /// A reader failed.
    #[error("read failed")]
    Read,
}

/// The error of running the calls of a script, or of writing their reports, their trace or its accesses.
#[derive(Clone, Copy, Debug, PartialEq, Eq, Error)]
pub enum EngineFault {
    /// Out of memory for a call. The reports of the calls before it are complete.
    #[error("no memory")]
    Memory,
    /// The writer of the reports or of the trace failed, or took no bytes. Exactly the first `written` bytes of its
    /// output were written; more than 2^64 - 1 are reported as 2^64 - 1.
    #[error("write failed")]
    Write { written: u64 },
    /// The writer of the accesses failed, or took no bytes. Exactly the first `written` bytes of them were written, at
    /// most 2^64 - 1. The reports and the trace are complete.
    #[error("write of the accesses failed")]
    WriteAccesses { written: u64 },
    /// The trace is truncated, as when memory runs out for its items.
    #[error("trace cut")]
    TraceCut,
}

/// The error of a script's run over a simulated target.
#[derive(Clone, Copy, Debug, PartialEq, Eq, Error)]
pub enum RunFault {
    /// The script or the plan wasn't read.
    #[error(transparent)]
    Texts(TextsFault),
    /// The script wasn't run to its end, or not all output was written.
    #[error(transparent)]
    Engine(EngineFault),
}
