//! The destination of a report.

/// The destination of a report: a file, or standard error.
#[derive(Drop)]
pub enum Destination<M> {
    File(M),
    Errors,
}
