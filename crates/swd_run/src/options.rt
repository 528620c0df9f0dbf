//! How a call is made.

use crate::limits::Limits;

/// How a call is made.
#[derive(Clone, Copy)]
pub(crate) struct CallOptions {
    /// What the call may meet.
    pub(crate) limits: Limits,
    /// Whether the target is open already, as a call that ended `All` leaves it. Otherwise the call opens it.
    pub(crate) opened: bool,
}
