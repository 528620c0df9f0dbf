//! The rules that a target may break.

use crate::world::World;
use swd_bits::{Tx, TxEnd};
use swd_port::{Register, Reply};

/// A rule that a target may break. `docs/PROTOCOL.md` has the rules of the port model, with their sources.
#[derive(Clone, Copy, Debug, PartialEq, Eq)]
pub enum Rule {
    /// Before any line reset no request is answered, and after one none before DPIDR was read.
    Silence,
    /// A request that is seen is acknowledged.
    Acknowledgement,
    /// DPIDR and CTRL/STAT reads and ABORT writes are never answered WAIT or FAULT.
    NeverRefused,
    /// FAULT is answered if STICKYERR or WDATAERR is set, or the pending transfer is a bus error, and not else.
    Flags,
    /// An access of an access port without debug power is answered FAULT.
    Power,
    /// FAULT takes precedence over WAIT.
    FaultFirst,
    /// A posted read returns the result of the read before it.
    Posted,
    /// RESEND returns the last returned value again.
    Resent,
    /// CTRL/STAT shows the flags, the power requests and their acknowledgements.
    Status,
    /// DPIDR reads one and the same word, whose bit 0 is 1.
    Identification,
    /// The parity of a word that is read is even.
    Parity,
}

/// Returns the rule that a transaction breaks which no run explains in this world.
pub(crate) fn broken_rule(world: World, tx: &Tx, clean: bool) -> Rule {
    let due = world.due(tx.request);
    let register = world.register(tx.request);
    match (tx.result, due) {
        (TxEnd::NoAck(_), _) => Rule::Acknowledgement,
        (_, Reply::Silent) => Rule::Silence,
        (TxEnd::Wait, Reply::Faults) => Rule::FaultFirst,
        (TxEnd::Wait | TxEnd::Fault, _) if register.is_exempt() => Rule::NeverRefused,
        (TxEnd::Moved { parity_ok, .. }, Reply::Okay) => {
            if clean && !parity_ok {
                Rule::Parity
            } else {
                broken_word(register)
            }
        }
        (_, Reply::Faults) if !world.sticky_error && !world.write_error => Rule::Power,
        _ => Rule::Flags,
    }
}

// Returns the rule of a word that is read.
fn broken_word(register: Register) -> Rule {
    match register {
        Register::DpidrRead => Rule::Identification,
        Register::CtrlStatRead => Rule::Status,
        Register::ResendRead => Rule::Resent,
        _ => Rule::Posted,
    }
}
