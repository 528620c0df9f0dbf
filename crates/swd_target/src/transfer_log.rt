//! The transfers so far, for contracts alone.
ghost use Rattle.std.specs.Prelude.{◌≡◌, List, [], ◌∷◌, ◌++◌};
ghost use Rattle.swd_port.specs.declared.access.Transfer.{Transfer as Logged};
ghost use base.Fml.{ftrue};

use std::fmt;
use std::marker::Model;
use std::mem::size_of;
use swd_port::Transfer;

/// The transfers that succeeded so far, the oldest first, which only contracts see, as `transfers`. A program can't
/// read it, and it takes no bytes.
#[derive(Drop)]
pub struct TransferLog {
    pub ghost transfers: { List Logged },
}

impl Model for TransferLog {
    ghost also_owns = { λ _. ftrue };
}

const _: () = prove!(size_of::<TransferLog>() == 0);

impl TransferLog {
    /// Creates a log without transfers.
    pub fn new() -> TransferLog
        ensures { result.transfers ≡ [] }
    {
        TransferLog {}
    }

    /// Returns the log with one transfer more.
    pub fn and(&self, _transfer: &Transfer) -> TransferLog
        ensures { result.transfers ≡ self.now.transfers ++ _transfer.now ∷ [] }
    {
        TransferLog {}
    }
}

impl fmt::Debug for TransferLog {
    fn fmt<W: fmt::Write>(&self, f: &mut fmt::Formatter<W>) -> fmt::Result {
        f.write_str("TransferLog")
    }
}
