//! The messages of the errors in the trace text of one transaction.
ghost use Rattle.std.specs.Prelude.{Some};
ghost use Rattle.swd_bits.specs.Messages.{one_tx_message as message_of};

use crate::one::OneFault;
use std::error::Error;
use std::fmt;

impl Error for OneFault {}

impl fmt::Display for OneFault {
    ghost output = { λ fault. Some (message_of fault) };

    fn fmt<W: fmt::Write>(&self, f: &mut fmt::Formatter<W>) -> fmt::Result {
        match self {
            OneFault::BadChar { place } => {
                let mut digits = itoa::Buffer::new();
                f.write_str("trace byte ")?;
                f.write_str(digits.format(*place))?;
                f.write_str(": bad character")
            }
            OneFault::NotOne => f.write_str("not one transaction"),
            OneFault::Read => f.write_str("read failed"),
            OneFault::Write => f.write_str("write failed"),
        }
    }
}
