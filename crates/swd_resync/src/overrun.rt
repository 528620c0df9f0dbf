//! Overrun detection, as far as a capture shows it.
ghost use Rattle.std.specs.Prelude.{◌≡◌};
ghost use Rattle.swd_resync.specs.Parts.{overrun_at_start, overrun_after_write, overrun_after_tx, overrun_turned};

use swd_bits::{Reg4, Tx, TxEnd};

/// What is known of overrun detection at a place of a capture (IHI 0031, B4).
#[derive(Clone, Copy, Debug)]
pub(crate) struct Overrun {
    /// Whether a data phase follows WAIT and FAULT.
    pub(crate) phases: bool,
    /// Whether DPBANKSEL is 0, so that DP address 4 is CTRL/STAT.
    pub(crate) bank_zero: bool,
}

impl Overrun {
    /// Returns what is known where a capture begins.
    pub(crate) fn at_start(phases: bool) -> Overrun
        ensures { result ≡ overrun_at_start phases }
    {
        Overrun {
            phases,
            bank_zero: true,
        }
    }

    /// Returns what is known after a transaction: a write of CTRL/STAT or of SELECT changes it.
    pub(crate) fn after(self, tx: &Tx) -> Overrun
        ensures { result ≡ overrun_after_tx self tx.now.request tx.now.result }
    {
        match tx.result {
            TxEnd::Moved {
                word,
                parity_ok: true,
            } => {
                if tx.request.ap || tx.request.read {
                    self
                } else {
                    self.after_write(tx.request.addr, word)
                }
            }
            _ => self,
        }
    }

    // Returns what is known after a write of the debug port.
    fn after_write(self, addr: Reg4, word: u32) -> Overrun
        ensures { result ≡ overrun_after_write self addr word }
    {
        match addr {
            Reg4::R4 => {
                if self.bank_zero {
                    Overrun {
                        phases: word % 2 == 1,
                        ..self
                    }
                } else {
                    self
                }
            }
            Reg4::R8 => Overrun {
                bank_zero: word % 16 == 0,
                ..self
            },
            Reg4::R0 | Reg4::RC => self,
        }
    }

    /// Returns it with the other answer to whether a data phase follows WAIT and FAULT.
    pub(crate) fn turned(self) -> Overrun
        ensures { result ≡ overrun_turned self }
    {
        Overrun {
            phases: !self.phases,
            ..self
        }
    }
}
