//! Overrun detection, which the port model doesn't have.

use swd_bits::{Reg4, Tx, TxEnd};
use swd_port::Select;

/// Whether overrun detection may be on: a write of CTRL/STAT that was answered OK had ORUNDETECT set, and none since
/// clears it (IHI 0031, B2, "CTRL/STAT", bit 0). A write with wrong parity clears nothing.
#[derive(Clone, Copy)]
pub(crate) struct Overrun {
    /// Whether DPBANKSEL may be 0, so that the address 4 is CTRL/STAT, and whether it may be another.
    bank0: bool,
    elsewhere: bool,
    on: bool,
    /// Whether nothing is damaged on the wire: a word with wrong parity isn't written.
    clean: bool,
}

impl Overrun {
    /// Returns the state before the first item, where it is on or off.
    pub(crate) fn new(on: bool, clean: bool) -> Overrun {
        Overrun {
            bank0: true,
            elsewhere: false,
            on,
            clean,
        }
    }

    /// Takes a transaction. Returns whether it leaves the model: with overrun detection on, WAIT, FAULT and a damaged
    /// word may set STICKYORUN.
    pub(crate) fn leaves(&mut self, tx: &Tx) -> bool {
        let request = tx.request;
        match tx.result {
            TxEnd::Wait | TxEnd::Fault => self.on,
            TxEnd::NoAck(_) => false,
            TxEnd::Moved { word, parity_ok } => {
                let leaves = self.on && !parity_ok;
                if !request.ap && !request.read && (parity_ok || !self.clean) {
                    self.write(request.addr, word, parity_ok);
                }
                leaves
            }
        }
    }

    // Takes a write of the debug port, which was stored or may have been.
    fn write(&mut self, addr: Reg4, word: u32, stored: bool) {
        match addr {
            Reg4::R4 => {
                let on = word & 1 == 1;
                if self.bank0 && on {
                    self.on = true;
                } else if stored && !self.elsewhere {
                    self.on = false;
                }
            }
            Reg4::R8 => {
                let bank0 = Select::of(word).dpbanksel == 0;
                self.bank0 = bank0 || !stored && self.bank0;
                self.elsewhere = !bank0 || !stored && self.elsewhere;
            }
            Reg4::R0 | Reg4::RC => {}
        }
    }
}
