//! CSW and CTRL/STAT as the simulated target of this project reads them.

use swd_bits::{Reg4, Request, Tx, TxEnd};
use swd_observer::{Observer, Written};
use swd_port::{Csw, Select};

/// The bits of CTRL/STAT that this project's target has. It reads the others as 0.
const STATUS_BITS: u32 = 0xf000_00e0;

/// CSW in the reset state: Size word and DeviceEn.
const CSW_MADE: u32 = 0x42;

/// What is known of CSW's word, and of the read buffer.
#[derive(Clone, Copy)]
pub(crate) struct ExactRegisters {
    /// The word that CSW reads.
    csw: Option<u32>,
    /// The word of the read buffer, if a read of CSW filled it.
    buffer: Option<u32>,
}

impl ExactRegisters {
    /// Returns what is known of a target in its reset state.
    pub(crate) fn made() -> ExactRegisters {
        ExactRegisters {
            csw: Some(CSW_MADE),
            buffer: None,
        }
    }

    /// Returns what is known where nothing is.
    pub(crate) fn unknown() -> ExactRegisters {
        ExactRegisters {
            csw: None,
            buffer: None,
        }
    }

    /// Takes a transaction, with what the trace showed before it and what it shows after it. Returns the word that a
    /// read should have returned, if it returned another.
    pub(crate) fn take(&mut self, before: &Observer, tx: &Tx, after: &Observer) -> Option<u32> {
        let request = tx.request;
        let due = self.due(before, tx);
        self.settle(before, tx, after);
        match tx.result {
            TxEnd::Moved { .. } => self.move_on(before, request),
            TxEnd::NoAck(_) => self.buffer = None,
            TxEnd::Wait | TxEnd::Fault => {}
        }
        due
    }

    // Returns the word that a read should have returned, if it is known and another.
    fn due(self, before: &Observer, tx: &Tx) -> Option<u32> {
        let TxEnd::Moved {
            word,
            parity_ok: true,
        } = tx.result
        else {
            return None;
        };
        let request = tx.request;
        let due = if is_status(before, request) {
            Some(word & STATUS_BITS)
        } else if returns_buffer(request) {
            self.buffer
        } else {
            None
        };
        match due {
            Some(due) if due != word => Some(due),
            _ => None,
        }
    }

    // Takes the end of a write of CSW that wasn't confirmed before. OK to a request that can be refused confirms it.
    fn settle(&mut self, before: &Observer, tx: &Tx, after: &Observer) {
        let Some(sent) = before.sent else {
            return;
        };
        if sent.written != Written::Csw {
            return;
        }
        if matches!(&tx.result, TxEnd::Moved { .. }) && can_be_refused(tx.request) {
            self.csw = match sent.word {
                Some(word) => Some(csw_reads(word)),
                None => None,
            };
        } else if after.sent != before.sent {
            self.csw = None;
        }
    }

    // Takes a request that was answered OK.
    fn move_on(&mut self, before: &Observer, request: Request) {
        let of_csw = request.ap && request.addr == Reg4::R0;
        if returns_buffer(request) {
            self.buffer = if of_csw && has_mem_ap(before) {
                self.csw
            } else {
                None
            };
        } else if request.ap {
            self.buffer = None;
            if of_csw {
                self.csw = None;
            }
        }
    }
}

// Returns the word that CSW reads after this one was written: Size is word, AddrInc single or off, and DeviceEn 1.
fn csw_reads(word: u32) -> u32 {
    let single = Csw::of(word).addr_inc == 1;
    word & 0x7f00_0000 | CSW_MADE | u32::from(single) << 4
}

// Returns whether a write of SELECT is confirmed, and what it says.
fn selected(before: &Observer) -> Option<Select> {
    match before.sent {
        Some(sent) if sent.written == Written::Select => None,
        _ => before.select,
    }
}

fn has_mem_ap(before: &Observer) -> bool {
    match selected(before) {
        Some(select) => select.apsel == 0 && select.apbanksel == 0,
        None => false,
    }
}

fn is_status(before: &Observer, request: Request) -> bool {
    let bank0 = match selected(before) {
        Some(select) => select.dpbanksel == 0,
        None => false,
    };
    bank0 && !request.ap && request.read && request.addr == Reg4::R4
}

// Returns whether OK to the request returns the read buffer: an AP read, or RDBUFF.
fn returns_buffer(request: Request) -> bool {
    request.read && (request.ap || request.addr == Reg4::RC)
}

// Returns whether a request can be refused, in each bank.
fn can_be_refused(request: Request) -> bool {
    request.ap || request.addr == Reg4::RC || request.addr == Reg4::R8
}
