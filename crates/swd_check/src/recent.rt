//! What came last, where that leads out of the port model.

use swd_bits::{Reg4, Tx, TxEnd};
use swd_trace::Item;

/// The last transactions and items of a session.
#[derive(Clone, Copy)]
pub(crate) struct Recent {
    /// Whether the last transaction is a write that wasn't acknowledged, and no line reset came since.
    is_lost: bool,
    /// Whether other bits came since.
    sent: bool,
    /// Whether nothing is lost on the wire: a write that isn't acknowledged then is of no effect.
    clean: bool,
    /// How many writes of DRW were accepted one after the other, before the last transaction and with it.
    before: u8,
    writes: u8,
}

impl Recent {
    /// Returns the state before the first item.
    pub(crate) fn new(clean: bool) -> Recent {
        Recent {
            is_lost: false,
            sent: false,
            clean,
            before: 0,
            writes: 0,
        }
    }

    /// Takes a transaction.
    pub(crate) fn transact(&mut self, tx: &Tx) {
        self.is_lost = !self.clean && !tx.request.read && matches!(&tx.result, TxEnd::NoAck(_));
        self.sent = false;
        self.before = self.writes;
        if let TxEnd::Moved { .. } = tx.result {
            self.writes = if is_drw_write(tx) {
                self.writes.saturating_add(1)
            } else {
                0
            };
        }
    }

    /// Returns whether two writes of DRW were accepted directly before the last transaction, but for refused requests.
    pub(crate) fn is_burst(&self) -> bool {
        self.before > 1
    }

    /// Takes another item. Returns whether it is a line reset behind a write that wasn't acknowledged and further bits,
    /// which may have been its data: where these end in ones, they are among the line reset's.
    pub(crate) fn ends(&mut self, item: &Item) -> bool {
        match item {
            Item::Reset(_) => {
                let ends = self.is_lost && self.sent;
                self.is_lost = false;
                ends
            }
            Item::Junk(_) => {
                self.sent = true;
                false
            }
            _ => false,
        }
    }
}

// Returns whether it is a write of DRW, where SELECT names its bank.
fn is_drw_write(tx: &Tx) -> bool {
    tx.request.ap && !tx.request.read && tx.request.addr == Reg4::RC
}
