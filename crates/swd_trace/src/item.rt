//! The items of a trace of the wire.
ghost use Rattle.std.specs.Prelude.{◌≡◌};

use swd_bits::{Tx, TxBits};

/// The number of ones that make a line reset.
pub(crate) const RESET_ONES: u64 = 50;

/// One item of a trace. The division into these items is this project's choice.
#[derive(Clone, Copy, Debug, PartialEq, Eq)]
pub enum Item {
    /// A line reset: the number of ones, at least fifty (IHI 0031, B4, "Line reset").
    Reset(u64),
    /// The switch from JTAG to SWD: the sixteen bits 0111100111100111 directly after a line reset (IHI 0031,
    /// B5, "Switching from JTAG to SWD").
    Switch,
    /// Idle cycles: the number of zeros, at least one.
    Idle(u64),
    /// A whole transaction.
    Tx(Tx),
    /// A junk bit: it belongs to no other item.
    Junk(bool),
    /// A cut end: the last 1 to 49 bits of the trace, which begin a line reset or a transaction.
    Cut(TxBits),
}

impl Default for Item {
    /// Returns an arbitrary item, for arrays with unused entries.
    fn default() -> Item
        ensures { result ≡ Item.Switch }
    {
        Item::Switch
    }
}
