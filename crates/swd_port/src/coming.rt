//! Transactions that are known before they are made.

use swd_bits::{Reg4, Request};

/// A transaction that comes next if each before it is answered OK with right parity.
#[derive(Clone, Copy)]
pub struct Coming {
    pub request: Request,
    /// The word that a write sends; 0 for a read.
    pub word: u32,
}

/// How much of a burst one exchange of a wire holds.
#[derive(Clone, Copy, Debug, PartialEq, Eq)]
pub struct Pieces {
    /// The most writes, behind one of TAR.
    pub writes: usize,
    /// The most reads.
    pub reads: usize,
}

/// A read of DPIDR.
impl Default for Coming {
    fn default() -> Coming {
        Coming {
            request: Request {
                ap: false,
                read: true,
                addr: Reg4::R0,
            },
            word: 0,
        }
    }
}
