//! Where a session leaves the port model, though the target may keep the standard.

use crate::why::LONGEST_WHY;
use arrayvec::ArrayString;
use std::fmt;
use std::fmt::{Display, Formatter, Write};
use swd_bits::{Reg4, Tx, TxEnd};
use swd_checker::{Cause, Due, Origin, Reason};
use swd_trace::Item;

/// CSW's DeviceEn, and CTRL/STAT's STICKYERR and WDATAERR.
const DEVICE_EN: u32 = 1 << 6;

const STICKYERR: u32 = 1 << 5;

const WDATAERR: u32 = 1 << 7;

/// Why a session leaves the port model.
#[derive(Clone, Copy, Debug, PartialEq, Eq)]
pub enum Leaving {
    /// Overrun detection is on, and WAIT, FAULT or damage came.
    Overrun,
    /// The bits of a word that was read with wrong parity aren't told.
    Untold,
    /// Data was sent behind a write that wasn't acknowledged. If only the acknowledgement was lost, it was written.
    SentOn,
    /// CSW reads DeviceEn 0: the access port is shut off from its bus (IHI 0031, C2, "CSW").
    DeviceOff,
    /// TAR reads without the bits \[1:0\] that were written to it.
    AlignedTar,
    /// WDATAERR was set where an access port without power was accessed, and the access set no STICKYERR: the flag was
    /// looked at first.
    FlagFirst,
    /// WDATAERR is set beside STICKYERR, and no data was damaged: the port has a write buffer, and gave up the write
    /// behind a bus error.
    Buffer,
}

/// Where a session left the port model.
#[derive(Clone, Copy)]
pub(crate) struct Left {
    pub(crate) place: u64,
    pub(crate) why: Leaving,
}

impl Leaving {
    /// Returns why a transaction that breaks a rule of the model may keep the standard, if it may. `burst` says whether
    /// two writes of DRW came directly before it.
    pub(crate) fn of(reason: &Reason, tx: &Tx, burst: bool) -> Option<Leaving> {
        let TxEnd::Moved {
            word,
            parity_ok: true,
        } = tx.result
        else {
            return None;
        };
        match (reason.due, reason.cause) {
            (Due::Word { value, mask }, Cause::Fetched { by: Some(by), .. }) => {
                of_fetched(by, value, (word ^ value) & mask)
            }
            (
                _,
                Cause::Status {
                    bit: 5,
                    value: true,
                    since,
                },
            ) => { of_sticky_error(since, word) }
            (
                _,
                Cause::Status {
                    bit: 7,
                    value: false,
                    ..
                },
            ) if burst && word & STICKYERR != 0 => { Some(Leaving::Buffer) }
            _ => None,
        }
    }
}

// Returns why a read that was fetched by this item may return a word that differs in these bits from the model's.
fn of_fetched(by: Origin, value: u32, differs: u32) -> Option<Leaving> {
    match access_port_read(&by.item) {
        Some(Reg4::R0) if differs == DEVICE_EN => Some(Leaving::DeviceOff),
        Some(Reg4::R4) if differs == value & 3 => Some(Leaving::AlignedTar),
        _ => None,
    }
}

// Returns why STICKYERR may read 0 in this word of CTRL/STAT, where the model has set it by this item.
fn of_sticky_error(since: Option<Origin>, word: u32) -> Option<Leaving> {
    if word & WDATAERR != 0 && is_refused_access(since) {
        Some(Leaving::FlagFirst)
    } else {
        None
    }
}

// Returns the address of an access port's register that an item reads.
fn access_port_read(item: &Item) -> Option<Reg4> {
    match item {
        Item::Tx(tx) if tx.request.ap && tx.request.read => Some(tx.request.addr),
        _ => None,
    }
}

// Returns whether an item is an access port's request that got FAULT.
fn is_refused_access(origin: Option<Origin>) -> bool {
    match origin {
        Some(
            Origin {
                item: Item::Tx(tx),
                ..
            },
        ) => { tx.request.ap && matches!(&tx.result, TxEnd::Fault) }
        _ => false,
    }
}

impl Leaving {
    /// Returns what `Display` prints.
    pub(crate) fn text(&self) -> ArrayString<LONGEST_WHY> {
        let mut text = ArrayString::new();
        let _ = write!(text, "{self}");
        text
    }
}

impl Display for Leaving {
    fn fmt<W: fmt::Write>(&self, f: &mut Formatter<W>) -> fmt::Result {
        f.write_str(match self {
            Leaving::Overrun => "overrun detection may have acted",
            Leaving::Untold => "a word arrived damaged whose bits the probe doesn't tell",
            Leaving::SentOn => "data was sent behind a write that wasn't acknowledged",
            Leaving::DeviceOff => "CSW reads DeviceEn 0: the access port is shut off from its bus",
            Leaving::AlignedTar => "TAR doesn't keep the bits [1:0] that were written to it",
            Leaving::FlagFirst =>
                "FAULT for WDATAERR came before the access port's missing power was seen",
            Leaving::Buffer =>
                "WDATAERR is set though no data was damaged: the port has a write buffer",
        })
    }
}
