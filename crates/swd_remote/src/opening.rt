//! How far a session came in opening its target.
ghost use Rattle.std.specs.Prelude.{◌≡◌, [], Some};
ghost use Rattle.swd_remote.specs.Openings.{OpeningShows, is_opening_control, is_opening_dpidr, is_opening_moved};
ghost use Rattle.swd_remote.specs.Openings.{is_opening_status, is_opening_transfer};
ghost use Rattle.swd_remote.specs.Openings.{opening_answered, opening_asked_by, opening_differs, opening_dpidr_by};
ghost use Rattle.swd_remote.specs.Openings.{opening_ended, opening_moved, opening_only_level, opening_refused};
ghost use Rattle.swd_remote.specs.Openings.{opening_requests_power, opening_status_by, opening_word_or};

use crate::call_sink::CallSink;
use swd_bits::{Reg4, Request, Tx, TxEnd, word_of};
use swd_port::{Cue, Disconnected};

// The bits of an acknowledgement, and of a data phase.
const ANSWERS: u64 = 1 << 3;

const PHASES: u64 = 1 << 33;

// CDBGPWRUPREQ, the bit of CTRL/STAT that requests debug power.
const DEBUG_POWER: u32 = 1 << 28;

/// How far a session came in opening its target, by the calls that were made of its transport, up to the first
/// transfer of an access port that was answered OK.
#[derive(Clone, Copy, Debug, PartialEq, Eq)]
pub struct Opening {
    /// The last word of DPIDR that was read with right parity.
    pub dpidr: Option<u32>,
    /// The last word of CTRL/STAT that was read with right parity since it was written.
    pub status: Option<u32>,
    /// Whether a request for debug power was written.
    pub asked: bool,
    /// Whether a transfer of an access port was answered OK.
    pub is_open: bool,
    /// What ended the last transaction.
    pub last: Option<TxEnd>,
    // The request that was answered OK, whose data phase comes next.
    due: Option<Request>,
    // Whether an acknowledgement had a bit 0, and a bit 1.
    zero: bool,
    one: bool,
}

impl Opening {
    /// Returns that of a session without calls.
    pub fn new() -> Opening
        ensures { OpeningShows [] result }
    {
        Opening {
            dpidr: None,
            status: None,
            asked: false,
            is_open: false,
            last: None,
            due: None,
            zero: false,
            one: false,
        }
    }

    /// Returns the level that was sampled in each bit of each acknowledgement, if it was the same one.
    pub fn only_level(&self) -> Option<bool>
        ensures { result ≡ opening_only_level self.now.zero self.now.one }
    {
        if self.zero == self.one {
            None
        } else {
            Some(self.one)
        }
    }

    // Takes a transaction that is over.
    fn end(&mut self, tx: Tx)
        ensures dpidr { self.new.dpidr ≡ opening_dpidr_by tx self.old.dpidr }
        ensures status { self.new.status ≡ opening_status_by tx self.old.status }
        ensures asked { self.new.asked ≡ opening_asked_by tx self.old.asked }
        ensures is_open { self.new.is_open ≡ is_opening_transfer tx }
        ensures last { self.new.last ≡ Some tx.result }
        ensures due { self.new.due ≡ self.old.due }
        ensures zero { self.new.zero ≡ self.old.zero }
        ensures one { self.new.one ≡ self.old.one }
    {
        self.dpidr = dpidr_by(tx, self.dpidr);
        self.status = status_by(tx, self.status);
        self.asked = asked_by(tx, self.asked);
        self.is_open = is_transfer(tx);
        self.last = Some(tx.result);
    }
}

impl CallSink for Opening {
    ghost got = { OpeningShows };

    #[inline(always)]
    fn take(&mut self, cue: Cue, told: Result<u64, Disconnected>) {
        if self.is_open {
            return;
        }
        let ended = ended_by(self.due, cue, told);
        self.due = answered(cue, told);
        self.zero = differs(7, cue, told) | self.zero;
        self.one = differs(0, cue, told) | self.one;
        match ended {
            Some(tx) => self.end(tx),
            None => {}
        }
    }
}

// Returns the request that was answered OK by a call, whose data phase comes next.
fn answered(cue: Cue, told: Result<u64, Disconnected>) -> Option<Request>
    ensures { result ≡ opening_answered cue told }
{
    match (cue, told) {
        (Cue::Ask(request), Ok(seen)) => { if seen == 1 { Some(request) } else { None } }
        _ => None,
    }
}

// Returns the transaction that a call ended, behind a request that was answered OK.
fn ended_by(due: Option<Request>, cue: Cue, told: Result<u64, Disconnected>) -> Option<Tx>
    ensures { result ≡ opening_ended due cue told }
{
    let Ok(seen) = told else {
        return None;
    };
    match cue {
        Cue::Ask(request) => refused(request, seen),
        Cue::Take => moved(due, seen),
        Cue::Give(bits) => moved(due, bits),
        Cue::Lead { .. } | Cue::Pass => None,
    }
}

// Returns the transaction of a request that these bits answered, unless they are OK.
fn refused(request: Request, seen: u64) -> Option<Tx>
    ensures { result ≡ opening_refused request seen }
{
    if seen == 1 {
        return None;
    }
    if seen == 2 {
        return Some(Tx {
            request,
            result: TxEnd::Wait,
        });
    }
    if seen == 4 {
        return Some(Tx {
            request,
            result: TxEnd::Fault,
        });
    }
    if seen < ANSWERS {
        return Some(Tx {
            request,
            result: TxEnd::NoAck(seen as u8),
        });
    }
    None
}

// Returns the transaction of a request that was answered OK, with this data phase.
fn moved(due: Option<Request>, bits: u64) -> Option<Tx>
    ensures { result ≡ opening_moved due bits }
{
    let request = due?;
    if bits < PHASES {
        let result = match word_of(bits) {
            Some(word) => TxEnd::Moved {
                word,
                parity_ok: true,
            },
            None => TxEnd::Moved {
                word: 0,
                parity_ok: false,
            },
        };
        Some(Tx { request, result })
    } else {
        None
    }
}

// Returns whether the three bits of an acknowledgement aren't these.
fn differs(all: u64, cue: Cue, told: Result<u64, Disconnected>) -> bool
    ensures { result ≡ opening_differs all cue told }
{
    match (cue, told) {
        (Cue::Ask(_), Ok(seen)) => seen < ANSWERS && seen != all,
        _ => false,
    }
}

// Returns whether it is a read of DPIDR.
fn is_dpidr(request: Request) -> bool
    ensures { result ≡ is_opening_dpidr request }
{
    !request.ap && request.read && matches!(request.addr, Reg4::R0)
}

// Returns whether it is a read of CTRL/STAT.
fn is_status(request: Request) -> bool
    ensures { result ≡ is_opening_status request }
{
    !request.ap && request.read && matches!(request.addr, Reg4::R4)
}

// Returns whether it is a write of CTRL/STAT.
fn is_control(request: Request) -> bool
    ensures { result ≡ is_opening_control request }
{
    !request.ap && !request.read && matches!(request.addr, Reg4::R4)
}

// Returns whether a word was moved, with right parity or not.
fn is_moved(end: TxEnd) -> bool
    ensures { result ≡ is_opening_moved end }
{
    matches!(&end, TxEnd::Moved { .. })
}

// Returns the word that was moved with right parity, or another.
fn word_or(end: TxEnd, other: Option<u32>) -> Option<u32>
    ensures { result ≡ opening_word_or end other }
{
    match end {
        TxEnd::Moved {
            word,
            parity_ok: true,
        } => Some(word),
        _ => other,
    }
}

// Returns the last word of DPIDR.
fn dpidr_by(tx: Tx, before: Option<u32>) -> Option<u32>
    ensures { result ≡ opening_dpidr_by tx before }
{
    if is_dpidr(tx.request) {
        word_or(tx.result, before)
    } else {
        before
    }
}

// Returns the last word of CTRL/STAT since it was written.
fn status_by(tx: Tx, before: Option<u32>) -> Option<u32>
    ensures { result ≡ opening_status_by tx before }
{
    if is_status(tx.request) {
        word_or(tx.result, before)
    } else if is_control(tx.request) && is_moved(tx.result) {
        None
    } else {
        before
    }
}

// Returns whether the last write of CTRL/STAT requests debug power.
fn asked_by(tx: Tx, before: bool) -> bool
    ensures { result ≡ opening_asked_by tx before }
{
    if is_control(tx.request) && is_moved(tx.result) {
        requests_power(word_or(tx.result, None))
    } else {
        before
    }
}

// Returns whether a word of CTRL/STAT requests debug power.
fn requests_power(word: Option<u32>) -> bool
    ensures { result ≡ opening_requests_power word }
{
    match word {
        Some(word) => word / DEBUG_POWER % 2 == 1,
        None => false,
    }
}

// Returns whether it is a transfer of an access port that was answered OK.
fn is_transfer(tx: Tx) -> bool
    ensures { result ≡ is_opening_transfer tx }
{
    tx.request.ap && is_moved(tx.result)
}
