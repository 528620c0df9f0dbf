//! Prints how far a session at a remote target came in opening it.

use crate::report::{DONE, FAULT};
use std::fmt;
use std::fmt::{Display, Formatter};
use std::io::Write;
use swd_bits::TxEnd;
use swd_port::CtrlStat;
use swd_remote::{Opening, RemoteStreams};

/// Prints how far a session came that ended with this status before the target was open: one line, unless the target
/// sent nothing. Of a probe that failed it prints how many accesses its last packet may have made.
pub fn tell_session<E: Write, R, W>(errors: &mut E, status: u8, line: &RemoteStreams<R, W>) {
    if status == FAULT || status == DONE || tell_no_reply(errors, line) {
        return;
    }
    let opening = &line.opening;
    let _ = match line.fault {
        Some(_) if line.in_doubt > 0 => writeln!(
            errors,
            "swd: the probe's last packet may have made up to {} accesses more than begun counts",
            line.in_doubt
        ),
        _ if opening.last.is_some() && !opening.is_open => {
            writeln!(errors, "swd: {}", Reached(opening))
        }
        _ => Ok(()),
    };
}

/// Prints what an info with this status read of its target, or how far the session came.
pub fn tell_info<E: Write, R, W>(errors: &mut E, status: u8, line: &RemoteStreams<R, W>) {
    if status != FAULT && !tell_no_reply(errors, line) {
        let info = Info {
            opening: &line.opening,
            is_whole: status == DONE,
        };
        let _ = write!(errors, "{info}");
    }
}

// Prints that a target that can't be reached gave no reply, and returns whether it gave none: an acknowledgement has a
// 0 and a 1, and all levels that came were one of them.
fn tell_no_reply<E: Write, R, W>(errors: &mut E, line: &RemoteStreams<R, W>) -> bool {
    let Some(level) = line.opening.only_level() else {
        return false;
    };
    if line.fault.is_some() {
        return false;
    }
    let _ = writeln!(
        errors,
        "swd: no reply to the first request, SWDIO read {}: is it driven, and the target connected and powered?",
        u8::from(level)
    );
    true
}

// What is said of a target that was opened, and of one whose access port answered in an opening that ended early.
const OPEN: &str = "debug power and system power are acknowledged: the target is open";

const ANSWERED: &str =
    "debug power and system power are acknowledged, and the access port answered";

// Returns what is said of a word of CTRL/STAT that doesn't acknowledge both powers.
fn missing_power(status: u32) -> Option<&'static str> {
    match (
        has(status, CtrlStat::CDBGPWRUPACK),
        has(status, CtrlStat::CSYSPWRUPACK),
    ) {
        (true, true) => None,
        (true, false) => Some("debug power is acknowledged, and system power is not"),
        (false, true) => Some("system power is acknowledged, and debug power is not"),
        (false, false) => Some("power was requested and is not acknowledged"),
    }
}

// Returns whether a word of CTRL/STAT has a flag.
fn has(word: u32, flag: CtrlStat) -> bool {
    word & flag.bits() != 0
}

// What was the last answer.
#[derive(Clone, Copy)]
struct LastAnswer(Option<TxEnd>);

impl Display for LastAnswer {
    fn fmt<W: fmt::Write>(&self, f: &mut Formatter<W>) -> fmt::Result {
        match self.0 {
            Some(TxEnd::NoAck(bits)) => write!(f, "no acknowledgement, but the three bits {bits}"),
            Some(TxEnd::Wait) => f.write_str("WAIT"),
            Some(TxEnd::Fault) => f.write_str("FAULT"),
            Some(
                TxEnd::Moved {
                    parity_ok: false,
                    ..
                },
            ) => f.write_str("a word with wrong parity"),
            Some(
                TxEnd::Moved {
                    parity_ok: true,
                    ..
                },
            ) => f.write_str("OK"),
            None => f.write_str("none"),
        }
    }
}

// What is known of the power of a target that was identified.
#[derive(Clone, Copy)]
struct Power<'a>(&'a Opening);

impl Display for Power<'_> {
    fn fmt<W: fmt::Write>(&self, f: &mut Formatter<W>) -> fmt::Result {
        let last = LastAnswer(self.0.last);
        match self.0.status {
            _ if !self.0.asked => {
                write!(f, "power was not requested yet: the last answer was {last}")
            }
            Some(status) => match missing_power(status) {
                Some(missing) => write!(f, "{missing}: CTRL/STAT is {status:08x}"),
                None if self.0.is_open => f.write_str(ANSWERED),
                None => write!(
                    f,
                    "power is acknowledged; no access port answered: the last answer was {last}"
                ),
            },
            None => write!(f, "power was requested: the last answer was {last}"),
        }
    }
}

// How far a session came, on one line.
#[derive(Clone, Copy)]
struct Reached<'a>(&'a Opening);

impl Display for Reached<'_> {
    fn fmt<W: fmt::Write>(&self, f: &mut Formatter<W>) -> fmt::Result {
        match (self.0.dpidr, self.0.last) {
            (Some(dpidr), _) => write!(f, "DPIDR was read, {dpidr:08x}; {}", Power(self.0)),
            (None, None) => f.write_str("DPIDR was not read: no request was answered"),
            (None, last) => {
                let last = LastAnswer(last);
                write!(f, "DPIDR was not read: the last answer was {last}")
            }
        }
    }
}

// The lines of `swd info`: DPIDR by its fields, and what is known of the power; or that DPIDR wasn't read.
#[derive(Clone, Copy)]
struct Info<'a> {
    opening: &'a Opening,
    /// Whether the opening came to its end.
    is_whole: bool,
}

impl Display for Info<'_> {
    fn fmt<W: fmt::Write>(&self, f: &mut Formatter<W>) -> fmt::Result {
        let Some(dpidr) = self.opening.dpidr else {
            return writeln!(f, "swd: {}", Reached(self.opening));
        };
        let (designer, part) = (dpidr >> 1 & 0x7ff, dpidr >> 20 & 0xff);
        let (version, revision) = (dpidr >> 12 & 0xf, dpidr >> 28);
        let minimal = if dpidr >> 16 & 1 == 1 {
            ", minimal"
        } else {
            ""
        };
        write!(
            f,
            "swd: DPIDR {dpidr:08x}: designer {designer:03x}, part {part:02x}, "
        )?;
        writeln!(f, "version {version:x}, revision {revision:x}{minimal}")?;
        if self.is_whole {
            writeln!(f, "swd: {OPEN}")
        } else {
            writeln!(f, "swd: {}", Power(self.opening))
        }
    }
}
