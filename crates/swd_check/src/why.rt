//! Says why an item breaks a rule, in one line.
use crate::plain::NotPlain;
use arrayvec::ArrayString;
use std::fmt;
use std::fmt::{Display, Formatter, Write};
use swd_bits::Tx;
use swd_checker::{Cause, Due, Origin, Reason, Rule};

/// Why an item breaks a rule.
#[derive(Clone, Copy, Debug, PartialEq, Eq)]
pub enum Why {
    /// A rule of the port model: no run of it shows the items up to this one.
    Rule(Reason),
    /// No plain memory explains the accesses.
    Memory(NotPlain),
    /// CSW or CTRL/STAT isn't that of this project's simulated target, which is this word.
    Register(u32),
}

/// The item that breaks a rule.
#[derive(Clone, Copy, Debug, PartialEq, Eq)]
pub struct Broken {
    /// The number of bits before it.
    pub place: u64,
    pub tx: Tx,
    pub why: Why,
    /// Whether all items before it were decided: none was crowded, or outside of the model. Of a target in its reset
    /// state some run shows them then.
    pub is_first: bool,
}

/// The most bytes that say why.
pub(crate) const LONGEST_WHY: usize = 600;

impl Why {
    /// Returns what `Display` prints.
    pub(crate) fn text(&self) -> ArrayString<LONGEST_WHY> {
        let mut text = ArrayString::new();
        let _ = write!(text, "{self}");
        text
    }
}

impl Display for Why {
    fn fmt<W: fmt::Write>(&self, f: &mut Formatter<W>) -> fmt::Result {
        match self {
            Why::Rule(reason) => write_reason(f, reason),
            Why::Memory(fault) => write_memory(f, fault),
            Why::Register(due) => {
                write!(f, "exact registers: this project's target reads {due:08x}")
            }
        }
    }
}

fn write_reason<W: fmt::Write>(f: &mut Formatter<W>, reason: &Reason) -> fmt::Result {
    f.write_str(rule_text(reason.rule))?;
    f.write_str("; expected ")?;
    write_due(f, reason.due)?;
    write_cause(f, reason.cause)
}

// Returns a rule in the words of the standard.
fn rule_text(rule: Rule) -> &'static str {
    match rule {
        Rule::Silence => "after a line reset only a read of DPIDR is answered",
        Rule::Acknowledgement => "each request is acknowledged",
        Rule::NeverRefused => {
            "reads of DPIDR and CTRL/STAT and writes of ABORT get neither WAIT nor FAULT"
        }
        Rule::Flags => "FAULT is answered while a sticky flag is set, and not else",
        Rule::Power => "an access port without debug power answers FAULT",
        Rule::FaultFirst => "FAULT takes precedence over WAIT",
        Rule::Posted => "a posted read returns the result of the read before it",
        Rule::Resent => "RESEND returns the last returned value again",
        Rule::Status => "CTRL/STAT shows the flags and the powers",
        Rule::Identification => "DPIDR reads the same word each time, and its bit 0 is 1",
        Rule::Parity => "the parity of a word is even",
    }
}

fn write_due<W: fmt::Write>(f: &mut Formatter<W>, due: Due) -> fmt::Result {
    match due {
        Due::Silence => f.write_str("no acknowledgement"),
        Due::Okay => f.write_str("OK"),
        Due::OkayOrWait => f.write_str("OK or WAIT"),
        Due::Fault => f.write_str("FAULT"),
        Due::RightParity => f.write_str("right parity"),
        Due::Word { value, mask } if mask == u32::MAX => write!(f, "{value:08x}"),
        Due::Word { value, mask } => {
            let value = value & mask;
            write!(f, "{value:08x} in the bits {mask:08x}")
        }
    }
}

fn write_cause<W: fmt::Write>(f: &mut Formatter<W>, cause: Cause) -> fmt::Result {
    match cause {
        Cause::Always => Ok(()),
        Cause::LineReset(None) => f.write_str(": there was no line reset"),
        Cause::LineReset(Some(reset)) => {
            let place = reset.place;
            write!(f, ": DPIDR wasn't read since the line reset @{place}")
        }
        Cause::StickyError(since) => write_since(f, ": STICKYERR is set", since),
        Cause::WriteError(since) => write_since(f, ": WDATAERR is set", since),
        Cause::NoFlag { since, refused } => {
            write_since(f, ": no flag is set", since)?;
            write_refused(f, refused)
        }
        Cause::NoPower(since) => write_since(f, ": debug power is off", since),
        Cause::Fetched { by, written } => {
            write_since(f, ": it was fetched", by)?;
            write_since(f, ", and the register has it", written)
        }
        Cause::Returned(since) => write_since(f, ": it was returned", since),
        Cause::Status { bit, value, since } => {
            f.write_str(": ")?;
            f.write_str(bit_name(bit))?;
            write_since(f, if value { " is 1" } else { " is 0" }, since)
        }
    }
}

// Says since which item something is so.
fn write_since<W: fmt::Write>(
    f: &mut Formatter<W>,
    what: &str,
    since: Option<Origin>,
) -> fmt::Result {
    f.write_str(what)?;
    match since {
        Some(Origin { place, item }) => write!(f, " since @{place} {item}"),
        None => f.write_str(" since the check began"),
    }
}

// Says why no transfer is pending by the last access that was refused.
fn write_refused<W: fmt::Write>(f: &mut Formatter<W>, refused: Option<Origin>) -> fmt::Result {
    match refused {
        Some(Origin { place, item }) => {
            write!(f, ", none is pending, and @{place} {item} began none")
        }
        None => f.write_str(", and none is pending"),
    }
}

// Returns the name of a bit of CTRL/STAT.
fn bit_name(bit: u8) -> &'static str {
    match bit {
        5 => "STICKYERR",
        6 => "READOK",
        7 => "WDATAERR",
        28 => "CDBGPWRUPREQ",
        29 => "CDBGPWRUPACK",
        30 => "CSYSPWRUPREQ",
        _ => "CSYSPWRUPACK",
    }
}

fn write_memory<W: fmt::Write>(f: &mut Formatter<W>, fault: &NotPlain) -> fmt::Result {
    match fault {
        NotPlain::Differs { addr, found, held } => {
            let (word, place) = (found.word, found.place);
            write!(
                f,
                "plain memory: the read @{place} of {addr:08x} returned {word:08x}"
            )?;
            let (word, place) = (held.word, held.place);
            write!(f, "; expected {word:08x} since @{place}")
        }
        NotPlain::Refused { addr, place } => write!(
            f,
            "plain memory: the access @{place} of {addr:08x} met a bus error; expected success"
        ),
    }
}
