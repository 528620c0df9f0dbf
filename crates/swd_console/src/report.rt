//! Prints the program's errors, and returns its status.
ghost use Rattle.std.specs.Prelude.{◌≡◌, is_ok};
ghost use Rattle.swd_console.specs.Statuses.{command_run_failed, command_status_of, command_status_of_end};
ghost use Rattle.swd_console.specs.Statuses.{command_status_of_run};

use std::fmt::{Display, Formatter};
use std::io::{ErrorKind, Write};
use std::{fmt, io};
use swd_host::End;
use swd_port::Answer;
use swd_run::{Difference, Finished};

/// The status if all was done.
pub const DONE: u8 = 0;

/// The status of a run that ended early, read a word that differs from the script's, never read the word of an
/// `until`, or met a bus error although it is strict. Also of a command over an image that ended early, met a bus
/// error, or found a byte that differs.
pub const STOPPED: u8 = 1;

/// The status at a usage, input, I/O or out-of-memory error.
pub const FAULT: u8 = 2;

/// The status if the reader of standard output is gone: what a shell shows of a program that was ended by SIGPIPE,
/// signal 13.
pub const CLOSED: u8 = 128 + 13;

// Returns whether a character isn't shown, or changes how others are: a control character, or one that formats text, as
// those that turn its direction.
fn is_unshown(c: char) -> bool {
    c.is_control()
        || matches!(c as u32, 0x061c | 0x200b..=0x200f | 0x2028..=0x202e | 0x2060..=0x206f | 0xfeff)
}

/// A name, displayed on one line: characters that aren't shown are escaped.
#[derive(Drop)]
pub struct Escaped<'a>(pub &'a str);

impl Display for Escaped<'_> {
    fn fmt<W: fmt::Write>(&self, f: &mut Formatter<W>) -> fmt::Result {
        for c in self.0.chars() {
            if is_unshown(c) {
                write!(f, "{}", c.escape_default())?;
            } else {
                write!(f, "{c}")?;
            }
        }
        Ok(())
    }
}

/// Prints an error as one line on standard error, and returns the status 2, whether or not the line could be
/// written.
pub fn tell<E: Write>(errors: &mut E, what: &str) -> u8
    ensures { result ≡ 2 }
{
    let _ = writeln!(errors, "swd: {what}");
    FAULT
}

/// Prints that a file can't be opened or created, and why, and returns the status 2.
pub fn cannot_open<E: Write>(errors: &mut E, name: &str, why: &io::Error) -> u8
    ensures { result ≡ 2 }
{
    let _ = writeln!(errors, "swd: cannot open {}: {why}", Escaped(name));
    FAULT
}

// What to do where the file of a memory isn't there, and a file that leads to a target.
const NEW_MEMORY: &str = "for a memory of 64 KiB of zeros: head -c 64K /dev/zero >FILE";

const PROBES: &str = "swd probes lists the probes of this machine";

const DENIED: &str =
    "a udev rule lets users open it: SUBSYSTEM==\"hidraw\", MODE=\"0660\", TAG+=\"uaccess\"";

const SOCKET: &str = "for a server on a socket: swd-line localhost:4711 -- swd .. --remote";

/// Prints that the file of a memory can't be opened, why, and how to make one that isn't there. Returns the status 2.
pub(crate) fn cannot_open_memory<E: Write>(errors: &mut E, name: &str, why: &io::Error) -> u8
    ensures { result ≡ 2 }
{
    cannot_find(errors, name, why, NEW_MEMORY)
}

/// Prints that a file that leads to a target can't be opened, why, and how to reach a server on a socket if the file
/// isn't there. Returns the status 2.
pub(crate) fn cannot_open_line<E: Write>(errors: &mut E, name: &str, why: &io::Error) -> u8
    ensures { result ≡ 2 }
{
    cannot_find(errors, name, why, SOCKET)
}

/// Prints that a file that leads to a probe can't be opened, why, and what to do about it. Returns the status 2.
pub fn cannot_open_probe<E: Write>(errors: &mut E, name: &str, why: &io::Error) -> u8
    ensures { result ≡ 2 }
{
    if why.kind() == ErrorKind::PermissionDenied {
        let _ = writeln!(
            errors,
            "swd: cannot open {}: {why}; {DENIED}",
            Escaped(name)
        );
        return FAULT;
    }
    cannot_find(errors, name, why, PROBES)
}

// Prints that a file can't be opened, why, and what to do if it isn't there. Returns the status 2.
fn cannot_find<E: Write>(errors: &mut E, name: &str, why: &io::Error, what: &str) -> u8
    ensures { result ≡ 2 }
{
    if why.kind() != ErrorKind::NotFound {
        return cannot_open(errors, name, why);
    }
    let _ = writeln!(errors, "swd: cannot open {}: {why}; {what}", Escaped(name));
    FAULT
}

/// Prints what is wrong with the contents of a file, and returns the status 2.
pub fn cannot_use<E: Write, F: Display>(errors: &mut E, name: &str, why: &F) -> u8
    ensures { result ≡ 2 }
{
    let _ = writeln!(errors, "swd: {}: {why}", Escaped(name));
    FAULT
}

/// Prints the error of a conversion, if there is one, and returns the status: 0 or 2.
pub fn engine_status<E: Write, F: Display + Drop>(errors: &mut E, answer: Result<(), F>) -> u8
    ensures { result ≡ command_status_of (is_ok answer) }
{
    match answer {
        Ok(()) => DONE,
        Err(fault) => {
            let _ = writeln!(errors, "swd: {fault}");
            FAULT
        }
    }
}

/// Returns what to do about a run that ended early: the end of a line that says how it ended.
pub fn advice_on(ended: End) -> &'static str {
    match ended {
        End::Lost => ", see --resume",
        End::TriesOut => ", see --tries",
        End::Confused => ", see swd run --check",
        End::All | End::WrongId(_) => "",
    }
}

/// Prints what went wrong in a run, and returns the status: 2 at an error, else that of `finished_status`.
pub fn run_status<E: Write, F: Display + Drop>(
    errors: &mut E,
    answer: Result<Finished, F>,
    strict: bool,
) -> u8
    ensures { result ≡ command_status_of_run strict answer }
{
    match answer {
        Ok(finished) => finished_status(errors, finished, strict),
        Err(fault) => engine_status(errors, Err(fault)),
    }
}

const NEVER_CAME: &str = "the word of an until never came: the report ends with its last read";

const BUS_ERROR: &str = "--strict: an access met a bus error: its line in the report has busfault";

/// Returns the status of a run that has a report: 0, or 1 if it ended early, a word differs from the script's, the word
/// of an `until` never came, or a strict run met a bus error. Prints a line for the word that differs, or that never
/// came. If an access met a bus error and the simulated target's room is used up, prints a line for that first. Else a
/// strict run that met one has a line, too.
pub fn finished_status<E: Write>(errors: &mut E, finished: Finished, strict: bool) -> u8
    ensures { result ≡ command_status_of_end (command_run_failed strict finished) finished.ended }
{
    let is_full = tell_full(errors, finished);
    if let Some(difference) = finished.differs {
        tell_difference(errors, difference);
        return STOPPED;
    }
    let is_broken = strict && finished.bus_fault;
    if finished.never_came {
        let _ = tell(errors, NEVER_CAME);
    } else if is_broken && !is_full {
        let _ = tell(errors, BUS_ERROR);
    }
    let failed = is_broken || finished.never_came;
    match finished.ended {
        End::All if !failed => DONE,
        _ => STOPPED,
    }
}

// Prints that the simulated target's room is used up, if an access met a bus error, and returns whether it is so.
fn tell_full<E: Write>(errors: &mut E, finished: Finished) -> bool {
    let Some(room) = finished.full else {
        return false;
    };
    if finished.bus_fault {
        tell_used_up(errors, room as usize);
    }
    finished.bus_fault
}

/// Prints that a simulated target's room for so many transfers is used up.
pub fn tell_used_up<E: Write>(errors: &mut E, room: usize) {
    let _ = writeln!(
        errors,
        "swd: the target's room of {room} transfers is used up: later accesses meet a bus error"
    );
}

// Prints the script's line number, the address, and both words.
fn tell_difference<E: Write>(errors: &mut E, difference: Difference) {
    let Difference {
        line,
        addr,
        expected,
        found,
    } = difference;
    let _ = match found {
        Answer::Value(word) => writeln!(
            errors,
            "swd: script line {line}: {addr:08x} has {word:08x}, not {expected:08x}"
        ),
        Answer::Written | Answer::BusFault => writeln!(
            errors,
            "swd: script line {line}: {addr:08x} gave a bus error, not {expected:08x}"
        ),
    };
}
