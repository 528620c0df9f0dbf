//! Prints the verdict on a session, and returns the status with it.
ghost use Rattle.std.specs.Prelude.{◌≡◌};
ghost use Rattle.swd_console.specs.Verdicts.{command_status_by, command_status_of_session};

use crate::report::{DONE, STOPPED};
use std::io::Write;
use swd_check::Checked;

/// Prints the line of a verdict on standard error, if a session was checked. Returns the status: 1 in place of 0 if a
/// rule is broken, and otherwise `status`, that of the command without a check.
pub fn session_status<E: Write>(errors: &mut E, verdict: &Option<Checked>, status: u8) -> u8
    ensures { result ≡ command_status_of_session verdict.now status }
{
    match verdict {
        Some(checked) => checked_status(errors, checked, status),
        None => status,
    }
}

// Prints the line of a verdict, and returns the status with it.
fn checked_status<E: Write>(errors: &mut E, checked: &Checked, status: u8) -> u8
    ensures { result ≡ command_status_by checked.now status }
{
    let _ = writeln!(errors, "{}", checked.line().as_str());
    match checked {
        Checked::Breaks(_) if status == DONE => STOPPED,
        _ => status,
    }
}
