//! What leads to a debug probe, and what is said where it fails.
ghost use Rattle.std.specs.Prelude.{◌≡◌};
ghost use Rattle.swd_console.specs.Connections.{command_way};

use crate::report::tell;
use crate::streams::{Stream, tell_failure};
use std::io::Write;
use swd_command_line::ProbeLine;
use swd_remote::{DapFault, Way};

/// Returns what goes over a line to this probe, or to a server of remote_bitbang without one.
pub fn way_of(probe: Option<ProbeLine>) -> Way
    ensures { result ≡ command_way probe }
{
    match probe {
        Some(ProbeLine { speed, framed }) => Way::Packets { speed, framed },
        None => Way::Characters,
    }
}

/// Prints why a probe can't be used any more. `streams` are those of the connection.
pub(crate) fn tell_probe<E: Write>(errors: &mut E, fault: DapFault, streams: &[Stream<'_>]) {
    match fault {
        DapFault::Unknown(command) => {
            let _ = writeln!(
                errors,
                "swd: the probe doesn't know command {command:02x}: it needs newer firmware, of CMSIS-DAP 1.2 or later"
            );
        }
        DapFault::Refused(command) => {
            let _ = writeln!(
                errors,
                "swd: the probe refused command {command:02x}: plug it in again"
            );
        }
        DapFault::OtherCommand(command) => {
            let _ = writeln!(
                errors,
                "swd: the probe's reply is to command {command:02x}: does another program use it?"
            );
        }
        DapFault::PacketSize(size) => {
            let _ = writeln!(
                errors,
                "swd: the probe's packets have {size} bytes: 64 to 512 can be used"
            );
        }
        _ => {
            tell_failure(errors, streams);
            let _ = tell(errors, reason_of(fault));
        }
    }
}

// Returns what is said of an error that has no number.
fn reason_of(fault: DapFault) -> &'static str {
    match fault {
        DapFault::NoDap => {
            "the file leads to no CMSIS-DAP probe: swd probes lists those of this machine"
        }
        DapFault::NoSerialWire => {
            "the probe has no serial wire: is it set to JTAG, or used by another program?"
        }
        DapFault::Short => "the probe's reply is too short: are its packets reports, or --framed?",
        DapFault::Impossible => {
            "the probe's reply is impossible: nothing is known of its last transfers"
        }
        DapFault::Unplanned => "a transaction was asked for that wasn't announced",
        _ => "the probe went away: plug it in again; what was reported until then holds",
    }
}
