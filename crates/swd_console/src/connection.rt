//! The other end of a connection over the standard streams.
ghost use Rattle.std.specs.Prelude.{◌≡◌, []};
ghost use Rattle.std.specs.FinMap.{empty};
ghost use Rattle.swd_port.specs.PlainBus.{bus_of};
ghost use Rattle.swd_port.specs.Made.{port_made};

use crate::probe::tell_probe;
use crate::report::{FAULT, STOPPED, tell};
use crate::streams::{Stream, tell_failure_or};
use crate::watched::KeepsError;
use std::io::Write;
use swd_port::Story;
use swd_remote::{Fault, RemoteStreams};

/// An instance of `Story` for the other end. Which one is irrelevant: a command's contract is proved for each.
pub struct Untold;

impl Story for Untold {
    ghost at = { λ _. port_made 0 (bus_of (record { words = empty; log = []; room = 0 })) };
}

/// Returns the streams of a connection.
pub fn line_streams<R: KeepsError, W: KeepsError>(
    line: &RemoteStreams<R, W>,
) -> [Stream<'static>; 2] {
    [Stream::sent(&line.writer), Stream::received(&line.reader)]
}

/// Prints a line with the reason why the other end is gone. `streams` are those of the connection. Returns the status
/// 1.
pub fn gone_status<E: Write>(errors: &mut E, fault: Fault, streams: &[Stream<'_>]) -> u8
    ensures { result ≡ 1 }
{
    let _ = match fault {
        Fault::Ended => tell(errors, "the other end went away"),
        Fault::NoLevel(byte) => {
            let _ = writeln!(
                errors,
                "swd: the other end sent byte {byte}, which is no level, 0 or 1: is it a server of remote_bitbang?"
            );
            FAULT
        }
        Fault::Read => tell_failure_or(errors, streams, "read failed"),
        Fault::Write => tell_failure_or(errors, streams, "write failed"),
        Fault::TooMany => tell(errors, "too many levels were asked for"),
        Fault::Probe(fault) => {
            tell_probe(errors, fault, streams);
            FAULT
        }
    };
    STOPPED
}
