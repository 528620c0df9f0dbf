//! Performs `swd info`: opens a remote target, and makes no access.
ghost use Rattle.std.specs.Prelude.{◌≡◌};
ghost use Rattle.swd_run_commands.specs.Infos.{PerformsInfo, info_command_status, info_command_status_of_end};

use std::alloc::Allocator;
use std::io::{Read, Write};
use swd_command_line::InfoLine;
use swd_console::{
    Console, DONE, KeepsError, STOPPED, at_the_target, engine_status, gone_status, line_streams,
};
use swd_ends::AccessesJob;
use swd_host::{End, Refused, Report};
use swd_port::Story;
use swd_remote::RemoteStreams;

/// Opens the target behind the streams by a run without accesses. Returns the status, and the streams with the error
/// that ended the connection, if any. At an error it prints a line.
pub fn perform_info<
    P: Story,
    I: Read + KeepsError + Drop,
    O: Write + KeepsError + Drop,
    A: Allocator + Copy,
    F,
    C,
    E: Write,
>(
    info: &InfoLine,
    input: I,
    output: O,
    console: &mut Console<'_, A, F, C, E>,
) -> (u8, RemoteStreams<I, O>)
    ensures { PerformsInfo A P.at info.now result.0 I.remaining O.contents (O.contents output) (I.remaining input)
        result.1 }
{
    let alloc = console.alloc;
    let mut job = AccessesJob {
        alloc,
        accesses: &[],
        tries: info.tries,
    };
    let ends = (input, output);
    let (answer, line, _) = at_the_target::<P, _, _, _, _>(
        alloc, &mut job, info.probe, false, ends,
    );
    let status = info_status(console.errors, answer, &line);
    (status, line)
}

// Prints why the target wasn't opened, if it wasn't, and returns the status.
fn info_status<A: Allocator, R: KeepsError, W: KeepsError, E: Write>(
    errors: &mut E,
    answer: Result<Report<A>, Refused>,
    line: &RemoteStreams<R, W>,
) -> u8
    ensures { result ≡ info_command_status line.now.fault answer }
{
    match (answer, line.fault) {
        (Err(refused), _) => engine_status(errors, Err(refused)),
        (Ok(_), Some(fault)) => gone_status(errors, fault, line_streams(line).as_slice()),
        (Ok(report), None) => ended_status(errors, report.ended),
    }
}

// Prints how a run ended that ended early, and returns the status.
fn ended_status<E: Write>(errors: &mut E, ended: End) -> u8
    ensures { result ≡ info_command_status_of_end ended }
{
    if let End::All = ended {
        return DONE;
    }
    let _ = writeln!(errors, "swd: the run ended early: {ended}");
    STOPPED
}
