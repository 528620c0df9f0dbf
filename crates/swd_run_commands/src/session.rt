//! A session of a host at a simulated target: its files, its streams, and its status.
ghost use Rattle.std.specs.Prelude.{◌≡◌, IfErr, IfOk, is_some, false};
ghost use Rattle.swd_bitbang.specs.Traces.{is_pins_trace_cut_off};
ghost use Rattle.swd_run_commands.specs.Targets.{IsServedCommandStatus};

use std::alloc::Allocator;
use std::io::Write;
use swd_bitbang::{Served, Trace};
use swd_command_line::TargetLine;
use swd_console::{
    Console, DONE, FAULT, Files, INPUT, InUse, KeepsError, Stream, Watched, WriteRole,
    cut_off_named, give_up_named, tell_failure_or,
};
use swd_ends::LiveFiles;

/// The files of a session, as far as they are named.
#[derive(Drop)]
pub(crate) struct SessionFiles<M> {
    pub(crate) log: Option<M>,
    pub(crate) trace: Option<M>,
}

impl<M> SessionFiles<M> {
    /// Returns an empty trace for the bits of the session. It keeps them if there is a file for them.
    pub(crate) fn empty_trace<A: Allocator>(&self, alloc: A) -> Trace<A> {
        match self.trace {
            Some(_) => Trace::new(alloc),
            None => Trace::none(alloc),
        }
    }
}

/// Opens the files of a session, as far as they are named. At an error it prints a line and returns the status 2.
pub(crate) fn open_session<A, F: Files, C, E: Write>(
    target: &TargetLine,
    in_use: &mut InUse,
    console: &mut Console<'_, A, F, C, E>,
) -> Result<SessionFiles<Watched<F::Made>>, u8>
    ensures ok { IfOk result (λ opened. (is_some opened.log ≡ is_some target.now.log)
        × (is_some opened.trace ≡ is_some target.now.trace)) }
    ensures err { IfErr result (λ status. status ≡ 2) }
{
    let log = match in_use.open_named(&target.log, WriteRole::Report, console) {
        Ok(log) => log,
        Err(status) => return Err(status),
    };
    match in_use.open_named(&target.trace, WriteRole::Trace, console) {
        Ok(trace) => Ok(SessionFiles { log, trace }),
        Err(status) => {
            give_up_named(&target.log, log, console);
            Err(status)
        }
    }
}

/// Truncates the files of a session once its target is made: until then they have what they had. At an error it prints
/// a line and returns the status 2.
pub(crate) fn cut_off_session<A, F: Files, C, E: Write>(
    target: &TargetLine,
    files: &SessionFiles<Watched<F::Made>>,
    console: &mut Console<'_, A, F, C, E>,
) -> Result<(), u8>
    ensures { IfErr result (λ status. status ≡ 2) }
{
    if let Err(status) = cut_off_named(&target.log, &files.log, console) {
        return Err(status);
    }
    cut_off_named(&target.trace, &files.trace, console)
}

/// Gives up the files of a session that isn't served: one that was created for it is removed, and any other has what it
/// had.
pub(crate) fn give_up_session<A, F: Files, C, E>(
    target: &TargetLine,
    files: SessionFiles<Watched<F::Made>>,
    console: &Console<'_, A, F, C, E>,
) {
    let SessionFiles { log, trace } = files;
    give_up_named(&target.log, log, console);
    give_up_named(&target.trace, trace, console);
}

/// Returns the streams of a session, in the order of their lines.
pub(crate) fn served_streams<'a, I: KeepsError, O: KeepsError, M: KeepsError>(
    target: &'a TargetLine,
    input: &I,
    output: &O,
    files: &SessionFiles<M>,
) -> [Stream<'a>; 4] {
    [
        Stream::sent(output),
        Stream::read(INPUT, input),
        Stream::record(&target.log, &files.log),
        Stream::record(&target.trace, &files.trace),
    ]
}

/// Returns what is missing of a session that was served to its end: the rest of a packet (`is_cut_off`), of a file, or
/// of the trace.
pub(crate) fn missing_of<M, A: Allocator>(
    files: &LiveFiles<M>,
    kept: &Trace<A>,
    is_cut_off: bool,
) -> Option<&'static str>
    ensures { result ≡ None → (is_pins_trace_cut_off kept.now ≡ false) × (is_cut_off ≡ false) }
{
    if is_cut_off {
        return Some("the input ended within a packet: are lengths before packets?");
    }
    if files.are_whole() && !kept.is_cut() {
        None
    } else {
        Some("trace cut")
    }
}

/// Returns the status of a session, and prints what failed. `missing` is that of [`missing_of`].
pub(crate) fn served_status<E: Write>(
    errors: &mut E,
    target: &TargetLine,
    served: Served,
    missing: Option<&str>,
    streams: &[Stream<'_>],
) -> u8
    ensures { IsServedCommandStatus served (missing.entry ≡ None) result }
{
    match served {
        Served::Quit | Served::Ended => match missing {
            None => DONE,
            Some(missing) => tell_failure_or(errors, streams, missing),
        },
        Served::Bad { place, byte: _ } if target.packet_size.is_some() => long_status(
            errors, place,
        ),
        Served::Bad { place, byte } => bad_status(errors, place, byte),
        Served::Read => tell_failure_or(errors, streams, "read failed"),
        Served::Write { written: _ } => tell_failure_or(errors, streams, "write failed"),
    }
}

// Prints that a packet is too long, and returns the status 2.
fn long_status<E: Write>(errors: &mut E, place: u64) -> u8
    ensures { result ≡ 2 }
{
    let _ = writeln!(
        errors,
        "swd: byte {place}: a packet of more than 512 bytes: are lengths before packets?"
    );
    FAULT
}

// Prints that a byte isn't of the protocol, and returns the status 2.
fn bad_status<E: Write>(errors: &mut E, place: u64, byte: u8) -> u8
    ensures { result ≡ 2 }
{
    let _ = match byte {
        b'0'..=b'7' | b'R' => writeln!(
            errors,
            "swd: byte {place}: a character of JTAG: set the debugger to serial wire"
        ),
        _ if byte.is_ascii_graphic() => writeln!(
            errors,
            "swd: byte {place}: bad character '{}': is it a client of remote_bitbang?",
            char::from(byte)
        ),
        _ => writeln!(
            errors,
            "swd: byte {place}: bad character {byte:02x}: is it a client of remote_bitbang?"
        ),
    };
    FAULT
}
