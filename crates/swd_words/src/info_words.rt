//! The arguments of `swd info`.
ghost use Rattle.std.specs.Prelude.{IfOk};
ghost use Rattle.clap.specs.Words.{found_of, rows_of};
ghost use Rattle.swd_words.specs.Commands.{AreInfoArguments};

use crate::argument::CommandRow;
use crate::fault::LineFault;
use crate::lead_words::{FRAMED, PROBE, REMOTE, SPEED, remote_in};
use crate::words::{TRIES, numbers_in};
use clap::ArgMatches;
use std::alloc::Global;
use swd_command_line::InfoLine;

const INFO_AFTER: &str = "\
Opens the target as swd run does, and makes no access. Lines on standard error
have DPIDR by its fields, in hexadecimal, and what power was acknowledged:
  swd: DPIDR 2ba01477: designer 23b, part ba, version 1, revision 2
  swd: debug power and system power are acknowledged: the target is open
If the opening failed, the last line says how far it came. Designer 23b is Arm.

--remote and --probe are as for swd run. For a server on a socket:
  swd-line localhost:4711 -- swd info --remote

Status: 0 if the target was opened, 1 if it wasn't, the other end went away, or
its line can't be read or written, 2 at any other error.";

/// The command `info`.
pub(crate) const INFO: CommandRow = CommandRow {
    name: "info",
    about: "Identify a target, or say how far its opening came",
    after: Some(INFO_AFTER),
    arguments: &[REMOTE, PROBE, SPEED, FRAMED, TRIES],
};

/// Returns the arguments of `swd info`. Rejects those without a target.
pub(crate) fn info_line(alloc: Global, matches: &ArgMatches<'_>) -> Result<InfoLine, LineFault>
    ensures { IfOk result (λ info. AreInfoArguments info (rows_of (found_of matches.now))) }
{
    let lead = remote_in(alloc, matches)?;
    let numbers = numbers_in(alloc, matches)?;
    Ok(InfoLine {
        remote: lead.0,
        probe: lead.1,
        tries: numbers.0,
    })
}
