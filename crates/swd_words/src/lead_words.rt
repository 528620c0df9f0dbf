//! The options for what leads to a remote target: a server of remote_bitbang, or a debug probe.
ghost use Rattle.std.specs.Prelude.{◌≡◌, ◌≢◌, IfOk, None, Some, codes, false, true};
ghost use Rattle.std.specs.Option.{option_map};
ghost use Rattle.std.specs.String.{string_bytes};
ghost use Rattle.clap.specs.Words.{first_of, found_of, rows_of};
ghost use Rattle.swd_words.specs.Commands.{AreLeadArguments, IsSpeedArgument};

use crate::argument::{Argument, Form};
use crate::fault::LineFault;
use crate::memory_words::is_missing;
use crate::words::{is_set, refused, text_in, unfit, value_in};
use clap::ArgMatches;
use clap::error::ErrorKind;
use std::alloc::Global;
use swd_command_line::ProbeLine;
use swd_script::decimal_of;

// The frequency of SWCLK without `--speed`.
const DEFAULT_SPEED: u32 = 1_000_000;

const SPEED_FORM: &str = "it is not 1 to 10 decimal digits of a number from 1 to 4294967295";

const NO_TARGET: &str = "the target is missing: give --remote or --probe FILE";

const TWO_LEADS: &str = "--remote and --probe FILE are two targets: give one of them";

const NO_PROBE: &str = "--speed HERTZ and --framed go with --probe FILE";

/// A remote target, and what leads to it.
pub(crate) const REMOTE: Argument = Argument {
    name: "remote",
    form: Form::Optional("LINE"),
    help: "The target is a server on the streams, or =IN,OUT",
};

/// A target behind a debug probe, and what leads to the probe.
pub(crate) const PROBE: Argument = Argument {
    name: "probe",
    form: Form::Value("FILE"),
    help: "The target is behind a probe, such as /dev/hidraw0",
};

/// The frequency of SWCLK.
pub(crate) const SPEED: Argument = Argument {
    name: "speed",
    form: Form::Value("HERTZ"),
    help: "With --probe: the frequency of SWCLK; else 1000000",
};

/// Whether packets have their length before them.
pub(crate) const FRAMED: Argument = Argument {
    name: "framed",
    form: Form::Flag,
    help: "With --probe: each packet has its length before it",
};

// Returns the frequency of SWCLK.
fn speed_in(alloc: Global, word: Option<&str>) -> Result<u32, LineFault>
    ensures { IfOk result (λ speed. IsSpeedArgument speed (option_map (λ s. s.now) word.entry)) }
{
    match word {
        Some(word) => match decimal_of(word.as_bytes()) {
            Some(speed) if speed > 0 => Ok(speed),
            _ => Err(unfit(alloc, word, "--speed <HERTZ>", SPEED_FORM)),
        },
        None => Ok(DEFAULT_SPEED),
    }
}

/// Returns whether neither a server nor a probe leads to a remote target.
pub(crate) fn is_local(matches: &ArgMatches<'_>) -> bool
    ensures local { result ≡ true → (first_of (codes "remote") (rows_of (found_of matches.now)) ≡ None)
        × (first_of (codes "probe") (rows_of (found_of matches.now)) ≡ None) }
    ensures remote { result ≡ false → first_of (codes "remote") (rows_of (found_of matches.now)) ≡ None
        → first_of (codes "probe") (rows_of (found_of matches.now)) ≢ None }
{
    if !is_missing(matches, "remote") {
        return false;
    }
    is_missing(matches, "probe")
}

/// Returns what leads to a remote target, if the arguments name it, and the probe there, if it is one.
pub(crate) fn lead_in(
    alloc: Global,
    matches: &ArgMatches<'_>,
) -> Result<(Option<String>, Option<ProbeLine>), LineFault>
    ensures { IfOk result (λ found. AreLeadArguments (option_map string_bytes found.0) found.1
        (rows_of (found_of matches.now))) }
{
    let kind = ErrorKind::ArgumentConflict;
    let framed = is_set(matches, "framed");
    if is_missing(matches, "probe") {
        if framed || !is_missing(matches, "speed") {
            return Err(refused(alloc, kind, NO_PROBE));
        }
        let remote = text_in(alloc, matches, "remote")?;
        return Ok((remote, None));
    }
    if !is_missing(matches, "remote") {
        return Err(refused(alloc, kind, TWO_LEADS));
    }
    let speed = speed_in(alloc, value_in(matches, "speed"))?;
    let files = text_in(alloc, matches, "probe")?;
    Ok((files, Some(ProbeLine { speed, framed })))
}

/// Returns what leads to a remote target, and the probe there, if it is one. Rejects arguments that don't name it.
pub(crate) fn remote_in(
    alloc: Global,
    matches: &ArgMatches<'_>,
) -> Result<(String, Option<ProbeLine>), LineFault>
    ensures { IfOk result (λ found. AreLeadArguments (Some (string_bytes found.0)) found.1
        (rows_of (found_of matches.now))) }
{
    let lead = lead_in(alloc, matches)?;
    let (remote, probe) = lead;
    match remote {
        Some(remote) => Ok((remote, probe)),
        None => Err(refused(alloc, ErrorKind::MissingRequiredArgument, NO_TARGET)),
    }
}
