//! The options for the target of `swd load`, `swd verify` and `swd dump`: remote, or simulated.
//! And those for the memory that `swd target` serves.
ghost use Rattle.std.specs.Prelude.{◌≡◌, ◌%◌, ◌↔◌, IfOk, None, Some, true};
ghost use Rattle.std.specs.Option.{option_map};
ghost use Rattle.clap.specs.Words.{first_of, found_of, rows_of};
ghost use Rattle.swd_script.specs.Numerals.{script_hex_number};
ghost use Rattle.swd_words.specs.Commands.{IsBaseArgument, AreMemoryArguments, IsTargetArgument};

use crate::argument::{Argument, Form};
use crate::fault::LineFault;
use crate::lead_words::is_local;
use crate::words::{refused, text_in, unfit, value_in};
use clap::ArgMatches;
use clap::error::ErrorKind;
use std::alloc::Global;
use swd_command_line::MemoryLine;
use swd_script::hex_of;

// The address of a simulated memory without `--base`: where the memory of most microcontrollers begins.
const DEFAULT_BASE: u32 = 0x2000_0000;

const BASE_FORM: &str = "it is not 1 to 8 hexadecimal digits of a multiple of 4";

const NO_TARGET: &str = "the target is missing: give --remote, --probe FILE or --memory FILE";

const TWO_TARGETS: &str = "--remote or --probe and --memory FILE are two targets: give one of them";

const NO_MEMORY: &str = "--base ADDR and --plan FILE go with --memory FILE";

/// The file of a simulated memory.
pub(crate) const MEMORY: Argument = Argument {
    name: "memory",
    form: Form::Value("FILE"),
    help: "The target is simulated; FILE has its memory",
};

/// The address of a simulated memory.
pub(crate) const BASE: Argument = Argument {
    name: "base",
    form: Form::Value("ADDR"),
    help: "With --memory: its address, hexadecimal; else 20000000",
};

// Returns whether there is no value.
fn is_none(word: Option<&str>) -> bool
    ensures { (result ≡ true) ↔ (option_map (λ s. s.now) word.entry ≡ None) }
{
    word.is_none()
}

/// Returns whether an argument isn't given.
pub(crate) fn is_missing(matches: &ArgMatches<'_>, name: &str) -> bool
    ensures { (result ≡ true) ↔ (first_of name.now (rows_of (found_of matches.now)) ≡ None) }
{
    is_none(value_in(matches, name))
}

/// Returns the address of a word, a multiple of 4, that an argument has.
pub(crate) fn address_in(alloc: Global, word: &str, argument: &str) -> Result<u32, LineFault>
    ensures address { IfOk result (λ base. Some base ≡ script_hex_number word.now) }
    ensures aligned { IfOk result (λ base. base % 4 ≡ 0) }
{
    match hex_of(word.as_bytes()) {
        Some(base) if base % 4 == 0 => Ok(base),
        _ => Err(unfit(alloc, word, argument, BASE_FORM)),
    }
}

// Returns the address of a simulated memory.
fn base_in(alloc: Global, word: Option<&str>) -> Result<u32, LineFault>
    ensures base { IfOk result (λ base. IsBaseArgument base (option_map (λ s. s.now) word.entry)) }
    ensures aligned { IfOk result (λ base. base % 4 ≡ 0) }
{
    match word {
        Some(word) => address_in(alloc, word, "--base <ADDR>"),
        None => Ok(DEFAULT_BASE),
    }
}

/// Returns the simulated memory of the arguments, or an error with the line `missing` where none is named.
pub(crate) fn memory_line(
    alloc: Global,
    matches: &ArgMatches<'_>,
    missing: &str,
) -> Result<MemoryLine, LineFault>
    ensures { IfOk result (λ memory. AreMemoryArguments memory (rows_of (found_of matches.now))) }
{
    let Some(file) = text_in(alloc, matches, "memory")? else {
        let kind = ErrorKind::MissingRequiredArgument;
        return Err(refused(alloc, kind, missing));
    };
    let base = base_in(alloc, value_in(matches, "base"))?;
    let plan = text_in(alloc, matches, "plan")?;
    Ok(MemoryLine { file, base, plan })
}

/// Returns the memory of the simulated target that the arguments name, or `None` for a remote target.
pub(crate) fn target_in(
    alloc: Global,
    matches: &ArgMatches<'_>,
) -> Result<Option<MemoryLine>, LineFault>
    ensures { IfOk result (λ memory. IsTargetArgument memory (rows_of (found_of matches.now))) }
{
    if is_local(matches) {
        return match memory_line(alloc, matches, NO_TARGET) {
            Ok(memory) => Ok(Some(memory)),
            Err(fault) => Err(fault),
        };
    }
    if !is_missing(matches, "memory") {
        return Err(refused(alloc, ErrorKind::ArgumentConflict, TWO_TARGETS));
    }
    if !is_missing(matches, "base") {
        return Err(refused(alloc, ErrorKind::ArgumentConflict, NO_MEMORY));
    }
    if !is_missing(matches, "plan") {
        return Err(refused(alloc, ErrorKind::ArgumentConflict, NO_MEMORY));
    }
    Ok(None)
}
