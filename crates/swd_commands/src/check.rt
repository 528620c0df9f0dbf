//! `swd check`: writes whether a trace is that of a target that keeps the standard.
ghost use Rattle.std.specs.Prelude.{◌≡◌, ◌≢◌, ◌||◌, Ok, IfErr, []};
ghost use Rattle.swd_commands.specs.Conversions.{ChecksCommandInput, command_status_of_check as status_of};
ghost use Rattle.swd_commands.specs.Conversions.{command_check_start, command_capture_reading};

use crate::character::trace_status;
use crate::conversion::reading;
use std::alloc::{AllocError, Allocator};
use std::io::{Read, Write};
use swd_capture_text::Reading;
use swd_check::{Check, CheckOptions, Checked, PlainMemory, check_to};
use swd_checker::CheckStart;
use swd_command_line::{CheckLine, PlainWords};
use swd_console::{Console, DONE, FAULT, KeepsError, STOPPED, tell};

const NOT_BEGUN: &str = "\
nothing was checked: no part of the trace shows a state of the target to begin with; --made and --rest say one";

const NOT_ANSWERED: &str = "\
nothing was checked: outside of stray bits the target acknowledged no request";

/// Checks what the reader has, and writes the verdict. `name` is the input's. Returns the status: 0 if the trace fits,
/// 1 if it breaks a rule, 2 if that isn't decided, or at an error.
pub(crate) fn check_read<
    R: Read + KeepsError,
    O: Write + KeepsError,
    A: Allocator + Copy,
    F,
    C,
    E: Write,
>(
    check: &CheckLine,
    name: &str,
    input: &mut R,
    output: &mut O,
    console: &mut Console<'_, A, F, C, E>,
) -> u8
    ensures { ChecksCommandInput check.now result (R.remaining input.old) (R.remaining input.new)
        (O.contents output.old) (O.contents output.new) }
{
    let Ok(plain) = plain_memory(console.alloc, check.plain.as_slice()) else {
        return tell(console.errors, "no memory");
    };
    let reading = reading_of(check);
    match check_to(reading, Check::new(options(check), plain), input, output) {
        Ok(checked) => told_status(console.errors, check.made, &checked),
        Err(fault) => trace_status(console.errors, Err(fault), reading, name, input, output),
    }
}

// Returns how the bits of the input are read.
fn reading_of(check: &CheckLine) -> Reading
    ensures { result ≡ command_capture_reading (check.now.resync || check.now.overrun) check.now.overrun }
{
    reading(check.resync || check.overrun, check.overrun)
}

// Returns how the arguments say that a trace is checked.
fn options(check: &CheckLine) -> CheckOptions
    ensures start { result.start ≡ command_check_start check.now }
    ensures clean { result.clean ≡ check.now.clean }
{
    CheckOptions {
        start: start_of(check),
        clean: check.clean,
        exact_registers: check.exact_registers,
        overrun: check.overrun,
    }
}

// Returns the state of the target before the first item.
fn start_of(check: &CheckLine) -> CheckStart
    ensures { result ≡ command_check_start check.now }
{
    if check.made {
        CheckStart::Made
    } else if check.rest {
        CheckStart::Rest
    } else {
        CheckStart::Any
    }
}

/// Returns the plain memory of the arguments.
pub(crate) fn plain_memory<A: Allocator + Copy>(
    alloc: A,
    words: &[PlainWords],
) -> Result<PlainMemory<A>, AllocError>
    ensures { IfErr result (λ _. words.now ≢ []) }
{
    let mut plain = PlainMemory::new(alloc);
    for region in words {
        plain.add(region.base, region.words)?;
    }
    Ok(plain)
}

// Prints that nothing was checked, where that is so, and returns the status of a verdict.
fn told_status<E: Write>(errors: &mut E, made: bool, checked: &Checked) -> u8
    ensures { result ≡ status_of (Ok checked.now) }
{
    if let Checked::Crowded { place: 0 } = checked {
        let why = if made { NOT_ANSWERED } else { NOT_BEGUN };
        let _ = writeln!(errors, "swd: {why}");
    }
    checked_status(checked)
}

/// Returns the status of a verdict.
pub(crate) fn checked_status(checked: &Checked) -> u8
    ensures { result ≡ status_of (Ok checked.now) }
{
    match checked {
        Checked::Fits { .. } => DONE,
        Checked::Breaks(_) => STOPPED,
        Checked::Crowded { .. } | Checked::Outside { .. } => FAULT,
    }
}
