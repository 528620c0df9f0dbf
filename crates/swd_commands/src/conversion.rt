//! Converts an input to standard output: `swd one`, `swd encode`, `swd decode`, `swd draw` and `swd check`.
ghost use Rattle.std.specs.Prelude.{◌≡◌, ◌≢◌, IfSome, Some, codes};
ghost use Rattle.std.specs.Option.{option_map};
ghost use Rattle.std.specs.String.{string_bytes};
ghost use Rattle.swd_console.specs.Streams.{CommandEndsOver};
ghost use Rattle.swd_commands.specs.Inputs.{IsStandardInput};
ghost use Rattle.swd_commands.specs.Conversions.{ConvertsCommandInput, command_capture_reading};
ghost use Rattle.swd_commands.specs.Conversions.{decode_command_conversion, decode_command_start};
ghost use Rattle.swd_commands.specs.Conversions.{draw_command_conversion};

use crate::character::{list_status, one_status, trace_status};
use crate::check::check_read;
use std::alloc::Allocator;
use std::io::{Read, Write};
use swd_bits::one_text;
use swd_capture::{LineForm, Printed};
use swd_capture_text::{Reading, print_capture};
use swd_command_line::{CheckLine, DecodeLine, DrawLine};
use swd_console::{
    Console, Files, INPUT, KeepsError, TrackedReader, Watched, cannot_open, named_file_of,
    status_after,
};
use swd_draw::{DrawnForm, draw_capture};
use swd_observer::TraceStart;
use swd_text::{decode_text, encode_text};

/// What an input is converted to.
#[derive(Clone, Copy)]
pub(crate) enum Conversion<'a> {
    /// The bits of one transaction.
    One,
    /// The bits of a list.
    Encode,
    /// The listing of a trace.
    Listing,
    /// What is printed of a trace or a capture instead.
    Print(Reading, Printed),
    /// A drawing.
    Draw(Reading, DrawnForm),
    /// The verdict on a trace.
    Check(&'a CheckLine),
}

/// Returns how bits are read: a capture may begin in mid-session and lose bits, and `over` says whether a data phase
/// then follows WAIT and FAULT.
pub(crate) fn reading(resync: bool, over: bool) -> Reading
    ensures { result ≡ command_capture_reading resync over }
{
    if resync {
        Reading::Capture { over }
    } else {
        Reading::Trace
    }
}

// Returns what is known of the target before the first item.
fn start_of(decode: &DecodeLine) -> TraceStart
    ensures { result ≡ decode_command_start decode.now }
{
    if decode.made {
        TraceStart::Made
    } else if decode.rest {
        TraceStart::Rest
    } else {
        TraceStart::Any
    }
}

/// Returns what the arguments of `swd decode` ask for.
pub(crate) fn decode_conversion<'a>(decode: &DecodeLine) -> Conversion<'a>
    ensures { result ≡ decode_command_conversion decode.now }
{
    let reading = reading(decode.resync, decode.overrun);
    if decode.accesses {
        let start = start_of(decode);
        return Conversion::Print(reading, Printed::Accesses { start });
    }
    if decode.count {
        return Conversion::Print(reading, Printed::Counts);
    }
    if decode.places || decode.names || decode.resync {
        let form = LineForm {
            places: decode.places,
            names: decode.names,
        };
        return Conversion::Print(reading, Printed::Lines(form));
    }
    Conversion::Listing
}

/// Returns what the arguments of `swd draw` ask for.
pub(crate) fn draw_conversion<'a>(draw: &DrawLine) -> Conversion<'a>
    ensures { result ≡ draw_command_conversion draw.now }
{
    let form = DrawnForm {
        items: draw.items,
        names: draw.names,
    };
    Conversion::Draw(reading(draw.resync, draw.overrun), form)
}

/// Converts a file, or standard input without a name and for `-`. Returns the status: 0, or 2 at an error, or 141 if
/// the reader of standard output is gone. A verdict has a status of its own.
pub(crate) fn convert<
    I: Read + KeepsError,
    O: Write + KeepsError,
    A: Allocator + Copy,
    F: Files,
    C,
    E: Write,
>(
    conversion: Conversion<'_>,
    file: &Option<String>,
    input: &mut I,
    output: &mut O,
    console: &mut Console<'_, A, F, C, E>,
) -> u8
    ensures { IsStandardInput (option_map string_bytes file.now) → CommandEndsOver (O.kept output.new)
        (λ status. ConvertsCommandInput conversion.entry status (I.remaining input.old) (I.remaining input.new)
        (O.contents output.old) (O.contents output.new)) result }
{
    let Some(name) = source_of(file) else {
        let own = convert_read(conversion, INPUT, input, output, console);
        return status_after(output.kept_error(), own);
    };
    let opened = match console.files.open(name) {
        Ok(opened) => opened,
        Err(why) => return cannot_open(console.errors, name, &why),
    };
    let own = convert_read(
        conversion,
        name,
        &mut Watched::new(opened.file),
        output,
        console,
    );
    status_after(output.kept_error(), own)
}

// Returns the name of a file, or `None` for standard input.
fn source_of(file: &Option<String>) -> Option<&str>
    ensures { IfSome result (λ name. (option_map string_bytes file.now ≡ Some name.now) × (name.now ≢ codes "-")) }
{
    match file {
        Some(name) => named_file_of(name.as_str()),
        None => None,
    }
}

// Converts a listing to its trace. `name` is the input's. Returns the status: 0, or 2 at an error.
fn encode_read<R: Read + KeepsError, O: Write + KeepsError, A: Allocator + Copy, F, C, E: Write>(
    name: &str,
    input: &mut R,
    output: &mut O,
    console: &mut Console<'_, A, F, C, E>,
) -> u8
    ensures { ConvertsCommandInput Conversion.Encode result (R.remaining input.old) (R.remaining input.new)
        (O.contents output.old) (O.contents output.new) }
{
    let mut list = TrackedReader::new(name, input);
    let answer = encode_text(console.alloc, &mut list, output);
    list_status(console.errors, answer, &list, output)
}

// Converts what the reader has. `name` is the input's. Returns the status: 0, or 2 at an error, or that of a verdict.
fn convert_read<R: Read + KeepsError, O: Write + KeepsError, A: Allocator + Copy, F, C, E: Write>(
    conversion: Conversion<'_>,
    name: &str,
    input: &mut R,
    output: &mut O,
    console: &mut Console<'_, A, F, C, E>,
) -> u8
    ensures { ConvertsCommandInput conversion.entry result (R.remaining input.old) (R.remaining input.new)
        (O.contents output.old) (O.contents output.new) }
{
    match conversion {
        Conversion::One => {
            let answer = one_text(input, output);
            one_status(console.errors, answer, name, input, output)
        }
        Conversion::Encode => encode_read(name, input, output, console),
        Conversion::Listing => {
            let answer = decode_text(input, output);
            trace_status(console.errors, answer, Reading::Trace, name, input, output)
        }
        Conversion::Print(reading, printed) => {
            let answer = print_capture(reading, printed, input, output);
            trace_status(console.errors, answer, reading, name, input, output)
        }
        Conversion::Draw(reading, form) => {
            let answer = draw_capture(reading, form, input, output);
            trace_status(console.errors, answer, reading, name, input, output)
        }
        Conversion::Check(check) => check_read(check, name, input, output, console),
    }
}
