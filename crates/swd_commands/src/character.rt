//! Says what is wrong with a trace or a listing that was converted, or with how it was.
ghost use Rattle.std.specs.Prelude.{◌≡◌, is_ok};
ghost use Rattle.swd_console.specs.Statuses.{command_status_of};

use std::fmt;
use std::fmt::{Display, Formatter};
use std::io::Write;
use swd_bits::OneFault;
use swd_capture_text::Reading;
use swd_console::{
    DONE, FAULT, KeepsError, Stream, TrackedReader, cannot_use, conversion_status,
    list_line_status, tell_failure,
};
use swd_text::{DecodeFault, EncodeFault, TextFault};
use swd_trace::ListFault;

// From so many lines of stray bits on, a capture may be one that has lost bits.
const STRAY: u64 = 8;

// Returns which form of a capture a file has by its first bytes, if it is none of `swd`.
fn form_of(first: &[u8]) -> Option<&'static str> {
    let line = match first.iter().position(|byte| *byte == b'\n') {
        Some(end) => &first[..end],
        None => first,
    };
    if first.starts_with(b"PK\x03\x04") {
        Some("a sigrok session (.sr)")
    } else if first.starts_with(b"$") {
        Some("a VCD file")
    } else if line.contains(&b',') {
        Some("a CSV export")
    } else {
        None
    }
}

// A character that no trace has, at a place of a text that begins with these bytes.
#[derive(Drop)]
struct BadCharacter<'a> {
    place: u64,
    first: &'a [u8],
}

impl Display for BadCharacter<'_> {
    fn fmt<W: fmt::Write>(&self, f: &mut Formatter<W>) -> fmt::Result {
        write!(f, "trace byte {}: bad character", self.place)?;
        let byte = match usize::try_from(self.place) {
            Ok(place) => self.first.get(place).copied(),
            Err(_) => None,
        };
        match byte {
            Some(byte) if byte.is_ascii_graphic() => write!(f, " '{}'", char::from(byte))?,
            Some(byte) => write!(f, " {byte:02x}")?,
            None => {}
        }
        match form_of(self.first) {
            Some(form) => write!(f, ": this is {form}, and docs/CAPTURES.md converts it"),
            None => f.write_str(": a trace has 0, 1, blanks and comments"),
        }
    }
}

// Prints that a trace has a character at this place that no trace has, or why a stream failed. Returns the status 2.
fn bad_character<E: Write>(errors: &mut E, place: u64, first: &[u8], streams: &[Stream<'_>]) -> u8
    ensures { result ≡ 2 }
{
    if !tell_failure(errors, streams) {
        let _ = writeln!(errors, "swd: {}", BadCharacter { place, first });
    }
    FAULT
}

/// Prints why a trace isn't listed as one transaction, if it isn't. Returns the status: 0 or 2. `name` is the input's.
pub(crate) fn one_status<I: KeepsError, O: KeepsError, E: Write>(
    errors: &mut E,
    answer: Result<(), OneFault>,
    name: &str,
    input: &I,
    output: &O,
) -> u8
    ensures { result ≡ command_status_of (is_ok answer) }
{
    let streams = [Stream::output(output), Stream::read(name, input)];
    match answer {
        Err(OneFault::BadChar { place }) => {
            bad_character(errors, place, input.sample().first(), streams.as_slice())
        }
        Err(OneFault::NotOne) => {
            let why =
                "not one transaction: it has other bits too, or not all; swd decode lists any trace";
            cannot_use(errors, name, &why)
        }
        answer => conversion_status(errors, answer, name, input, output),
    }
}

/// Prints why a listing could not be encoded, if it couldn't. Returns the status: 0 or 2. `list` is the input.
pub(crate) fn list_status<I: KeepsError, O: KeepsError, E: Write>(
    errors: &mut E,
    answer: Result<(), EncodeFault>,
    list: &TrackedReader<'_, I>,
    output: &O,
) -> u8
    ensures { result ≡ command_status_of (is_ok answer) }
{
    match answer {
        Err(EncodeFault::List(ListFault::BadLine { line })) => {
            list_line_status(errors, line, &list.seen)
        }
        Err(EncodeFault::List(ListFault::NotNormal { line })) => {
            let _ = writeln!(
                errors,
                "swd: list line {line}: not normal: among the bits of the list those of this item are read otherwise, \
                    as two lines idle are one"
            );
            FAULT
        }
        answer => conversion_status(errors, answer, list.name(), list, output),
    }
}

/// Prints why a trace could not be decoded, or that it has no bits, or many stray ones. Returns the status: 0 or 2.
/// `name` is the input's.
pub(crate) fn trace_status<I: KeepsError, O: KeepsError, E: Write>(
    errors: &mut E,
    answer: Result<(), DecodeFault>,
    reading: Reading,
    name: &str,
    input: &I,
    output: &O,
) -> u8
    ensures { result ≡ command_status_of (is_ok answer) }
{
    if let Err(DecodeFault::Text(TextFault::BadChar { place })) = answer {
        let streams = [Stream::output(output), Stream::read(name, input)];
        return bad_character(errors, place, input.sample().first(), streams.as_slice());
    }
    let status = conversion_status(errors, answer, name, input, output);
    if status == DONE && !input.sample().has_bits() {
        cannot_use(
            errors,
            name,
            &"no bits found: a trace has a character 0 or 1 for each bit",
        );
    }
    let stray = output.sample().stray();
    if status == DONE && stray >= STRAY && matches!(reading, Reading::Trace) {
        let _ = writeln!(
            errors,
            "swd: {stray} stray bits (junk) or more: if the capture lost bits or begins in mid-session, \
                --resync reads it"
        );
    }
    status
}
