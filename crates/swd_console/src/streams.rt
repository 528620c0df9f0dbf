//! Prints why a stream of a command failed.
ghost use Rattle.std.specs.Prelude.{◌≡◌, Some, is_ok};
ghost use Rattle.swd_console.specs.Statuses.{command_status_of};
ghost use Rattle.swd_console.specs.Streams.{is_command_stream_closed as is_closed_by, command_status_over};

use crate::report::{CLOSED, Escaped, FAULT, engine_status, tell};
use crate::watched::KeepsError;
use std::fmt::Display;
use std::io;
use std::io::{ErrorKind, Write};

/// The names of the standard streams in a line.
pub const INPUT: &str = "standard input";

pub const OUTPUT: &str = "standard output";

pub const ERRORS: &str = "standard error";

// The names of the files that lead to a target in their place.
const LINE_IN: &str = "the line from the target";

const LINE_OUT: &str = "the line to the target";

// What a command does with a stream.
#[derive(Clone, Copy)]
enum Use {
    // It reads it, or writes a file.
    Read,
    Write,
    // It writes its result to standard output.
    Output,
    // It sends to the other end of a connection, which is standard output.
    Send,
}

/// A stream of a command: its name, and the error of its last failed call.
#[derive(Clone, Copy)]
pub struct Stream<'a> {
    name: &'a str,
    used: Use,
    error: Option<io::Error>,
}

impl<'a> Stream<'a> {
    /// A file that is read, or standard input.
    pub fn read<S: KeepsError>(name: &'a str, stream: &S) -> Stream<'a> {
        Stream {
            name,
            used: Use::Read,
            error: stream.kept_error(),
        }
    }

    /// A file that is written, or standard error.
    pub fn written<S: KeepsError>(name: &'a str, stream: &S) -> Stream<'a> {
        Stream {
            name,
            used: Use::Write,
            error: stream.kept_error(),
        }
    }

    /// A file that is written, with the error of a failed write.
    pub fn failed(name: &'a str, error: io::Error) -> Stream<'a> {
        Stream {
            name,
            used: Use::Write,
            error: Some(error),
        }
    }

    /// A file that is written if it is named. Without one, a stream that didn't fail.
    pub fn record<S: KeepsError>(name: &'a Option<String>, file: &Option<S>) -> Stream<'a> {
        Stream {
            name: name_or_nothing(name),
            used: Use::Write,
            error: match file {
                Some(file) => file.kept_error(),
                None => None,
            },
        }
    }

    /// Standard output with a command's result.
    pub fn output<S: KeepsError>(stream: &S) -> Stream<'a> {
        Stream {
            name: OUTPUT,
            used: Use::Output,
            error: stream.kept_error(),
        }
    }

    /// The stream to the other end of a connection: standard output, or a line's.
    pub fn sent<S: KeepsError>(stream: &S) -> Stream<'a> {
        Stream {
            name: if stream.sample().is_line() {
                LINE_OUT
            } else {
                OUTPUT
            },
            used: Use::Send,
            error: stream.kept_error(),
        }
    }

    /// The stream from the other end of a connection: standard input, or a line's.
    pub fn received<S: KeepsError>(stream: &S) -> Stream<'a> {
        let name = if stream.sample().is_line() {
            LINE_IN
        } else {
            INPUT
        };
        Stream::read(name, stream)
    }

    // Prints why it failed. A closed standard output ends a command without a line, and a connection as the other end.
    fn tell<E: Write>(&self, errors: &mut E, error: &io::Error) {
        let _ = match self.used {
            Use::Output if is_closed(error) => Ok(()),
            Use::Send if is_closed(error) => writeln!(errors, "swd: the other end went away"),
            Use::Read => writeln!(errors, "swd: read failed: {}: {error}", Escaped(self.name)),
            Use::Write | Use::Output | Use::Send => {
                writeln!(errors, "swd: write failed: {}: {error}", Escaped(self.name))
            }
        };
    }
}

/// Returns the name of a file, or an empty one without it.
pub fn name_or_nothing(name: &Option<String>) -> &str {
    match name {
        Some(name) => name.as_str(),
        None => "",
    }
}

/// Prints why the first of these streams that failed did so. Returns whether one failed.
pub fn tell_failure<E: Write>(errors: &mut E, streams: &[Stream<'_>]) -> bool {
    for stream in streams {
        if let Some(error) = &stream.error {
            stream.tell(errors, error);
            return true;
        }
    }
    false
}

/// Prints why the first of these streams that failed did so, or `otherwise` if none failed. Returns the status 2.
pub fn tell_failure_or<E: Write>(errors: &mut E, streams: &[Stream<'_>], otherwise: &str) -> u8
    ensures { result ≡ 2 }
{
    if tell_failure(errors, streams) {
        return FAULT;
    }
    tell(errors, otherwise)
}

/// Prints why a conversion failed, if it did: a stream's error, or its own. Returns the status: 0 or 2.
pub fn streams_status<E: Write, F: Display + Drop>(
    errors: &mut E,
    answer: Result<(), F>,
    streams: &[Stream<'_>],
) -> u8
    ensures { result ≡ command_status_of (is_ok answer) }
{
    if answer.is_err() && tell_failure(errors, streams) {
        return FAULT;
    }
    engine_status(errors, answer)
}

/// Prints why a conversion of an input to standard output failed, if it did. Returns the status: 0 or 2.
pub fn conversion_status<I: KeepsError, O: KeepsError, E: Write, F: Display + Drop>(
    errors: &mut E,
    answer: Result<(), F>,
    name: &str,
    input: &I,
    output: &O,
) -> u8
    ensures { result ≡ command_status_of (is_ok answer) }
{
    let streams = [Stream::output(output), Stream::read(name, input)];
    streams_status(errors, answer, streams.as_slice())
}

// Returns whether the error says that the reader of what was written is gone.
fn is_closed(error: &io::Error) -> bool
    ensures { result ≡ is_closed_by (Some error.now) }
{
    matches!(error.kind(), ErrorKind::BrokenPipe)
}

/// Returns the status of a command whose standard output has this error: 141 if its reader is gone, else the command's
/// own.
pub fn status_after(output: Option<io::Error>, status: u8) -> u8
    ensures { result ≡ command_status_over output status }
{
    match output {
        Some(error) if is_closed(&error) => CLOSED,
        _ => status,
    }
}
