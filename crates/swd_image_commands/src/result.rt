//! Prints the result of a command over an image, and returns its status.
ghost use Rattle.std.specs.Prelude.{◌≡◌};
ghost use Rattle.swd_image_commands.specs.Images.{command_result_reached as reached_by, command_status_of_fault};
ghost use Rattle.swd_image_commands.specs.Images.{command_status_compared, command_status_in};

use crate::image_report::words_of;
use crate::pieces::PiecesAction;
use std::alloc::Allocator;
use std::fmt;
use std::fmt::{Display, Formatter};
use std::io::Write;
use swd_command_line::ImageLine;
use swd_console::{
    DONE, STOPPED, Stream, advice_on, engine_status, gone_status, tell, tell_failure_or,
};
use swd_image::{ByteDifference, ImageFault};
use swd_image_files::{Image, Range};
use swd_remote::Fault;

// Prints how many bytes were loaded or verified, and where. `offset` stands for the address of an image without bytes.
fn tell_done<E: Write, A: Allocator>(errors: &mut E, done: &str, offset: u32, whole: &Image<A>) {
    let count = whole.bytes.len();
    let pieces = whole.ranges.len();
    let addr = match whole.ranges.first() {
        Some(range) => range.addr,
        None => offset,
    };
    let _ = if pieces > 1 {
        writeln!(errors, "swd: {done} {count} bytes in {pieces} pieces")
    } else {
        writeln!(errors, "swd: {done} {count} bytes at {addr:08x}")
    };
}

/// Returns the status of a command over the pieces of an image, and prints a line with its result: whether a byte
/// differs, if all was reached, and otherwise nothing more.
pub(crate) fn pieces_status<E: Write, A: Allocator>(
    errors: &mut E,
    image: &ImageLine,
    action: PiecesAction,
    whole: &Image<A>,
    reached: Result<Option<ByteDifference>, u8>,
) -> u8
    ensures { result ≡ command_status_in command_status_compared reached }
{
    match reached {
        Ok(None) => {
            let done = match action {
                PiecesAction::Load => "loaded",
                PiecesAction::Verify => "verified",
            };
            tell_done(errors, done, image.addr, whole);
            DONE
        }
        Ok(Some(difference)) => {
            let ByteDifference {
                addr,
                found,
                expected,
            } = difference;
            let _ = writeln!(
                errors,
                "swd: {addr:08x} has {found:02x}, not {expected:02x}"
            );
            STOPPED
        }
        Err(status) => status,
    }
}

/// Returns where a dump of so many bytes lies.
pub(crate) fn range_of(addr: u32, count: u32) -> Range {
    Range {
        addr,
        len: count as usize,
    }
}

/// How far the calls of an image came.
#[derive(Drop)]
pub(crate) struct Came<'a> {
    /// Where the image lies.
    pub(crate) ranges: &'a [Range],
    /// How many of its words are done, in the order of its pieces.
    pub(crate) done: u64,
}

impl Display for Came<'_> {
    fn fmt<W: fmt::Write>(&self, f: &mut Formatter<W>) -> fmt::Result {
        let (mut words, mut next) = (0u64, None);
        for range in self.ranges {
            let of_range = words_of(range.addr, range.len as u64);
            let before = self.done.saturating_sub(words);
            if next.is_none() && before < of_range {
                next = Some(u64::from(range.addr - range.addr % 4).saturating_add(
                    4u64.saturating_mul(before),
                ));
            }
            words = words.saturating_add(of_range);
        }
        if let Some(addr) = next {
            write!(f, "at {addr:08x}, ")?;
        }
        write!(f, "{} of {words} words certainly done", self.done)
    }
}

/// Returns the value of a result if the other end isn't gone. Otherwise prints a line with the reason, and returns the
/// status: 1 or 2.
pub(crate) fn reached<V: Drop, E: Write>(
    errors: &mut E,
    answer: Result<V, ImageFault>,
    gone: Option<Fault>,
    streams: &[Stream<'_>],
    came: Came<'_>,
) -> Result<V, u8>
    ensures { result ≡ reached_by gone answer }
{
    match answer {
        Ok(value) => match gone {
            Some(fault) => Err(gone_status(errors, fault, streams)),
            None => Ok(value),
        },
        Err(fault) => Err(fault_status(errors, fault, gone, streams, came)),
    }
}

// Prints a line for the error of an image's call, or for the end of the connection behind it. Returns the status.
fn fault_status<E: Write>(
    errors: &mut E,
    fault: ImageFault,
    gone: Option<Fault>,
    streams: &[Stream<'_>],
    came: Came<'_>,
) -> u8
    ensures { result ≡ command_status_of_fault fault }
{
    match fault {
        ImageFault::Range => tell(
            errors,
            "BYTES from ADDR on extend past ffffffff: take fewer, or a lower ADDR",
        ),
        ImageFault::Memory => engine_status(errors, Err(fault)),
        ImageFault::Report => tell_failure_or(errors, streams, "write failed"),
        ImageFault::Stopped(ended) => match gone {
            Some(gone) => gone_status(errors, gone, streams),
            None => {
                let _ = writeln!(errors, "swd: {fault} {came}{}", advice_on(ended));
                STOPPED
            }
        },
        ImageFault::BusFault(_) => match gone {
            Some(gone) => gone_status(errors, gone, streams),
            None => {
                let _ = writeln!(errors, "swd: {fault}");
                STOPPED
            }
        },
    }
}
