//! Performs `swd load`, `swd verify` and `swd dump`, at a remote target on the standard streams or at a simulated one.
ghost use Rattle.swd_image_commands.specs.Images.{PerformsDump, PerformsPieces};
ghost use Rattle.swd_image_commands.specs.Targeted.{PerformsImage};

use crate::image_file::{finish_dump, keep_or_give_up, open_dump, read_image_file, withdraw_dump};
use crate::image_report::{image_reports, limits_of, open_report, words_in, words_of};
use crate::pieces::{PiecesAction, PiecesJob};
use crate::result::{Came, pieces_status, range_of, reached};
use crate::simulated_command::perform_simulated;
use std::alloc::Allocator;
use std::io::{Read, Write};
use swd_command_line::{ImageAction, ImageLine};
use swd_console::{
    Clock, Console, Files, InUse, KeepsError, Stream, StreamsInUse, at_the_target, session_status,
};
use swd_image_ends::DumpJob;
use swd_port::Story;
use swd_remote::RemoteStreams;

/// Makes the one call of an image, at the target behind the streams or at a simulated one. Prints a line with the
/// result on standard error. Returns the status and the connection. If the target is simulated, if the image's file
/// can't be read or is no image, or if a dump's can't be opened, the connection wasn't used.
pub fn perform_image<
    P: Story,
    I: Read + KeepsError + Drop,
    O: Write + KeepsError + Drop,
    A: Allocator + Copy,
    F: Files,
    C: Clock,
    E: Write,
>(
    image: &ImageLine,
    input: I,
    output: O,
    console: &mut Console<'_, A, F, C, E>,
) -> (u8, RemoteStreams<I, O>)
    ensures { PerformsImage A P.at image.now result.0 I.remaining O.contents (O.contents output) (I.remaining input)
        result.1 }
{
    match &image.memory {
        Some(memory) => {
            let status = perform_simulated(image, memory, console);
            (status, RemoteStreams::unused(input, output))
        }
        None => match image.action {
            ImageAction::Load => perform_pieces::<P, _, _, _, _, _, _>(
                image,
                PiecesAction::Load,
                input,
                output,
                console,
            ),
            ImageAction::Verify => perform_pieces::<P, _, _, _, _, _, _>(
                image,
                PiecesAction::Verify,
                input,
                output,
                console,
            ),
            ImageAction::Dump(count) => {
                perform_dump::<P, _, _, _, _, _, _>(image, count, input, output, console)
            }
        },
    }
}

// Loads the file's pieces, or compares the memory with them.
fn perform_pieces<
    P: Story,
    I: Read + KeepsError + Drop,
    O: Write + KeepsError + Drop,
    A: Allocator + Copy,
    F: Files,
    C: Clock,
    E: Write,
>(
    image: &ImageLine,
    action: PiecesAction,
    input: I,
    output: O,
    console: &mut Console<'_, A, F, C, E>,
) -> (u8, RemoteStreams<I, O>)
    ensures { PerformsPieces P.at image.now result.0 I.remaining O.contents (O.contents output) (I.remaining input)
        result.1 action }
{
    let mut in_use = InUse::new(StreamsInUse::Both);
    let whole = match read_image_file(image, &mut in_use, console) {
        Ok(whole) => whole,
        Err(status) => return (status, RemoteStreams::unused(input, output)),
    };
    let opened = match open_report(image, &mut in_use, console) {
        Ok(opened) => opened,
        Err(status) => return (status, RemoteStreams::unused(input, output)),
    };
    let words = words_in(&whole);
    let mut job = PiecesJob {
        alloc: console.alloc,
        action,
        whole: &whole,
        limits: limits_of(image),
        report: image_reports(image, opened, words, &mut *console.errors, console.clock),
    };
    let (answer, line, verdict) = at_the_target::<P, _, _, _, _>(
        console.alloc,
        &mut job,
        image.probe,
        image.check,
        (input, output),
    );
    let streams = call_streams(job.report.stream(image), &line);
    let came = Came {
        ranges: whole.ranges.as_slice(),
        done: job.report.done,
    };
    drop(job);
    let answer = reached(console.errors, answer, line.fault, streams.as_slice(), came);
    let status = pieces_status(console.errors, image, action, &whole, answer);
    (session_status(console.errors, &verdict, status), line)
}

// Opens the file, and reads bytes of the memory. Then replaces the file by the bytes.
fn perform_dump<
    P: Story,
    I: Read + KeepsError + Drop,
    O: Write + KeepsError + Drop,
    A: Allocator + Copy,
    F: Files,
    C: Clock,
    E: Write,
>(
    image: &ImageLine,
    count: u32,
    input: I,
    output: O,
    console: &mut Console<'_, A, F, C, E>,
) -> (u8, RemoteStreams<I, O>)
    ensures { PerformsDump P.at image.now result.0 I.remaining O.contents (O.contents output) (I.remaining input)
        result.1 count }
{
    let mut in_use = InUse::new(StreamsInUse::Both);
    let mut file = match open_dump(image, &mut in_use, console) {
        Ok(file) => file,
        Err(status) => return (status, RemoteStreams::unused(input, output)),
    };
    let opened = match open_report(image, &mut in_use, console) {
        Ok(opened) => opened,
        Err(status) => {
            keep_or_give_up(image, status, &mut file.stream, console);
            return (status, RemoteStreams::unused(input, output));
        }
    };
    withdraw_dump(image, &file.stream, console);
    let words = words_of(image.addr, u64::from(count));
    let mut job = DumpJob {
        alloc: console.alloc,
        addr: image.addr,
        count: count as u64,
        limits: limits_of(image),
        report: image_reports(image, opened, words, &mut *console.errors, console.clock),
    };
    let (answer, line, verdict) = at_the_target::<P, _, _, _, _>(
        console.alloc,
        &mut job,
        image.probe,
        image.check,
        (input, output),
    );
    let streams = call_streams(job.report.stream(image), &line);
    let range = range_of(image.addr, count);
    let came = Came {
        ranges: &[range],
        done: job.report.done,
    };
    drop(job);
    let answer = reached(console.errors, answer, line.fault, streams.as_slice(), came);
    let status = finish_dump(image, answer, &mut file, console);
    (session_status(console.errors, &verdict, status), line)
}

// Returns the streams of the calls: that of the report, and those of the connection.
fn call_streams<'a, R: KeepsError, W: KeepsError>(
    report: Stream<'a>,
    line: &RemoteStreams<R, W>,
) -> [Stream<'a>; 3] {
    [
        report,
        Stream::sent(&line.writer),
        Stream::received(&line.reader),
    ]
}
