//! The reports of the calls of an image, how far they are, and what they may meet.
ghost use Rattle.std.specs.Prelude.{◌≡◌, IfErr, IfOk, is_some};
ghost use Rattle.swd_image_commands.specs.Images.{command_limits};
ghost use Rattle.swd_image_commands.specs.Reports.{command_reports_held, command_reports_to};

use std::alloc::Allocator;
use std::io::Write;
use swd_command_line::{ImageAction, ImageLine};
use swd_console::{
    Clock, Console, Destination, Files, InUse, Pace, Stream, Watched, WriteRole, cut_off,
};
use swd_host::Report;
use swd_image::{CallReports, Counted, ImageFault, Limits, PacedReports};
use swd_image_files::Image;
use swd_port::{Access, Wire};
use swd_script::Batch;

/// Where the reports of the calls go, if they are made.
pub(crate) type ReportTo<M> = Option<Destination<M>>;

/// What gets the reports of the calls, and how many words these did.
#[derive(Drop)]
pub(crate) struct ImageReports<'a, M, E, C> {
    to: CallsTo<'a, M, E, C>,
    action: ImageAction,
    /// How many words were loaded, or read for a dump or a verification, at most 2^64 - 1.
    pub(crate) done: u64,
}

// What gets the reports of the calls.
#[derive(Drop)]
enum CallsTo<'a, M, E, C> {
    /// A file, if one is named. Standard error says how far the calls are, if the arguments ask for that.
    Paced(PacedReports<Watched<M>, Pace<'a, E, C>>),
    /// Standard error, which then doesn't say how far they are.
    Errors(Option<Watched<&'a mut E>>),
}

impl<'a, M: Write, E: Write, C: Clock> CallReports for ImageReports<'a, M, E, C> {
    ghost held = { λ reports. command_reports_held M.contents E.contents reports };

    fn make_call<W: Wire, A: Allocator + Copy>(
        &mut self,
        alloc: A,
        wire: &mut W,
        batch: &Batch<A>,
        limits: Limits,
    ) -> Result<Report<A>, ImageFault> {
        let made = match &mut self.to {
            CallsTo::Paced(reports) => reports.make_call(alloc, wire, batch, limits),
            CallsTo::Errors(report) => report.make_call(alloc, wire, batch, limits),
        };
        if let Ok(report) = &made
            && counts(self.action, batch.accesses.as_slice())
        {
            self.done = self.done.saturating_add(report.answers.len() as u64);
        }
        made
    }
}

// Returns whether the accesses of a call count: those that read the partial words of a load don't.
fn counts(action: ImageAction, accesses: &[Access]) -> bool {
    match (action, accesses.first()) {
        (ImageAction::Load, Some(Access::Read(_))) => false,
        _ => true,
    }
}

impl<'a, M, E, C> ImageReports<'a, M, E, C> {
    /// Returns the stream of the reports.
    pub(crate) fn stream<'b>(&self, image: &'b ImageLine) -> Stream<'b> {
        match &self.to {
            CallsTo::Paced(reports) => Stream::record(&image.report, &reports.report),
            CallsTo::Errors(report) => Stream::record(&image.report, report),
        }
    }
}

/// Returns how each call of an image is made, and what it may meet, as the arguments say.
pub(crate) fn limits_of(image: &ImageLine) -> Limits
    ensures { result ≡ command_limits image.now }
{
    Limits {
        tries: image.tries,
        resumes: image.resumes,
        bursts: image.remote.is_none() || image.bursts,
    }
}

/// Opens the file of the report, if one is named, and truncates it: it is the last file that a command opens. `-` is
/// standard error, which isn't truncated. At an error it prints a line and returns the status 2.
pub(crate) fn open_report<A, F: Files, C, E: Write>(
    image: &ImageLine,
    in_use: &mut InUse,
    console: &mut Console<'_, A, F, C, E>,
) -> Result<ReportTo<F::Made>, u8>
    ensures named { IfOk result (λ opened. is_some opened ≡ is_some image.now.report) }
    ensures status { IfErr result (λ status. status ≡ 2) }
{
    let Some(name) = &image.report else {
        return Ok(None);
    };
    if name.as_str() == "-" {
        return Ok(Some(Destination::Errors));
    }
    let file = match in_use.open_write(name.as_str(), WriteRole::Calls, console) {
        Ok(opened) => opened.file,
        Err(status) => return Err(status),
    };
    match cut_off(name.as_str(), &file, console) {
        Ok(()) => Ok(Some(Destination::File(file))),
        Err(status) => Err(status),
    }
}

/// Returns what gets the reports, before calls over so many words.
pub(crate) fn image_reports<'a, M: Write, E: Write, C: Clock>(
    image: &ImageLine,
    opened: ReportTo<M>,
    words: u64,
    errors: &'a mut E,
    clock: &'a C,
) -> ImageReports<'a, M, E, C>
    ensures { is_some (command_reports_held M.contents E.contents result) ≡ is_some opened }
{
    ImageReports {
        to: reports_to(image, opened, words, errors, clock),
        action: image.action,
        done: 0,
    }
}

// Returns what gets the reports, before calls over so many words.
fn reports_to<'a, M: Write, E: Write, C: Clock>(
    image: &ImageLine,
    opened: ReportTo<M>,
    words: u64,
    errors: &'a mut E,
    clock: &'a C,
) -> CallsTo<'a, M, E, C>
    ensures { is_some (command_reports_to M.contents E.contents result) ≡ is_some opened }
{
    let file = match opened {
        Some(Destination::Errors) => return CallsTo::Errors(Some(Watched::new(errors))),
        Some(Destination::File(file)) => Some(Watched::new(file)),
        None => None,
    };
    let counted = match image.action {
        ImageAction::Load => Counted::Written,
        ImageAction::Verify | ImageAction::Dump(_) => Counted::Read,
    };
    let pace = Pace::new(image.progress, "words", errors, clock);
    CallsTo::Paced(PacedReports::new(file, pace, counted, words))
}

/// Returns how many words have a byte of this range.
pub(crate) fn words_of(addr: u32, bytes: u64) -> u64 {
    if bytes == 0 {
        return 0;
    }
    u64::from(addr % 4).saturating_add(bytes).div_ceil(4)
}

/// Returns how many words the pieces of an image have.
pub(crate) fn words_in<A: Allocator>(whole: &Image<A>) -> u64 {
    let mut words: u64 = 0;
    for range in whole.ranges.as_slice() {
        words = words.saturating_add(words_of(range.addr, range.len as u64));
    }
    words
}
