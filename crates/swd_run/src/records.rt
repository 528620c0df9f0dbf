//! The files that a run writes beside its report, and what is told how far it is.
ghost use Rattle.std.specs.Prelude.{◌≡◌, ◌||◌, None, true, OnErr, is_some};
ghost use Rattle.swd_io.specs.Blocks.{WritesOutput};
ghost use Rattle.swd_run.specs.Records.{ForRunFile, run_file_held};

use std::io::Write;
use swd_text::ItemsPrinter;
use swd_trace::Item;

/// The writers of the files that a run writes beside its report: the trace while it goes on, and the accesses after its
/// last call. With them what prints the accesses, and what is told how far the run is, which is nobody by default.
#[derive(Drop)]
pub struct Records<T, I = (), G = ()> {
    /// The writer of the trace, if one is to be written.
    pub trace: Option<T>,
    /// The writer of the accesses that the trace shows, if they are to be written.
    pub accesses: Option<T>,
    /// What prints the accesses: `swd_capture_text::AccessesPrinter`, or whatever prints items.
    pub printer: I,
    /// What is told how far the run is: how many accesses have their line in the report.
    pub progress: G,
}

impl<T> Records<T> {
    /// Returns no writers.
    pub fn none() -> Records<T>
        ensures trace { result.trace ≡ None }
        ensures accesses { result.accesses ≡ None }
    {
        Records {
            trace: None,
            accesses: None,
            printer: (),
            progress: (),
        }
    }
}

impl<T, I, G> Records<T, I, G> {
    /// Returns whether a file is to be written.
    pub fn is_wanted(&self) -> bool
        ensures { result ≡ (is_some self.now.trace || is_some self.now.accesses) }
    {
        self.trace.is_some() || self.accesses.is_some()
    }
}

impl<T, I, G: Drop> Records<T, I, G> {
    /// Returns these writers with something else that is told how far the run is.
    pub fn with_progress<H>(self, progress: H) -> Records<T, I, H>
        ensures trace { result.trace ≡ self.trace }
        ensures accesses { result.accesses ≡ self.accesses }
        ensures printer { result.printer ≡ self.printer }
    {
        let Records {
            trace,
            accesses,
            printer,
            ..
        } = self;
        Records {
            trace,
            accesses,
            printer,
            progress,
        }
    }
}

/// Writes the accesses that these items show, if there is a writer for them.
///
/// # Errors
///
/// If the writer fails: how many bytes were written. These are exactly the first ones.
pub(crate) fn write_accesses<T: Write, I: ItemsPrinter>(
    accesses: &mut Option<T>,
    items: &[Item],
    printer: &I,
) -> Result<(), u64>
    ensures file { ForRunFile (λ old new. WritesOutput result old new (I.text printer.now items.now))
        (run_file_held T.contents accesses.old) (run_file_held T.contents accesses.new) }
    ensures err { OnErr result (is_some accesses.old ≡ true) }
{
    match accesses {
        Some(accesses) => printer.print(accesses, items),
        None => Ok(()),
    }
}
