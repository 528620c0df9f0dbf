//! The reports of calls of which somebody is told how far they are.
ghost use Rattle.std.specs.Prelude.{◌≡◌};
ghost use Rattle.swd_run.specs.Records.{run_file_held};

use crate::fault::ImageFault;
use crate::reports::{CallReports, call_with};
use std::alloc::Allocator;
use std::io::Write;
use swd_host::Report;
use swd_port::{Access, Wire};
use swd_run::{Limits, Progress};
use swd_script::Batch;

/// Which words count.
#[derive(Clone, Copy, Debug, PartialEq, Eq)]
pub enum Counted {
    /// Those that are read.
    Read,
    /// Those that are written.
    Written,
}

impl Counted {
    // Returns whether the accesses of a call count. They all read, or they all write.
    fn has(self, accesses: &[Access]) -> bool {
        match (self, accesses.first()) {
            (Counted::Read, Some(Access::Read(_))) => true,
            (Counted::Written, Some(Access::Write(_, _))) => true,
            _ => false,
        }
    }
}

// How many words are done: those of the call that is made, behind those of the calls before it.
#[derive(Drop)]
struct Words<G> {
    progress: G,
    // How many words of the calls before are done, at most 2^64 - 1.
    before: u64,
    // Whether those of the call count.
    counts: bool,
}

impl<G: Progress> Words<G> {
    // A call that had so many answers came to its end.
    fn finish(&mut self, answers: usize) {
        if self.counts {
            self.before = self.before.saturating_add(answers as u64);
        }
        self.progress.reached(self.before);
    }
}

impl<G: Progress> Progress for Words<G> {
    fn begin(&mut self, accesses: u64) {
        self.progress.begin(accesses);
    }

    fn reached(&mut self, done: u64) {
        let done = if self.counts { done } else { 0 };
        self.progress.reached(self.before.saturating_add(done));
    }
}

/// An optional writer of the reports, and what is told how many words are done: after every 1,024 words of a call, and
/// after each call.
#[derive(Drop)]
pub struct PacedReports<O, G> {
    /// The writer of the reports.
    pub report: Option<O>,
    words: Words<G>,
    counted: Counted,
}

impl<O, G: Progress> PacedReports<O, G> {
    /// Returns them before calls over so many words that count.
    pub fn new(report: Option<O>, progress: G, counted: Counted, words: u64) -> PacedReports<O, G>
        ensures { result.report ≡ report }
    {
        let mut progress = progress;
        progress.begin(words);
        PacedReports {
            report,
            words: Words {
                progress,
                before: 0,
                counts: false,
            },
            counted,
        }
    }
}

impl<O: Write, G: Progress> CallReports for PacedReports<O, G> {
    ghost held = { λ reports. run_file_held O.contents reports.report };

    fn make_call<W: Wire, A: Allocator + Copy>(
        &mut self,
        alloc: A,
        wire: &mut W,
        batch: &Batch<A>,
        limits: Limits,
    ) -> Result<Report<A>, ImageFault> {
        self.words.counts = self.counted.has(batch.accesses.as_slice());
        let (report, words) = (&mut self.report, &mut self.words);
        let made = call_with(alloc, wire, batch, limits, report, words);
        if let Ok(made) = &made {
            self.words.finish(made.answers.len());
        }
        made
    }
}
