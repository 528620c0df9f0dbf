//! The run of a script, for [`over_line`](swd_remote::over_line).
ghost use Rattle.std.specs.Prelude.{[]};
ghost use Rattle.std.proofs.Props.{props};
ghost use Rattle.swd_script.specs.Laws.{IsScriptRunnable};
ghost use Rattle.swd_script.specs.Readers.{read_script_meaning};
ghost use Rattle.swd_run.specs.Engine.{BatchAnswersAt};
ghost use Rattle.swd_run.specs.Records.{run_files_of};
ghost use Rattle.swd_run.specs.Wires.{run_story_wire};

use std::alloc::Allocator;
use std::io::Write;
use swd_port::{Story, Tied, Transport, TransportWire};
use swd_remote::LineJob;
use swd_run::{EngineFault, Finished, Limits, Progress, Records, run_batches};
use swd_script::Script;
use swd_text::ItemsPrinter;

/// A run of a script's calls, by `swd_run::run_batches`. The script's memory and log capacity are ignored.
///
/// Whatever comes back, the run ends unless the connection blocks, and each report has at most as many requests as its
/// tries allow. For every story that starts at rest and with which the replies are consistent, the reports are as
/// `run_batches` promises. If the target conforms to the model, one of these stories is its own. The reports describe
/// all calls of the wire, with or without such a story.
#[derive(Drop)]
pub struct RunJob<'a, O, T, I, A: Allocator, G> {
    /// What the answers are allocated with.
    pub alloc: A,
    /// The script.
    pub script: &'a Script<A>,
    /// What each call may meet.
    pub limits: Limits,
    /// Where the reports are written.
    pub report: O,
    /// The writers of the other files.
    pub records: Records<T, I, G>,
    ghost runnable: { IsScriptRunnable (read_script_meaning script.now) } by { Prim.hlevel props },
}

impl<'a, O: Write, T: Write + Drop, I: ItemsPrinter, A: Allocator + Copy, G: Progress> LineJob
    for RunJob<'a, O, T, I, A, G> {
    type Answer = Result<Finished, EngineFault>;

    ghost came = { λ story old new answer calls. BatchAnswersAt (run_story_wire story) old.limits
        (read_script_meaning old.script.now).batches [] calls answer (O.contents old.report) (O.contents new.report)
        (run_files_of T.contents I.text old.records) (run_files_of T.contents I.text new.records) };

    fn perform<K: Transport, P: Story>(
        &mut self,
        wire: TransportWire<K, P, Tied>,
    ) -> (Result<Finished, EngineFault>, TransportWire<K, P, Tied>) {
        let batches = self.script.batches.as_slice();
        let (alloc, limits) = (self.alloc, self.limits);
        run_batches(
            alloc,
            wire,
            batches,
            limits,
            &mut self.report,
            &mut self.records,
        )
    }
}
