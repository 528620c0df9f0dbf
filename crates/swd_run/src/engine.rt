//! Runs the calls of a script over any wire, and writes their reports, their trace and the accesses that it shows.
ghost use Rattle.std.specs.Prelude.{ℕ, ◌≡◌, All as Each, List, [], ◌∷◌, ◌++◌, None, Option, map, true};
ghost use Rattle.swd_port.specs.declared.call.Call.{Call};
ghost use Rattle.swd_port.specs.declared.wire.Due.TheVariants.{Nothing};
ghost use Rattle.swd_port.specs.Laws.Calls.{port_with_asked};
ghost use Rattle.swd_host.specs.Reports.{host_report_of};
ghost use Rattle.swd_trace.specs.Listed.{AreLegalItems};
ghost use Rattle.swd_trace.specs.Texts.{trace_text};
ghost use Rattle.swd_recorder.specs.Recorders.{recorder_plan, recorder_port};
ghost use Rattle.swd_script.specs.Readers.{script_batch_listed};
ghost use Rattle.swd_script.specs.Laws.{IsScriptBatch};
ghost use Rattle.swd_script.specs.Scripts.{ScriptListed};
ghost use Rattle.swd_run.specs.Unfoldings.{AreRunsOfBatch, BatchRuns, Unfolds, until_never_came};
ghost use Rattle.swd_run.specs.Engine.{BatchAnswersAt, BatchAnswers, IsScriptFinished, RunFilesOutcome};
ghost use Rattle.swd_run.specs.GrowingFiles.{GrowingFileHas};
ghost use Rattle.swd_run.specs.Wires.{run_recorder_wire, run_wire_seen};
ghost use Rattle.swd_run.specs.Records.{run_files_from, run_files_of, run_file_held, wants_run_files, no_run_files};

use crate::batch_runs::{Reported, report_batch};
use crate::counting::count_accesses;
use crate::fault::EngineFault;
use crate::growing::GrowingFile;
use crate::limits::Limits;
use crate::options::CallOptions;
use crate::performing::never_came;
use crate::progress::{CallProgress, Progress};
use crate::records::{Records, write_accesses};
use crate::traced::{Origin, Traced};
use crate::verified::{Difference, or_bus_fault, or_difference_in};
use std::alloc::Allocator;
use std::io::Write;
use std::marker::Brand;
use swd_host::End;
use swd_port::Wire;
use swd_recorder::Recorder;
use swd_script::Batch;
use swd_text::ItemsPrinter;
use swd_trace::Item;

/// The result of a script's run.
#[derive(Clone, Copy, Debug, PartialEq, Eq)]
pub struct Finished {
    /// The end of its last call.
    pub ended: End,
    /// Whether its last call was the read of an `until` whose word never came: the read ended `All`, and the answer was
    /// another word after the most reads, or a bus error.
    pub never_came: bool,
    /// The first `verify` read whose answer wasn't the expected word.
    pub differs: Option<Difference>,
    /// Whether an access was a bus error.
    pub bus_fault: bool,
    /// The capacity of the simulated target's log in transfers, if the log is full, so that each later transfer is a
    /// bus error. `None` over any other wire.
    pub full: Option<u32>,
}

impl Finished {
    // The result before any run.
    const NONE: Finished = Finished {
        ended: End::All,
        never_came: false,
        differs: None,
        bus_fault: false,
        full: None,
    };

    // Returns the result with the runs of this batch as the last ones.
    fn and<A: Allocator>(self, batch: &Batch<A>, reported: &Reported<A>) -> Finished
        ensures ended { result.ended ≡ (host_report_of reported.now.report).ended }
        ensures never_came { result.never_came ≡ until_never_came batch.now.until (host_report_of reported.now.report) }
        ensures finished { (batches : List ScriptListed) (made : List BatchRuns) (runs : BatchRuns)
            → Unfolds batches made
            → IsScriptBatch (script_batch_listed batch.now) → AreRunsOfBatch (script_batch_listed batch.now) runs
            → runs.last.told ≡ host_report_of reported.now.report
            → IsScriptFinished batches made None self
            → IsScriptFinished (batches ++ script_batch_listed batch.now ∷ []) (made ++ runs ∷ []) None result }
    {
        let report = &reported.report;
        let reads = batch.expected.as_slice();
        let answers = report.answers.as_slice();
        Finished {
            ended: report.ended,
            never_came: never_came(batch.until, report),
            differs: or_difference_in(self.differs, reads, answers),
            bus_fault: or_bus_fault(self.bus_fault, answers),
            full: self.full,
        }
    }
}

// Runs the batches over a wire, up to the first that doesn't end `All`, or whose word never comes, or whose report
// can't be written.
fn run_reported<W: Wire, O: Write, A: Allocator + Copy, G: Progress>(
    alloc: A,
    wire: &mut W,
    batches: &[Batch<A>],
    limits: Limits,
    report: &mut O,
    progress: &mut G,
) -> Result<Finished, EngineFault>
    requires batches { Each IsScriptBatch (map script_batch_listed batches.now) }
    requires due { (W.port wire.old).link.due ≡ Nothing }
    ensures answer { BatchAnswers W.Wire limits (map script_batch_listed batches.now) wire.old
        wire.new
        result (O.contents report.old) (O.contents report.new) no_run_files no_run_files }
    ensures plan { W.plan wire.new ≡ W.plan wire.old }
{
    let mut finished = Finished::NONE;
    let mut written = 0u64;
    let mut opened = false;
    let mut done = 0u64;
    progress.begin(count_accesses(batches));
    for batch in batches {
        let options = CallOptions { limits, opened };
        let mut call = CallProgress {
            progress: &mut *progress,
            before: done,
        };
        let Some(reported) = report_batch(alloc, wire, batch, options, report, &mut call) else {
            return Err(EngineFault::Memory);
        };
        match reported.written {
            Ok(more) => written = written.saturating_add(more),
            Err(more) => {
                let written = written.saturating_add(more);
                return Err(EngineFault::Write { written });
            }
        }
        done = done.saturating_add(reported.report.answers.len() as u64);
        progress.reached(done);
        finished = finished.and(batch, &reported);
        let End::All = finished.ended else {
            return Ok(finished);
        };
        if finished.never_came {
            return Ok(finished);
        }
        opened = true;
    }
    Ok(finished)
}

// Writes the accesses that these items show, if there is a writer for them and that of the trace didn't fail. Returns
// `finished`, or `TraceCut` if `cut`: the items are truncated.
fn write_records<T: Write, I: ItemsPrinter, G>(
    file: &GrowingFile<T>,
    records: &mut Records<T, I, G>,
    items: &[Item],
    cut: bool,
    finished: Finished,
) -> Result<Finished, EngineFault>
    requires { AreLegalItems items.now }
    ensures { (start : Option (Option (List ℕ))) → ∥ GrowingFileHas T.contents start file.now (trace_text items.now) ∥₁
        → RunFilesOutcome finished cut items.now
        (run_files_from start (run_file_held T.contents records.old.accesses) (I.text records.old.printer))
        (run_files_from (run_file_held T.contents file.now.writer) (run_file_held T.contents records.new.accesses)
        (I.text records.new.printer)) result }
{
    if let Err(written) = file.sent {
        return Err(EngineFault::Write { written });
    }
    if let Err(written) = write_accesses(&mut records.accesses, items, &records.printer) {
        return Err(EngineFault::WriteAccesses { written });
    }
    if cut {
        Err(EngineFault::TraceCut)
    } else {
        Ok(finished)
    }
}

// Runs the batches over a wire that is recorded from its start, and writes their reports and its trace while they go
// on, and then the accesses. The trace's writer is put back among the files. Returns the recorder too.
fn run_traced<
    B: Origin,
    W: Wire,
    O: Write,
    T: Write + Drop,
    I: ItemsPrinter,
    A: Allocator + Copy,
    G: Progress,
>(
    alloc: A,
    traced: Traced<W, T, A, B>,
    batches: &[Batch<A>],
    limits: Limits,
    report: &mut O,
    records: &mut Records<T, I, G>,
) -> (Result<Finished, EngineFault>, Recorder<W, A>)
    requires batches { Each IsScriptBatch (map script_batch_listed batches.now) }
    requires due { (recorder_port traced.recorder).link.due ≡ Nothing }
    requires asked { (recorder_port traced.recorder).tally.asked ≡ 0 }
    requires start { B.start ≡ recorder_port traced.recorder }
    requires wanted { wants_run_files (run_files_from B.before (run_file_held T.contents records.old.accesses)
        (I.text records.old.printer)) ≡ true }
    ensures answer { BatchAnswers (run_recorder_wire B.noted) limits
        (map script_batch_listed batches.now) traced.recorder
        result.1 result.0 (O.contents report.old) (O.contents report.new)
        (run_files_from B.before (run_file_held T.contents records.old.accesses) (I.text records.old.printer))
        (run_files_of T.contents I.text records.new) }
    ensures plan { recorder_plan result.1 ≡ recorder_plan traced.recorder }
{
    let mut traced = traced;
    let progress = &mut records.progress;
    let ran = run_reported(alloc, &mut traced, batches, limits, report, progress);
    let (recorder, file) = traced.finish();
    let (items, cut) = (recorder.items(), recorder.is_cut());
    let answer = match ran {
        Ok(finished) => write_records(&file, records, items, cut, finished),
        Err(fault) => Err(fault),
    };
    records.trace = file.writer;
    (answer, recorder)
}

// Records a wire, runs the batches over it, and writes their reports and the other files.
fn run_recorded<
    B: Origin,
    W: Wire,
    O: Write,
    T: Write + Drop,
    I: ItemsPrinter,
    A: Allocator + Copy,
    G: Progress,
>(
    alloc: A,
    wire: W,
    batches: &[Batch<A>],
    limits: Limits,
    report: &mut O,
    records: &mut Records<T, I, G>,
) -> (Result<Finished, EngineFault>, W)
    requires batches { Each IsScriptBatch (map script_batch_listed batches.now) }
    requires due { (W.port wire).link.due ≡ Nothing }
    requires start { B.start ≡ port_with_asked 0 (W.port wire) }
    requires before { B.before ≡ run_file_held T.contents records.old.trace }
    requires wanted { wants_run_files (run_files_of T.contents I.text records.old) ≡ true }
    ensures answer { (calls : List Call) × BatchAnswers (run_wire_seen true W.Wire B.noted) limits
        (map script_batch_listed batches.now) ([], wire) (calls, result.1) result.0 (O.contents report.old)
        (O.contents report.new)
        (run_files_of T.contents I.text records.old) (run_files_of T.contents I.text records.new) }
    ensures plan { W.plan result.1 ≡ W.plan wire }
{
    let traced = Traced::<W, T, A, B>::new(alloc, wire, records.trace.take());
    let (answer, recorder) = run_traced(alloc, traced, batches, limits, report, records);
    (answer, recorder.into_wire())
}

/// Runs the calls of a script in order over a wire on which nothing is due, up to the first that doesn't end `All`.
/// Writes the report of each call while it goes on, and whole before the next one starts. Writes the trace while the
/// calls go on, and then the accesses that it shows, each if there is a writer for it. Returns the wire too.
///
/// The line of an access is queued when its answer is certain, and the queued lines are written after every 1,024
/// answers of a call, and at its end. So what was written is at each moment the beginning of a report, and its accesses
/// are done: `records.progress` is told then how many. If the writer fails, the call is performed to its end,
/// and its further lines are dropped.
///
/// The read of an `until` is made again, as a call of its own, until its word comes. If it never comes, no further call
/// is made. Only the last of these calls has a report, which is written at its end, since it has the number of reads.
///
/// The first call opens the target. Each later one, also each further read of an `until`, goes over the target that the
/// call before left open. So between two calls nothing else may drive the wire, and the target may not be reset.
///
/// Whatever comes back, and whatever the result is, the calls made of the wire are those that the reports describe:
/// exactly the requests that each counts, and a data phase of DRW only for an access that it answers or leaves begun.
///
/// `limits.tries` is the number of events that the opening, and each access, may meet. After a lost acknowledgement a
/// call continues by `swd_host::resume`, which opens the target again, at most `limits.resumes` times. The report has a
/// line for each time. A call allocates its answers before it starts, and nothing after that. Only the read of an
/// `until` also allocates the places where it is resumed.
///
/// The trace has the items that a `swd_recorder::Recorder` keeps, as bits in characters, one item a line. These bits
/// decode to the same items. If the target conforms to the model and was at rest, a trace that isn't truncated has one
/// transaction for each request. Its last item is then a transaction without acknowledgement exactly if the last call
/// ended `Lost`. The accesses are what `records.printer` prints of its items: with `swd_capture_text::AccessesPrinter`
/// the lines of `swd decode --accesses`. If an allocation for an item fails, the run continues. Without such a file no
/// items are kept.
///
/// The lines of the trace's items are written at each line reset, as the first call and each resumed one begin with,
/// after every 1,024 items, and after the last call. If the trace's writer fails, the calls go on, and nothing more is
/// written to it.
///
/// # Errors
///
/// Returns `Memory` if an allocation for a call fails, before its first bit or, of an `until`, when it is resumed. The
/// reports of the calls before it are complete then. Nothing of its own report was written, and no other call was made.
///
/// Returns `Write` if the report's writer failed or took no bytes. Exactly the first `written` bytes of the reports
/// were written then, including all reports of the calls before. No call was made after that.
///
/// In both cases the trace has the items of the first calls so far, or exactly the first bytes of their lines if its
/// writer failed. Nothing of the accesses was written. That these are all calls so far, unless an allocation for an
/// item failed, is only tested.
///
/// Returns `Write` too if the trace's writer failed: the reports are complete, exactly the first `written` bytes of
/// the trace were written, and nothing of the accesses. Returns `WriteAccesses` if the accesses' writer failed: the
/// reports are complete, the trace has all items, which may be truncated, and exactly the first `written` bytes of the
/// accesses were written. Returns `TraceCut` if the items are truncated, as when an allocation for an item failed: the
/// reports are complete, and the other files have these items. Nothing is retried.
pub fn run_batches<
    W: Wire,
    O: Write,
    T: Write + Drop,
    I: ItemsPrinter,
    A: Allocator + Copy,
    G: Progress,
>(
    alloc: A,
    wire: W,
    batches: &[Batch<A>],
    limits: Limits,
    report: &mut O,
    records: &mut Records<T, I, G>,
) -> (Result<Finished, EngineFault>, W)
    requires batches { Each IsScriptBatch (map script_batch_listed batches.now) }
    requires due { (W.port wire).link.due ≡ Nothing }
    ensures answer { BatchAnswersAt W.Wire limits (map script_batch_listed batches.now) wire
        result.1 result.0
        (O.contents report.old) (O.contents report.new) (run_files_of T.contents I.text records.old)
        (run_files_of T.contents I.text records.new) }
    ensures plan { W.plan result.1 ≡ W.plan wire }
{
    if records.is_wanted() {
        return run_recorded::<Brand, W, O, T, I, A, G>(
            alloc, wire, batches, limits, report, records,
        );
    }
    let mut wire = wire;
    let progress = &mut records.progress;
    let answer = run_reported(alloc, &mut wire, batches, limits, report, progress);
    (answer, wire)
}
