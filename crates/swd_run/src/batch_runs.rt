//! The runs of one batch, and their report.
ghost use Rattle.std.specs.Prelude.{◌≡◌, ◌≤◌, [], IfNone, IfSome, List, None, Option, Some, length, ℕ};
ghost use Rattle.std.specs.Vec.{vec_capacity};
ghost use Rattle.swd_port.specs.declared.wire.Due.TheVariants.{Nothing};
ghost use Rattle.swd_io.specs.Blocks.{BlockBufferSends};
ghost use Rattle.swd_host.specs.Reports.{host_report_of};
ghost use Rattle.swd_host.specs.Fields.{host_report_to};
ghost use Rattle.swd_script.specs.Readers.{script_batch_listed};
ghost use Rattle.swd_script.specs.Laws.{IsScriptBatch};
ghost use Rattle.swd_run.specs.declared.going_on.Stop.{Stop as StopType};
ghost use Rattle.swd_run.specs.Reporting.{Goes};
ghost use Rattle.swd_run.specs.Reports.{IsBatchReported, ReportsBatchRun, ReportsBatchRunFrom, report_lines_from};
ghost use Rattle.swd_run.specs.Sessions.{RunsBatchFrom, batch_bursts};
ghost use Rattle.swd_run.specs.Unfoldings.{IsCutShort};

use crate::going_on::make_call_to;
use crate::limits::Limits;
use crate::options::CallOptions;
use crate::performing::perform;
use crate::progress::Progress;
use crate::report::write_run;
use crate::reporting::{Reporting, finish};
use std::alloc::Allocator;
use std::io::Write;
use swd_host::{Ending, Report};
use swd_io::Block;
use swd_port::{Answer, Wire};
use swd_script::{Batch, Until};

/// The result of the runs of a batch whose report was written.
#[derive(Drop)]
pub struct ReportedRun<A: Allocator> {
    /// The report of the last one, with the answers of all its calls.
    pub report: Report<A>,
    /// The number of bytes of the batch's report that were written, at most 2^64 - 1: all of them, or if the writer
    /// failed, the first ones.
    pub written: Result<u64, u64>,
}

pub(crate) type Reported<A> = ReportedRun<A>;

// Performs the accesses of a batch, and appends the lines of its run to a report.
fn run_reporting<W: Wire, O: Write, A: Allocator, G: Progress>(
    wire: &mut W,
    batch: &Batch<A>,
    options: CallOptions,
    report: &mut Reporting<'_, '_, '_, O, Vec<Answer, A>, G>,
) -> Ending
    requires batch { IsScriptBatch (script_batch_listed batch.now) }
    requires due { (W.port wire.old).link.due ≡ Nothing }
    requires none { report.old.answers.now.items ≡ [] }
    requires room { length (script_batch_listed batch.now).accesses ≤ vec_capacity report.old.answers.now }
    requires accesses { report.old.accesses.now ≡ (script_batch_listed batch.now).accesses }
    ensures block { report.new.block.ghost_name ≡ report.old.block.ghost_name }
    ensures writer { report.new.block.now.writer.ghost_name ≡ report.old.block.now.writer.ghost_name }
    ensures answers { report.new.answers.ghost_name ≡ report.old.answers.ghost_name }
    ensures goes { (stops : List StopType) × Goes O.contents (λ answers. answers.items) report.old stops report.new
        × RunsBatchFrom W.Wire options.opened (batch_bursts options.limits.bursts (script_batch_listed batch.now))
        options.limits (script_batch_listed batch.now) wire.old
        (record { stops = stops; told = host_report_to report.new.answers.now.items result }) wire.new }
    ensures plan { W.plan wire.new ≡ W.plan wire.old }
{
    match make_call_to(wire, batch, options, report) {
        Ok(ending) => ending,
        Err(never) => match never {},
    }
}

// Performs the accesses of a batch. Appends the answers, and to a block the lines of the run.
fn put_run<W: Wire, O: Write, A: Allocator, G: Progress>(
    wire: &mut W,
    batch: &Batch<A>,
    options: CallOptions,
    block: &mut Block<'_, O>,
    answers: &mut Vec<Answer, A>,
    progress: &mut G,
) -> Ending
    requires batch { IsScriptBatch (script_batch_listed batch.now) }
    requires due { (W.port wire.old).link.due ≡ Nothing }
    requires none { answers.old.items ≡ [] }
    requires room { length (script_batch_listed batch.now).accesses ≤ vec_capacity answers.old }
    ensures writer { block.new.writer.ghost_name ≡ block.old.writer.ghost_name }
    ensures goes { (stops : List StopType)
        × RunsBatchFrom W.Wire options.opened (batch_bursts options.limits.bursts (script_batch_listed batch.now))
        options.limits (script_batch_listed batch.now) wire.old
        (record { stops = stops; told = host_report_to answers.new.items result }) wire.new
        × ((start : Option (List ℕ)) → BlockBufferSends O.contents start block.old []
        → BlockBufferSends O.contents start block.new
        (report_lines_from None 0 stops (script_batch_listed batch.now).accesses answers.new.items)) }
    ensures plan { W.plan wire.new ≡ W.plan wire.old }
{
    let mut report = Reporting {
        block,
        accesses: batch.accesses.as_slice(),
        answers,
        progress,
    };
    run_reporting(wire, batch, options, &mut report)
}

// Performs the accesses of a batch that is no `until` over a wire as `run_on_reporting` does, with these options.
fn report_call<W: Wire, O: Write, A: Allocator + Copy, G: Progress>(
    alloc: A,
    wire: &mut W,
    batch: &Batch<A>,
    options: CallOptions,
    report: &mut O,
    progress: &mut G,
) -> Option<Reported<A>>
    requires batch { IsScriptBatch (script_batch_listed batch.now) }
    requires plain { batch.now.until ≡ None }
    requires due { (W.port wire.old).link.due ≡ Nothing }
    ensures reports { IfSome result (λ reported. ReportsBatchRunFrom W.Wire options.opened
        options.limits (script_batch_listed batch.now)
        wire.old wire.new (O.contents report.old) (O.contents report.new) (host_report_of reported.report)
        reported.written) }
    ensures unsent { IfNone result (wire.new ≡ wire.old) }
    ensures unwritten { IfNone result (O.contents report.new ≡ O.contents report.old) }
    ensures plan { W.plan wire.new ≡ W.plan wire.old }
{
    let Ok(mut answers) = Vec::with_capacity(alloc, batch.accesses.len()) else {
        return None;
    };
    let mut block = Block::new(report, 0);
    let ending = put_run(wire, batch, options, &mut block, &mut answers, progress);
    let written = finish(&mut block, &ending, answers.len());
    Some(ReportedRun {
        report: ending.with(answers),
        written,
    })
}

/// Performs the accesses of a batch that is no `until` over a wire, as [`run_on`](crate::run_on) does, and writes their
/// report meanwhile: each line at the latest 1,024 lines after it is known. The run goes on to its end where the writer
/// fails. `progress` is told how many accesses are done, after every 1,024 of them. Returns `None` if an allocation
/// fails. Nothing was sent then, and nothing written.
pub fn run_on_reporting<W: Wire, O: Write, A: Allocator + Copy, G: Progress>(
    alloc: A,
    wire: &mut W,
    batch: &Batch<A>,
    limits: Limits,
    report: &mut O,
    progress: &mut G,
) -> Option<ReportedRun<A>>
    requires batch { IsScriptBatch (script_batch_listed batch.now) }
    requires plain { batch.now.until ≡ None }
    requires due { (W.port wire.old).link.due ≡ Nothing }
    ensures reports { IfSome result (λ reported. ReportsBatchRun W.Wire limits
        (script_batch_listed batch.now)
        wire.old wire.new (O.contents report.old) (O.contents report.new) (host_report_of reported.report)
        reported.written) }
    ensures unsent { IfNone result (wire.new ≡ wire.old) }
    ensures unwritten { IfNone result (O.contents report.new ≡ O.contents report.old) }
    ensures plan { W.plan wire.new ≡ W.plan wire.old }
{
    let options = CallOptions {
        limits,
        opened: false,
    };
    report_call(alloc, wire, batch, options, report, progress)
}

// Performs the reads of an `until`. Writes the report of the last one at its end, since it has the number of reads.
fn report_until<W: Wire, O: Write, A: Allocator + Copy>(
    alloc: A,
    wire: &mut W,
    batch: &Batch<A>,
    until: Until,
    options: CallOptions,
    report: &mut O,
) -> Option<Reported<A>>
    requires batch { IsScriptBatch (script_batch_listed batch.now) }
    requires until { batch.now.until ≡ Some until }
    requires due { (W.port wire.old).link.due ≡ Nothing }
    ensures reported { IfSome result (λ reported. IsBatchReported W.Wire options.opened
        options.limits (script_batch_listed batch.now)
        wire.old wire.new (O.contents report.old) (O.contents report.new) (host_report_of reported.report)
        reported.written) }
    ensures cut { IfNone result (IsCutShort W.Wire options.opened options.limits
        (script_batch_listed batch.now) wire.old wire.new) }
    ensures unwritten { IfNone result (O.contents report.new ≡ O.contents report.old) }
    ensures plan { W.plan wire.new ≡ W.plan wire.old }
{
    let performed = perform(alloc, wire, batch, until, options)?;
    let written = write_run(report, batch, &performed);
    Some(ReportedRun {
        report: performed.last.report,
        written,
    })
}

/// Performs a batch over a wire: one run, or the reads of an `until`, each a run of its own. Writes the batch's report:
/// the lines of a run while it goes on, and those of an `until` after its last read. A run goes on to its end where the
/// writer fails. `progress` is told how many accesses of a run are done, after every 1,024 of them. Returns `None` if
/// an allocation fails. Nothing of this report was written then.
pub(crate) fn report_batch<W: Wire, O: Write, A: Allocator + Copy, G: Progress>(
    alloc: A,
    wire: &mut W,
    batch: &Batch<A>,
    options: CallOptions,
    report: &mut O,
    progress: &mut G,
) -> Option<Reported<A>>
    requires batch { IsScriptBatch (script_batch_listed batch.now) }
    requires due { (W.port wire.old).link.due ≡ Nothing }
    ensures reported { IfSome result (λ reported. IsBatchReported W.Wire options.opened
        options.limits (script_batch_listed batch.now)
        wire.old wire.new (O.contents report.old) (O.contents report.new) (host_report_of reported.report)
        reported.written) }
    ensures cut { IfNone result (IsCutShort W.Wire options.opened options.limits
        (script_batch_listed batch.now) wire.old wire.new) }
    ensures unwritten { IfNone result (O.contents report.new ≡ O.contents report.old) }
    ensures plan { W.plan wire.new ≡ W.plan wire.old }
{
    match batch.until {
        Some(until) => report_until(alloc, wire, batch, until, options, report),
        None => report_call(alloc, wire, batch, options, report, progress),
    }
}
