//! Where the reports of the calls of a load, a dump or a verification go.
ghost use Rattle.std.specs.Prelude.{◌≡◌, ℕ, IfErr, IfOk, List, None, Option, Some};
ghost use Rattle.std.specs.Vec.{vec_capacity};
ghost use Rattle.swd_host.specs.Reports.{host_report_of};
ghost use Rattle.swd_port.specs.declared.wire.Due.TheVariants.{Nothing};
ghost use Rattle.swd_script.specs.Readers.{script_batch_listed};
ghost use Rattle.swd_script.specs.Laws.{IsScriptBatch};
ghost use Rattle.swd_run.specs.Records.{run_file_held};
ghost use Rattle.swd_image.specs.Reports.{MakesOne, ReportsTo};
ghost use Rattle.swd_image.specs.Sessions.{FailsAs};

use crate::fault::ImageFault;
use std::alloc::Allocator;
use std::convert::Infallible;
use std::io::Write;
use swd_host::{AnswerSink, Report};
use swd_port::{Answer, Wire};
use swd_run::{Limits, Progress, RunSink, Stop, TOLD_AFTER, run_on_reporting, run_on_to};
use swd_script::Batch;

/// Where the reports of the calls of a load, a dump or a verification go: [`NoReports`], an optional writer, or
/// [`PacedReports`](crate::PacedReports).
pub trait CallReports {
    /// The contents of the writer of the reports; `None` without a writer.
    ghost held: { Self → Option (Option (List ℕ)) };

    /// Makes one call within its limits, and passes its report on.
    ///
    /// # Errors
    ///
    /// - `Memory`: out of memory. Nothing was sent but calls of its first accesses, if any, each of which was answered
    ///   without a bus error.
    /// - `Report`: the writer failed or took no bytes. The call went on to its end.
    fn make_call<W: Wire, A: Allocator + Copy>(
        &mut self,
        alloc: A,
        wire: &mut W,
        batch: &Batch<A>,
        limits: Limits,
    ) -> Result<Report<A>, ImageFault>
        requires batch { IsScriptBatch (script_batch_listed batch.now) }
        requires plain { batch.now.until ≡ None }
        requires due { (W.port wire.old).link.due ≡ Nothing }
        ensures call { IfOk result (λ made. MakesOne W.Wire limits
            (script_batch_listed batch.now) wire.old wire.new (host_report_of made) (held self.old) (held self.new)) }
        ensures fault { IfErr result (FailsAs W.Wire limits
            (script_batch_listed batch.now).accesses wire.old wire.new) }
        ensures report { IfErr result (λ fault. ReportsTo W.Wire limits
            (script_batch_listed batch.now).accesses (Some fault) wire.old wire.new (held self.old) (held self.new)) }
        ensures plan { W.plan wire.new ≡ W.plan wire.old };
}

// Keeps the answers of a call, as many as there is capacity for, and no place where it was resumed. Tells how many
// there are, after every 1,024 of them.
#[derive(Drop)]
struct CallAnswers<'a, A: Allocator, G> {
    answers: Vec<Answer, A>,
    progress: &'a mut G,
}

impl<A: Allocator, G: Progress> AnswerSink for CallAnswers<'_, A, G> {
    ghost taken = { λ kept. kept.answers.items };

    ghost most = { λ kept. vec_capacity kept.answers };

    ghost keeps = { λ _ _. Unit {0} };

    fn count(&self) -> usize {
        self.answers.len()
    }

    fn take(&mut self, answer: Answer) {
        self.answers.push(answer).unwrap();
        if self.answers.len() % TOLD_AFTER == 0 {
            self.progress.reached(self.answers.len() as u64);
        }
    }

    ghost keeps_all = { λ a. tt };

    ghost keeps_on = { λ a b c first next. tt };
}

impl<A: Allocator, G: Progress> RunSink for CallAnswers<'_, A, G> {
    type Refusal = Infallible;

    ghost follows = { λ _ _ _. Unit {0} };

    fn stop(&mut self, _stop: Stop) -> Result<(), Infallible> {
        Ok(())
    }

    ghost answers_follow = { λ a b kept. tt };

    ghost follows_on = { λ a b c first next i j. tt };
}

// Makes one call, and writes no report.
fn silent_call<W: Wire, A: Allocator + Copy, G: Progress>(
    alloc: A,
    wire: &mut W,
    batch: &Batch<A>,
    limits: Limits,
    progress: &mut G,
) -> Result<Report<A>, ImageFault>
    requires batch { IsScriptBatch (script_batch_listed batch.now) }
    requires plain { batch.now.until ≡ None }
    requires due { (W.port wire.old).link.due ≡ Nothing }
    ensures call { IfOk result (λ made. MakesOne W.Wire limits (script_batch_listed batch.now) wire.old wire.new
        (host_report_of made) None None) }
    ensures fault { IfErr result (FailsAs W.Wire limits (script_batch_listed batch.now).accesses wire.old wire.new) }
    ensures report { IfErr result (λ fault. ReportsTo W.Wire limits (script_batch_listed batch.now).accesses
        (Some fault) wire.old wire.new None None) }
    ensures plan { W.plan wire.new ≡ W.plan wire.old }
{
    let Ok(answers) = Vec::with_capacity(alloc, batch.accesses.len()) else {
        return Err(ImageFault::Memory);
    };
    let mut kept = CallAnswers { answers, progress };
    match run_on_to(wire, batch, limits, &mut kept) {
        Ok(ending) => Ok(ending.with(kept.answers)),
        Err(never) => match never {},
    }
}

/// No report is written.
#[derive(Clone, Copy, Debug)]
pub struct NoReports;

impl CallReports for NoReports {
    ghost held = { λ _. None };

    fn make_call<W: Wire, A: Allocator + Copy>(
        &mut self,
        alloc: A,
        wire: &mut W,
        batch: &Batch<A>,
        limits: Limits,
    ) -> Result<Report<A>, ImageFault> {
        silent_call(alloc, wire, batch, limits, &mut ())
    }
}

// Makes one call, and writes its report meanwhile.
fn report_call<W: Wire, O: Write, A: Allocator + Copy, G: Progress>(
    alloc: A,
    wire: &mut W,
    batch: &Batch<A>,
    limits: Limits,
    writer: &mut O,
    progress: &mut G,
) -> Result<Report<A>, ImageFault>
    requires batch { IsScriptBatch (script_batch_listed batch.now) }
    requires plain { batch.now.until ≡ None }
    requires due { (W.port wire.old).link.due ≡ Nothing }
    ensures call { IfOk result (λ made. MakesOne W.Wire limits (script_batch_listed batch.now) wire.old wire.new
        (host_report_of made) (Some (O.contents writer.old)) (Some (O.contents writer.new))) }
    ensures fault { IfErr result (FailsAs W.Wire limits (script_batch_listed batch.now).accesses wire.old wire.new) }
    ensures report { IfErr result (λ fault. ReportsTo W.Wire limits (script_batch_listed batch.now).accesses
        (Some fault) wire.old wire.new (Some (O.contents writer.old)) (Some (O.contents writer.new))) }
    ensures plan { W.plan wire.new ≡ W.plan wire.old }
{
    let Some(reported) = run_on_reporting(alloc, wire, batch, limits, writer, progress) else {
        return Err(ImageFault::Memory);
    };
    match reported.written {
        Ok(_) => Ok(reported.report),
        Err(_) => Err(ImageFault::Report),
    }
}

/// Makes one call, and writes its report meanwhile, if there is a writer for it. `progress` is told how many accesses
/// are done, after every 1,024 of them.
pub(crate) fn call_with<W: Wire, O: Write, A: Allocator + Copy, G: Progress>(
    alloc: A,
    wire: &mut W,
    batch: &Batch<A>,
    limits: Limits,
    report: &mut Option<O>,
    progress: &mut G,
) -> Result<Report<A>, ImageFault>
    requires batch { IsScriptBatch (script_batch_listed batch.now) }
    requires plain { batch.now.until ≡ None }
    requires due { (W.port wire.old).link.due ≡ Nothing }
    ensures call { IfOk result (λ made. MakesOne W.Wire limits (script_batch_listed batch.now) wire.old wire.new
        (host_report_of made) (run_file_held O.contents report.old) (run_file_held O.contents report.new)) }
    ensures fault { IfErr result (FailsAs W.Wire limits (script_batch_listed batch.now).accesses wire.old wire.new) }
    ensures report { IfErr result (λ fault. ReportsTo W.Wire limits (script_batch_listed batch.now).accesses
        (Some fault) wire.old wire.new (run_file_held O.contents report.old) (run_file_held O.contents report.new)) }
    ensures plan { W.plan wire.new ≡ W.plan wire.old }
{
    match report {
        Some(writer) => report_call(alloc, wire, batch, limits, writer, progress),
        None => silent_call(alloc, wire, batch, limits, progress),
    }
}

/// The writer gets for each call the lines that `swd run` writes, each at the latest 1,024 lines after it is known, and
/// all before the next call. Without a writer no report is written.
impl<O: Write> CallReports for Option<O> {
    ghost held = { λ report. run_file_held O.contents report };

    fn make_call<W: Wire, A: Allocator + Copy>(
        &mut self,
        alloc: A,
        wire: &mut W,
        batch: &Batch<A>,
        limits: Limits,
    ) -> Result<Report<A>, ImageFault> {
        call_with(alloc, wire, batch, limits, self, &mut ())
    }
}
