//! Makes one call, and requires each of its accesses to succeed.
ghost use Rattle.std.specs.Prelude.{◌≡◌, IfErr, IfOk, None, Some, length};
ghost use Rattle.swd_port.specs.PlainMemory.{plain_address};
ghost use Rattle.swd_port.specs.declared.wire.Due.TheVariants.{Nothing};
ghost use Rattle.swd_host.specs.declared.outcome.End.TheVariants.{All};
ghost use Rattle.swd_script.specs.Readers.{script_batch_listed};
ghost use Rattle.swd_script.specs.Laws.{IsScriptBatch};
ghost use Rattle.swd_run.specs.Sessions.{ScriptRun};
ghost use Rattle.swd_image.specs.Reports.{ReportsTo, image_fault_of};
ghost use Rattle.swd_image.specs.Sessions.{AreImageDone, Call, FailsAs, image_first_failed, is_image_done};

use crate::fault::ImageFault;
use crate::reports::CallReports;
use std::alloc::Allocator;
use swd_host::End;
use swd_port::{Access, Answer, Wire};
use swd_run::Limits;
use swd_script::Batch;

// Returns whether an access succeeded: a read has a word, a write is written.
fn is_done(access: Access, answer: Answer) -> bool
    ensures { result ≡ is_image_done access answer }
{
    match access {
        Access::Read(_) => matches!(answer, Answer::Value(_)),
        Access::Write(_, _) => matches!(answer, Answer::Written),
    }
}

fn address(access: Access) -> u32
    ensures { result ≡ plain_address access }
{
    match access {
        Access::Read(addr) | Access::Write(addr, _) => addr,
    }
}

// Returns the address of the first access that failed.
fn first_failed(accesses: &[Access], answers: &[Answer]) -> Option<u32>
    requires { length answers.now ≡ length accesses.now }
    ensures { result ≡ image_first_failed accesses.now answers.now }
{
    for (index, access) in accesses.iter().enumerate() {
        if !is_done(*access, answers[index]) {
            return Some(address(*access));
        }
    }
    None
}

/// Makes one call within its limits, and passes its report on. Returns the answers of the call, `Stopped` if it ended
/// early, `BusFault` if one of its accesses met a bus error, and the errors of [`CallReports::make_call`].
pub(crate) fn run_call<W: Wire, S: CallReports, A: Allocator + Copy>(
    alloc: A,
    wire: &mut W,
    batch: &Batch<A>,
    limits: Limits,
    report: &mut S,
) -> Result<Vec<Answer, A>, ImageFault>
    requires batch { IsScriptBatch (script_batch_listed batch.now) }
    requires plain { batch.now.until ≡ None }
    requires due { (W.port wire.old).link.due ≡ Nothing }
    ensures call { IfOk result (λ answers. (run : ScriptRun) × (run.told.answers ≡ answers.items)
        × Call W.Wire limits (script_batch_listed batch.now) wire.old run wire.new
        × (run.told.ended ≡ All) × AreImageDone (script_batch_listed batch.now).accesses run.told.answers) }
    ensures due { IfOk result (λ answers. (W.port wire.new).link.due ≡ Nothing) }
    ensures fault { IfErr result (FailsAs W.Wire limits (script_batch_listed batch.now).accesses wire.old wire.new) }
    ensures report { ReportsTo W.Wire limits (script_batch_listed batch.now).accesses (image_fault_of result) wire.old
        wire.new (S.held report.old) (S.held report.new) }
    ensures plan { W.plan wire.new ≡ W.plan wire.old }
{
    let made = report.make_call(alloc, wire, batch, limits)?;
    let ended = made.ended;
    let End::All = ended else {
        return Err(ImageFault::Stopped(ended));
    };
    match first_failed(batch.accesses.as_slice(), made.answers.as_slice()) {
        Some(addr) => Err(ImageFault::BusFault(addr)),
        None => Ok(made.answers),
    }
}
