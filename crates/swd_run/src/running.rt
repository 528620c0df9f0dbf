//! Runs a script over a simulated target with the marks of a plan.
ghost use Rattle.std.specs.Prelude.{◌≡◌, true, false, IfSome, None};
ghost use Rattle.swd_port.specs.Made.{port_made};
ghost use Rattle.swd_script.specs.Readers.{read_script_meaning};
ghost use Rattle.swd_script.specs.Laws.{IsScriptRunnable};
ghost use Rattle.swd_target.specs.Marks.{IsLegalPlan};
ghost use Rattle.swd_target.specs.Benches.{bench_port, bench_plan, bench_simulation};
ghost use Rattle.swd_run.specs.Records.{run_files_of};
ghost use Rattle.swd_run.specs.ScriptDevices.{script_bus, script_device_bus};
ghost use Rattle.swd_run.specs.Running.{ScriptRunAnswers, RunsText, full_room, with_full_room};

use crate::engine::{Finished, run_batches};
use crate::fault::{EngineFault, RunFault};
use crate::limits::Limits;
use crate::progress::Progress;
use crate::records::Records;
use crate::script_device::{KeepsLog, ScriptDevice, device_of};
use crate::texts::{Texts, read_texts};
use std::alloc::Allocator;
use std::io::{Read, Write};
use swd_port::Mark;
use swd_script::Script;
use swd_target::laws::marks_used;
use swd_target::{Bench, Quirks};
use swd_text::ItemsPrinter;

/// The choices of the simulated target of a script.
pub const QUIRKS: Quirks = Quirks {
    wrap: true,
    late: false,
    filler: 0,
    idr: None,
};

/// Returns the capacity of a device's log, if the log is full.
fn full_room<A: Allocator>(device: &ScriptDevice<A>, room: u32) -> Option<u32>
    ensures { result ≡ full_room room (script_device_bus device.now) }
{
    if device.log().len() == room as usize {
        Some(room)
    } else {
        None
    }
}

// Returns this result with the capacity of the full log.
fn with_full(
    answer: Result<Finished, EngineFault>,
    full: Option<u32>,
) -> Result<Finished, EngineFault>
    ensures { result ≡ with_full_room full answer }
{
    match answer {
        Ok(finished) => Ok(Finished { full, ..finished }),
        Err(fault) => Err(fault),
    }
}

// Returns the simulated target of a script, with the marks of a plan. Returns `None` if out of memory.
fn target_of<A: Allocator + Copy>(
    alloc: A,
    script: &Script<A>,
    plan: Vec<Mark, A>,
) -> Option<Bench<ScriptDevice<A>, A>>
    requires script { IsScriptRunnable (read_script_meaning script.now) }
    requires plan { IsLegalPlan plan.items }
    ensures port { IfSome result (λ bench. bench_port script_device_bus bench
        ≡ port_made 0x2ba0_1477 (script_bus (read_script_meaning script.now))) }
    ensures plan { IfSome result (λ bench. bench_plan bench ≡ plan.items) }
    // A transfer takes effect at once, TAR wraps at the end of a kilobyte, and a value that is unknown is 0.
    ensures choices { IfSome result (λ bench.
        (bench_simulation script_device_bus bench).quirks
        ≡ record { wrap = true; late = false; filler = 0; idr = None }) }
{
    let device = device_of(alloc, script)?;
    Some(Bench::new(device, QUIRKS, plan))
}

/// Runs a script's calls by [`run_batches`](crate::run_batches) over a simulated target with the marks of a plan. The
/// target is a `Bench` over the script's device (`device_of`).
///
/// Allocates the device before the first call. [`read_texts`](crate::read_texts) reads the script and the plan, and
/// [`run_text`] does both.
///
/// # Errors
///
/// Returns an error as `run_batches` does, and `Memory` also if out of memory for the target. Nothing was written then.
pub fn run_script<W: Write, T: Write + Drop, I: ItemsPrinter, A: Allocator + Copy, G: Progress>(
    alloc: A,
    script: &Script<A>,
    plan: Vec<Mark, A>,
    limits: Limits,
    writer: &mut W,
    records: &mut Records<T, I, G>,
) -> Result<Finished, EngineFault>
    requires script { IsScriptRunnable (read_script_meaning script.now) }
    requires plan { IsLegalPlan plan.items }
    ensures { ScriptRunAnswers limits (read_script_meaning script.now) plan.items result
        (W.contents writer.old) (W.contents writer.new) (run_files_of T.contents I.text records.old)
        (run_files_of T.contents I.text records.new) }
{
    let Some(bench) = target_of(alloc, script, plan) else {
        return Err(EngineFault::Memory);
    };
    // The marks that a run uses are among those of the plan.
    marks_used::<ScriptDevice<A>, A>();
    let batches = script.batches.as_slice();
    let (answer, bench) = run_batches(alloc, bench, batches, limits, writer, records);
    with_full(answer, full_room(bench.device(), script.room))
}

/// Reads a script and a plan by [`read_texts`], and runs the script by [`run_script`] under the plan's marks.
///
/// Allocates the accesses, the marks and the device before the first call.
///
/// # Errors
///
/// Returns `Texts` for the first error of the script or, if the script is valid, of the plan, or if a reader failed.
/// Nothing was written then. Returns `Engine` as `run_batches` does, and with `Memory` also if out of memory for the
/// target.
pub fn run_text<
    S: Read,
    P: Read,
    W: Write,
    T: Write + Drop,
    I: ItemsPrinter,
    A: Allocator + Copy,
    G: Progress,
>(
    alloc: A,
    script: &mut S,
    plan: &mut P,
    limits: Limits,
    writer: &mut W,
    records: &mut Records<T, I, G>,
) -> Result<Finished, RunFault>
    ensures { RunsText limits result (S.remaining script.old) (P.remaining plan.old)
        (W.contents writer.old) (W.contents writer.new) (run_files_of T.contents I.text records.old)
        (run_files_of T.contents I.text records.new) }
{
    let Texts { script, plan } = match read_texts(alloc, script, plan) {
        Ok(texts) => texts,
        Err(fault) => return Err(RunFault::Texts(fault)),
    };
    match run_script(alloc, &script, plan, limits, writer, records) {
        Ok(finished) => Ok(finished),
        Err(fault) => Err(RunFault::Engine(fault)),
    }
}
