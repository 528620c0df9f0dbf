//! Makes the simulated target of a device, or of a script, and a plan for an external host.
ghost use Rattle.std.specs.Prelude.{◌≡◌, ◌↔◌, true, map, IfOk, IfErr};
ghost use Rattle.swd_script.specs.Readers.{script_batch_listed};
ghost use Rattle.swd_target.specs.Marks.{IsLegalPlan};
ghost use Rattle.swd_ends.specs.Serving.{AreTargetEndPinsAtRest, IsTargetEndScript, IsTargetEndMade, IsTargetEndFault};
ghost use Rattle.swd_ends.specs.Serving.{SimulatesTargetEnd};

use std::alloc::Allocator;
use std::io::Read;
use swd_bitbang::{Pins, Trace};
use swd_clocked::FaultyClocked;
use swd_port::Mark;
use swd_run::{QUIRKS, ScriptDevice, Texts, TextsFault, device_of, read_texts};
use swd_script::Batch;
use swd_target::{Device, Quirks};

/// The error of making a target to serve.
#[derive(Clone, Copy, Debug, PartialEq, Eq, Drop)]
pub enum TargetFault {
    /// The script or the plan wasn't read.
    Texts(TextsFault),
    /// Out of memory.
    Memory,
    /// The script has accesses or further calls. A target performs only those of its host.
    Accesses,
}

/// Returns the pins of a simulated target with this device and a plan of these marks, before the host moved any. The
/// target's choices are those of `swd run`, but for its IDR. With a write buffer (`buffers`) its transfers take effect
/// as late as allowed, so that a write is pending. The pins record in `trace`.
pub fn target_pins<D: Device, A: Allocator>(
    device: D,
    plan: Vec<Mark, A>,
    idr: Option<u32>,
    buffers: bool,
    trace: Trace<A>,
) -> Pins<D, A>
    requires { IsLegalPlan plan.items }
    ensures made { IsTargetEndMade D.bus (D.bus device) plan.items idr buffers result.target }
    ensures rests { AreTargetEndPinsAtRest trace result }
{
    let quirks = Quirks {
        idr,
        late: buffers,
        ..QUIRKS
    };
    let target = FaultyClocked::new(device, quirks, plan);
    Pins::new(target.with_buffer(buffers), trace)
}

/// Reads a script and a plan, and returns the pins of the simulated target that they describe, before the host moved
/// any. The target has the script's device (`swd_run::device_of`), its requests use the plan's marks, and it has this
/// IDR or none, and a write buffer or none (`buffers`). The pins record in `trace`.
///
/// # Errors
///
/// Returns `Texts` for the first error of the script or, if the script is valid, of the plan, or if a reader failed.
/// Returns `Accesses` if the script has accesses or further calls, and `Memory` if out of memory for the target.
pub fn read_target<S: Read, P: Read, A: Allocator + Copy>(
    alloc: A,
    script: &mut S,
    plan: &mut P,
    idr: Option<u32>,
    buffers: bool,
    trace: Trace<A>,
) -> Result<Pins<ScriptDevice<A>, A>, TargetFault>
    ensures made { IfOk result (λ pins.
        SimulatesTargetEnd (S.remaining script.old) (P.remaining plan.old) idr buffers trace pins) }
    ensures fault { IfErr result (λ fault. IsTargetEndFault fault (S.remaining script.old) (P.remaining plan.old)) }
{
    let Texts { script, plan } = match read_texts(alloc, script, plan) {
        Ok(texts) => texts,
        Err(fault) => return Err(TargetFault::Texts(fault)),
    };
    if !is_bare(script.batches.as_slice()) {
        return Err(TargetFault::Accesses);
    }
    let Some(device) = device_of(alloc, &script) else {
        return Err(TargetFault::Memory);
    };
    Ok(target_pins(device, plan, idr, buffers, trace))
}

// Returns whether there is exactly one call, without accesses.
fn is_bare<A: Allocator>(batches: &[Batch<A>]) -> bool
    ensures { (result ≡ true) ↔ IsTargetEndScript (map script_batch_listed batches.now) }
{
    match batches {
        [batch] => batch.accesses.is_empty(),
        _ => false,
    }
}
