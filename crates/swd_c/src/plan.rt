//! The transactions that a run asks for next, as integers.
ghost use Rattle.std.specs.Prelude.{◌≡◌, ◌≤◌, ◌<◌, ◌++◌, drop, length, map};
ghost use Rattle.swd_steps.specs.declared.run.Run.{Run as RunType};
ghost use Rattle.swd_steps.specs.Fields.{stepped_fields};
ghost use Rattle.swd_c.specs.Plans.{CApiPlans, c_api_planned};
ghost use Rattle.swd_c.specs.Runs.{CApiHasNoRun};

use crate::access::SwdAccess;
use crate::cue::bits_of;
use crate::run::AccessArray;
use swd_port::{Coming, MOST_ACCESSES};
use swd_steps::RunFields;

/// A transaction of a plan.
#[repr(C)]
#[derive(Clone, Copy, Debug, PartialEq, Eq)]
pub struct SwdPlanned {
    /// The word that a write sends; 0 for a read.
    pub word: u32,
    /// The eight bits of the request, the first in time least significant.
    pub request: u8,
}

impl SwdPlanned {
    fn of(coming: Coming) -> SwdPlanned
        ensures { result ≡ c_api_planned coming }
    {
        SwdPlanned {
            word: coming.word,
            request: bits_of(coming.request),
        }
    }
}

/// Stores the transactions that come next, each as long as those before it are answered OK with right parity, in the
/// first objects of `plan`, at most 128. Returns how many. They end behind a read whose word decides what follows, and
/// with the last access. Stores none where something else than a request comes next, or nothing, and for fields of no
/// run, or with more answers than a list has accesses.
#[unsafe(no_mangle)]
pub extern "C" fn swd_run_plan(
    run: &RunFields,
    accesses: &[SwdAccess],
    plan: &mut [SwdPlanned],
) -> u32
    ensures plans { (now : RunType) → stepped_fields now ≡ run.now → now.answered ≤ 65536
        → CApiPlans accesses.now now plan.old plan.new result }
    ensures refused { CApiHasNoRun run.now → result ≡ 0 }
    ensures many { 65536 < run.now.answered → result ≡ 0 }
    ensures same { result ≡ 0 → plan.new ≡ plan.old }
{
    if run.answered > MOST_ACCESSES {
        return 0;
    }
    let Some(run) = run.run() else {
        return 0;
    };
    let coming = run.coming(&AccessArray { accesses }, plan.len());
    store(plan, coming.as_slice());
    coming.len() as u32
}

// Stores these transactions in the first objects.
fn store(plan: &mut [SwdPlanned], coming: &[Coming])
    requires { length coming.now ≤ length plan.old }
    ensures { plan.new ≡ map c_api_planned coming.now ++ drop (length coming.now) plan.old }
{
    for place in 0..coming.len() {
        plan[place] = SwdPlanned::of(coming[place]);
    }
}
