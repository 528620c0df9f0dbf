//! Reads the script and the plan of a run.
ghost use Rattle.std.specs.Prelude.{◌≡◌, IfOk, IfErr};
ghost use Rattle.swd_script.specs.Laws.{IsScriptRunnable};
ghost use Rattle.swd_script.specs.Readers.{read_script_meaning};
ghost use Rattle.swd_target.specs.Marks.{IsLegalPlan};
ghost use Rattle.swd_run.specs.Running.{AreScriptAndPlan, AreRunTextsUnread};
ghost use Rattle.swd_run.specs.Running.{run_plan_fault as plan_fault_of, run_script_fault as script_fault_of};

use crate::fault::TextsFault;
use std::alloc::Allocator;
use std::io::Read;
use swd_io::Unread;
use swd_port::Mark;
use swd_script::{Script, ScriptFault, read_plan, read_script};

/// A script and the marks of a plan.
#[derive(Drop)]
pub struct Texts<A: Allocator> {
    pub script: Script<A>,
    pub plan: Vec<Mark, A>,
}

// Returns the error of a script that wasn't read.
fn script_fault(unread: Unread<ScriptFault>) -> TextsFault
    ensures { result ≡ script_fault_of unread }
{
    match unread {
        Unread::Reader => TextsFault::Read,
        Unread::Consumer(fault) => TextsFault::Script(fault),
    }
}

// Returns the error of a plan that wasn't read.
fn plan_fault(unread: Unread<ScriptFault>) -> TextsFault
    ensures { result ≡ plan_fault_of unread }
{
    match unread {
        Unread::Reader => TextsFault::Read,
        Unread::Consumer(fault) => TextsFault::Plan(fault),
    }
}

/// Reads a script and then a plan. The script can be run, and the marks are legal.
///
/// # Errors
///
/// Returns `Script` or `Plan` for the first error of the script or, if the script is valid, of the plan, and `Read` if
/// a reader failed.
pub fn read_texts<S: Read, P: Read, A: Allocator + Copy>(
    alloc: A,
    script: &mut S,
    plan: &mut P,
) -> Result<Texts<A>, TextsFault>
    ensures read { IfOk result (λ texts. AreScriptAndPlan (S.remaining script.old) (P.remaining plan.old)
        (read_script_meaning texts.script) texts.plan.items) }
    ensures script { IfOk result (λ texts. IsScriptRunnable (read_script_meaning texts.script)) }
    ensures plan { IfOk result (λ texts. IsLegalPlan texts.plan.items) }
    ensures fault { IfErr result (λ fault. AreRunTextsUnread fault (S.remaining script.old) (P.remaining plan.old)) }
{
    let script = match read_script(alloc, script) {
        Ok(script) => script,
        Err(unread) => return Err(script_fault(unread)),
    };
    match read_plan(alloc, plan) {
        Ok(plan) => Ok(Texts { script, plan }),
        Err(unread) => Err(plan_fault(unread)),
    }
}
