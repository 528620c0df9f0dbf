//! The host over a wire that loses an acknowledgement, and a run that is resumed.
ghost use Rattle.std.specs.Prelude.{◌≡◌, IfOk};
ghost use Rattle.swd_port.specs.declared.wire.Due.TheVariants.{Nothing};
ghost use Rattle.swd_target.specs.Marks.{IsLegalPlan};

use crate::whole::{BASE, Failure, IMAGE, QUIRKS, TRIES, writes};
use std::alloc::{AllocError, Global};
use swd_host::{End, Report, resume, run};
use swd_port::{Access, Answer, Mark, Wire};
use swd_target::{Bench, Memory};

// Performs a list of accesses, and resumes it once after a lost acknowledgement.
fn write_all<W: Wire>(alloc: Global, wire: &mut W, accesses: &[Access]) -> Result<Report, Failure>
    requires { (W.port wire.old).link.due ≡ Nothing }
{
    let report = run(alloc, wire, accesses, TRIES)?;
    if report.ended != End::Lost {
        return Ok(report);
    }
    Ok(resume(alloc, wire, accesses, &report, TRIES)?)
}

// Returns the plan of the requests: the target doesn't see the first one.
fn plan(alloc: Global) -> Result<Vec<Mark>, AllocError>
    ensures { IfOk result (λ plan. IsLegalPlan plan.items) }
{
    let mut plan = Vec::new(alloc);
    plan.push(Mark::Deaf)?;
    Ok(plan)
}

/// Loads the image over a wire on which the target doesn't see the first request.
pub fn load(alloc: Global) -> Result<(), Failure> {
    let memory = Memory::new(alloc, BASE, 64, 65_536)?;
    let mut wire = Bench::new(memory, QUIRKS, plan(alloc)?);
    let report = write_all(alloc, &mut wire, writes(alloc)?.as_slice())?;
    if report.ended != End::All {
        return Err(Failure::Stopped(report.ended));
    }
    // The report covers the whole list, with the answers of both calls.
    if report.answers.len() != IMAGE.len() {
        return Err(Failure::Differs(report.answers.len()));
    }
    match report
        .answers
        .iter()
        .position(|answer| *answer != Answer::Written)
    {
        Some(index) => Err(Failure::BusFault(index)),
        None => Ok(()),
    }
}
