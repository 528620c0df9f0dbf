//! A row's run over a simulated target, and what came of it, in the lines of a row.
ghost use Rattle.std.specs.Prelude.{◌≤◌, length, IfOk};
ghost use Rattle.swd_host.specs.Plain.{AreHostAccesses};
ghost use Rattle.swd_host.specs.Reports.{host_report_of};

use crate::row::{Fault, Row, accesses_of, number, plan_of};
use crate::shown::{put_log, put_part};
use std::alloc::Global;
use swd_host::{Bursts, End, Report, resume, run, run_block, run_to};
use swd_port::{Access, Due, Wire};
use swd_recorder::Recorder;
use swd_simulated::{BASE, Simulated, recorder_over};
use swd_target::{Memory, Quirks};

// A recorded target, and the last report of what was done over it.
#[derive(Drop)]
struct Stage<S: Simulated + Drop> {
    wire: Recorder<S>,
    report: Report,
}

/// Runs a row over a target with these quirks. Returns what came of it.
pub fn came<S: Simulated + Drop>(
    alloc: Global,
    row: &Row,
    quirks: Quirks,
) -> Result<String, Fault> {
    let mut text = String::new(alloc);
    let wire = wire_of::<S>(alloc, row, quirks)?;
    let wire = match row.block {
        Some(block) => block_came(alloc, &mut text, wire, row, block)?,
        None => list_came(alloc, &mut text, wire, row)?,
    };
    let mut target = wire.into_wire();
    // Only a late transfer is still pending where a run has ended.
    if quirks.late {
        target.settle();
    }
    put_log(alloc, &mut text, target.memory().log())?;
    Ok(text)
}

// The target of a row, whose calls are recorded.
fn wire_of<S: Simulated + Drop>(
    alloc: Global,
    row: &Row,
    quirks: Quirks,
) -> Result<Recorder<S>, Fault> {
    let (words, room) = row.memory;
    let memory = Memory::new(alloc, BASE, words, room)?;
    let plan = plan_of(alloc, row)?;
    let target = S::simulate(alloc, memory, quirks, plan)?;
    match recorder_over(alloc, target) {
        Ok(wire) => Ok(wire),
        Err(_) => Err(Fault::Target),
    }
}

// Reads a block.
fn block_came<S: Simulated + Drop>(
    alloc: Global,
    text: &mut String,
    wire: Recorder<S>,
    row: &Row,
    (addr, count): (u32, u32),
) -> Result<Recorder<S>, Fault> {
    let mut wire = wire;
    let end = u64::from(count)
        .saturating_mul(4)
        .saturating_add(u64::from(addr));
    if wire.due() != Due::Nothing || end > 1 << 32 {
        return Err(Fault::Target);
    }
    let report = run_block(alloc, &mut wire, addr, count, row.tries)?;
    put_part(alloc, text, row.lines, wire.items(), &report)?;
    Ok(wire)
}

// Performs a list, and resumes it as often as the row says, at most twice.
fn list_came<S: Simulated + Drop>(
    alloc: Global,
    text: &mut String,
    wire: Recorder<S>,
    row: &Row,
) -> Result<Recorder<S>, Fault> {
    let accesses = accesses_of(alloc, row)?;
    let mut parts = row.lines.split("\nresume ");
    let stage = begun(alloc, wire, row, &accesses)?;
    let part = parts.next().unwrap_or("");
    put_part(alloc, text, part, stage.wire.items(), &stage.report)?;
    let stage = resumed(alloc, text, stage, &accesses, parts.next())?;
    let stage = resumed(alloc, text, stage, &accesses, parts.next())?;
    Ok(stage.wire)
}

fn begun<S: Simulated + Drop>(
    alloc: Global,
    wire: Recorder<S>,
    row: &Row,
    accesses: &[Access],
) -> Result<Stage<S>, Fault>
    ensures accepted { IfOk result (λ stage. (length accesses.now ≤ 65536) × AreHostAccesses accesses.now) }
    ensures answered { IfOk result (λ stage. length (host_report_of stage.report).answers ≤ length accesses.now) }
{
    let mut wire = wire;
    if wire.due() != Due::Nothing {
        return Err(Fault::Target);
    }
    if let Bursts::Writes = row.bursts {
        let report = run(alloc, &mut wire, accesses, row.tries)?;
        return Ok(Stage { wire, report });
    }
    let mut answers = Vec::with_capacity(alloc, accesses.len())?;
    let ending = run_to(&mut wire, accesses, row.bursts, row.tries, &mut answers)?;
    Ok(Stage {
        wire,
        report: ending.with(answers),
    })
}

// Resumes a run where the row has a part for that, which begins with the tries.
fn resumed<S: Simulated + Drop>(
    alloc: Global,
    text: &mut String,
    stage: Stage<S>,
    accesses: &[Access],
    part: Option<&str>,
) -> Result<Stage<S>, Fault>
    requires accepted { (length accesses.now ≤ 65536) × AreHostAccesses accesses.now }
    requires answered { length (host_report_of stage.report).answers ≤ length accesses.now }
    ensures { IfOk result (λ stage. length (host_report_of stage.report).answers ≤ length accesses.now) }
{
    let Some(part) = part else {
        return Ok(stage);
    };
    let Stage { mut wire, report } = stage;
    if !matches!(&report.ended, End::Lost | End::TriesOut) {
        return Err(Fault::Line("a run that ended isn't resumed"));
    }
    let (tries, _) = part.split_once("\n").ok_or(Fault::Line("resume"))?;
    let tries = number(tries)?;
    text.push_str(format!(in alloc; "resume {tries}\n")?.as_str())?;
    let report = resume(alloc, &mut wire, accesses, &report, tries)?;
    put_part(alloc, text, part, wire.items(), &report)?;
    Ok(Stage { wire, report })
}
