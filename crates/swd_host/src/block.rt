//! Reads a block of words.
ghost use Rattle.std.specs.Prelude.{◌≡◌, ◌≤◌, ◌+◌, ◌*◌, ◌^◌, IfOk, IfErr, IfNone, IfSome};
ghost use Rattle.swd_port.specs.declared.wire.Due.TheVariants.{Nothing};
ghost use Rattle.swd_port.specs.PlainAnswers.{plain_reads};
ghost use Rattle.swd_host.specs.Plain.{AreHostAccesses};
ghost use Rattle.swd_host.specs.Sent.{HostCalls, HostReportsCalls};
ghost use Rattle.swd_host.specs.declared.task.Bursts.TheVariants.{Reads};
ghost use Rattle.swd_host.specs.Reports.{Closes, HostRefusesList, RunsWithin, host_report_of};

use crate::engine::Engine;
use crate::outcome::{Refused, Report};
use crate::running::conduct;
use std::alloc::{AllocError, Allocator};
use swd_port::{Access, MOST_ACCESSES, Wire, push_reads};

/// Reads `count` words at `addr`, `addr + 4` and so on, over a target at rest, with the guarantees of
/// [`run`](crate::run).
///
/// Each request returns the word of the one before, so a word normally takes one request instead of two. A report may
/// have up to two accesses in flight. `resume` continues a block as the list of its single reads.
///
/// # Errors
///
/// Returns `TooMany` for more than 65,536 words, and `Unaligned { index: 0 }` if `addr` isn't a multiple of 4 and
/// `count` isn't 0. Returns `Memory` if allocating the reads or the answers fails. Nothing is sent in these cases.
pub fn run_block<W: Wire, A: Allocator + Copy>(
    alloc: A,
    wire: &mut W,
    addr: u32,
    count: u32,
    tries: u32,
) -> Result<Report<A>, Refused>
    requires due { (W.port wire.old).link.due ≡ Nothing }
    requires range { addr + 4 * count ≤ 2 ^ 32 }
    ensures closes { IfOk result (λ report.
        Closes 0 Reads (plain_reads addr count) tries (host_report_of report) (W.port wire.new).link.due) }
    ensures fits { IfOk result (λ report. W.lawful wire.new → W.lawful wire.old
        × RunsWithin Reads (plain_reads addr count) tries (host_report_of report) (W.port wire.old) (W.port wire.new)) }
    ensures accepted { IfOk result (λ report. (count ≤ 65536) × AreHostAccesses (plain_reads addr count)) }
    ensures refused { IfErr result (HostRefusesList (plain_reads addr count)) }
    ensures untouched { IfErr result (λ refused. wire.new ≡ wire.old) }
    ensures plan { W.plan wire.new ≡ W.plan wire.old }
    ensures told { IfOk result (λ report.
        HostCalls W.notes (HostReportsCalls (plain_reads addr count) (host_report_of report)) wire.old wire.new) }
{
    if let Some(refused) = refusal(addr, count) {
        return Err(refused);
    }
    let Ok(accesses) = reads_of(alloc, addr, count) else {
        return Err(Refused::Memory);
    };
    let Ok(answers) = Vec::with_capacity(alloc, accesses.len()) else {
        return Err(Refused::Memory);
    };
    Ok(conduct(wire, Engine::blocks(tries), &accesses, answers))
}

// Returns why a block is refused, if it is.
pub(crate) fn refusal(addr: u32, count: u32) -> Option<Refused>
    requires { addr + 4 * count ≤ 2 ^ 32 }
    ensures none { IfNone result ((count ≤ 65536) × AreHostAccesses (plain_reads addr count)) }
    ensures refused { IfSome result (HostRefusesList (plain_reads addr count)) }
{
    if count > MOST_ACCESSES {
        return Some(Refused::TooMany);
    }
    if count == 0 {
        return None;
    }
    if addr % 4 == 0 {
        None
    } else {
        Some(Refused::Unaligned { index: 0 })
    }
}

// Returns the reads of a block.
pub(crate) fn reads_of<A: Allocator>(
    alloc: A,
    addr: u32,
    count: u32,
) -> Result<Vec<Access, A>, AllocError>
    requires { addr + 4 * count ≤ 2 ^ 32 }
    ensures { IfOk result (λ accesses. accesses.items ≡ plain_reads addr count) }
{
    let mut accesses = Vec::with_capacity(alloc, count as usize)?;
    push_reads(&mut accesses, addr, count)?;
    Ok(accesses)
}
