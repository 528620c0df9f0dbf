//! Reads one by one, and the same reads as a block.
ghost use Rattle.swd_target.specs.Marks.{IsLegalPlan};

use crate::random::{Random, SEED};
use crate::workload::{ACCESSES, BASE, QUIRKS, ROUNDS, TRIES, add_report, plan};
use std::alloc::{AllocError, Global};
use swd_host::{Report, run, run_block};
use swd_port::Access;
use swd_target::{Bench, Mark, Memory};

/// The last few reads are past the end of the memory.
const WORDS: u32 = ACCESSES - 8;

fn reads(alloc: Global) -> Result<Vec<Access>, AllocError> {
    let mut list = Vec::with_capacity(alloc, ACCESSES as usize)?;
    for index in 0..ACCESSES {
        list.push(Access::Read(BASE + 4 * index))?;
    }
    Ok(list)
}

// One run under these marks. None when out of memory.
fn one_run(alloc: Global, plan: Vec<Mark>, block: bool) -> Option<Report>
    requires { IsLegalPlan plan.items }
{
    let memory = Memory::new(alloc, BASE, WORDS, ACCESSES).ok()?;
    let mut bench = Bench::new(memory, QUIRKS, plan);
    if block {
        run_block(alloc, &mut bench, BASE, ACCESSES, TRIES).ok()
    } else {
        let reads = reads(alloc).ok()?;
        run(alloc, &mut bench, &reads, TRIES).ok()
    }
}

/// A sum over the reports of twenty runs. None when out of memory.
pub fn checksum(alloc: Global, block: bool) -> Option<u64> {
    let mut random = Random(SEED);
    let mut sum = 0;
    for _ in 0..ROUNDS {
        let plan = plan(alloc, &mut random).ok()?;
        let report = one_run(alloc, plan, block)?;
        sum = add_report(sum, &report);
    }
    Some(sum)
}

/// The requests of a run without marks. None when out of memory.
pub fn requests(alloc: Global, block: bool) -> Option<u64> {
    let report = one_run(alloc, Vec::new(alloc), block)?;
    Some(report.requests)
}
