//! What is measured.
ghost use Rattle.std.specs.Prelude.{IfOk};
ghost use Rattle.swd_port.specs.Choices.{IsPortMark};
ghost use Rattle.swd_target.specs.Marks.{IsLegalPlan};

use crate::random::{Random, SEED};
use std::alloc::{AllocError, Global};
use swd_clocked::ClockedBench;
use swd_host::{Report, run};
use swd_port::{Access, Answer};
use swd_target::{Bench, Mark, Memory, Quirks};

/// The runs of each workload.
pub const ROUNDS: u8 = 20;

/// The runs clock by clock, which take longer.
const CLOCKED_ROUNDS: u8 = 5;

/// The accesses of a list, which is as many as one may have.
pub const ACCESSES: u32 = 65_536;

/// More than the requests of a list.
const MARKS: u32 = 120_000;

/// The address of the memory.
pub const BASE: u32 = 0x2000_0000;

/// The events that an access may meet.
pub const TRIES: u32 = 100;

const WORDS: u32 = 4_096;

/// What the standard leaves to a target.
pub const QUIRKS: Quirks = Quirks {
    wrap: true,
    late: false,
    filler: 0,
    idr: None,
};

/// Reads, and bursts of writes. A few of the addresses are past the end of the memory.
#[derive(Drop)]
struct Source {
    random: Random,
    addr: u32,
    // How many writes of a burst are still to come.
    burst: u32,
}

impl Source {
    fn next(&mut self) -> Access {
        if self.burst > 0 {
            self.burst -= 1;
            self.addr = self.addr.wrapping_add(4);
            return Access::Write(self.addr, self.random.word());
        }
        self.addr = BASE + 4 * self.random.below(WORDS + 8);
        if self.random.below(2) == 0 {
            return Access::Read(self.addr);
        }
        self.burst = self.random.below(16);
        Access::Write(self.addr, self.random.word())
    }
}

fn accesses(alloc: Global, random: Random) -> Result<Vec<Access>, AllocError> {
    let mut list = Vec::with_capacity(alloc, ACCESSES as usize)?;
    let mut source = Source {
        random,
        addr: BASE,
        burst: 0,
    };
    for _ in 0..ACCESSES {
        list.push(source.next())?;
    }
    Ok(list)
}

// The mark of a request: mostly none.
fn next_mark(random: &mut Random) -> Mark
    ensures { IsPortMark result }
{
    match random.below(128) {
        0 | 1 => Mark::Wait,
        2 => Mark::Flip(random.below(33) as u8),
        _ => Mark::Clean,
    }
}

/// The marks of a run.
pub fn plan(alloc: Global, random: &mut Random) -> Result<Vec<Mark>, AllocError>
    ensures { IfOk result (λ plan. IsLegalPlan plan.items) }
{
    let mut plan = Vec::with_capacity(alloc, MARKS as usize)?;
    for _ in 0..MARKS {
        plan.push(next_mark(random))?;
    }
    Ok(plan)
}

// One run of the list under other marks. None when out of memory.
fn one_run(alloc: Global, accesses: &[Access], random: &mut Random) -> Option<Report> {
    let plan = plan(alloc, random).ok()?;
    let memory = Memory::new(alloc, BASE, WORDS, ACCESSES).ok()?;
    let mut bench = Bench::new(memory, QUIRKS, plan);
    run(alloc, &mut bench, accesses, TRIES).ok()
}

// The same clock by clock.
fn one_clocked_run(alloc: Global, accesses: &[Access], random: &mut Random) -> Option<Report> {
    let plan = plan(alloc, random).ok()?;
    let memory = Memory::new(alloc, BASE, WORDS, ACCESSES).ok()?;
    let mut bench = ClockedBench::new(alloc, memory, QUIRKS, plan).ok()?;
    run(alloc, &mut bench, accesses, TRIES).ok()
}

fn number(answer: Answer) -> u64 {
    match answer {
        Answer::Value(word) => u64::from(word),
        Answer::Written => 1 << 32,
        Answer::BusFault => 2 << 32,
    }
}

/// Adds a report to a sum.
pub fn add_report(sum: u64, report: &Report) -> u64 {
    let mut sum = sum.wrapping_mul(31).wrapping_add(report.requests);
    for answer in report.answers.iter() {
        sum = sum.wrapping_mul(31).wrapping_add(number(*answer));
    }
    sum
}

/// A sum over the reports of twenty runs. None when out of memory.
pub fn checksum(alloc: Global) -> Option<u64> {
    let mut random = Random(SEED);
    let accesses = accesses(alloc, random).ok()?;
    let mut sum = 0;
    for _ in 0..ROUNDS {
        let report = one_run(alloc, &accesses, &mut random)?;
        sum = add_report(sum, &report);
    }
    Some(sum)
}

/// A sum over the reports of five runs clock by clock. None when out of memory.
pub fn clocked_checksum(alloc: Global) -> Option<u64> {
    let mut random = Random(SEED);
    let accesses = accesses(alloc, random).ok()?;
    let mut sum = 0;
    for _ in 0..CLOCKED_ROUNDS {
        let report = one_clocked_run(alloc, &accesses, &mut random)?;
        sum = add_report(sum, &report);
    }
    Some(sum)
}
