//! Loads, dumps and verifications at a simulated target.
ghost use Rattle.std.specs.Prelude.{IsTrue};
ghost use Rattle.swd_target.specs.Marks.{IsLegalPlan};

mod broken;
mod dumps;
mod expect;
mod loads;
mod long_images;
mod memory;
mod paced;
mod reports;

use std::alloc::{Allocator, Global};
use std::test::Fail;
use swd_image::{ByteDifference, ImageFault, Limits, NoReports, dump, load, verify};
use swd_port::{Access, Due, Mark, Wire};
use swd_target::{Bench, Memory, Quirks};

/// Where most memories begin.
const BASE: u32 = 0x2000_0000;

/// Their words.
const WORDS: [u32; 3] = [0x4433_2211, 0x8877_6655, 0xccbb_aa99];

const QUIRKS: Quirks = Quirks {
    wrap: true,
    late: false,
    filler: 0,
    idr: None,
};

/// How many events an access may meet.
const TRIES: u32 = 3;

fn are_legal(marks: &[Mark]) -> bool
    ensures { IsTrue result → IsLegalPlan marks.now }
{
    marks.iter().all(|mark| mark.legal())
}

// The address of a word of a memory.
fn addr_at(base: u32, index: usize) -> u32 {
    base.wrapping_add((index.min(0x10_0000) as u32).wrapping_mul(4))
}

// A memory with these words, whose log has room for so many transfers more.
fn memory_of(alloc: Global, base: u32, words: &[u32], room: u32) -> Result<Memory, Fail> {
    let count = words.len().min(0x10_0000) as u32;
    let mut memory = Memory::new(alloc, base, count, count + room.min(0x100_0000))?;
    for (index, word) in words.iter().enumerate() {
        let _ = memory.transfer(Access::Write(addr_at(base, index), *word));
    }
    Ok(memory)
}

// Ninety-six marks, of which these stand at their requests, which count from 1.
fn plan_of(alloc: Global, marks: &[(usize, Mark)]) -> Result<Vec<Mark>, Fail> {
    let mut plan = Vec::with_capacity(alloc, 96)?;
    for place in 1..=96_usize {
        let named = marks.iter().find(|(at, _)| *at == place);
        plan.push(named.map_or(Mark::Clean, |(_, mark)| *mark))?;
    }
    Ok(plan)
}

/// A target with this memory. `None` where a mark isn't legal.
fn target_of(
    alloc: Global,
    base: u32,
    words: &[u32],
    room: u32,
    marks: &[(usize, Mark)],
) -> Result<Option<Bench<Memory>>, Fail> {
    let plan = plan_of(alloc, marks)?;
    if !are_legal(&plan) {
        return Ok(None);
    }
    let memory = memory_of(alloc, base, words, room)?;
    Ok(Some(Bench::new(memory, QUIRKS, plan)))
}

/// The tries of these tests, and so many resumes.
fn limits(resumes: u32) -> Limits {
    Limits {
        tries: TRIES,
        resumes,
        bursts: true,
    }
}

/// A load, where nothing is due.
fn load_at<W: Wire, A: Allocator + Copy>(
    alloc: A,
    wire: &mut W,
    addr: u32,
    bytes: &[u8],
    resumes: u32,
) -> Option<Result<(), ImageFault>> {
    match wire.due() {
        Due::Nothing => Some(load(alloc, wire, addr, bytes, limits(resumes), &mut NoReports)),
        _ => None,
    }
}

/// A dump.
fn dump_at<W: Wire, A: Allocator + Copy>(
    alloc: A,
    wire: &mut W,
    addr: u32,
    count: u64,
    resumes: u32,
) -> Option<Result<Vec<u8, A>, ImageFault>> {
    match wire.due() {
        Due::Nothing => Some(dump(alloc, wire, addr, count, limits(resumes), &mut NoReports)),
        _ => None,
    }
}

/// A verification.
fn verify_at<W: Wire, A: Allocator + Copy>(
    alloc: A,
    wire: &mut W,
    addr: u32,
    bytes: &[u8],
    resumes: u32,
) -> Option<Result<Option<ByteDifference>, ImageFault>> {
    match wire.due() {
        Due::Nothing => Some(verify(alloc, wire, addr, bytes, limits(resumes), &mut NoReports)),
        _ => None,
    }
}
