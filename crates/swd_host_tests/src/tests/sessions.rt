//! Calls one after the other over one target: an image that is longer than a call takes, and its verification.
use super::expect::expect_at;
use std::alloc::Global;
use std::process::Abort;
use std::test::Fail;
use swd_clocked::ClockedBench;
use swd_host::{End, Report, run, run_block};
use swd_port::{Access, Answer, Due, Transfer};
use swd_simulated::{BASE, QUIRKS, Simulated, are_legal};
use swd_target::{Bench, Mark, Memory};

// The words of the image, and how many of them one call does.
const WORDS: u32 = 100_000;

const PART: u32 = 50_000;

// Where its parts begin.
const PARTS: &[u32] = &[0, PART];

// The word of the image at this place, and its address.
fn word_at(place: u32) -> u32 {
    place.saturating_mul(40_503) ^ 0x5a5a_0000
}

fn addr_at(place: u32) -> u32 {
    BASE.saturating_add(place.saturating_mul(4))
}

// Power is late twice in the first opening; then one request in seventeen is busy, and the data phase of one in
// twenty-three is damaged, each of its places in turn. A busy read of CTRL/STAT finds power late in later openings,
// too.
fn noise(alloc: Global) -> Result<Vec<Mark>, Fail> {
    let mut marks = Vec::with_capacity(alloc, 700_000)?;
    for index in 0..700_000_u32 {
        let number = index + 1;
        let mark = if number == 6 || number == 7 || number % 17 == 5 {
            Mark::Wait
        } else if number % 23 == 7 {
            Mark::Flip((number / 23 % 33) as u8)
        } else {
            Mark::Clean
        };
        marks.push(mark)?;
    }
    Ok(marks)
}

// The writes of a part of the image.
fn writes(alloc: Global, first: u32) -> Result<Vec<Access>, Fail> {
    let mut accesses = Vec::with_capacity(alloc, 50_000)?;
    for offset in 0..PART {
        let place = first.saturating_add(offset);
        accesses.push(Access::Write(addr_at(place), word_at(place)))?;
    }
    Ok(accesses)
}

// One call, where nothing is due.
fn write_part<W: Simulated + Drop>(
    alloc: Global,
    wire: &mut W,
    first: u32,
) -> Result<Option<Report>, Fail> {
    let accesses = writes(alloc, first)?;
    match wire.due() {
        Due::Nothing => Ok(Some(run(alloc, wire, &accesses, 8)?)),
        _ => Ok(None),
    }
}

fn read_part<W: Simulated + Drop>(
    alloc: Global,
    wire: &mut W,
    first: u32,
) -> Result<Option<Report>, Fail> {
    let addr = addr_at(first);
    if addr > 0x3000_0000 {
        return Ok(None);
    }
    match wire.due() {
        Due::Nothing => Ok(Some(run_block(alloc, wire, addr, 50_000, 8)?)),
        _ => Ok(None),
    }
}

// The call was whole, and met some events.
fn is_whole(report: &Option<Report>, least: u64) -> bool {
    match report {
        Some(report) => report.ended == End::All
            && report.answers.len() == 50_000
            && report.requests > least,
        None => false,
    }
}

// The answers are the words of the image from this place on.
fn are_words(report: &Option<Report>, first: u32) -> bool {
    let Some(report) = report else {
        return false;
    };
    let mut place = first;
    for answer in report.answers.iter() {
        if *answer != Answer::Value(word_at(place)) {
            return false;
        }
        place = place.saturating_add(1);
    }
    true
}

// The log has each word of the image once, in order.
fn is_logged(log: &[Transfer], read: bool) -> bool {
    let mut place = 0;
    for transfer in log {
        let once = Transfer {
            read,
            addr: addr_at(place),
            word: word_at(place),
        };
        if *transfer != once {
            return false;
        }
        place = place.saturating_add(1);
    }
    place == WORDS
}

// The target with this memory. Fails where a mark isn't legal.
fn wire_of<W: Simulated>(alloc: Global, memory: Memory, plan: Vec<Mark>) -> Result<W, Fail> {
    if !are_legal(&plan) {
        return Err(Fail::new("a mark isn't legal"));
    }
    let wire = W::simulate(alloc, memory, QUIRKS, plan)?;
    Ok(wire)
}

fn comes_out<W: Simulated + Drop, R: Abort>(rt: &R, alloc: Global) -> Result<(), Fail> {
    let memory = Memory::new(alloc, BASE, WORDS, 2 * WORDS)?;
    let plan = noise(alloc)?;
    let mut wire = wire_of::<W>(alloc, memory, plan)?;
    for first in PARTS {
        let report = write_part(alloc, &mut wire, *first)?;
        expect_at(rt, first, is_whole(&report, 55_000));
    }
    for first in PARTS {
        let report = read_part(alloc, &mut wire, *first)?;
        let is_read = is_whole(&report, 55_000) && are_words(&report, *first);
        expect_at(rt, first, is_read);
    }
    let log = wire.memory().log();
    assert_eq!(rt; log.len(), 200_000);
    let (written, read) = log.split_at(100_000);
    assert!(rt; is_logged(written, false) && is_logged(read, true));
    Ok(())
}

#[test]
fn an_image_is_written_and_verified_by_calls_one_after_the_other(
    rt: HostRuntime,
) -> Result<(), Fail> {
    comes_out::<Bench<Memory>, _>(&rt, rt.alloc())
}

#[test]
fn an_image_is_written_and_verified_over_a_clocked_target(rt: HostRuntime) -> Result<(), Fail> {
    comes_out::<ClockedBench<Memory>, _>(&rt, rt.alloc())
}
