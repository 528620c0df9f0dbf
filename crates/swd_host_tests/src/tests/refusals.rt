//! Lists that a host doesn't do, and out of memory.
use super::expect::{expect_at, expect_eq};
use linked_list_allocator::LocalHeap;
use std::alloc::{Allocator, Global};
use std::process::Abort;
use std::test::Fail;
use swd_clocked::ClockedBench;
use swd_host::{End, Refused, Report, run, run_block};
use swd_port::{Access, Answer, Due, Wire};
use swd_simulated::{
    BASE, QUIRKS, READ, READ_WORD, RUN, Run, Simulated, WORD, WRITE, WRITTEN, recorder_over,
    report_of, run_of, target_of,
};
use swd_target::{Bench, Memory};

// These accesses over a wire. None where something is due on it.
fn tried<W: Wire, A: Allocator>(
    alloc: A,
    wire: &mut W,
    accesses: &[Access],
) -> Option<Result<Report<A>, Refused>> {
    match wire.due() {
        Due::Nothing => Some(run(alloc, wire, accesses, 8)),
        _ => None,
    }
}

// A run is done on this wire as on one that was just made.
fn is_as_new<R: Abort, W: Wire>(rt: &R, alloc: Global, wire: &mut W) -> Result<(), Fail> {
    let report = report_of(alloc, wire, &run_of(&[], &[WRITE, READ]))?;
    let answers = [Answer::Written, Answer::Value(WORD)];
    expect_eq(rt, &report.answers.as_slice(), &answers.as_slice());
    expect_eq(rt, &report.requests, &15);
    expect_eq(rt, &report.ended, &End::All);
    Ok(())
}

const UNALIGNED: &[Access] = &[Access::Read(0x2000_0002)];

const SECOND_UNALIGNED: &[Access] = &[
    READ,
    Access::Write(0x2000_0001, 0),
    Access::Read(0x2000_0003),
];

// The list is refused so, and nothing is sent.
fn refuses<R: Abort>(
    rt: &R,
    alloc: Global,
    accesses: &[Access],
    refused: Refused,
) -> Result<(), Fail> {
    let bench = target_of::<Bench<Memory>>(alloc, &RUN, QUIRKS)?;
    let mut wire = recorder_over(alloc, bench)?;
    match tried(alloc, &mut wire, accesses) {
        Some(Err(fault)) => expect_eq(rt, &fault, &refused),
        _ => expect_at(rt, &refused, false),
    }
    assert!(rt; wire.items().is_empty());
    is_as_new(rt, alloc, &mut wire)
}

#[test]
fn a_list_is_refused_before_anything_is_sent(rt: HostRuntime) -> Result<(), Fail> {
    let many = vec![in rt.alloc(); READ; 65_537]?;
    refuses(&rt, rt.alloc(), &many, Refused::TooMany)?;
    let many_unaligned = vec![in rt.alloc(); Access::Read(0x2000_0002); 65_537]?;
    refuses(&rt, rt.alloc(), &many_unaligned, Refused::TooMany)?;
    refuses(&rt, rt.alloc(), UNALIGNED, Refused::Unaligned { index: 0 })?;
    refuses(
        &rt,
        rt.alloc(),
        SECOND_UNALIGNED,
        Refused::Unaligned { index: 1 },
    )
}

// How sixteen words are read.
#[derive(Clone, Copy)]
enum Call {
    Run,
    Block,
}

// Sixteen words over a wire. None where something is due on it.
fn sixteen<W: Wire, A: Allocator + Copy>(
    alloc: A,
    wire: &mut W,
    call: Call,
) -> Option<Result<Report<A>, Refused>> {
    if wire.due() != Due::Nothing {
        return None;
    }
    match call {
        Call::Run => Some(run(alloc, wire, &[READ; 16], 8)),
        Call::Block => Some(run_block(alloc, wire, BASE, 16, 8)),
    }
}

// Reads whose answers come from this memory. Whether it was refused: then nothing was sent, and a run on
// the same wire is as on one that was just made.
fn is_refused<S: Simulated + Drop, R: Abort, A: Allocator + Copy>(
    rt: &R,
    global: Global,
    alloc: A,
    call: Call,
) -> Result<bool, Fail> {
    let target = target_of::<S>(global, &RUN, QUIRKS)?;
    let mut wire = recorder_over(global, target)?;
    match sixteen(alloc, &mut wire, call) {
        Some(Ok(report)) => {
            expect_eq(rt, &report.ended, &End::All);
            let answers = [Answer::Value(0); 16];
            expect_eq(rt, &report.answers.as_slice(), &answers.as_slice());
            return Ok(false);
        }
        Some(Err(fault)) => expect_eq(rt, &fault, &Refused::Memory),
        None => panic!(rt; "something is due"),
    }
    assert!(rt; wire.items().is_empty());
    is_as_new(rt, global, &mut wire)?;
    let log = [WRITTEN, READ_WORD];
    expect_eq(rt, &wire.into_wire().memory().log(), &log.as_slice());
    Ok(true)
}

// How many of these heaps, each larger than the one before, refuse sixteen words: the smaller ones.
fn refusals<S: Simulated + Drop, R: Abort>(
    rt: &R,
    global: Global,
    call: Call,
) -> Result<usize, Fail> {
    let mut refused = 0usize;
    for size in 1..60usize {
        let heap = LocalHeap::new(global, size * 16)?;
        if is_refused::<S, R, &LocalHeap>(rt, global, &heap, call)? {
            refused = refused.saturating_add(1);
            expect_eq(rt, &refused, &size);
        }
        expect_eq(rt, &heap.used(), &0);
    }
    Ok(refused)
}

// A block has its reads beside its answers, each refused in turn.
#[test]
fn want_of_memory_is_told_before_anything_is_sent(rt: HostRuntime) -> Result<(), Fail> {
    let run = refusals::<Bench<Memory>, _>(&rt, rt.alloc(), Call::Run)?;
    let block = refusals::<Bench<Memory>, _>(&rt, rt.alloc(), Call::Block)?;
    assert!(rt; 3 < run && run < block && block < 56);
    let clocked = refusals::<ClockedBench<Memory>, _>(&rt, rt.alloc(), Call::Run)?;
    expect_eq(&rt, &clocked, &run);
    let clocked = refusals::<ClockedBench<Memory>, _>(&rt, rt.alloc(), Call::Block)?;
    expect_eq(&rt, &clocked, &block);
    Ok(())
}

#[test]
fn as_many_accesses_as_a_list_may_have(rt: HostRuntime) -> Result<(), Fail> {
    let accesses = vec![in rt.alloc(); READ; 65_536]?;
    let run = Run {
        accesses: &accesses,
        room: 65_536,
        ..RUN
    };
    let mut bench = target_of::<Bench<Memory>>(rt.alloc(), &run, QUIRKS)?;
    let report = report_of(rt.alloc(), &mut bench, &run)?;
    expect_eq(&rt, &report.ended, &End::All);
    expect_eq(&rt, &report.answers.len(), &65_536);
    // The opening, and then TAR, DRW and RDBUFF for each.
    expect_eq(&rt, &report.requests, &(9 + 3 * 65_536));
    Ok(())
}
