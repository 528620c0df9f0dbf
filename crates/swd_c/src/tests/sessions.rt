//! Lists over a target that was opened once, by the exports.
use super::driver::{
    ALL, BUS_FAULT, LOST, NO_RUN, REFUSED, REST, Told, WRITTEN, plain, read, reply, run_whole,
    value, write,
};
use super::expect::{expect_eq, expect_eq_at};
use crate::{SwdAccess, swd_run_again, swd_run_new, swd_run_next, swd_run_opened};
use std::alloc::Global;
use std::process::Abort;
use std::test::Fail;
use swd_clocked::ClockedBench;
use swd_host::OutcomeFields;
use swd_port::Mark;
use swd_steps::RunFields;
use swd_target::{Memory, Quirks};

const BASE: u32 = 0x2000_0000;

const WORD: u32 = 0xdead_beef;

// The most clocks of a poll: three requests.
const POLL_CLOCKS: u64 = 160;

// Returns a target of sixteen words. The request with this number from 1 is unanswered.
fn bench_of<R: Abort>(rt: &R, alloc: Global, mute: usize) -> Result<ClockedBench<Memory>, Fail> {
    let mut plan = Vec::new(alloc);
    for place in 1..=mute {
        plan.push(if place == mute {
            Mark::Deaf
        } else {
            Mark::Clean
        })?;
    }
    let memory = Memory::new(alloc, BASE, 16, 100)?;
    let quirks = Quirks {
        wrap: true,
        late: false,
        filler: 0xa5a5_a5a5,
        idr: None,
    };
    let Ok(bench) = ClockedBench::new(alloc, memory, quirks, plan) else {
        panic!(rt; "no memory");
    };
    Ok(bench)
}

fn opens<R: Abort>(rt: &R, alloc: Global, bench: &mut ClockedBench<Memory>) -> Result<(), Fail> {
    let mut run = NO_RUN;
    swd_run_new(&mut run, 8);
    let told = run_whole(alloc, bench, &mut run, [].as_slice())?;
    let Some(told) = told else {
        panic!(rt; "the wire may not be given the opening");
    };
    expect_eq(rt, &told.ended, &ALL);
    Ok(())
}

// Performs a list over an open target. Returns the result and the clocks.
fn session<R: Abort>(
    rt: &R,
    alloc: Global,
    bench: &mut ClockedBench<Memory>,
    accesses: &[SwdAccess],
    blocks: u8,
) -> Result<(Told, u64), Fail> {
    let before = bench.cycles();
    let mut run = NO_RUN;
    let cue = swd_run_opened(&mut run, accesses, blocks, 8);
    assert!(rt; cue.kind != REFUSED);
    let Some(told) = run_whole(alloc, bench, &mut run, accesses)? else {
        panic!(rt; "the wire may not be given that");
    };
    let clocks = bench.cycles().saturating_sub(before);
    Ok((told, clocks))
}

#[test]
fn a_poll_takes_three_requests(rt: HostRuntime) -> Result<(), Fail> {
    let mut bench = bench_of(&rt, rt.alloc(), 0)?;
    opens(&rt, rt.alloc(), &mut bench)?;
    for place in 0..10_u32 {
        let accesses = [read(BASE)];
        let (told, clocks) = session(&rt, rt.alloc(), &mut bench, accesses.as_slice(), 0)?;
        expect_eq_at(
            &rt,
            &place,
            &told.answers.as_slice(),
            &[value(0)].as_slice(),
        );
        expect_eq_at(&rt, &place, &told.ended, &ALL);
        expect_eq_at(&rt, &place, &told.requests, &3);
        expect_eq_at(&rt, &place, &(clocks <= POLL_CLOCKS), &true);
    }
    Ok(())
}

#[test]
fn lists_over_one_opening(rt: HostRuntime) -> Result<(), Fail> {
    let mut bench = bench_of(&rt, rt.alloc(), 0)?;
    opens(&rt, rt.alloc(), &mut bench)?;
    let writes = [write(BASE, WORD), write(0x2000_0004, 1)];
    let reads = [read(BASE), read(0x2000_0004), read(0x2000_0008)];
    let beyond = [read(0x3000_0000)];
    let written = [plain(WRITTEN), plain(WRITTEN)];
    let words = [value(WORD), value(1), value(0)];
    let fault = [plain(BUS_FAULT)];
    let rows: [(&str, &[SwdAccess], u8, &[OutcomeFields], u64); 6] = [
        ("no access", &[], 0, &[], 0),
        ("a burst of writes", &writes, 0, &written, 4),
        ("reads one by one", &reads, 0, &words, 7),
        ("reads as a block", &reads, 1, &words, 5),
        ("a bus error", &beyond, 0, &fault, 6),
        ("reads behind it", &reads, 255, &words, 5),
    ];
    for (name, accesses, blocks, answers, requests) in rows {
        let (told, _) = session(&rt, rt.alloc(), &mut bench, accesses, blocks)?;
        expect_eq_at(&rt, &name, &told.answers.as_slice(), &answers);
        expect_eq_at(&rt, &name, &told.requests, &requests);
        expect_eq_at(&rt, &name, &told.ended, &ALL);
        expect_eq_at(&rt, &name, &told.begun, &0);
    }
    Ok(())
}

// The opening takes nine requests, TAR and DRW two. The target doesn't see the one that confirms.
#[test]
fn an_open_run_is_resumed(rt: HostRuntime) -> Result<(), Fail> {
    let mut bench = bench_of(&rt, rt.alloc(), 12)?;
    opens(&rt, rt.alloc(), &mut bench)?;
    let accesses = [write(BASE, WORD)];
    let mut run = NO_RUN;
    let _ = swd_run_opened(&mut run, accesses.as_slice(), 0, 8);
    let Some(told) = run_whole(rt.alloc(), &mut bench, &mut run, accesses.as_slice())? else {
        panic!(rt; "the wire may not be given that");
    };
    expect_eq(&rt, &told.ended, &LOST);
    expect_eq(&rt, &told.begun, &1);
    assert!(rt; swd_run_again(&mut run, 8));
    let Some(told) = run_whole(rt.alloc(), &mut bench, &mut run, accesses.as_slice())? else {
        panic!(rt; "the wire may not be given that");
    };
    expect_eq(&rt, &told.ended, &ALL);
    expect_eq(&rt, &told.answers.as_slice(), &[plain(WRITTEN)].as_slice());
    Ok(())
}

// A list of no access: eight idle cycles, and the end.
#[test]
fn an_empty_list_asks_for_idle_cycles(rt: HostRuntime) -> Result<(), Fail> {
    let mut bench = bench_of(&rt, rt.alloc(), 0)?;
    opens(&rt, rt.alloc(), &mut bench)?;
    let mut run = NO_RUN;
    let cue = swd_run_opened(&mut run, [].as_slice(), 0, 8);
    expect_eq(&rt, &cue.zeros, &8);
    assert!(rt; reply(&mut bench, cue).is_some());
    let last = swd_run_next(&mut run, [].as_slice(), [].as_mut_slice(), 0);
    expect_eq(&rt, &last.kind, &REST);
    expect_eq(&rt, &last.outcome.kind, &ALL);
    Ok(())
}

// So many reads of an address between words.
fn unaligned_reads(alloc: Global, count: u32) -> Result<Vec<SwdAccess>, Fail> {
    let mut list = Vec::with_capacity(alloc, count as usize)?;
    for _ in 0..count {
        list.push(read(0x2000_0001))?;
    }
    Ok(list)
}

#[test]
fn lists_that_are_refused(rt: HostRuntime) -> Result<(), Fail> {
    let unaligned = [read(BASE), read(0x2000_0004), write(0x2000_0006, 1)];
    let most = unaligned_reads(rt.alloc(), 65_536)?;
    let many = unaligned_reads(rt.alloc(), 65_537)?;
    let rows: [(&str, &[SwdAccess], OutcomeFields); 3] = [
        ("an address between words", &unaligned, plain_of(4, 2)),
        ("65,537 accesses", &many, plain_of(3, 0)),
        ("65,536 accesses", &most, plain_of(4, 0)),
    ];
    for (name, accesses, why) in rows {
        let mut run: RunFields = NO_RUN;
        let cue = swd_run_opened(&mut run, accesses, 0, 8);
        expect_eq_at(&rt, &name, &cue.kind, &REFUSED);
        expect_eq_at(&rt, &name, &cue.outcome, &why);
        expect_eq_at(&rt, &name, &run, &NO_RUN);
    }
    Ok(())
}

const fn plain_of(kind: u8, word: u32) -> OutcomeFields {
    OutcomeFields { word, kind }
}
