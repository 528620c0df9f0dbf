//! Going on after a lost acknowledgement.
ghost use Rattle.std.specs.Prelude.{◌≤◌, IfOk, length};
ghost use Rattle.swd_host.specs.Plain.{AreHostAccesses};
ghost use Rattle.swd_host.specs.Reports.{host_report_of};

use super::expect::{expect_at, expect_eq, expect_eq_at};
use linked_list_allocator::LocalHeap;
use std::alloc::{Allocator, Global};
use std::fmt::Debug;
use std::process::Abort;
use std::test::Fail;
use swd_clocked::ClockedBench;
use swd_host::{End, Refused, Report};
use swd_port::{Access, Answer, Transfer};
use swd_simulated::{
    QUIRKS, READ, READ_WORD, READ_ZERO, RUN, Run, Simulated, WHOLE, WORD, WRITE, WRITTEN, Wanted,
    run_of, target_of,
};
use swd_target::{Bench, BufferedBench, Mark, Memory, Quirks};

// A target, and the last report of what was done over it.
#[derive(Drop)]
struct Stage<S: Simulated + Drop, A: Allocator = Global> {
    target: S,
    report: Report<A>,
}

// The accesses over a new target.
fn begun<S: Simulated + Drop>(alloc: Global, run: &Run, late: bool) -> Result<Stage<S>, Fail>
    ensures { IfOk result (λ stage. (length run.now.accesses.now ≤ 65536)
        × AreHostAccesses run.now.accesses.now
        × (length (host_report_of stage.report).answers ≤ length run.now.accesses.now)) }
{
    begun_on(alloc, alloc, run, late)
}

// The same, with answers from this memory.
fn begun_on<S: Simulated + Drop, A: Allocator>(
    global: Global,
    alloc: A,
    run: &Run,
    late: bool,
) -> Result<Stage<S, A>, Fail>
    ensures { IfOk result (λ stage. (length run.now.accesses.now ≤ 65536)
        × AreHostAccesses run.now.accesses.now
        × (length (host_report_of stage.report).answers ≤ length run.now.accesses.now)) }
{
    let quirks = Quirks { late, ..QUIRKS };
    let mut target = target_of::<S>(global, run, quirks)?;
    let report = swd_host::run(alloc, &mut target, run.accesses, run.tries)?;
    Ok(Stage { target, report })
}

// Goes on with them, where an acknowledgement was lost.
fn gone_on<S: Simulated + Drop>(
    alloc: Global,
    accesses: &[Access],
    stage: Stage<S>,
    tries: u32,
) -> Result<Stage<S>, Fail>
    requires accepted { (length accesses.now ≤ 65536) × AreHostAccesses accesses.now }
    requires reported { length (host_report_of stage.report).answers ≤ length accesses.now }
    ensures { IfOk result (λ stage. length (host_report_of stage.report).answers ≤ length accesses.now) }
{
    let Stage { mut target, report } = stage;
    match report.ended {
        End::Lost => {
            let report = swd_host::resume(alloc, &mut target, accesses, &report, tries)?;
            Ok(Stage { target, report })
        }
        _ => Ok(Stage { target, report }),
    }
}

// The report is as wanted.
fn reports<R: Abort, P: Debug, A: Allocator>(
    rt: &R,
    place: &P,
    report: &Report<A>,
    wanted: &Wanted,
) {
    expect_eq_at(rt, place, &Wanted::found(report, wanted.log), wanted);
}

// The log is that of the last time, once nothing is pending.
fn leaves<S: Simulated + Drop, R: Abort, P: Debug>(rt: &R, place: &P, target: S, log: &[Transfer]) {
    let mut target = target;
    target.settle();
    expect_eq_at(rt, place, &target.memory().log(), &log);
}

const LOST: &[Mark] = &[Mark::Deaf, Mark::Mute(0), Mark::Mute(1), Mark::Mute(2)];

const PAIR_ANSWERS: &[Answer] = &[Answer::Written, Answer::Value(WORD)];

// A write and a read of it, each of whose acknowledgements is lost in turn.
fn each_is_gone_on_with<S: Simulated + Drop, R: Abort>(
    rt: &R,
    alloc: Global,
    late: bool,
) -> Result<(), Fail> {
    for place in 1..=15_usize {
        for mark in LOST {
            let marks = [(place, *mark)];
            let run = run_of(&marks, &[WRITE, READ]);
            let stage = begun::<S>(alloc, &run, late)?;
            expect_eq_at(rt, &place, &stage.report.ended, &End::Lost);
            let mut stage = gone_on(alloc, run.accesses, stage, 8)?;
            expect_eq_at(rt, &place, &stage.report.ended, &End::All);
            expect_eq_at(rt, &place, &stage.report.begun, &0);
            expect_eq_at(rt, &place, &stage.report.answers.as_slice(), &PAIR_ANSWERS);
            stage.target.settle();
            let log = stage.target.memory().log();
            expect_eq_at(rt, &place, &log.first().copied(), &Some(WRITTEN));
            expect_eq_at(rt, &place, &log.last().copied(), &Some(READ_WORD));
            expect_at(rt, &place, log.len() <= 3);
        }
    }
    Ok(())
}

#[test]
fn a_run_goes_on_after_each_lost_acknowledgement(rt: HostRuntime) -> Result<(), Fail> {
    for late in [false, true] {
        each_is_gone_on_with::<Bench<Memory>, HostRuntime>(&rt, rt.alloc(), late)?;
        each_is_gone_on_with::<ClockedBench<Memory>, HostRuntime>(&rt, rt.alloc(), late)?;
    }
    Ok(())
}

#[test]
fn a_run_goes_on_where_the_port_gave_the_write_up(rt: HostRuntime) -> Result<(), Fail> {
    each_is_gone_on_with::<BufferedBench<Memory>, HostRuntime>(&rt, rt.alloc(), true)?;
    for place in 1..=15_usize {
        four_are_written(&rt, rt.alloc(), place)?;
    }
    Ok(())
}

const FOUR: &[Access] = &[
    Access::Write(0x2000_0000, 1),
    Access::Write(0x2000_0004, 2),
    Access::Write(0x2000_0008, 3),
    Access::Write(0x2000_000c, 4),
];

const FOUR_LOGGED: &[Transfer] = &[
    Transfer {
        read: false,
        addr: 0x2000_0000,
        word: 1,
    },
    Transfer {
        read: false,
        addr: 0x2000_0004,
        word: 2,
    },
    Transfer {
        read: false,
        addr: 0x2000_0008,
        word: 3,
    },
    Transfer {
        read: false,
        addr: 0x2000_000c,
        word: 4,
    },
];

// Four writes in a row, of which a request isn't seen. The write before it is still pending, so the port gives it up
// at the DPIDR read that follows, and each takes effect once, when the run is resumed or before.
fn four_are_written<R: Abort>(rt: &R, alloc: Global, place: usize) -> Result<(), Fail> {
    let marks = [(place, Mark::Deaf)];
    let run = run_of(&marks, FOUR);
    let stage = begun::<BufferedBench<Memory>>(alloc, &run, true)?;
    expect_eq_at(rt, &place, &stage.report.ended, &End::Lost);
    let stage = gone_on(alloc, run.accesses, stage, 8)?;
    expect_eq_at(rt, &place, &stage.report.ended, &End::All);
    expect_eq_at(
        rt,
        &place,
        &stage.report.answers.as_slice(),
        &[Answer::Written; 4].as_slice(),
    );
    leaves(rt, &place, stage.target, FOUR_LOGGED);
    Ok(())
}

// The run, resumed twice.
fn gone_on_twice<S: Simulated + Drop, R: Abort>(
    rt: &R,
    alloc: Global,
    run: &Run,
    late: bool,
) -> Result<Stage<S>, Fail> {
    let stage = begun::<S>(alloc, run, late)?;
    let stage = gone_on(alloc, run.accesses, stage, run.tries)?;
    gone_on(alloc, run.accesses, stage, run.tries)
}

// A write where there is no memory, among accesses where there is.
const FAR_AMONG: &[Access] = &[
    WRITE,
    Access::Write(0x3000_0000, 1),
    READ,
    Access::Write(0x2000_0004, 7),
];

const FAR_AMONG_ANSWERS: &[Answer] = &[
    Answer::Written,
    Answer::BusFault,
    Answer::Value(WORD),
    Answer::Written,
];

// Two acknowledgements are lost, the later one also of a request that was sent because of the earlier, and a data phase
// between them is changed.
fn two_are_lost<R: Abort>(
    rt: &R,
    alloc: Global,
    (earlier, later): (usize, usize),
    late: bool,
) -> Result<(), Fail> {
    let flip = (earlier.saturating_add(3), Mark::Flip(4));
    let marks = [(earlier, Mark::Deaf), (later, Mark::Mute(0)), flip];
    let run = Run {
        marks: &marks,
        accesses: FAR_AMONG,
        tries: 1,
        ..RUN
    };
    let mut stage = gone_on_twice::<Bench<Memory>, R>(rt, alloc, &run, late)?;
    expect_eq_at(rt, &(earlier, later), &stage.report.ended, &End::All);
    expect_eq_at(
        rt,
        &(earlier, later),
        &stage.report.answers.as_slice(),
        &FAR_AMONG_ANSWERS,
    );
    stage.target.settle();
    expect_at(
        rt,
        &(earlier, later),
        stage.target.memory().log().len() <= 5,
    );
    Ok(())
}

#[test]
fn a_run_goes_on_after_any_two(rt: HostRuntime) -> Result<(), Fail> {
    for earlier in 1..34_usize {
        for later in earlier.saturating_add(1)..52 {
            for late in [false, true] {
                two_are_lost(&rt, rt.alloc(), (earlier, later), late)?;
            }
        }
    }
    Ok(())
}

// Goes on with them, with answers from this memory, where an acknowledgement was lost. Where the memory is
// refused, the stage is as it was, and the refusal beside it.
fn tried_on<S: Simulated + Drop, A: Allocator>(
    alloc: A,
    accesses: &[Access],
    stage: Stage<S, A>,
) -> (Stage<S, A>, Option<Refused>)
    requires accepted { (length accesses.now ≤ 65536) × AreHostAccesses accesses.now }
    requires reported { length (host_report_of stage.report).answers ≤ length accesses.now }
    ensures { length (host_report_of result.0.report).answers ≤ length accesses.now }
{
    let Stage { mut target, report } = stage;
    match report.ended {
        End::Lost => match swd_host::resume(alloc, &mut target, accesses, &report, 8) {
            Ok(report) => (Stage { target, report }, None),
            Err(refused) => (Stage { target, report }, Some(refused)),
        },
        _ => (Stage { target, report }, None),
    }
}

// Whether a heap of this size is too small to go on with sixteen reads, of which one was answered. Where it
// is, they are resumed on another, as if they had not been tried.
fn is_refused<S: Simulated + Drop, R: Abort>(
    rt: &R,
    global: Global,
    size: usize,
) -> Result<bool, Fail> {
    let small = LocalHeap::new(global, size)?;
    let large = LocalHeap::new(global, 4096)?;
    let run = Run {
        marks: &[(15, Mark::Mute(2))],
        accesses: &[READ; 16],
        room: 32,
        ..RUN
    };
    let stage = begun_on::<S, &LocalHeap>(global, &large, &run, false)?;
    expect_eq(rt, &stage.report.ended, &End::Lost);
    let (stage, refused) = tried_on(&small, run.accesses, stage);
    let stage = match refused {
        Some(fault) => {
            expect_eq(rt, &fault, &Refused::Memory);
            expect_eq(rt, &small.used(), &0);
            let (stage, again) = tried_on(&large, run.accesses, stage);
            expect_eq(rt, &again, &None);
            stage
        }
        None => stage,
    };
    // The opening, and three requests for each of the fifteen that were left.
    let wanted = Wanted {
        answers: &[Answer::Value(0); 16],
        requests: 9 + 3 * 15,
        log: &[],
        ..WHOLE
    };
    reports(rt, &size, &stage.report, &wanted);
    // The read that was begun took place twice.
    leaves(rt, &size, stage.target, &[READ_ZERO; 17]);
    Ok(refused.is_some())
}

#[test]
fn want_of_memory_is_told_before_anything_is_sent(rt: HostRuntime) -> Result<(), Fail> {
    let mut refused = 0usize;
    for step in 1..40usize {
        let size = step * 16;
        let is = is_refused::<Bench<Memory>, HostRuntime>(&rt, rt.alloc(), size)?;
        let clocked = is_refused::<ClockedBench<Memory>, HostRuntime>(&rt, rt.alloc(), size)?;
        expect_eq(&rt, &clocked, &is);
        if is {
            refused = refused.saturating_add(1);
            expect_eq(&rt, &refused, &step);
        }
    }
    assert!(rt; 3 < refused && refused < 36);
    Ok(())
}
