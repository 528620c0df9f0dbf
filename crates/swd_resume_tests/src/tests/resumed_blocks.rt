//! Blocks that are resumed, over words of which none is zero: wherever acknowledgements are lost, each word comes as it
//! is in the memory, and a report tells every access that may have taken place.
ghost use Rattle.std.specs.Prelude.{◌≤◌, IfOk, length};
ghost use Rattle.swd_host.specs.Plain.{AreHostAccesses};
ghost use Rattle.swd_host.specs.Reports.{host_report_of};

use super::expect::{expect_at, expect_eq_at};
use std::alloc::Global;
use std::process::Abort;
use std::test::Fail;
use swd_clocked::ClockedBench;
use swd_host::{End, Report, resume, run, run_block};
use swd_port::{Access, Answer, Due, push_reads};
use swd_simulated::{BASE, QUIRKS, RUN, Run, Simulated, target_of};
use swd_target::{Bench, Mark, Memory, Quirks};

const COUNT: u32 = 16;

// The requests of the run that writes the words: nine of the opening, TAR's, one for each word, and the one that
// confirms the last.
const FILLED: usize = 27;

// The requests of a block of sixteen words, where nothing is lost.
const WHOLE: usize = 27;

// A target, the reads of a block, and what was told of them.
#[derive(Drop)]
struct Stage<S: Simulated + Drop> {
    target: S,
    accesses: Vec<Access>,
    report: Report,
}

// The word at a place of the memory. None is zero, and no two are the same.
fn word_at(place: u32) -> u32 {
    place.saturating_add(1).saturating_mul(0x0101_0101)
}

fn addr_at(place: u32) -> u32 {
    place.saturating_mul(4).saturating_add(BASE)
}

// Writes the words.
fn filled<S: Simulated>(alloc: Global, target: &mut S) -> Result<Report, Fail> {
    let mut accesses = Vec::new(alloc);
    for place in 0..COUNT {
        accesses.push(Access::Write(addr_at(place), word_at(place)))?;
    }
    match target.due() {
        Due::Nothing => Ok(run(alloc, target, &accesses, 8)?),
        due => Err(Fail::from(due)),
    }
}

// Reads them as a block.
fn read_as_block<S: Simulated + Drop>(alloc: Global, target: S) -> Result<Stage<S>, Fail>
    ensures { IfOk result (λ stage. (length stage.accesses.items ≤ 65536)
        × AreHostAccesses stage.accesses.items
        × (length (host_report_of stage.report).answers ≤ length stage.accesses.items)) }
{
    let mut target = target;
    let Due::Nothing = target.due() else {
        return Err(Fail::new("the target isn't at rest"));
    };
    let mut accesses = Vec::new(alloc);
    push_reads(&mut accesses, BASE, COUNT)?;
    let report = run_block(alloc, &mut target, BASE, COUNT, 8)?;
    Ok(Stage {
        target,
        accesses,
        report,
    })
}

// Goes on with them, where an acknowledgement was lost.
fn gone_on<S: Simulated + Drop>(alloc: Global, stage: Stage<S>) -> Result<Stage<S>, Fail>
    requires { (length stage.accesses.items ≤ 65536) × AreHostAccesses stage.accesses.items
        × (length (host_report_of stage.report).answers ≤ length stage.accesses.items) }
    ensures { IfOk result (λ stage. (length stage.accesses.items ≤ 65536) × AreHostAccesses stage.accesses.items
        × (length (host_report_of stage.report).answers ≤ length stage.accesses.items)) }
{
    let Stage {
        mut target,
        accesses,
        report,
    } = stage;
    match report.ended {
        End::Lost => {
            let report = resume(alloc, &mut target, &accesses, &report, 8)?;
            Ok(Stage {
                target,
                accesses,
                report,
            })
        }
        _ => Ok(Stage {
            target,
            accesses,
            report,
        }),
    }
}

// What every report has to say: the words so far are those of the memory; so many transfers behind the writes are the
// most that such calls may have done; and each of them is of an access that is answered, or told as begun.
fn is_true<S: Simulated + Drop, R: Abort>(
    rt: &R,
    marks: &[(usize, Mark)],
    stage: &Stage<S>,
    most: usize,
) {
    let mut place = 0u32;
    for answer in stage.report.answers.iter() {
        expect_eq_at(rt, &marks, answer, &Answer::Value(word_at(place)));
        place = place.saturating_add(1);
    }
    let told = place.saturating_add(u32::from(stage.report.begun));
    let log = stage.target.memory().log();
    expect_at(rt, &marks, log.len() <= most.saturating_add(16));
    for transfer in log.iter().skip(16) {
        expect_at(rt, &marks, transfer.read && transfer.addr < addr_at(told));
        expect_eq_at(
            rt,
            &marks,
            &transfer.word,
            &word_at(transfer.addr.saturating_sub(BASE) / 4),
        );
    }
}

// A block under these marks, resumed twice where it has to be.
fn comes_back<S: Simulated + Drop, R: Abort>(
    rt: &R,
    alloc: Global,
    marks: &[(usize, Mark)],
    late: bool,
) -> Result<(), Fail> {
    let quirks = Quirks { late, ..QUIRKS };
    let words = Run {
        marks,
        room: 64,
        ..RUN
    };
    let mut target = target_of::<S>(alloc, &words, quirks)?;
    let writes = filled(alloc, &mut target)?;
    expect_eq_at(rt, &marks, &writes.ended, &End::All);
    expect_eq_at(rt, &marks, &writes.requests, &27);
    let stage = read_as_block(alloc, target)?;
    is_true(rt, marks, &stage, 16);
    let stage = gone_on(alloc, stage)?;
    is_true(rt, marks, &stage, 18);
    let stage = gone_on(alloc, stage)?;
    is_true(rt, marks, &stage, 19);
    expect_eq_at(rt, &marks, &stage.report.ended, &End::All);
    expect_eq_at(rt, &marks, &stage.report.answers.len(), &16);
    expect_eq_at(rt, &marks, &stage.report.begun, &0);
    Ok(())
}

const LOST: &[Mark] = &[Mark::Deaf, Mark::Mute(0), Mark::Mute(2)];

#[test]
fn a_block_is_resumed_at_each_request(rt: HostRuntime) -> Result<(), Fail> {
    for place in 1..=WHOLE {
        for mark in LOST {
            for late in [false, true] {
                let marks = [(FILLED.saturating_add(place), *mark)];
                comes_back::<Bench<Memory>, HostRuntime>(&rt, rt.alloc(), &marks, late)?;
                comes_back::<ClockedBench<Memory>, HostRuntime>(&rt, rt.alloc(), &marks, late)?;
            }
        }
    }
    Ok(())
}

// The second one is lost also of the requests that were sent because of the first.
fn any_two_are_lost<S: Simulated + Drop, R: Abort>(
    rt: &R,
    alloc: Global,
    (first, second): (Mark, Mark),
) -> Result<(), Fail> {
    for earlier in 1..=WHOLE {
        for later in earlier.saturating_add(1)..60 {
            let marks = [
                (FILLED.saturating_add(earlier), first),
                (FILLED.saturating_add(later), second),
            ];
            comes_back::<S, R>(rt, alloc, &marks, later % 2 == 0)?;
        }
    }
    Ok(())
}

const PAIRS: &[(Mark, Mark)] = &[(Mark::Mute(0), Mark::Deaf), (Mark::Deaf, Mark::Mute(0))];

#[test]
fn a_block_is_resumed_at_any_two_requests(rt: HostRuntime) -> Result<(), Fail> {
    for pair in PAIRS {
        any_two_are_lost::<Bench<Memory>, HostRuntime>(&rt, rt.alloc(), *pair)?;
    }
    Ok(())
}

#[test]
fn a_block_is_resumed_at_any_two_requests_of_a_clocked_target(rt: HostRuntime) -> Result<(), Fail> {
    for pair in PAIRS {
        any_two_are_lost::<ClockedBench<Memory>, HostRuntime>(&rt, rt.alloc(), *pair)?;
    }
    Ok(())
}
