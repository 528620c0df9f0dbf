//! A session: one word is polled, in a target that is opened once, and a target that was reset since.
use super::expect::expect_eq;
use std::alloc::Global;
use std::process::Abort;
use std::test::Fail;
use swd_clocked::ClockedBench;
use swd_host::{End, Report, Session, resume, run, run_open};
use swd_port::{Access, Answer, Due, Register};
use swd_simulated::{BASE, QUIRKS, Simulated};
use swd_target::{Bench, Memory};

const STATUS: Access = Access::Read(BASE);

// A target at rest whose words are 0.
fn wire_of<W: Simulated>(alloc: Global) -> Result<W, Fail> {
    let memory = Memory::new(alloc, BASE, 16, 1000)?;
    Ok(W::simulate(alloc, memory, QUIRKS, Vec::new(alloc))?)
}

// Polls the word a hundred times, in one session. Returns the requests of each poll, if all are alike.
fn polled<W: Simulated + Drop>(alloc: Global, wire: &mut W) -> Result<(u64, Option<u64>), Fail> {
    if !matches!(&wire.due(), Due::Nothing) {
        return Ok((0, None));
    }
    let mut session = Session::new(wire, 8);
    let opening = session.open();
    let mut each = None;
    for _ in 0..100 {
        if !session.is_open() {
            return Ok((opening.requests, None));
        }
        let report = session.run(alloc, &[STATUS])?;
        if !report.answers.iter().eq([Answer::Value(0)].iter()) {
            return Ok((opening.requests, None));
        }
        match each {
            None => each = Some(report.requests),
            Some(requests) if requests == report.requests => {}
            Some(_) => return Ok((opening.requests, None)),
        }
    }
    Ok((opening.requests, each))
}

fn polls<W: Simulated + Drop, R: Abort>(rt: &R, alloc: Global) -> Result<(), Fail> {
    let mut wire = wire_of::<W>(alloc)?;
    let (opening, each) = polled(alloc, &mut wire)?;
    expect_eq(rt, &(opening, each), &(9, Some(3)));
    expect_eq(rt, &wire.memory().log().len(), &100);
    Ok(())
}

#[test]
fn a_poll_takes_three_requests(rt: HostRuntime) -> Result<(), Fail> {
    polls::<Bench<Memory>, _>(&rt, rt.alloc())?;
    polls::<ClockedBench<Memory>, _>(&rt, rt.alloc())
}

const LIST: &[Access] = &[Access::Write(BASE, 1), STATUS];

// Whether nothing is claimed: no access is answered, and none was begun.
fn claims_nothing(report: &Report) -> bool {
    report.answers.len() == 0 && report.begun == 0
}

fn is_done(report: &Report) -> bool {
    matches!(&report.ended, End::All)
        && report.answers.as_slice() == [Answer::Written, Answer::Value(1)].as_slice()
}

// A target that is reset between two lists acknowledges nothing before a line reset.
fn reset_between<W: Simulated + Drop>(alloc: Global) -> Result<bool, Fail> {
    let mut wire = wire_of::<W>(alloc)?;
    if !matches!(&wire.due(), Due::Nothing) {
        return Ok(false);
    }
    let lost = run_open(alloc, &mut wire, LIST, 8)?;
    if !matches!(&lost.ended, End::Lost)
        || !claims_nothing(&lost)
        || wire.memory().log().len() > 0
    {
        return Ok(false);
    }
    let resumed = resume(alloc, &mut wire, LIST, &lost, 8)?;
    Ok(is_done(&resumed) && wire.memory().log().len() == 2)
}

// A target that had a line reset, and whose identification was read: it has no power.
fn powerless<W: Simulated + Drop>(alloc: Global) -> Result<W, Fail> {
    let memory = Memory::new(alloc, BASE, 16, 1000)?;
    let mut wire = W::simulate(alloc, memory, QUIRKS, Vec::new(alloc))?;
    wire.line_reset();
    if wire.ask(Register::DpidrRead.request()) == 1 {
        let _ = wire.take();
    }
    Ok(wire)
}

// A target that loses power between two lists refuses the first access of the second.
fn power_lost_between<W: Simulated + Drop>(alloc: Global) -> Result<bool, Fail> {
    let mut wire = powerless::<W>(alloc)?;
    if !matches!(&wire.due(), Due::Nothing) {
        return Ok(false);
    }
    let refused = run_open(alloc, &mut wire, LIST, 8)?;
    if !matches!(&refused.ended, End::Confused)
        || !claims_nothing(&refused)
        || wire.memory().log().len() > 0
        || !matches!(&wire.due(), Due::Nothing)
    {
        return Ok(false);
    }
    let report = run(alloc, &mut wire, LIST, 8)?;
    Ok(is_done(&report) && wire.memory().log().len() == 2)
}

#[test]
fn a_target_that_was_reset_between_two_lists_ends_the_second(rt: HostRuntime) -> Result<(), Fail> {
    assert!(rt; reset_between::<Bench<Memory>>(rt.alloc())?);
    assert!(rt; reset_between::<ClockedBench<Memory>>(rt.alloc())?);
    assert!(rt; power_lost_between::<Bench<Memory>>(rt.alloc())?);
    assert!(rt; power_lost_between::<ClockedBench<Memory>>(rt.alloc())?);
    Ok(())
}
