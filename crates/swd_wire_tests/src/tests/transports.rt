//! Runs over a transport: at a simulated target that can be reached for some calls only.
use super::expect::{expect_at, expect_eq, expect_eq_at};
use std::alloc::Global;
use std::process::Abort;
use std::test::Fail;
use swd_host::{End, Refused, Report, run_over_transport};
use swd_port::{Access, Answer, Cue, Disconnected, Register, Transport, TransportWire, Wire};
use swd_simulated::{
    QUIRKS, READ, READ_WORD, RUN, Untold, WORD, WRITE, WRITTEN, Wanted, pass_on, target_of,
};
use swd_target::{Bench, Memory};

// The target, and how many calls reach it.
#[derive(Drop)]
pub(super) struct Bridge {
    bench: Bench<Memory>,
    calls: u64,
    reaching: u64,
}

impl Transport for Bridge {
    fn step(&mut self, cue: Cue) -> Result<u64, Disconnected> {
        self.calls = self.calls.saturating_add(1);
        if self.calls > self.reaching {
            return Err(Disconnected);
        }
        pass_on(&mut self.bench, cue)
    }
}

// A target that so many calls reach.
pub(super) fn behind(alloc: Global, reaching: u64) -> Result<Bridge, Fail> {
    Ok(Bridge {
        bench: target_of(alloc, &RUN, QUIRKS)?,
        calls: 0,
        reaching,
    })
}

// A row: its name, how many calls reach the target, and what has to come of the run.
type Reaching = (&'static str, u64, Wanted<'static, 'static>);

const LOST: Wanted = Wanted {
    answers: &[],
    begun: 0,
    requests: 0,
    ended: End::Lost,
    log: &[],
};

const BEFORE_THE_WRITE: Wanted = Wanted {
    begun: 1,
    requests: 12,
    ..LOST
};

// The opening is a lead and nine requests. A write and a read at another address take three requests each: TAR, DRW,
// and the read of RDBUFF that confirms the write or returns the word. Each request is a call, and so is its data phase.
// The call that fails is the next one, and no call is made behind it.
const REACHING: &[Reaching] = &[
    (
        "nothing reaches it",
        0,
        Wanted {
            requests: 1,
            ..LOST
        },
    ),
    (
        "the lead alone",
        1,
        Wanted {
            requests: 1,
            ..LOST
        },
    ),
    (
        "all up to the request of TAR",
        20,
        Wanted {
            requests: 11,
            begun: 1,
            ..LOST
        },
    ),
    (
        "all up to the data of TAR",
        21,
        Wanted {
            requests: 11,
            begun: 1,
            ..LOST
        },
    ),
    ("all up to the request of the write", 22, BEFORE_THE_WRITE),
    (
        "all up to the data of the write",
        23,
        Wanted {
            log: &[WRITTEN],
            ..BEFORE_THE_WRITE
        },
    ),
    (
        "all up to the request that confirms the write",
        24,
        Wanted {
            log: &[WRITTEN],
            ..BEFORE_THE_WRITE
        },
    ),
    (
        "all up to what confirms the write",
        25,
        Wanted {
            answers: &[Answer::Written],
            requests: 13,
            log: &[WRITTEN],
            ..LOST
        },
    ),
    (
        "all but the word",
        30,
        Wanted {
            answers: &[Answer::Written],
            begun: 1,
            requests: 15,
            log: &[WRITTEN, READ_WORD],
            ..LOST
        },
    ),
    (
        "all but the idle cycles",
        31,
        Wanted {
            answers: &[Answer::Written, Answer::Value(WORD)],
            requests: 15,
            ended: End::All,
            log: &[WRITTEN, READ_WORD],
            ..LOST
        },
    ),
];

// The report is as wanted.
fn tells<R: Abort>(rt: &R, name: &str, report: &Report, wanted: &Wanted) {
    expect_eq_at(rt, &name, &Wanted::found(report, wanted.log), wanted);
}

// One run at a target that so many calls reach.
fn comes_out<R: Abort>(
    rt: &R,
    alloc: Global,
    (name, reaching, wanted): &Reaching,
) -> Result<(), Fail> {
    let bridge = behind(alloc, *reaching)?;
    let mut wire: TransportWire<Bridge, Untold> = TransportWire::new(bridge);
    let report = run_over_transport(alloc, &mut wire, &[WRITE, READ], 8)?;
    tells(rt, name, &report, wanted);
    let Bridge {
        mut bench,
        calls,
        ..
    } = wire.into_transport();
    bench.settle();
    expect_eq_at(rt, name, &bench.memory().log(), &wanted.log);
    // Not called again after the call that failed.
    expect_eq_at(rt, name, &calls, &reaching.saturating_add(1));
    Ok(())
}

#[test]
fn a_transport_that_fails_is_a_lost_acknowledgement(rt: HostRuntime) -> Result<(), Fail> {
    for row in REACHING {
        comes_out(&rt, rt.alloc(), row)?;
    }
    Ok(())
}

// The list is refused so, and the transport isn't called.
fn refuses<R: Abort>(
    rt: &R,
    alloc: Global,
    accesses: &[Access],
    refused: Refused,
) -> Result<(), Fail> {
    let bridge = behind(alloc, 64)?;
    let mut wire: TransportWire<Bridge, Untold> = TransportWire::new(bridge);
    match run_over_transport(alloc, &mut wire, accesses, 8) {
        Ok(_) => expect_at(rt, &refused, false),
        Err(fault) => expect_eq(rt, &fault, &refused),
    }
    expect_eq(rt, &wire.into_transport().calls, &0);
    Ok(())
}

#[test]
fn a_list_is_refused_before_the_transport_is_called(rt: HostRuntime) -> Result<(), Fail> {
    let many = vec![in rt.alloc(); READ; 65_537]?;
    refuses(&rt, rt.alloc(), &many, Refused::TooMany)?;
    let second = &[READ, Access::Write(0x2000_0001, 0)];
    refuses(&rt, rt.alloc(), second, Refused::Unaligned { index: 1 })
}

// A target that acknowledges each DRW write and drops it.
#[derive(Drop)]
struct Forgetful {
    bench: Bench<Memory>,
    dropping: bool,
}

impl Transport for Forgetful {
    fn step(&mut self, cue: Cue) -> Result<u64, Disconnected> {
        if cue == Cue::Ask(Register::DrwWrite.request()) {
            self.dropping = true;
            return Ok(1);
        }
        if self.dropping {
            self.dropping = false;
            return Ok(0);
        }
        pass_on(&mut self.bench, cue)
    }
}

// Each reply is one that a target that conforms to the model may give. So replies never show that a target conforms.
#[test]
fn a_target_that_drops_its_writes_is_not_seen(rt: HostRuntime) -> Result<(), Fail> {
    let bench = target_of::<Bench<Memory>>(rt.alloc(), &RUN, QUIRKS)?;
    let forgetful = Forgetful {
        bench,
        dropping: false,
    };
    let mut wire: TransportWire<Forgetful, Untold> = TransportWire::new(forgetful);
    let report = run_over_transport(rt.alloc(), &mut wire, &[WRITE], 8)?;
    // The opening's nine requests, TAR, DRW, and the read of RDBUFF that confirms the write.
    let wanted = Wanted {
        answers: &[Answer::Written],
        requests: 12,
        ended: End::All,
        ..LOST
    };
    tells(&rt, "a target that drops its writes", &report, &wanted);
    let Forgetful { mut bench, .. } = wire.into_transport();
    bench.settle();
    expect_eq(&rt, &bench.memory().log(), &LOST.log);
    Ok(())
}
