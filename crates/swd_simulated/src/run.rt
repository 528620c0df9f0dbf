//! Runs of a host over a simulated target, and what has to come of them.
ghost use Rattle.std.specs.Prelude.{◌≡◌, IfOk, IsTrue};
ghost use Rattle.swd_port.specs.PlainMemory.{PlainMemory};
ghost use Rattle.swd_port.specs.PlainBus.{bus_of};
ghost use Rattle.swd_port.specs.Made.{port_made};
ghost use Rattle.swd_target.specs.Marks.{IsLegalPlan};

use crate::Simulated;
use std::alloc::{Allocator, Global};
use std::test::Fail;
use swd_host::{End, Report};
use swd_port::{Access, Answer, Due, Transfer, Wire};
use swd_recorder::Recorder;
use swd_target::{Mark, Memory, Quirks};

/// Where the memory begins.
pub const BASE: u32 = 0x2000_0000;

/// The word that most rows write.
pub const WORD: u32 = 0xdead_beef;

/// A read of the word there.
pub const READ: Access = Access::Read(BASE);

/// The write of `WORD` there.
pub const WRITE: Access = Access::Write(BASE, WORD);

/// What an unknown value reads as.
pub const FILLER: u32 = 0xa5a5_a5a5;

/// The choices of a target, where a test names none.
pub const QUIRKS: Quirks = Quirks {
    wrap: true,
    late: false,
    filler: FILLER,
    idr: None,
};

/// The same, and with each of the choices made the other way.
pub const ALL_QUIRKS: &[Quirks] = &[
    QUIRKS,
    Quirks {
        wrap: false,
        late: false,
        filler: FILLER,
        idr: None,
    },
    Quirks {
        wrap: true,
        late: true,
        filler: FILLER,
        idr: None,
    },
    Quirks {
        wrap: true,
        late: false,
        filler: 0xffff_ffff,
        idr: None,
    },
];

/// The accesses of a run, and what they meet: a memory of so many words from 20000000, with room
/// for so many transfers; the marks that aren't clean, each by the number of its request from 1; and
/// the tries.
#[derive(Clone, Copy)]
pub struct Run<'m, 'a> {
    pub words: u32,
    pub room: u32,
    pub marks: &'m [(usize, Mark)],
    pub tries: u32,
    pub accesses: &'a [Access],
}

/// No access and no mark, with a memory of sixteen words, room for sixteen transfers, and eight tries.
pub const RUN: Run = Run {
    words: 16,
    room: 16,
    marks: &[],
    tries: 8,
    accesses: &[],
};

/// These accesses under these marks, over the same memory.
pub fn run_of<'m, 'a>(marks: &'m [(usize, Mark)], accesses: &'a [Access]) -> Run<'m, 'a> {
    Run {
        marks,
        accesses,
        ..RUN
    }
}

/// What comes of a run, or has to: the report, and the memory's log once nothing is pending.
#[derive(Clone, Copy, Debug, PartialEq)]
pub struct Wanted<'a, 'l> {
    pub answers: &'a [Answer],
    pub begun: u8,
    pub requests: u64,
    pub ended: End,
    pub log: &'l [Transfer],
}

impl<'a, 'l> Wanted<'a, 'l> {
    /// What this report says, beside this log.
    pub fn found<A: Allocator>(report: &'a Report<A>, log: &'l [Transfer]) -> Wanted<'a, 'l> {
        Wanted {
            answers: report.answers.as_slice(),
            begun: report.begun,
            requests: report.requests,
            ended: report.ended,
            log,
        }
    }
}

/// Every access is answered, and there is none.
pub const WHOLE: Wanted = Wanted {
    answers: &[],
    begun: 0,
    requests: 9,
    ended: End::All,
    log: &[],
};

/// `WORD` was written where the memory begins.
pub const WRITTEN: Transfer = Transfer {
    read: false,
    addr: BASE,
    word: WORD,
};

/// The memory's first word was read before it was written.
pub const READ_ZERO: Transfer = Transfer {
    read: true,
    addr: BASE,
    word: 0,
};

/// It was read after it was written.
pub const READ_WORD: Transfer = Transfer {
    read: true,
    addr: BASE,
    word: WORD,
};

/// Each mark is legal.
pub fn are_legal(marks: &[Mark]) -> bool
    ensures { IsTrue result → IsLegalPlan marks.now }
{
    marks.iter().all(|mark| mark.legal())
}

/// The plan with these marks, each by the number of its request from 1. Fails where a mark isn't legal.
pub fn plan_of(alloc: Global, marks: &[(usize, Mark)]) -> Result<Vec<Mark>, Fail>
    ensures { IfOk result (λ plan. IsLegalPlan plan.items) }
{
    let mut plan = Vec::with_capacity(alloc, 96)?;
    for place in 1..=96_usize {
        let named = marks.iter().find(|(at, _)| *at == place);
        plan.push(named.map_or(Mark::Clean, |(_, mark)| *mark))?;
    }
    if are_legal(&plan) {
        Ok(plan)
    } else {
        Err(Fail::new("a mark isn't legal"))
    }
}

/// The target of a run. Fails where a mark isn't legal.
pub fn target_of<S: Simulated>(alloc: Global, run: &Run, quirks: Quirks) -> Result<S, Fail>
    ensures { IfOk result (λ target.
        (m : PlainMemory) × (S.Wire.port target ≡ port_made 0x2ba0_1477 (bus_of m))) }
{
    let memory = Memory::new(alloc, BASE, run.words, run.room)?;
    let plan = plan_of(alloc, run.marks)?;
    let target = S::simulate(alloc, memory, quirks, plan)?;
    Ok(target)
}

/// The report of a run over a wire. Fails where something is due on it.
pub fn report_of<W: Wire>(alloc: Global, wire: &mut W, run: &Run) -> Result<Report, Fail> {
    match wire.due() {
        Due::Nothing => Ok(swd_host::run(alloc, wire, run.accesses, run.tries)?),
        due => Err(Fail::from(due)),
    }
}

/// A recorder over a wire. Fails with what is due there.
pub fn recorder_over<W: Wire + Drop>(alloc: Global, wire: W) -> Result<Recorder<W>, Due> {
    match wire.due() {
        Due::Nothing => Ok(Recorder::new(alloc, wire)),
        due => Err(due),
    }
}
