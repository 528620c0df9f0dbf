//! A host over any wire that uses only the exports.
use crate::{SwdAccess, SwdCue, swd_run_cue, swd_run_next};
use std::alloc::{AllocError, Global};
use swd_bits::Request;
use swd_host::{EngineFields, JobFields, OutcomeFields, StateFields, TarFields, TaskFields};
use swd_port::{Due, Wire};
use swd_steps::RunFields;

/// Kinds of cues.
pub const REST: u8 = 0;

pub const ASK: u8 = 2;

pub const TAKE: u8 = 3;

pub const PASS: u8 = 5;

pub const REFUSED: u8 = 255;

/// Kinds of outcomes.
pub const VALUE: u8 = 2;

pub const WRITTEN: u8 = 3;

pub const BUS_FAULT: u8 = 4;

pub const ALL: u8 = 5;

pub const LOST: u8 = 6;

pub const WRONG_ID: u8 = 8;

pub const CONFUSED: u8 = 9;

const ZEROS: EngineFields = EngineFields {
    requests: 0,
    state: StateFields {
        outcome: OutcomeFields { word: 0, kind: 0 },
        job: JobFields {
            kind: 0,
            place: 0,
            error: 0,
            damaged: 0,
        },
        kind: 0,
        phase: 0,
    },
    task: TaskFields {
        addr: 0,
        word: 0,
        kind: 0,
    },
    tar: TarFields { word: 0, known: 0 },
    tries: 0,
    events: 0,
    aims: 0,
    bursts: 0,
    ahead: 0,
    begun: 0,
    stray: 0,
};

/// Fields that are zero, as a caller's memory may be at first.
pub const NO_RUN: RunFields = RunFields {
    requests: 0,
    engine: ZEROS,
    end: OutcomeFields { word: 0, kind: 0 },
    answered: 0,
    begun: 0,
    stage: 0,
};

pub const fn read(addr: u32) -> SwdAccess {
    SwdAccess {
        addr,
        word: 0,
        write: 0,
    }
}

pub const fn write(addr: u32, word: u32) -> SwdAccess {
    SwdAccess {
        addr,
        word,
        write: 1,
    }
}

/// Returns an outcome of this kind, without a word.
pub const fn plain(kind: u8) -> OutcomeFields {
    OutcomeFields { word: 0, kind }
}

/// Returns the outcome of a read.
pub const fn value(word: u32) -> OutcomeFields {
    OutcomeFields { word, kind: VALUE }
}

/// The result of a run.
#[derive(Debug, Drop)]
pub struct Told {
    pub answers: Vec<OutcomeFields>,
    pub begun: u8,
    pub requests: u64,
    pub ended: u8,
}

// Sends the ones and zeros of a lead, or idle cycles if there are no ones. Returns whether the wire allows it.
fn leads<W: Wire>(wire: &mut W, cue: SwdCue) -> bool {
    if cue.ones == 0 {
        let Due::Nothing = wire.due() else {
            return false;
        };
        wire.idle(cue.zeros);
        return cue.with_switch == 0;
    }
    let outside = match wire.due() {
        Due::Nothing => true,
        _ => cue.ones >= 100 && cue.with_switch == 0,
    };
    if !outside || cue.ones < 50 || cue.zeros < 2 {
        return false;
    }
    wire.lead(cue.ones, cue.with_switch != 0, cue.zeros);
    true
}

/// Performs a cue over a wire, and returns the reply. Returns `None` if the wire doesn't allow the cue.
pub fn reply<W: Wire>(wire: &mut W, cue: SwdCue) -> Option<u64> {
    match (cue.kind, wire.due()) {
        (1, _) => { if leads(wire, cue) { Some(0) } else { None } }
        (2, Due::Nothing) => {
            let request = Request::of(cue.request)?;
            Some(u64::from(wire.ask(request)))
        }
        (3, Due::Take) => Some(wire.take()),
        (4, Due::Give) if cue.bits < 1 << 33 => {
            wire.give(cue.bits);
            Some(0)
        }
        (5, Due::Pass) => {
            wire.pass();
            Some(0)
        }
        _ => None,
    }
}

/// Drives a run to its end over a wire, and returns the result. Returns `None` if it takes too many calls, or the wire
/// doesn't allow a cue.
pub fn run_whole<W: Wire>(
    alloc: Global,
    wire: &mut W,
    run: &mut RunFields,
    accesses: &[SwdAccess],
) -> Result<Option<Told>, AllocError> {
    let mut answers = Vec::with_capacity(alloc, accesses.len())?;
    for _ in accesses {
        answers.push(plain(0))?;
    }
    let first = run.answered as usize;
    let mut cue = swd_run_cue(run);
    for _ in 0..10_000u32 {
        if cue.kind == REST || cue.kind == REFUSED {
            break;
        }
        let Some(seen) = reply(wire, cue) else {
            return Ok(None);
        };
        cue = swd_run_next(run, accesses, &mut answers, seen);
    }
    let mut told = Vec::new(alloc);
    for (index, answer) in answers.iter().enumerate() {
        if index >= first && index < run.answered as usize {
            told.push(*answer)?;
        }
    }
    Ok(Some(Told {
        answers: told,
        begun: run.begun,
        requests: run.requests,
        ended: run.end.kind,
    }))
}
