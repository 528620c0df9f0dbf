//! Runs over both simulated targets, and over wires that break a rule.
ghost use Rattle.std.specs.Prelude.{IfOk};
ghost use Rattle.swd_target.specs.Marks.{IsLegalPlan};

use std::alloc::{AllocError, Global};
use std::test::Fail;
use swd_bits::data_bits;
use swd_check::{Check, CheckOptions, Checked, PlainMemory};
use swd_checker::CheckStart;
use swd_clocked::ClockedBench;
use swd_conform::{ConformRun, Conformed, Plan, conform};
use swd_port::{Cue, Disconnected, Mark, Story, Transport, TransportWire};
use swd_remote::{Fault, Line, over_line};
use swd_target::{Bench, Memory, Quirks};

const BASE: u32 = 0x2000_0ff0;

const WORDS: u32 = 80;

// A check of a clean run at this memory.
fn check(alloc: Global) -> Result<Check<Global>, Fail> {
    let mut plain = PlainMemory::new(alloc);
    plain.add(BASE, WORDS)?;
    let options = CheckOptions {
        start: CheckStart::Made,
        clean: true,
        exact_registers: false,
        overrun: false,
    };
    Ok(Check::new(options, plain))
}

// A plan for this memory.
fn plan() -> Result<Plan<'static>, Fail> {
    Ok(Plan::new(BASE, WORDS, Some(0x3000_0000)).ok_or("no plan")?)
}

// More requests than a run has, also where each fifth gets WAIT.
const REQUESTS: usize = 2500;

// Returns a plan by which each fifth request gets WAIT.
fn waiting(alloc: Global) -> Result<Vec<Mark>, AllocError>
    ensures { IfOk result (λ plan. IsLegalPlan plan.items) }
{
    let mut plan = Vec::with_capacity(alloc, REQUESTS)?;
    for now in 0..REQUESTS {
        plan.push(if now % 5 == 4 {
            Mark::Wait
        } else {
            Mark::Clean
        })?;
    }
    Ok(plan)
}

// Returns that plan if `waits`, and otherwise one without events.
fn marks(alloc: Global, waits: bool) -> Result<Vec<Mark>, AllocError>
    ensures { IfOk result (λ plan. IsLegalPlan plan.items) }
{
    if waits {
        waiting(alloc)
    } else {
        Ok(Vec::new(alloc))
    }
}

const PROMPT: Quirks = Quirks {
    wrap: false,
    late: false,
    filler: 0,
    idr: None,
};

const LATE: Quirks = Quirks {
    wrap: true,
    late: true,
    filler: 0xffff_ffff,
    idr: Some(0x2477_0011),
};

// Whether a run fits, with no damage, and how far it came.
fn fits(conformed: Conformed, waits: bool) -> bool {
    let whole = conformed.requests > 1500 && conformed.clocks > 60_000 && conformed.waited == waits;
    matches!(
        conformed.checked,
        Checked::Fits {
            faults: 0,
            gaps: 0,
            from: None,
            ..
        }
    ) && whole
}

#[test]
fn benches_fit(rt: HostRuntime) -> Result<(), Fail> {
    for quirks in [PROMPT, LATE] {
        for waits in [false, true] {
            let alloc = rt.alloc();
            let Ok(memory) = Memory::new(alloc, BASE, WORDS, 4000) else {
                return Err(Fail::from("no memory"));
            };
            let marks = marks(alloc, waits)?;
            let mut bench = Bench::new(memory, quirks, marks);
            let conformed = conform(&mut bench, plan()?, check(alloc)?);
            assert!(rt; fits(conformed, waits), "{conformed:?}");
        }
    }
    Ok(())
}

#[test]
fn clocked_benches_fit(rt: HostRuntime) -> Result<(), Fail> {
    for quirks in [PROMPT, LATE] {
        for waits in [false, true] {
            let alloc = rt.alloc();
            let Ok(memory) = Memory::new(alloc, BASE, WORDS, 4000) else {
                return Err(Fail::from("no memory"));
            };
            let marks = marks(alloc, waits)?;
            let Ok(bench) = ClockedBench::new(alloc, memory, quirks, marks) else {
                return Err(Fail::from("no bench"));
            };
            let mut bench = bench;
            let conformed = conform(&mut bench, plan()?, check(alloc)?);
            assert!(rt; fits(conformed, waits), "{conformed:?}");
            assert_eq!(rt; conformed.clocks, bench.cycles());
        }
    }
    Ok(())
}

// A port that answers every request from one on with these three bits, and none before. Each word is that of DPIDR.
#[derive(Drop)]
struct Answers {
    silent: u32,
    bits: u64,
}

impl Transport for Answers {
    fn step(&mut self, cue: Cue) -> Result<u64, Disconnected> {
        match cue {
            Cue::Ask(_) if self.silent > 0 => {
                self.silent -= 1;
                Ok(7)
            }
            Cue::Ask(_) => Ok(self.bits),
            Cue::Take => Ok(data_bits(0x2ba0_1477)),
            _ => Ok(0),
        }
    }
}

// The state of the other end doesn't matter.
struct Any;

impl Story for Any {
    ghost use Rattle.std.specs.Prelude.{[]};
    ghost use Rattle.std.specs.FinMap.{empty};
    ghost use Rattle.swd_port.specs.PlainBus.{bus_of};
    ghost use Rattle.swd_port.specs.Made.{port_made};

    ghost at = { λ _. port_made 0 (bus_of (record { words = empty; log = []; room = 0 })) };
}

// Requests that are unanswered at first, the answer to the others, and after how many requests a rule is broken.
const WRONG: &[(u32, u64, u64)] = &[
    // OK before any line reset.
    (0, 1, 1),
    // OK to a read of CTRL/STAT behind a line reset.
    (1, 1, 3),
    // WAIT, and FAULT, to the read of DPIDR.
    (1, 2, 2),
    (1, 4, 2),
    // No answer to the read of DPIDR behind a line reset.
    (2, 1, 2),
];

#[test]
fn runs_stop_at_a_broken_rule(rt: HostRuntime) -> Result<(), Fail> {
    for (silent, bits, requests) in WRONG {
        let (silent, bits) = (*silent, *bits);
        let mut wire: TransportWire<Answers, Any> = TransportWire::new(Answers { silent, bits });
        let conformed = conform(&mut wire, plan()?, check(rt.alloc())?);
        assert!(rt;
            matches!(conformed.checked, Checked::Breaks(_)),
            "{conformed:?}"
        );
        assert_eq!(rt; conformed.requests, *requests);
    }
    Ok(())
}

// The other end sends these levels, and then nothing; the requests that were sent.
const SENT: &[(&[u8], u64)] = &[(b"", 1), (b"11", 1), (b"1111", 2)];

#[test]
fn runs_stop_where_the_other_end_goes_away(rt: HostRuntime) -> Result<(), Fail> {
    for (sent, requests) in SENT {
        let mut run = ConformRun::new(plan()?, check(rt.alloc())?);
        let mut input = *sent;
        let mut output = Vec::new(rt.alloc());
        let ends = Line::characters(&mut input, &mut output);
        let (conformed, line) = over_line::<Any, _, _, _>(&mut run, ends);
        assert_eq!(rt; line.fault, Some(Fault::Ended));
        assert_eq!(rt; conformed.requests, *requests);
    }
    Ok(())
}
