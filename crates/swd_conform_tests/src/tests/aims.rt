//! Runs make no transfer at another address than those that they were given, whatever is damaged or lost.
ghost use Rattle.std.specs.Prelude.{IfOk};
ghost use Rattle.swd_port.specs.Choices.{IsPortMark};
ghost use Rattle.swd_target.specs.Marks.{IsLegalPlan};

use std::alloc::{AllocError, Global};
use std::process::Abort;
use std::test::Fail;
use swd_check::{Check, CheckOptions, Checked, PlainMemory};
use swd_checker::CheckStart;
use swd_conform::{Conformed, Plan, conform};
use swd_port::Mark;
use swd_target::{Bench, Memory, Quirks};

// The words that a run may overwrite.
const WORDS: u32 = 80;

// The same in bytes.
const BYTES: u32 = 320;

// The words of the target's memory, around them.
const AROUND: u32 = 1024;

// The first of the words that a run may overwrite: the other words that it writes to TAR are not in the target's
// memory, or are.
const BASES: &[u32] = &[0x2000_03f0, 0x2468_a3f0];

// An address without memory.
const HOLE: u32 = 0x3000_0000;

// What is taken for one, and is a word of the target's memory.
const NO_HOLE: u32 = 0x2000_0800;

// A wire's faults.
#[derive(Clone, Copy)]
enum Event {
    // A request gets WAIT until the run gives it up.
    Busy,
    // A request isn't heard.
    Deaf,
    // The host doesn't see an acknowledgement.
    Mute,
    // A bit of a data phase changes.
    Flip,
}

impl Event {
    // Returns the fault at one request.
    fn mark(self) -> Mark
        ensures { IsPortMark result }
    {
        match self {
            Event::Busy => Mark::Wait,
            Event::Deaf => Mark::Deaf,
            Event::Mute => Mark::Mute(0),
            Event::Flip => Mark::Flip(4),
        }
    }

    // Returns at how many requests it is.
    fn count(self) -> usize {
        match self {
            Event::Busy => 64,
            _ => 1,
        }
    }
}

// Returns a plan with an event at a request.
fn marks(alloc: Global, event: Event, at: usize) -> Result<Vec<Mark>, AllocError>
    ensures { IfOk result (λ plan. IsLegalPlan plan.items) }
{
    let count = at.saturating_add(event.count());
    let mut plan = Vec::with_capacity(alloc, count)?;
    for now in 0..count {
        plan.push(if now < at { Mark::Clean } else { event.mark() })?;
    }
    Ok(plan)
}

const QUIRKS: Quirks = Quirks {
    wrap: true,
    late: false,
    filler: 0,
    idr: None,
};

fn check(alloc: Global, base: u32) -> Result<Check<Global>, Fail> {
    let mut plain = PlainMemory::new(alloc);
    plain.add(base & 0xffff_f000, AROUND)?;
    let options = CheckOptions {
        start: CheckStart::Made,
        clean: false,
        exact_registers: false,
        overrun: false,
    };
    Ok(Check::new(options, plain))
}

// What a run found, and the address of a transfer that was neither at its words nor at the address that it takes for
// one without memory, if there was one.
#[derive(Drop)]
struct Ran {
    conformed: Conformed<'static>,
    astray: Option<u32>,
}

// Makes a run with this address for one without memory, and with these events.
fn make_run(alloc: Global, base: u32, hole: u32, events: Vec<Mark>) -> Result<Ran, Fail>
    requires { IsLegalPlan events.items }
{
    let Ok(memory) = Memory::new(alloc, base & 0xffff_f000, AROUND, 4000) else {
        return Err(Fail::from("no memory"));
    };
    let mut bench = Bench::new(memory, QUIRKS, events);
    let plan = Plan::new(base, WORDS, Some(hole)).ok_or("no plan")?;
    let conformed = conform(&mut bench, plan, check(alloc, base)?);
    if let Checked::Breaks(_) = conformed.checked {
        return Err(Fail::from("a rule was broken"));
    }
    let log = bench.memory().log();
    let astray = log
        .iter()
        .map(|transfer| transfer.addr)
        .find(|addr| addr.wrapping_sub(base) >= BYTES && *addr != hole);
    Ok(Ran { conformed, astray })
}

const EVENTS: &[Event] = &[Event::Busy, Event::Deaf, Event::Mute, Event::Flip];

// Returns whether all events at these requests leave all transfers in the memory.
fn stays<R: Abort>(rt: &R, alloc: Global, at: usize) -> Result<(), Fail> {
    for base in BASES {
        for event in EVENTS {
            let ran = make_run(alloc, *base, HOLE, marks(alloc, *event, at)?)?;
            assert!(rt;
                ran.astray.is_none(),
                "{:?} with an event at {at}",
                ran.astray
            );
            assert!(rt;
                !ran.conformed.unrefused,
                "no bus error with an event at {at}"
            );
        }
    }
    Ok(())
}

const PLACES: &[usize] = &[16, 337, 501, 669, 689, 911, 1200, 1498];

// Events at requests all over a run. At 337 and 669 a write of TAR was once given up, or lost, and the transfers behind
// it went to the word that was written to TAR before, or over the end of a kilobyte. At 689 an answer that was lost was
// once taken for one that was no bus error.
#[test]
fn transfers_stay_in_the_memory(rt: HostRuntime) -> Result<(), Fail> {
    for at in PLACES {
        stays(&rt, rt.alloc(), *at)?;
    }
    Ok(())
}

// A target that has memory where the run takes an address for one without gets transfers there, and none behind it.
#[test]
fn a_hole_that_is_memory_is_told(rt: HostRuntime) -> Result<(), Fail> {
    for event in [Event::Busy, Event::Mute] {
        let ran = make_run(
            rt.alloc(),
            0x2000_03f0,
            NO_HOLE,
            marks(rt.alloc(), event, 100)?,
        )?;
        assert!(rt; ran.conformed.unrefused);
        assert!(rt; ran.astray.is_none(), "{:?}", ran.astray);
    }
    Ok(())
}
