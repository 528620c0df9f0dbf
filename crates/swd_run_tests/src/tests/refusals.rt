//! Runs on heaps of each size: where memory ended is told, and nothing has been written but the report of the calls
//! before.
use super::expect::{expect_at, expect_eq, expect_eq_at};
use super::{ended_with, reported, traced};
use linked_list_allocator::LocalHeap;
use std::alloc::Allocator;
use std::process::Abort;
use std::test::Fail;
use swd_host::End;
use swd_run::{EngineFault, Finished, RunFault, TextsFault};
use swd_script::ScriptFault;

// The list of accesses grows at lines 3 and 4.
const SCRIPT: &[u8] =
    b"memory 20000000 16\nroom 8\nw 20000000 deadbeef\nrn 20000000 6\nr 30000000\n";

// The list of marks grows at lines 1 and 9.
const PLAN: &[u8] = b".\n.\n.\n.\n.\n.\n.\n.\n.\n.\nwait\nwait\nwait\n";

const REPORT: &[u8] = b"w 20000000 written\nr 20000000 deadbeef\nr 20000004 00000000\n\
    r 20000008 00000000\nr 2000000c 00000000\nr 20000010 00000000\nr 20000014 00000000\n\
    r 30000000 busfault\nend all 8\n";

// The step from one heap to the next, in bytes.
const STEP: usize = 16;

// Sixteen words of 4 bytes, room for eight transfers of 12, and eight answers of 8.
const RUN_BYTES: usize = 16 * 4 + 8 * 12 + 8 * 8;

// Where memory ended, in the order of a run.
#[derive(Clone, Copy, Debug, PartialEq, Eq, PartialOrd, Ord)]
enum Stage {
    Script,
    Plan,
    // The words, the log or the answers.
    Run,
    Trace,
    // It was enough.
    Whole,
}

fn stage_of(answer: Result<Finished, RunFault>) -> Option<Stage> {
    match answer {
        Err(RunFault::Texts(TextsFault::Script(ScriptFault::Memory { line: 3 | 4 | 6 }))) => Some(
            Stage::Script,
        ),
        Err(RunFault::Texts(TextsFault::Plan(ScriptFault::Memory { line: 1 | 9 }))) => Some(
            Stage::Plan,
        ),
        Err(RunFault::Engine(EngineFault::Memory)) => Some(Stage::Run),
        Err(RunFault::Engine(EngineFault::TraceCut)) => Some(Stage::Trace),
        Ok(
            Finished {
                ended: End::All,
                ..
            },
        ) => Some(Stage::Whole),
        _ => None,
    }
}

const STAGES: &[Stage] = &[Stage::Script, Stage::Plan, Stage::Run, Stage::Whole];

const TRACED_STAGES: &[Stage] = &[
    Stage::Script,
    Stage::Plan,
    Stage::Run,
    Stage::Trace,
    Stage::Whole,
];

// The stages of heaps, each larger than the one before.
#[derive(Drop)]
struct Stages {
    seen: Vec<Stage>,
    // How many heaps ended at the words, the log or the answers.
    run: usize,
}

impl Stages {
    fn new(rt: &HostRuntime) -> Stages {
        Stages {
            seen: Vec::new(rt.alloc()),
            run: 0,
        }
    }

    // One more, which is no earlier.
    fn add<R: Abort>(&mut self, rt: &R, stage: Stage) -> Result<(), Fail> {
        if stage == Stage::Run {
            self.run = self.run.saturating_add(1);
        }
        let last = self.seen.last().copied();
        if last != Some(stage) {
            assert!(rt; last < Some(stage));
            self.seen.push(stage)?;
        }
        Ok(())
    }

    // These and no others, and each part of the run was refused.
    fn are<R: Abort>(&self, rt: &R, stages: &[Stage]) {
        expect_eq(rt, &self.seen.as_slice(), &stages);
        assert!(rt; self.run >= RUN_BYTES / STEP);
    }
}

// A core beside the memory: the list of accesses grows at line 4.
const CORE_SCRIPT: &[u8] = b"memory 20000000 1\ncore 20000000\nroom 8\nr e000ed00\n# the end\n";

const CORE_REPORT: &[u8] = b"r e000ed00 410fc241\nend all 1\n";

const CORE_STAGES: &[Stage] = &[Stage::Script, Stage::Run, Stage::Whole];

// A word of 4 bytes, twice room for eight transfers of 12, and an answer of 8.
const CORE_RUN_BYTES: usize = 4 + 2 * 8 * 12 + 8;

#[test]
fn a_run_with_a_core_where_memory_ends(rt: HostRuntime) -> Result<(), Fail> {
    let mut stages = Stages::new(&rt);
    for size in 1..80usize {
        let heap = LocalHeap::new(rt.alloc(), size * STEP)?;
        let mut report = Vec::new(rt.alloc());
        let answer = reported(&heap, CORE_SCRIPT, b"", 0, &mut report);
        let Some(stage) = stage_of(answer) else {
            panic!(rt; "{size}: {answer:?}");
        };
        let written = if stage == Stage::Whole {
            CORE_REPORT
        } else {
            b""
        };
        expect_eq_at(&rt, &size, &report.as_slice(), &written);
        expect_eq(&rt, &heap.used(), &0);
        stages.add(&rt, stage)?;
    }
    expect_eq(&rt, &stages.seen.as_slice(), &CORE_STAGES);
    assert!(rt; stages.run >= CORE_RUN_BYTES / STEP);
    Ok(())
}

#[test]
fn a_run_where_memory_ends(rt: HostRuntime) -> Result<(), Fail> {
    let mut stages = Stages::new(&rt);
    for size in 1..80usize {
        let heap = LocalHeap::new(rt.alloc(), size * STEP)?;
        let mut report = Vec::new(rt.alloc());
        let answer = reported(&heap, SCRIPT, PLAN, 0, &mut report);
        let Some(stage) = stage_of(answer) else {
            panic!(rt; "{size}: {answer:?}");
        };
        let written = if stage == Stage::Whole { REPORT } else { b"" };
        expect_eq_at(&rt, &size, &report.as_slice(), &written);
        expect_eq(&rt, &heap.used(), &0);
        stages.add(&rt, stage)?;
    }
    stages.are(&rt, STAGES);
    Ok(())
}

// The second call has more accesses than the first, and takes more memory.
const TWO_CALLS: &[u8] =
    b"memory 20000000 16\nroom 20\nw 20000000 deadbeef\nnext\nrn 20000000 16\n";

const FIRST_REPORT: &[u8] = b"w 20000000 written\nend all 1\n";

// Where memory is refused for a call, the report of the call before it stands whole.
#[test]
fn a_second_call_where_memory_ends(rt: HostRuntime) -> Result<(), Fail> {
    let mut first_alone = false;
    let mut whole = false;
    for size in 1..100usize {
        let heap = LocalHeap::new(rt.alloc(), size * STEP)?;
        let mut report = Vec::new(rt.alloc());
        let answer = reported(&heap, TWO_CALLS, b"", 0, &mut report);
        let report = report.as_slice();
        match answer {
            Ok(_) => whole = true,
            Err(RunFault::Engine(EngineFault::Memory)) if !report.is_empty() => first_alone = true,
            Err(_) => expect_eq_at(&rt, &size, &report, &b"".as_slice()),
        }
        if !report.is_empty() {
            expect_at(&rt, &size, report.starts_with(FIRST_REPORT));
            let alone = report.len() == FIRST_REPORT.len();
            expect_eq_at(&rt, &size, &alone, &answer.is_err());
        }
        expect_eq_at(&rt, &size, &heap.used(), &0);
    }
    assert!(rt; first_alone && whole);
    Ok(())
}

/// What a traced run answers, what it reports, and its trace.
#[derive(Drop)]
pub(super) struct Traced {
    answer: Result<Finished, RunFault>,
    report: Vec<u8>,
    pub(super) trace: Vec<u8>,
}

/// Runs a script under a plan with its trace.
pub(super) fn traced_on<A: Allocator + Copy>(
    rt: &HostRuntime,
    alloc: A,
    script: &[u8],
    plan: &[u8],
) -> Traced {
    let mut report = Vec::new(rt.alloc());
    let trace = Vec::new(rt.alloc());
    let (answer, trace) = traced(alloc, script, plan, &mut report, trace);
    Traced {
        answer,
        report,
        trace: trace.unwrap_or(Vec::new(rt.alloc())),
    }
}

// The items of a trace are refused while the run goes on, and change nothing in it.
#[test]
fn a_traced_run_where_memory_ends(rt: HostRuntime) -> Result<(), Fail> {
    let whole = traced_on(&rt, rt.alloc(), SCRIPT, PLAN);
    expect_eq(&rt, &whole.answer, &ended_with(End::All, REPORT));
    expect_eq(&rt, &whole.report.as_slice(), &REPORT);
    let whole = whole.trace;
    let mut stages = Stages::new(&rt);
    let mut most = 0usize;
    let mut longest_cut = 0usize;
    for size in 1..300usize {
        let heap = LocalHeap::new(rt.alloc(), size * STEP)?;
        let run = traced_on(&rt, &heap, SCRIPT, PLAN);
        let Some(stage) = stage_of(run.answer) else {
            panic!(rt; "{size}: {:?}", run.answer);
        };
        let written = if stage >= Stage::Trace { REPORT } else { b"" };
        expect_eq_at(&rt, &size, &run.report.as_slice(), &written);
        // Whole lines from the beginning, and no fewer of them from a larger heap.
        let trace = run.trace.as_slice();
        assert!(rt; whole.as_slice().starts_with(trace));
        assert!(rt; trace.is_empty() || trace.last() == Some(&b'\n'));
        assert!(rt; most <= trace.len());
        expect_eq(&rt, &(trace.len() == whole.len()), &(stage == Stage::Whole));
        expect_eq(&rt, &heap.used(), &0);
        stages.add(&rt, stage)?;
        most = trace.len();
        if stage == Stage::Trace {
            longest_cut = most;
        }
    }
    stages.are(&rt, TRACED_STAGES);
    // What was kept before memory was refused has been written: more than the opening.
    assert!(rt; longest_cut > 14 * 47);
    Ok(())
}

// The answers of the second call take more memory than the items of the first one.
const TRACED_CALLS: &[u8] =
    b"memory 20000000 256\nroom 300\nw 20000000 deadbeef\nnext\nrn 20000000 200\n";

// Where memory is refused for a call, the trace has the items of the call before it. Where they were all kept, these
// are 4 of its line reset, 12 requests, and the zeros at its end.
#[test]
fn a_second_traced_call_where_memory_ends(rt: HostRuntime) -> Result<(), Fail> {
    let whole = traced_on(&rt, rt.alloc(), TRACED_CALLS, b"".as_slice());
    let whole = whole.trace;
    let mut most = 0usize;
    for size in 1..1000usize {
        let heap = LocalHeap::new(rt.alloc(), size * STEP)?;
        let run = traced_on(&rt, &heap, TRACED_CALLS, b"".as_slice());
        let Err(RunFault::Engine(EngineFault::Memory)) = run.answer else {
            continue;
        };
        let trace = run.trace.as_slice();
        expect_at(&rt, &size, whole.as_slice().starts_with(trace));
        expect_at(&rt, &size, trace.is_empty() || trace.last() == Some(&b'\n'));
        if run.report.as_slice() == FIRST_REPORT {
            most = most.max(trace.iter().filter(|byte| **byte == b'\n').count());
        }
    }
    expect_eq(&rt, &most, &17);
    Ok(())
}
