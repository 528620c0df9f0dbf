//! Traces that are written while their calls go on. The first call and each resumed one begin with a line reset, whose
//! ones, switch, ones and zeros are four items. Each request is one item, after which no zeros come but those after the
//! call's last one.

use super::expect::{expect_at, expect_eq_at};
use super::limits;
use super::streamed::{Asked, Watching, lost_after, marks_of, reads};
use std::alloc::Global;
use std::cell::Cell;
use std::test::Fail;
use swd_host::End;
use swd_run::{EngineFault, Finished, QUIRKS, Records, run_batches};
use swd_script::read_script;
use swd_target::{Bench, Memory};

// What the calls of a script came to, and what was written of their report and of their trace.
#[derive(Drop)]
struct Streamed {
    answer: Result<Finished, EngineFault>,
    report: Vec<u8>,
    writes: Vec<(u64, usize)>,
    trace: Vec<u8>,
    requests: u64,
}

// The writes that fail: one of the report, and one of the trace.
type Failing = (usize, usize);

const NONE_FAILS: Failing = (usize::MAX, usize::MAX);

fn watching<'a>(alloc: Global, asked: &'a Cell<u64>, fails_at: usize) -> Watching<'a> {
    Watching {
        asked,
        writes: Vec::new(alloc),
        taken: Vec::new(alloc),
        fails_at,
    }
}

// Runs a script at a target under this plan.
fn run_at(
    alloc: Global,
    script: &[u8],
    plan: &[u8],
    resumes: u32,
    fails_at: Failing,
) -> Result<Streamed, Fail> {
    let mut text = script;
    let Ok(script) = read_script(alloc, &mut text) else {
        return Err(Fail::from("the script is not valid"));
    };
    let marks = marks_of(alloc, plan)?;
    let asked = Cell::new(0u64);
    let memory = Memory::new(alloc, 0, 1, 4096)?;
    let wire = Asked {
        wire: Bench::new(memory, QUIRKS, marks),
        asked: &asked,
    };
    let mut report = watching(alloc, &asked, fails_at.0);
    let mut records = Records {
        trace: Some(watching(alloc, &asked, fails_at.1)),
        accesses: None,
        printer: (),
        progress: (),
    };
    let (answer, _) = run_batches(
        alloc,
        wire,
        script.batches.as_slice(),
        limits(resumes),
        &mut report,
        &mut records,
    );
    let Records { trace, .. } = records;
    let Some(trace) = trace else {
        return Err(Fail::from("the trace has no writer"));
    };
    let Watching { writes, taken, .. } = trace;
    let Watching { taken: report, .. } = report;
    Ok(Streamed {
        answer,
        report,
        writes,
        trace: taken,
        requests: asked.get(),
    })
}

// How many reads the first call has, what follows it in the script, how many requests the plan leaves clean before a
// lost acknowledgement, and after how many requests the trace is written.
type Row = (
    &'static str,
    usize,
    &'static [u8],
    Option<usize>,
    &'static [u64],
);

const ROWS: &[Row] = &[
    ("no read", 0, b"", None, &[0, 9]),
    ("a few reads", 5, b"", None, &[0, 24]),
    // The zeros at its end are the item after which 1024 wait.
    ("1023 requests", 338, b"", None, &[0, 1023, 1023]),
    ("1026 requests", 339, b"", None, &[0, 1024, 1026]),
    (
        "many reads",
        2500,
        b"",
        None,
        &[0, 1024, 2048, 3072, 4096, 5120, 6144, 7168, 7509],
    ),
    ("two calls", 10, b"next\nr 0\n", None, &[0, 42]),
    (
        "a call that is resumed",
        1100,
        b"",
        Some(3160),
        &[0, 1024, 2048, 3072, 3161, 3320],
    ),
];

// After how many requests there were writes. The lines of 1,024 items take two, of at most 32 KiB.
fn places_of(alloc: Global, writes: &[(u64, usize)]) -> Result<Vec<u64>, Fail> {
    let mut places = Vec::new(alloc);
    let mut full = false;
    for (asked, size) in writes {
        if !full || places.last() != Some(asked) {
            places.push(*asked)?;
        }
        full = *size > 30_000;
    }
    Ok(places)
}

// How many bytes the first writes had.
fn bytes_in(writes: &[(u64, usize)], count: usize) -> usize {
    let mut bytes = 0usize;
    for (index, (_, size)) in writes.iter().enumerate() {
        if index < count {
            bytes = bytes.saturating_add(*size);
        }
    }
    bytes
}

#[test]
fn the_trace_is_written_at_line_resets_and_after_1024_items(rt: HostRuntime) -> Result<(), Fail> {
    for (name, count, rest, clean, requests) in ROWS {
        let script = reads(rt.alloc(), *count, rest)?;
        let plan = match clean {
            Some(clean) => lost_after(rt.alloc(), *clean)?,
            None => Vec::new(rt.alloc()),
        };
        let run = run_at(
            rt.alloc(),
            script.as_slice(),
            plan.as_slice(),
            1,
            NONE_FAILS,
        )?;
        expect_eq_at(&rt, name, &run.answer, &super::ended(End::All));
        let places = places_of(rt.alloc(), run.writes.as_slice())?;
        expect_eq_at(&rt, name, &places.as_slice(), requests);
        let bytes = bytes_in(run.writes.as_slice(), usize::MAX);
        expect_eq_at(&rt, name, &run.trace.len(), &bytes);
        expect_eq_at(&rt, name, &run.trace.last(), &Some(&b'\n'));
    }
    Ok(())
}

// The calls go on to their end, and their report is whole. Nothing is written to the trace after that write.
#[test]
fn a_trace_that_fails_in_a_call(rt: HostRuntime) -> Result<(), Fail> {
    let script = reads(rt.alloc(), 2500, b"next\nr 0\n".as_slice())?;
    let script = script.as_slice();
    let whole = run_at(rt.alloc(), script, b"".as_slice(), 0, NONE_FAILS)?;
    expect_eq_at(&rt, &"whole", &whole.requests, &7512);
    for fails_at in 0..whole.writes.len() {
        let run = run_at(
            rt.alloc(),
            script,
            b"".as_slice(),
            0,
            (usize::MAX, fails_at),
        )?;
        let written = run.trace.len() as u64;
        let fault = EngineFault::Write { written };
        expect_eq_at(&rt, &fails_at, &run.answer, &Err(fault));
        expect_eq_at(&rt, &fails_at, &run.requests, &7512);
        expect_eq_at(&rt, &fails_at, &run.report, &whole.report);
        expect_eq_at(
            &rt,
            &fails_at,
            &run.writes.len(),
            &fails_at.saturating_add(1),
        );
        let trace = run.trace.as_slice();
        expect_at(&rt, &fails_at, whole.trace.as_slice().starts_with(trace));
        let bytes = bytes_in(whole.writes.as_slice(), fails_at);
        expect_eq_at(&rt, &fails_at, &trace.len(), &bytes);
    }
    Ok(())
}

// No further call is made, and the trace has the call whose report fails: 4 items of its line reset, 39 requests, and
// the zeros at its end.
#[test]
fn the_trace_of_a_call_whose_report_fails(rt: HostRuntime) -> Result<(), Fail> {
    let script = reads(rt.alloc(), 10, b"next\nr 0\n".as_slice())?;
    let script = script.as_slice();
    let whole = run_at(rt.alloc(), script, b"".as_slice(), 0, NONE_FAILS)?;
    let run = run_at(rt.alloc(), script, b"".as_slice(), 0, (0, usize::MAX))?;
    let name = "the report fails";
    let fault = EngineFault::Write { written: 0 };
    expect_eq_at(&rt, &name, &run.answer, &Err(fault));
    expect_eq_at(&rt, &name, &run.requests, &39);
    let trace = run.trace.as_slice();
    expect_at(&rt, &name, whole.trace.as_slice().starts_with(trace));
    let lines = trace.iter().filter(|byte| **byte == b'\n').count();
    expect_eq_at(&rt, &name, &lines, &44);
    Ok(())
}
