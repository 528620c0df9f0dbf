//! Runs with their accesses: writers that fail, and each request disturbed.
use super::expect::expect_eq_at;
use super::{WORKED, WORKED_REPORT, limits, unwritten};
use std::test::Fail;
use swd_capture_text::AccessesPrinter;
use swd_fakes::ShortWriter;
use swd_run::{EngineFault, Finished, Records, RunFault, run_text};

// More bytes than each output here.
const ROOM: usize = 4096;

// What a run answers, and its outputs.
#[derive(Drop)]
struct Seen {
    answer: Result<Finished, RunFault>,
    report: ShortWriter,
    trace: ShortWriter,
    accesses: ShortWriter,
}

// The writer that was passed, or one that took nothing.
fn taken_by(rt: &HostRuntime, writer: Option<ShortWriter>) -> ShortWriter {
    match writer {
        Some(writer) => writer,
        None => ShortWriter::new(rt.alloc(), 0, true),
    }
}

// A run whose trace and accesses are written to files with so much room.
fn run_on(rt: &HostRuntime, script: &[u8], plan: &[u8], trace: usize, accesses: usize) -> Seen {
    let mut script = script;
    let mut plan = plan;
    let mut report = ShortWriter::new(rt.alloc(), ROOM, true);
    let mut records = Records {
        trace: Some(ShortWriter::new(rt.alloc(), trace, true)),
        accesses: Some(ShortWriter::new(rt.alloc(), accesses, true)),
        printer: AccessesPrinter { made: true },
        progress: (),
    };
    let answer = run_text(
        rt.alloc(),
        &mut script,
        &mut plan,
        limits(0),
        &mut report,
        &mut records,
    );
    Seen {
        answer,
        report,
        trace: taken_by(rt, records.trace),
        accesses: taken_by(rt, records.accesses),
    }
}

const WORKED_ACCESSES: &[u8] =
    b"@590 w 20000000 deadbeef\n@728 r 20000000 deadbeef\n@820 r 20000004 00000000\n\
    @958 r 30000000 ???????? not\n";

// The writer fails at each place: the report and the trace stand whole. Where the trace's writer fails, nothing of the
// accesses is written.
#[test]
fn accesses_at_each_write_that_fails(rt: HostRuntime) {
    let whole = run_on(&rt, WORKED, b"".as_slice(), ROOM, ROOM);
    expect_eq_at(&rt, &ROOM, &whole.accesses.taken(), &WORKED_ACCESSES);
    for room in 0..WORKED_ACCESSES.len() {
        let seen = run_on(&rt, WORKED, b"".as_slice(), ROOM, room);
        let fault = EngineFault::WriteAccesses {
            written: room as u64,
        };
        expect_eq_at(&rt, &room, &seen.answer, &Err(RunFault::Engine(fault)));
        expect_eq_at(&rt, &room, &seen.report.taken(), &WORKED_REPORT);
        expect_eq_at(&rt, &room, &seen.trace.taken(), &whole.trace.taken());
        expect_eq_at(
            &rt,
            &room,
            &seen.accesses.taken(),
            &&WORKED_ACCESSES[..room],
        );
        let seen = run_on(&rt, WORKED, b"".as_slice(), room, ROOM);
        expect_eq_at(&rt, &room, &seen.answer, &unwritten(room));
        expect_eq_at(&rt, &room, &seen.accesses.taken(), &b"".as_slice());
    }
}

// Writes and reads over the end of a kilobyte, a bus error, and a block over the same end: 45 requests.
const VARIED: &[u8] =
    b"memory 20000000 512\nw 200003fc 1\nw 20000400 2\nw 20000404 3\nr 20000404\nr 20000000\n\
    r 30000000\nnext\nblock 200003f8 4\n";

const VARIED_SHOWN: &[u8] =
    b" w 200003fc 00000001\n w 20000400 00000002\n w 20000404 00000003\n r 20000404 00000003\n \
    r 20000000 00000000\n r 200003f8 00000000\n r 200003fc 00000001\n r 20000400 00000002\n r 20000404 00000003\n";

// The lines without ` not`, without their places.
fn taken_effect(rt: &HostRuntime, accesses: &[u8]) -> Result<Vec<u8>, Fail> {
    let mut shown = Vec::new(rt.alloc());
    for line in accesses.split(|byte| *byte == b'\n') {
        if line.ends_with(b" not") {
            continue;
        }
        let Some(space) = line.iter().position(|byte| *byte == b' ') else {
            continue;
        };
        shown.extend_from_slice(&line[space..])?;
        shown.push(b'\n')?;
    }
    Ok(shown)
}

const MARKS: &[&[u8]] = &[b"wait", b"flip 0", b"flip 7", b"flip 32"];

// Whichever request is answered WAIT or has a bit of its data changed: all that took effect is shown, with addresses
// and words.
#[test]
fn accesses_where_one_request_is_disturbed(rt: HostRuntime) -> Result<(), Fail> {
    for mark in MARKS {
        for place in 0..52 {
            let mut plan = Vec::new(rt.alloc());
            for _ in 0..place {
                plan.extend_from_slice(b".\n")?;
            }
            plan.extend_from_slice(mark)?;
            let seen = run_on(&rt, VARIED, plan.as_slice(), ROOM, ROOM);
            expect_eq_at(&rt, &(mark, place), &seen.answer.is_ok(), &true);
            let shown = taken_effect(&rt, seen.accesses.taken())?;
            expect_eq_at(&rt, &(mark, place), &shown.as_slice(), &VARIED_SHOWN);
        }
    }
    Ok(())
}
