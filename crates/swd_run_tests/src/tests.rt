//! Scripts run over a simulated target: readers, writers and memory that fail, and when a report, a trace and the
//! accesses are written. What each script's run comes to is text (transcripts/).
use expect::{expect_eq, expect_eq_at};
use std::alloc::{Allocator, Global};
use std::io::{Read, Write};
use std::test::Fail;
use swd_fakes::{FailingReader, ShortWriter};
use swd_host::End;
use swd_port::{Access, Answer};
use swd_run::{
    EngineFault, Finished, Limits, Records, RunFault, Stop, TextsFault, answer_line, last_line,
    resume_line, run_text,
};

mod accesses;
mod expect;
mod flash;
mod long_texts;
mod refusals;
mod resumed;
mod rooms;
mod sessions;
mod streamed;
mod streamed_trace;
mod tracing;
mod untils;

// A run that ended so, in which no word differed and no access met a bus error.
fn ended<F>(ended: End) -> Result<Finished, F> {
    Ok(Finished {
        ended,
        never_came: false,
        differs: None,
        bus_fault: false,
        full: None,
    })
}

// Returns whether a report has a bus error.
fn has_bus_fault(report: &[u8]) -> bool {
    report
        .split(|byte| *byte == b'\n')
        .any(|line| line.ends_with(b" busfault"))
}

// A run that ended so, in which no word differed, where this is the report that it has to write.
fn ended_with<F>(ended: End, report: &[u8]) -> Result<Finished, F> {
    Ok(Finished {
        ended,
        never_came: false,
        differs: None,
        bus_fault: has_bus_fault(report),
        full: None,
    })
}

// The writer of a trace, with no file beside it, of a run at a target in its reset state.
fn only_trace<T>(trace: T) -> Records<T> {
    Records {
        trace: Some(trace),
        accesses: None,
        printer: (),
        progress: (),
    }
}

// Returns what each call may meet, if it may be resumed so often.
fn limits(resumes: u32) -> Limits {
    Limits {
        tries: 8,
        resumes,
        bursts: true,
    }
}

// Runs a script under a plan, resumed at most so many times, and writes the report.
fn reported<A: Allocator + Copy, W: Write>(
    alloc: A,
    script: &[u8],
    plan: &[u8],
    resumes: u32,
    report: &mut W,
) -> Result<Finished, RunFault> {
    let (mut script, mut plan) = (script, plan);
    run_text(
        alloc,
        &mut script,
        &mut plan,
        limits(resumes),
        report,
        &mut Records::<Vec<u8>>::none(),
    )
}

// Runs a script under a plan, and writes the report and the trace.
fn traced<A: Allocator + Copy, W: Write, T: Write>(
    alloc: A,
    script: &[u8],
    plan: &[u8],
    report: &mut W,
    trace: T,
) -> (Result<Finished, RunFault>, Option<T>)
where
    T: Drop,
{
    let (mut script, mut plan) = (script, plan);
    let mut records = only_trace(trace);
    let answer = run_text(
        alloc,
        &mut script,
        &mut plan,
        limits(0),
        report,
        &mut records,
    );
    let Records { trace, .. } = records;
    (answer, trace)
}

// The answer of a run whose writer failed after so many bytes.
fn unwritten(room: usize) -> Result<Finished, RunFault> {
    let written = room as u64;
    Err(RunFault::Engine(EngineFault::Write { written }))
}

const WORKED: &[u8] = b"memory 20000000 16\nw 20000000 deadbeef\nrn 20000000 2\nr 30000000\n";

const WORKED_REPORT: &[u8] = b"w 20000000 written\nr 20000000 deadbeef\nr 20000004 00000000\n\
    r 30000000 busfault\nend all 4\n";

// One read, one write, and none.
const ONE_READ: &[u8] = b"memory 20000000 16\nr 20000000\n";

const ONE_WRITE: &[u8] = b"memory 20000000 16\nw 20000000 deadbeef\n";

const NO_ACCESS: &[u8] = b"memory 20000000 1\n";

// WAIT at the twelfth request and the two after it: the RDBUFF read of the first access.
const THREE_WAITS: &[u8] = b".\n.\n.\n.\n.\n.\n.\n.\n.\n.\n.\nwait\nwait\nwait\n";

// A run whose script and plan are read so. Its plan is never needed before it was read.
fn unread<S: Read, P: Read>(
    alloc: Global,
    script: &mut S,
    plan: &mut P,
) -> (Result<Finished, RunFault>, Vec<u8>) {
    let mut report = Vec::new(alloc);
    let answer = run_text(
        alloc,
        script,
        plan,
        limits(0),
        &mut report,
        &mut Records::<Vec<u8>>::none(),
    );
    (answer, report)
}

#[test]
fn a_run_at_each_read_that_fails(rt: HostRuntime) {
    let wanted = Err(RunFault::Texts(TextsFault::Read));
    for i in 0..=ONE_READ.len() {
        let mut script = FailingReader::new(ONE_READ, i);
        let mut plan = b"flip 33".as_slice();
        let (answer, report) = unread(rt.alloc(), &mut script, &mut plan);
        expect_eq_at(&rt, &i, &answer, &wanted);
        assert!(rt; report.is_empty());
    }
    for i in 0..=THREE_WAITS.len() {
        let mut script = ONE_READ;
        let mut plan = FailingReader::new(THREE_WAITS, i);
        let (answer, report) = unread(rt.alloc(), &mut script, &mut plan);
        expect_eq_at(&rt, &i, &answer, &wanted);
        assert!(rt; report.is_empty());
    }
}

#[test]
fn a_run_at_each_write_that_fails(rt: HostRuntime) {
    for fails in [false, true] {
        for room in 0..WORKED_REPORT.len() {
            let mut writer = ShortWriter::new(rt.alloc(), room, fails);
            let answer = reported(rt.alloc(), WORKED, b"", 0, &mut writer);
            expect_eq(&rt, &answer, &unwritten(room));
            expect_eq(&rt, &writer.taken(), &&WORKED_REPORT[..room]);
        }
    }
}

const LONG_ROOMS: &[usize] = &[0, 1, 19, 20, 21, 7000, 32767, 32768, 32769, 40012];

// More lines than a block holds.
#[test]
fn a_long_report_where_a_write_fails(rt: HostRuntime) -> Result<(), Fail> {
    let mut report = Vec::new(rt.alloc());
    for _ in 0..2000u16 {
        report.extend_from_slice(b"r 00000000 00000000\n")?;
    }
    report.extend_from_slice(b"end all 2000\n")?;
    let mut script = Vec::new(rt.alloc());
    script.extend_from_slice(b"memory 0 1\n")?;
    for _ in 0..2000u16 {
        script.extend_from_slice(b"r 0\n")?;
    }
    let script = script.as_slice();
    let mut whole = Vec::new(rt.alloc());
    let answer = reported(rt.alloc(), script, b"", 0, &mut whole);
    expect_eq(&rt, &answer, &ended(End::All));
    assert!(rt; whole == report);
    for room in LONG_ROOMS {
        let room = *room;
        let mut writer = ShortWriter::new(rt.alloc(), room, true);
        let answer = reported(rt.alloc(), script, b"", 0, &mut writer);
        expect_eq(&rt, &answer, &unwritten(room));
        assert!(rt; room <= report.len());
        assert!(rt; writer.taken() == &report.as_slice()[..room]);
    }
    Ok(())
}

const ANSWER_LINES: &[(Access, Answer, &str)] = &[
    (
        Access::Write(0x2000_0000, 0xdead_beef),
        Answer::Written,
        "w 20000000 written",
    ),
    (
        Access::Read(0x2000_0000),
        Answer::Value(0xdead_beef),
        "r 20000000 deadbeef",
    ),
    (
        Access::Read(0x2000_0004),
        Answer::Value(0),
        "r 20000004 00000000",
    ),
    (
        Access::Read(0x3000_0000),
        Answer::BusFault,
        "r 30000000 busfault",
    ),
    (
        Access::Write(0x3000_0000, 1),
        Answer::BusFault,
        "w 30000000 busfault",
    ),
];

const LAST_LINES: &[(End, usize, u8, &str)] = &[
    (End::All, 4, 0, "end all 4"),
    (End::Lost, 0, 1, "end lost 0 begun 1"),
    (End::TriesOut, 0, 1, "end tries 0 begun 1"),
    (End::WrongId(0x2ba0_1476), 0, 0, "end id 2ba01476"),
    (End::Confused, 65536, 2, "end confused 65536 begun 2"),
];

#[test]
fn answers_and_ends_have_their_lines(rt: HostRuntime) {
    for (access, answer, text) in ANSWER_LINES {
        expect_eq(&rt, &answer_line(access, answer).as_str(), text);
    }
    for (ended, answered, begun, text) in LAST_LINES {
        expect_eq(&rt, &last_line(*ended, *answered, *begun).as_str(), text);
    }
    let stop = Stop {
        answered: 65535,
        begun: 1,
        requests: 12,
    };
    expect_eq(&rt, &resume_line(&stop).as_str(), &"resume 65535 begun 1");
}
