//! A script at a target outside: a recorded session of a host in another language against a target in another
//! language. The levels go in, and the characters and the report have to come out.
ghost use Rattle.std.specs.Prelude.{[]};
ghost use Rattle.std.specs.FinMap.{empty};
ghost use Rattle.swd_port.specs.PlainBus.{bus_of};
ghost use Rattle.swd_port.specs.Made.{port_made};

use super::expect::{expect_eq, expect_eq_at};
use super::recorded::UNDISTURBED;
use std::alloc::Global;
use std::cell::Cell;
use std::io::{Read, Write};
use std::process::Abort;
use swd_capture_text::AccessesPrinter;
use swd_ends::{RemoteFault, RemoteRan, run_remote};
use swd_fakes::{CountingWriter, ShortWriter, WatchingReader};
use swd_host::End;
use swd_port::{Answer, Story};
use swd_remote::{Fault, Line, RemoteStreams};
use swd_run::{Difference, EngineFault, Finished, Limits, Records, run_text};

// Any story.
struct Untold;

impl Story for Untold {
    ghost at = { λ _. port_made 0 (bus_of (record { words = empty; log = []; room = 0 })) };
}

const SCRIPT: &[u8] = b"memory 20000000 16\nw 20000000 deadbeef\nr 20000000\n";

const REPORT: &[u8] = b"w 20000000 written\nr 20000000 deadbeef\nend all 2\n";

const LIMITS: Limits = Limits {
    tries: 8,
    resumes: 0,
    bursts: true,
};

// A run that ended so, in which no word differed and no access met a bus error.
fn ended(ended: End) -> Finished {
    Finished {
        ended,
        never_came: false,
        differs: None,
        bus_fault: false,
        full: None,
    }
}

// The writer of a trace, with no file beside it.
fn only_trace<T>(trace: T) -> Records<T> {
    Records {
        trace: Some(trace),
        accesses: None,
        printer: (),
        progress: (),
    }
}

type Ran<R> = (Result<Finished, RemoteFault>, RemoteStreams<R, Vec<u8>>);

// Runs a script at a target that gives these levels, with no trace.
fn run_at<R: Read, O: Write>(alloc: Global, script: &[u8], reader: R, report: &mut O) -> Ran<R> {
    let mut script = script;
    let writer = Vec::new(alloc);
    let ran = run_remote::<Untold, _, _, _, _, _, _, _, _>(
        alloc,
        &mut script,
        Line::characters(reader, writer),
        LIMITS,
        report,
        Records::<Vec<u8>>::none(),
    );
    (ran.answer, ran.line)
}

// The recorded host takes SWDIO for driven at first. This one says so: a server may begin with it released.
fn expect_sent<R: Abort>(rt: &R, sent: &[u8]) {
    expect_eq(rt, &sent.strip_prefix(b"O"), &Some(UNDISTURBED.characters));
}

// Whether the first of these characters were sent.
fn began(sent: &[u8]) -> bool {
    match sent.strip_prefix(b"O") {
        Some(sent) => UNDISTURBED.characters.starts_with(sent),
        None => false,
    }
}

#[test]
fn a_script_sends_what_was_recorded(rt: HostRuntime) {
    let mut report = Vec::new(rt.alloc());
    let (answer, line) = run_at(rt.alloc(), SCRIPT, UNDISTURBED.levels, &mut report);
    expect_eq(&rt, &answer, &Ok(ended(End::All)));
    expect_eq(&rt, &line.fault, &None);
    expect_eq(&rt, &report.as_slice(), &REPORT);
    expect_sent(&rt, line.writer.as_slice());
}

// The trace is that of a run over the simulated target, which shows the same words. The opening shows SELECT and CSW,
// so that the accesses are known.
#[test]
fn a_remote_run_is_traced(rt: HostRuntime) {
    let mut sent = Vec::new(rt.alloc());
    let mut report = Vec::new(rt.alloc());
    let records = Records {
        trace: Some(Vec::new(rt.alloc())),
        accesses: Some(Vec::new(rt.alloc())),
        printer: AccessesPrinter { made: false },
        progress: (),
    };
    let mut script = SCRIPT;
    let RemoteRan {
        answer,
        line,
        records,
        ..
    } = run_remote::<Untold, _, _, _, _, _, _, _, _>(
        rt.alloc(),
        &mut script,
        Line::characters(UNDISTURBED.levels, &mut sent),
        LIMITS,
        &mut report,
        records,
    );
    let Records {
        trace,
        accesses,
        ..
    } = records;
    let trace = trace.expect(&rt, "its writer");
    let accesses = accesses.expect(&rt, "its writer");
    expect_eq(
        &rt,
        &accesses.as_slice(),
        &b"@590 w 20000000 deadbeef\n@728 r 20000000 deadbeef\n".as_slice(),
    );
    expect_eq(&rt, &answer, &Ok(ended(End::All)));
    expect_eq(&rt, &line.fault, &None);
    expect_eq(&rt, &report.as_slice(), &REPORT);
    expect_sent(&rt, sent.as_slice());
    let mut script = SCRIPT;
    let mut plan = b"".as_slice();
    let mut told = Vec::new(rt.alloc());
    let mut simulated = only_trace(Vec::new(rt.alloc()));
    let answer = run_text(
        rt.alloc(),
        &mut script,
        &mut plan,
        LIMITS,
        &mut told,
        &mut simulated,
    );
    let simulated = simulated.trace.expect(&rt, "its writer");
    expect_eq(&rt, &answer, &Ok(ended(End::All)));
    expect_eq(&rt, &trace.as_slice(), &simulated.as_slice());
}

// How many bytes of the report are taken, and of the trace.
const FAILING: &[(usize, usize)] = &[(3, 100), (REPORT.len(), 100), (REPORT.len(), 0)];

// Where the report or the trace can't be written the other end is told all the same that the host is done. The trace is
// written also where the report fails.
#[test]
fn a_failed_write_ends_the_session(rt: HostRuntime) {
    for (report_room, trace_room) in FAILING {
        let (report_room, trace_room) = (*report_room, *trace_room);
        let mut sent = Vec::new(rt.alloc());
        let mut report = ShortWriter::new(rt.alloc(), report_room, true);
        let records = only_trace(ShortWriter::new(rt.alloc(), trace_room, false));
        let mut script = SCRIPT;
        let RemoteRan {
            answer,
            records,
            ..
        } = run_remote::<Untold, _, _, _, _, _, _, _, _>(
            rt.alloc(),
            &mut script,
            Line::characters(UNDISTURBED.levels, &mut sent),
            LIMITS,
            &mut report,
            records,
        );
        let trace = records.trace.expect(&rt, "its writer");
        let whole = report_room == REPORT.len();
        let written = if whole { trace_room } else { report_room };
        expect_eq(
            &rt,
            &answer,
            &Err(RemoteFault::Engine(EngineFault::Write {
                written: written as u64,
            })),
        );
        expect_eq(&rt, &report.taken(), &&REPORT[..report_room]);
        expect_eq(&rt, &trace.taken().len(), &trace_room);
        expect_sent(&rt, sent.as_slice());
    }
}

// A second call, of which nothing comes back.
const TWO_CALLS: &[u8] = b"memory 20000000 16\nw 20000000 deadbeef\nr 20000000\nnext\nr 20000000\n";

const BOTH_REPORTS: &[u8] =
    b"w 20000000 written\nr 20000000 deadbeef\nend all 2\nend lost 0 begun 0\n";

// The report of a call goes out once it ended: before its last level is read nothing was written, and all of it before
// the first level of the next call is.
#[test]
fn a_report_is_written_before_the_next_call(rt: HostRuntime) {
    let taken = Cell::new(0);
    let reader = WatchingReader::new(rt.alloc(), UNDISTURBED.levels, &taken);
    let mut report = CountingWriter { taken: &taken };
    let (answer, line) = run_at(rt.alloc(), TWO_CALLS, reader, &mut report);
    expect_eq(&rt, &answer, &Ok(ended(End::Lost)));
    let noted = line.reader.noted.as_slice();
    let first = UNDISTURBED.levels.len();
    assert!(rt; noted.len() > first);
    for (level, taken) in noted.iter().enumerate() {
        let written = if level < first { 0 } else { REPORT.len() };
        expect_eq_at(&rt, &level, taken, &written);
    }
    expect_eq(&rt, &taken.get(), &BOTH_REPORTS.len());
}

// Where the report of a call can't be written, no other call is made: what goes out is the first call, and that the
// host is done.
#[test]
fn no_call_is_made_after_a_failed_write(rt: HostRuntime) {
    for room in 0..REPORT.len() {
        let mut report = ShortWriter::new(rt.alloc(), room, true);
        let levels = UNDISTURBED.levels;
        let (answer, line) = run_at(rt.alloc(), TWO_CALLS, levels, &mut report);
        let fault = EngineFault::Write {
            written: room as u64,
        };
        expect_eq_at(&rt, &room, &answer, &Err(RemoteFault::Engine(fault)));
        expect_eq_at(&rt, &room, &line.fault, &None);
        expect_eq_at(&rt, &room, &report.taken(), &&REPORT[..room]);
        expect_sent(&rt, line.writer.as_slice());
    }
}

// The same list as two calls, of which the second was not recorded, so that nothing comes back.
#[test]
fn a_call_that_is_lost_is_the_last_one(rt: HostRuntime) {
    let script =
        b"memory 20000000 16\nw 20000000 deadbeef\nverify 20000000 5\nnext\nr 20000000\nnext\nr 20000000\n";
    let mut report = Vec::new(rt.alloc());
    let (answer, line) = run_at(rt.alloc(), script, UNDISTURBED.levels, &mut report);
    let differs = Difference {
        line: 3,
        addr: 0x2000_0000,
        expected: 5,
        found: Answer::Value(0xdead_beef),
    };
    let mut finished = ended(End::Lost);
    finished.differs = Some(differs);
    expect_eq(&rt, &answer, &Ok(finished));
    expect_eq(&rt, &line.fault, &Some(Fault::Ended));
    expect_eq(
        &rt,
        &report.as_slice(),
        &b"w 20000000 written\nr 20000000 deadbeef\nend all 2\nend lost 0 begun 0\n".as_slice(),
    );
}

// How many levels come, and the report.
const AWAY: &[(usize, &[u8])] = &[
    (100, b"end lost 0 begun 0\n"),
    // The last levels of the data phase that reads the word are missing.
    (
        UNDISTURBED.levels.len() - 9,
        b"w 20000000 written\nend lost 1 begun 1\n",
    ),
    (0, b"end lost 0 begun 0\n"),
];

#[test]
fn a_target_that_goes_away_is_told(rt: HostRuntime) {
    for (count, text) in AWAY {
        let Some(levels) = UNDISTURBED.levels.get(..*count) else {
            panic!(rt; "{count}: more than the levels");
        };
        let mut report = Vec::new(rt.alloc());
        let (answer, line) = run_at(rt.alloc(), SCRIPT, levels, &mut report);
        expect_eq(&rt, &answer, &Ok(ended(End::Lost)));
        expect_eq(&rt, &line.fault, &Some(Fault::Ended));
        expect_eq(&rt, &report.as_slice(), text);
        assert!(rt; began(line.writer.as_slice()));
    }
}

#[test]
fn a_script_at_fault_sends_nothing(rt: HostRuntime) {
    let script = b"w 20000000 deadbeef\n";
    let mut report = Vec::new(rt.alloc());
    let (answer, line) = run_at(rt.alloc(), script, UNDISTURBED.levels, &mut report);
    assert!(rt; matches!(&answer, Err(RemoteFault::Script(_))));
    expect_eq(&rt, &line.fault, &None);
    assert!(rt; line.writer.is_empty() && report.is_empty());
}
