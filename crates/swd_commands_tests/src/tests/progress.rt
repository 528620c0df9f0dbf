//! The lines that say how far a run is.
use super::desk::{Texts, run_at};
use super::expect::{expect_at, expect_eq, expect_eq_at};
use super::{RESUMED, run_by, run_to, unbroken};
use std::alloc::Global;
use std::cell::Cell;
use std::process::Abort;
use std::test::Fail;
use swd_console::Clock;
use swd_fakes::{OneByteWriter, ShortWriter};

// A clock with these readings, one after the other, and then always the last one.
#[derive(Drop)]
struct Readings<'a> {
    times: &'a [Option<u64>],
    reads: Cell<usize>,
}

impl<'a> Readings<'a> {
    fn new(times: &'a [Option<u64>]) -> Readings<'a> {
        Readings {
            times,
            reads: Cell::new(0),
        }
    }
}

impl Clock for Readings<'_> {
    fn millis(&self) -> Option<u64> {
        let read = self.reads.get();
        self.reads.set(read.saturating_add(1));
        match self.times.get(read) {
            Some(time) => *time,
            None => *self.times.last()?,
        }
    }
}

// Five calls with six accesses. The report of each call is one write.
const FIVE: &[u8] = b"memory 20000000 16\nw 20000000 1\nnext\nrn 20000000 2\nnext\nr 20000004\n\
    next\nr 30000000\nuntil 20000000 1 1 3\n";

const FIVE_REPORTS: &[u8] = b"w 20000000 written\nend all 1\nr 20000000 00000001\n\
    r 20000004 00000000\nend all 2\nr 20000004 00000000\nend all 1\nr 30000000 busfault\n\
    end all 1\nr 20000000 00000001 reads 1\nend all 1\n";

const PACED: &[&str] = &["swd", "run", "-", "--progress"];

// A name, the readings at the start and after each write, and the lines.
type Paced<'a> = (&'a str, &'a [Option<u64>], &'a [u8]);

const PACES: &[Paced] = &[
    (
        "a run that is shorter than a second",
        &[Some(0), Some(999)],
        b"",
    ),
    (
        "a second for each call",
        &[
            Some(5000),
            Some(6000),
            Some(7000),
            Some(8000),
            Some(9000),
            Some(10000),
        ],
        b"swd: 1 of 6 accesses, 1 a second\nswd: 3 of 6 accesses, 2 a second\n\
          swd: 4 of 6 accesses, 1 a second\nswd: 5 of 6 accesses, 1 a second\n\
          swd: 6 of 6 accesses, 1 a second\n",
    ),
    (
        "at most one line a second",
        &[
            Some(0),
            Some(999),
            Some(1000),
            Some(1999),
            Some(2000),
            Some(2999),
        ],
        b"swd: 3 of 6 accesses, 3 a second\nswd: 5 of 6 accesses, 2 a second\n",
    ),
    (
        "a slow run",
        &[Some(0), Some(4000), Some(4999), Some(4999), Some(6000)],
        b"swd: 1 of 6 accesses, 0 a second\nswd: 5 of 6 accesses, 2 a second\n",
    ),
    ("a clock that stands still", &[Some(7)], b""),
    (
        "a clock that can't be read at first",
        &[None, Some(5000), Some(9000)],
        b"",
    ),
    (
        "a clock that can't be read at times",
        &[Some(0), None, Some(1000), None, None, Some(3000)],
        b"swd: 3 of 6 accesses, 3 a second\nswd: 6 of 6 accesses, 1 a second\n",
    ),
    (
        "a clock that goes back",
        &[
            Some(5000),
            Some(4000),
            Some(5999),
            Some(6000),
            Some(100),
            Some(7000),
        ],
        b"swd: 4 of 6 accesses, 4 a second\nswd: 6 of 6 accesses, 2 a second\n",
    ),
    (
        "the latest time",
        &[Some(0), Some(u64::MAX)],
        b"swd: 1 of 6 accesses, 0 a second\n",
    ),
];

#[test]
fn each_line_is_true_when_it_is_printed(rt: HostRuntime) {
    for (name, times, lines) in PACES {
        let clock = Readings::new(times);
        let ran = run_by(rt.alloc(), PACED, FIVE, &clock);
        expect_eq_at(&rt, name, &ran.errors.as_slice(), lines);
        expect_eq_at(&rt, name, &ran.output.as_slice(), &FIVE_REPORTS);
        expect_eq_at(&rt, name, &ran.status, &0);
    }
}

// Nothing is printed then, and the clock isn't read.
#[test]
fn a_run_is_silent_by_itself(rt: HostRuntime) {
    let clock = Readings::new([Some(0), Some(5000), Some(10000)].as_slice());
    let ran = run_by(rt.alloc(), ["swd", "run", "-"].as_slice(), FIVE, &clock);
    assert!(rt; ran.errors.is_empty());
    expect_eq(&rt, &ran.output.as_slice(), &FIVE_REPORTS);
    expect_eq(&rt, &clock.reads.get(), &0);
}

// A name, the arguments, standard input, and the lines.
const CALLS: &[(&str, &[&str], &[u8], &[u8])] = &[
    (
        "a long call",
        &["swd", "run", "-", "--progress"],
        b"memory 20000000 2048\nrn 20000000 1500\n",
        b"swd: 1024 of 1500 accesses, 1024 a second\n\
          swd: 1500 of 1500 accesses, 476 a second\n",
    ),
    (
        "a call that is resumed",
        &[
            "swd",
            "run",
            "script",
            "--plan",
            "cut",
            "--resume",
            "1",
            "--progress",
        ],
        b"",
        b"swd: 4 of 4 accesses, 4 a second\n",
    ),
    (
        "a call that is lost",
        &["swd", "run", "script", "--plan", "deaf", "--progress"],
        b"",
        b"swd: 0 of 4 accesses, 0 a second\n",
    ),
    (
        "no access",
        &["swd", "run", "-", "--progress"],
        b"memory 20000000 1\n",
        b"swd: 0 of 0 accesses, 0 a second\n",
    ),
];

// The lines of a call go out after 1,024 answers and at its end. The line of a resumption is that of no access.
#[test]
fn a_line_comes_within_a_call(rt: HostRuntime) {
    for (name, words, input, lines) in CALLS {
        let clock = Readings::new([Some(0), Some(1000), Some(2000)].as_slice());
        let ran = run_by(rt.alloc(), words, *input, &clock);
        expect_eq_at(&rt, name, &ran.errors.as_slice(), lines);
        if *name == "a call that is resumed" {
            expect_eq(&rt, &ran.output.as_slice(), &RESUMED);
        }
    }
}

// A write, a read and their report: lines of 19, 20 and 10 bytes.
const TWO: &[u8] = b"memory 20000000 16\nw 20000000 1\nr 20000000\n";

const TWO_REPORT: &[u8] = b"w 20000000 written\nr 20000000 00000001\nend all 2\n";

// Answers count once their lines were written, however many writes that takes.
#[test]
fn answers_count_once_their_lines_are_written(rt: HostRuntime) {
    let output = OneByteWriter::new(rt.alloc());
    let errors = unbroken(rt.alloc());
    let clock = Readings::new([Some(0), Some(1000)].as_slice());
    let ran = run_to(rt.alloc(), PACED, TWO, output, errors, &clock);
    expect_eq(&rt, &ran.status, &0);
    expect_eq(&rt, &ran.output.taken.as_slice(), &TWO_REPORT);
    let line = b"swd: 2 of 2 accesses, 2 a second\n".as_slice();
    expect_eq(&rt, &ran.errors.taken(), &line);
}

// How many bytes of the reports are taken, and the lines.
const CUTS: &[(usize, &[u8])] = &[
    (18, b""),
    (35, b"swd: 1 of 6 accesses, 1 a second\n"),
    (
        100,
        b"swd: 1 of 6 accesses, 1 a second\nswd: 3 of 6 accesses, 2 a second\n",
    ),
];

// Of a call whose report can't be written, nothing counts: the accesses before it had their lines. Where the reader of
// standard output is gone, no line says so.
#[test]
fn a_call_without_its_report_counts_for_nothing(rt: HostRuntime) {
    for (room, lines) in CUTS {
        let output = ShortWriter::new(rt.alloc(), *room, true);
        let errors = unbroken(rt.alloc());
        let clock = Readings::new([Some(0), Some(1000), Some(2000)].as_slice());
        let ran = run_to(rt.alloc(), PACED, FIVE, output, errors, &clock);
        expect_eq_at(&rt, room, &ran.status, &141);
        expect_eq_at(&rt, room, &ran.output.taken(), &&FIVE_REPORTS[..*room]);
        expect_eq_at(&rt, room, &ran.errors.taken(), lines);
    }
}

// A line that can't be printed changes nothing of the run.
#[test]
fn standard_error_may_fail(rt: HostRuntime) {
    let output = Vec::new(rt.alloc());
    let errors = ShortWriter::new(rt.alloc(), 0, true);
    let clock = Readings::new([Some(0), Some(1000)].as_slice());
    let ran = run_to(rt.alloc(), PACED, FIVE, output, errors, &clock);
    expect_eq(&rt, &ran.status, &0);
    expect_eq(&rt, &ran.output.as_slice(), &FIVE_REPORTS);
}

const REMOTE_RUN: &[&str] = &[
    "swd",
    "run",
    "script",
    "--remote",
    "--report",
    "traced",
    "--progress",
];

// The levels, the lines, and the last characters that are sent.
const REMOTE: &[(&[u8], &[u8], &[u8])] = &[
    (
        b"111",
        b"swd: 0 of 4 accesses, 0 a second\nswd: the run ended early: lost, see --resume\n\
          swd: no reply to the first request, SWDIO read 1: is it driven, and the target connected and powered?\n",
        b"dcfQ",
    ),
    (
        b"",
        b"swd: 0 of 4 accesses, 0 a second\nswd: the other end went away\n",
        b"dcf",
    ),
];

// The report of a remote run goes to a file.
#[test]
fn a_remote_run_says_how_far_it_is(rt: HostRuntime) {
    for (levels, lines, sent) in REMOTE {
        let clock = Readings::new([Some(0), Some(1500)].as_slice());
        let ran = run_by(rt.alloc(), REMOTE_RUN, *levels, &clock);
        expect_eq_at(&rt, levels, &ran.errors.as_slice(), lines);
        expect_eq_at(&rt, levels, &ran.status, &1);
        expect_at(&rt, levels, ran.output.ends_with(sent));
    }
}

// The arguments, the lines, and the report.
const IMAGES: &[(&[&str], &[u8], &[u8])] = &[
    (
        &["swd", "load", "20000002", "image", "--memory", "ram"],
        b"swd: 0 of 3 words, 0 a second\nswd: 0 of 3 words, 0 a second\nswd: 3 of 3 words, 3 a second\n\
            swd: loaded 8 bytes at 20000002\n",
        b"r 20000000 64636261\nend all 1\nr 20000008 6c6b6a69\nend all 1\nw 20000000 written\n\
            w 20000004 written\nw 20000008 written\nend all 3\n",
    ),
    (
        &["swd", "verify", "20000001", "image", "--memory", "ram"],
        b"swd: 3 of 3 words, 3 a second\nswd: 20000001 has 62, not 31\n",
        b"r 20000000 64636261\nr 20000004 68676665\nr 20000008 6c6b6a69\nend all 3\n",
    ),
    (
        &["swd", "dump", "20000003", "1", "out", "--memory", "ram"],
        b"swd: 1 of 1 words, 1 a second\nswd: dumped 1 bytes at 20000003\n",
        b"r 20000000 64636261\nend all 1\n",
    ),
];

const TWELVE: Texts = Texts {
    ram: b"abcdefghijkl",
    image: b"12345678",
};

// Tries a command over an image, with these arguments more.
fn says<'a, R: Abort>(
    rt: &R,
    alloc: Global,
    command: &[&'a str],
    more: &[&'a str],
    said: &[u8],
    report: &[u8],
) -> Result<(), Fail> {
    let mut words = Vec::new(alloc);
    words.extend_from_slice(command)?;
    words.extend_from_slice(more)?;
    let clock = Readings::new([Some(0), Some(1000), Some(2000), Some(3000)].as_slice());
    let ran = run_at(alloc, words.as_slice(), &TWELVE, &clock);
    expect_eq_at(rt, &words, &ran.errors.as_slice(), &said);
    expect_eq_at(rt, &words, &ran.calls.text(), &report);
    Ok(())
}

// A load counts the words that were written, of which the first two calls here have none: they read the partial words.
// A verification and a dump count those that were read.
#[test]
fn a_command_over_an_image_says_how_far_it_is(rt: HostRuntime) -> Result<(), Fail> {
    for (command, said, report) in IMAGES {
        says(&rt, rt.alloc(), command, &["--progress"], said, b"")?;
        let reported = &["--progress", "--report", "calls"];
        says(&rt, rt.alloc(), command, reported, said, report)?;
    }
    Ok(())
}
