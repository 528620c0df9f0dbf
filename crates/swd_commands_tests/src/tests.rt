//! What text can't say of the program (transcripts/): reads, writes and allocations that fail, clocks, unknown streams.
use expect::{expect_at, expect_eq, expect_eq_at};
use std::alloc::Global;
use std::cell::Cell;
use std::fmt::Display;
use std::io;
use std::io::{ErrorKind, Read, Write};
use std::process::Abort;
use swd_commands::run_words;
use swd_console::{Clock, Console, Files, Identity, Opened, engine_status};
use swd_ends::RemoteFault;
use swd_fakes::ShortWriter;
use swd_run::{EngineFault, RunFault, TextsFault};
use swd_script::ScriptFault;
use swd_text::{DecodeFault, EncodeFault, TextFault};
use swd_trace::ListFault;

mod arguments;
mod desk;
mod expect;
mod pen;
mod progress;
mod streams;

const DPIDR_READ: &[u8] = b"10100101 1 100 11101110001010000000010111010100 0 1";

const DPIDR_LINE: &[u8] = b"dp 0 read ok 2ba01477\n";

const SCRIPT: &[u8] = b"memory 20000000 16\nw 20000000 deadbeef\nrn 20000000 2\nr 30000000\n";

const REPORT: &[u8] = b"w 20000000 written\nr 20000000 deadbeef\nr 20000004 00000000\n\
    r 30000000 busfault\nend all 4\n";

// The report where the run was lost at its first access, and resumed.
const RESUMED: &[u8] = b"resume 0 begun 1\nw 20000000 written\nr 20000000 deadbeef\n\
    r 20000004 00000000\nr 30000000 busfault\nend all 4\n";

// The acknowledgement of the DRW request is not seen as it was sent.
const CUT: &[u8] = b".\n.\n.\n.\n.\n.\n.\n.\n.\n.\nmute 0\n";

// A file that was made, or that can't be written, for this reason.
#[derive(Drop)]
struct Page {
    fails: Option<ErrorKind>,
}

impl Write for Page {
    fn write(&mut self, buf: &[u8]) -> io::Result<usize> {
        match self.fails {
            Some(kind) => Err(io::Error::from(kind)),
            None => Ok(buf.len()),
        }
    }

    fn flush(&mut self) -> io::Result<()> {
        Ok(())
    }
}

// A file that is read. A torn one can't be read to its end.
#[derive(Drop)]
struct Leaf {
    text: &'static [u8],
    is_torn: bool,
}

impl Read for Leaf {
    fn read(&mut self, buf: &mut [u8]) -> io::Result<usize> {
        if self.is_torn && self.text.is_empty() {
            return Err(io::Error::from(ErrorKind::TimedOut));
        }
        self.text.read(buf)
    }
}

// Files, by their names.
#[derive(Drop)]
struct Shelf<'a> {
    // whether standard output is a terminal, and can't be told from another file
    is_unknown: bool,
    // how often a file was cut off
    cuts: &'a Cell<usize>,
}

// The number of a file. The first two are the standard streams.
fn number_of(name: &str) -> u64 {
    match name {
        "input" => 0,
        "output" => 1,
        "script" => 2,
        "quiet" => 3,
        "traced" => 4,
        "memory" => 6,
        "errors" => 8,
        _ => 5,
    }
}

fn file<F>(name: &str, file: F) -> Opened<F> {
    Opened {
        file,
        identity: Identity {
            device: 7,
            number: number_of(name),
        },
    }
}

// What the files hold that can be read.
fn text_of(name: &str) -> Option<&'static [u8]> {
    match name {
        "trace" => Some(DPIDR_READ),
        "list" => Some(DPIDR_LINE),
        "script" => Some(SCRIPT),
        "image" => Some(b"12345"),
        "memory" => Some(b"memory 20000000 16\n"),
        "quiet" => Some(b"# nothing\n.\n"),
        "deaf" => Some(b"deaf\n"),
        "cut" => Some(CUT),
        "torn" => Some(b"memory 20000000 16\n"),
        "torn\u{1b}" | "torn-trace" | "torn-image" => Some(b"1010"),
        "torn-list" => Some(b"idle 1\n"),
        "torn-plan" => Some(b"wait\n"),
        _ => None,
    }
}

impl Files for Shelf<'_> {
    type File = Leaf;

    type Made = Page;

    fn open(&self, name: &str) -> io::Result<Opened<Leaf>> {
        let Some(text) = text_of(name) else {
            return Err(io::Error::from(ErrorKind::NotFound));
        };
        let is_torn = name.starts_with("torn");
        Ok(file(name, Leaf { text, is_torn }))
    }

    fn open_to_write(&self, name: &str) -> io::Result<Opened<Page>> {
        let made = Page {
            fails: match name {
                "full" => Some(ErrorKind::StorageFull),
                "pipe" => Some(ErrorKind::BrokenPipe),
                _ => None,
            },
        };
        match name {
            "locked" => Err(io::Error::from(ErrorKind::PermissionDenied)),
            _ => Ok(file(name, made)),
        }
    }

    fn open_line_in(&self, name: &str) -> io::Result<Opened<Leaf>> {
        self.open(name)
    }

    fn open_line_out(&self, name: &str) -> io::Result<Opened<Page>> {
        self.open_to_write(name)
    }

    fn cut_off(&self, _file: &Page) -> io::Result<()> {
        self.cuts.set(self.cuts.get().saturating_add(1));
        Ok(())
    }

    fn open_to_replace(&self, name: &str) -> io::Result<Opened<Page>> {
        self.open_to_write(name)
    }

    fn lock(&self, _name: &str, _file: &Page) -> io::Result<()> {
        Ok(())
    }

    fn withdraw(&self, _name: &str, _file: &Page) {}

    fn begin_replacing(&self, _name: &str, file: &mut Page) -> io::Result<()> {
        self.cut_off(file)
    }

    fn finish_replacing(&self, _file: &mut Page) -> io::Result<()> {
        Ok(())
    }

    fn give_up(&self, _name: &str, _file: &mut Page) {}

    fn standard_input(&self) -> io::Result<Option<Identity>> {
        Ok(Some(file("input", ()).identity))
    }

    fn standard_output(&self) -> io::Result<Option<Identity>> {
        if self.is_unknown {
            return Err(io::Error::from(ErrorKind::NotFound));
        }
        Ok(Some(file("output", ()).identity))
    }

    fn standard_error(&self) -> io::Result<Option<Identity>> {
        Ok(Some(file("errors", ()).identity))
    }

    fn shows_output(&self) -> bool {
        self.is_unknown
    }
}

// What a run of the program gave.
#[derive(Drop)]
struct Ran {
    status: u8,
    output: Vec<u8>,
    errors: Vec<u8>,
    // how often its file was cut off
    cuts: usize,
}

// A clock that stands still.
#[derive(Drop)]
struct Still;

impl Clock for Still {
    fn millis(&self) -> Option<u64> {
        Some(0)
    }
}

fn run_on<I: Read>(alloc: Global, words: &[&str], input: I) -> Ran
where
    I: Drop,
{
    run_by(alloc, words, input, &Still)
}

// The same by another clock.
fn run_by<I: Read, C: Clock>(alloc: Global, words: &[&str], input: I, clock: &C) -> Ran
where
    I: Drop,
{
    run_in(alloc, words, input, clock, false)
}

// Standard error that takes all.
fn unbroken(alloc: Global) -> ShortWriter {
    ShortWriter::new(alloc, usize::MAX, true)
}

// The same where standard output may be unknown.
fn run_in<I: Read, C: Clock>(
    alloc: Global,
    words: &[&str],
    mut input: I,
    clock: &C,
    is_unknown: bool,
) -> Ran
where
    I: Drop,
{
    let (mut output, mut errors) = (Vec::new(alloc), Vec::new(alloc));
    let cuts = Cell::new(0);
    let shelf = Shelf {
        is_unknown,
        cuts: &cuts,
    };
    let mut console = Console {
        alloc,
        files: &shelf,
        clock,
        errors: &mut errors,
    };
    let status = run_words(words, &mut input, &mut output, &mut console);
    Ran {
        status,
        output,
        errors,
        cuts: cuts.get(),
    }
}

// A run whose streams are given: its status, and the streams.
#[derive(Drop)]
struct Ended<O> {
    status: u8,
    output: O,
    errors: ShortWriter,
}

fn run_to<I: Read, O: Write, C: Clock>(
    alloc: Global,
    words: &[&str],
    mut input: I,
    mut output: O,
    mut errors: ShortWriter,
    clock: &C,
) -> Ended<O>
where
    I: Drop,
    O: Drop,
{
    let cuts = Cell::new(0);
    let shelf = Shelf {
        is_unknown: false,
        cuts: &cuts,
    };
    let mut console = Console {
        alloc,
        files: &shelf,
        clock,
        errors: &mut errors,
    };
    let status = run_words(words, &mut input, &mut output, &mut console);
    Ended {
        status,
        output,
        errors,
    }
}

const AT_A_TERMINAL: &[u8] = b"swd: --remote: standard output is a terminal, ";

const AT_STANDARD_INPUT: &[u8] = b"swd: with --remote or --probe ";

// The arguments, and how the line begins that refuses them, or nothing.
const SHOWN: &[(&[&str], &[u8])] = &[
    (
        &["swd", "run", "script", "--remote", "--report", "traced"],
        AT_A_TERMINAL,
    ),
    (
        &["swd", "run", "-", "--remote", "--report", "traced"],
        AT_STANDARD_INPUT,
    ),
    (
        &["swd", "load", "20000000", "hex", "--remote"],
        AT_A_TERMINAL,
    ),
    (
        &["swd", "verify", "20000000", "hex", "--remote"],
        AT_A_TERMINAL,
    ),
    (
        &["swd", "dump", "20000000", "4", "traced", "--remote"],
        AT_A_TERMINAL,
    ),
    (
        &["swd", "dump", "20000000", "4", "-", "--remote"],
        AT_STANDARD_INPUT,
    ),
    (&["swd", "run", "script"], b""),
];

// In a terminal no command speaks to a target, whatever it is given. Nothing is sent, no file is opened, and each other
// command is as ever.
#[test]
fn a_terminal_is_no_target(rt: HostRuntime) {
    for (words, line) in SHOWN {
        let refused = !line.is_empty();
        let ran = run_in(rt.alloc(), words, b"".as_slice(), &Still, true);
        expect_eq_at(&rt, words, &ran.status, &if refused { 2 } else { 0 });
        expect_eq_at(&rt, words, &ran.output.is_empty(), &refused);
        expect_eq_at(&rt, words, &ran.cuts, &0);
        expect_eq_at(&rt, words, &ran.errors.is_empty(), &!refused);
        expect_at(&rt, words, ran.errors.starts_with(line));
    }
}

#[test]
fn a_trace_that_may_be_standard_output_is_refused(rt: HostRuntime) {
    let words = &["swd", "run", "script", "--trace", "traced"];
    let ran = run_in(rt.alloc(), words, b"".as_slice(), &Still, true);
    expect_eq(&rt, &ran.status, &2);
    let line = b"swd: cannot open traced: standard output is unknown without /proc\n".as_slice();
    expect_eq(&rt, &ran.errors.as_slice(), &line);
    assert!(rt; ran.output.is_empty());
    expect_eq(&rt, &ran.cuts, &0);
}

// An error has these words, and its status.
fn has_words<R: Abort, F: Display + Drop>(rt: &R, errors: Vec<u8>, fault: F, words: &[u8]) {
    let mut errors = errors;
    expect_eq(rt, &engine_status(&mut errors, Err(fault)), &2);
    expect_eq(rt, &errors.as_slice(), &words);
}

const DECODES: &[(DecodeFault, &[u8])] = &[
    (
        DecodeFault::Text(TextFault::BadChar { place: 7 }),
        b"swd: trace byte 7: bad character\n",
    ),
    (
        DecodeFault::Text(TextFault::TooLong),
        b"swd: trace too long\n",
    ),
    (DecodeFault::Read, b"swd: read failed\n"),
    (DecodeFault::Write { written: 5 }, b"swd: write failed\n"),
];

const ENCODES: &[(EncodeFault, &[u8])] = &[
    (
        EncodeFault::List(ListFault::BadLine { line: 3 }),
        b"swd: list line 3: bad line\n",
    ),
    (
        EncodeFault::List(ListFault::NotNormal { line: 4 }),
        b"swd: list line 4: not normal\n",
    ),
    (EncodeFault::List(ListFault::Read), b"swd: read failed\n"),
    (EncodeFault::List(ListFault::Memory), b"swd: no memory\n"),
    (EncodeFault::Write { written: 5 }, b"swd: write failed\n"),
];

const RUNS: &[(RunFault, &[u8])] = &[
    (
        RunFault::Texts(TextsFault::Script(ScriptFault::Word { line: 1 })),
        b"swd: script line 1: word\n",
    ),
    (
        RunFault::Texts(TextsFault::Script(ScriptFault::Memory { line: 9 })),
        b"swd: script line 9: memory\n",
    ),
    (
        RunFault::Texts(TextsFault::Plan(ScriptFault::Number { line: 2 })),
        b"swd: plan line 2: number\n",
    ),
    (RunFault::Texts(TextsFault::Read), b"swd: read failed\n"),
    (
        RunFault::Engine(EngineFault::Write { written: 5 }),
        b"swd: write failed\n",
    ),
    (RunFault::Engine(EngineFault::Memory), b"swd: no memory\n"),
    (RunFault::Engine(EngineFault::TraceCut), b"swd: trace cut\n"),
];

const REMOTES: &[(RemoteFault, &[u8])] = &[
    (
        RemoteFault::Script(ScriptFault::Word { line: 1 }),
        b"swd: script line 1: word\n",
    ),
    (RemoteFault::Read, b"swd: read failed\n"),
    (
        RemoteFault::Engine(EngineFault::TraceCut),
        b"swd: trace cut\n",
    ),
];

#[test]
fn each_fault_of_an_engine_has_its_words(rt: HostRuntime) {
    for (fault, words) in DECODES {
        has_words(&rt, Vec::new(rt.alloc()), *fault, words);
    }
    for (fault, words) in ENCODES {
        has_words(&rt, Vec::new(rt.alloc()), *fault, words);
    }
    for (fault, words) in RUNS {
        has_words(&rt, Vec::new(rt.alloc()), *fault, words);
    }
    for (fault, words) in REMOTES {
        has_words(&rt, Vec::new(rt.alloc()), *fault, words);
    }
}
