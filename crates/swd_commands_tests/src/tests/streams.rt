//! Streams that fail: the line on standard error, and the status.
use super::expect::{expect_at, expect_eq, expect_eq_at};
use super::{DPIDR_LINE, DPIDR_READ, Ended, REPORT, SCRIPT, Still, run_on, run_to, unbroken};
use std::alloc::Global;
use std::io;
use std::io::{ErrorKind, Read, Write};
use std::process::Abort;

// The lines where the target gave no reply.
const LOST_LINES: &[u8] = b"swd: the run ended early: lost, see --resume\n\
    swd: no reply to the first request, SWDIO read 1: \
    is it driven, and the target connected and powered?\n";

// A host in another language, against a target in another language: a line reset, and DPIDR read.
const SESSION: &[u8] = b"\
    egegegegegegegegegegegegegegegegegegegegegegegegegegegegegegegegegegegegegegegegegegegegegegegeg\
    egegegegegegegegdfdfegdfegdfdfegdfegodfdcfdcfdcfdcfdcfdcfdcfdcfdcfdcfdcfdcfdcfdcfdcfdcfdcfdcfdcf\
    dcfdcfdcfdcfdcfdcfdcfdcfdcfdcfdcfdcfdcfdcfdcfdcfdcfdfQ";

// A trace of a line reset, and of DPIDR read.
const RESET_READ: &[u8] = b"11111111111111111111111111111111111111111111111111 00 \
    10100101 1 100 11101110001010000000010111010100 0 1";

// What it was answered: OK, 2ba01477 and its parity.
const LEVELS: &[u8] = b"100111011100010100000000101110101000";

// Gives a text, and then fails.
#[derive(Drop)]
struct Torn<'a> {
    text: &'a [u8],
    kind: ErrorKind,
}

impl Read for Torn<'_> {
    fn read(&mut self, buf: &mut [u8]) -> io::Result<usize> {
        if self.text.is_empty() {
            return Err(io::Error::from(self.kind));
        }
        self.text.read(buf)
    }
}

// Takes so many bytes, and then fails at each write, or takes no bytes.
#[derive(Drop)]
struct Short {
    taken: Vec<u8>,
    room: usize,
    fails: Option<ErrorKind>,
}

impl Write for Short {
    fn write(&mut self, buf: &[u8]) -> io::Result<usize> {
        let left = self.room.saturating_sub(self.taken.len());
        match self.fails {
            Some(kind) if left == 0 => return Err(io::Error::from(kind)),
            _ => {}
        }
        let count = left.min(buf.len());
        self.taken.extend_from_slice(&buf[..count])?;
        Ok(count)
    }

    fn flush(&mut self) -> io::Result<()> {
        Ok(())
    }
}

// Runs a program whose standard output takes so many bytes.
fn run_short(
    alloc: Global,
    words: &[&str],
    input: &[u8],
    room: usize,
    fails: Option<ErrorKind>,
) -> Ended<Short> {
    let output = Short {
        taken: Vec::new(alloc),
        room,
        fails,
    };
    run_to(alloc, words, input, output, unbroken(alloc), &Still)
}

// Why standard output can't be written, the line, and the status.
type Failure<'a> = (Option<ErrorKind>, &'a [u8], u8);

// Of a command whose result goes there.
const OUTPUTS: &[Failure] = &[
    (Some(ErrorKind::BrokenPipe), b"", 141),
    (
        Some(ErrorKind::StorageFull),
        b"swd: write failed: standard output: no storage space\n",
        2,
    ),
    (
        Some(ErrorKind::ConnectionReset),
        b"swd: write failed: standard output: connection reset\n",
        2,
    ),
    (
        Some(ErrorKind::WriteZero),
        b"swd: write failed: standard output: write zero\n",
        2,
    ),
    (None, b"swd: write failed: standard output: write zero\n", 2),
];

// Arguments, and standard input.
const COMMANDS: &[(&[&str], &[u8])] = &[
    (&["swd", "one"], DPIDR_READ),
    (&["swd", "one", "trace"], b""),
    (&["swd", "decode"], DPIDR_READ),
    (&["swd", "decode", "trace"], b""),
    (&["swd", "decode", "--places"], DPIDR_READ),
    (&["swd", "decode", "--names"], DPIDR_READ),
    (&["swd", "decode", "--count"], DPIDR_READ),
    (&["swd", "decode", "--accesses"], DPIDR_READ),
    (&["swd", "decode", "--resync"], DPIDR_READ),
    (&["swd", "draw"], DPIDR_READ),
    (&["swd", "check", "--made"], RESET_READ),
    (&["swd", "encode"], DPIDR_LINE),
    (&["swd", "encode", "list"], b""),
    (&["swd", "run", "-"], SCRIPT),
    (&["swd", "run", "script"], b""),
    (
        &[
            "swd", "run", "script", "--plan", "quiet", "--trace", "traced",
        ],
        b"",
    ),
    (&["swd", "run", "script", "--accesses", "traced"], b""),
    (&["swd", "--help"], b""),
    (&["swd", "help", "run"], b""),
    (&["swd", "--version"], b""),
];

// Whether a place in an output is tried: each one of a short output.
fn is_tried(room: usize, len: usize) -> bool {
    len < 100 || room < 3 || room == len / 2 || len - 1 <= room
}

#[test]
fn an_output_that_fails_at_any_place_has_its_line_and_its_status(rt: HostRuntime) {
    for (words, input) in COMMANDS {
        let whole = run_on(rt.alloc(), words, *input);
        expect_eq_at(&rt, words, &whole.status, &0);
        let whole = whole.output.as_slice();
        for room in 0..whole.len() {
            if !is_tried(room, whole.len()) {
                continue;
            }
            for (fails, line, status) in OUTPUTS {
                let cut = run_short(rt.alloc(), words, input, room, *fails);
                expect_eq_at(&rt, &(words, room), &cut.errors.taken(), line);
                expect_eq_at(&rt, &(words, room), &cut.status, status);
                expect_eq_at(
                    &rt,
                    &(words, room),
                    &cut.output.taken.as_slice(),
                    &&whole[..room],
                );
            }
        }
    }
}

// One write fails, as if a signal came, and the others do as `then`.
#[derive(Drop)]
struct Interrupted {
    came: bool,
    then: Short,
}

impl Write for Interrupted {
    fn write(&mut self, buf: &[u8]) -> io::Result<usize> {
        if self.came {
            return self.then.write(buf);
        }
        self.came = true;
        Err(io::Error::from(ErrorKind::Interrupted))
    }

    fn flush(&mut self) -> io::Result<()> {
        Ok(())
    }
}

// How much the output takes, what it took, and the status.
const INTERRUPTED: &[(usize, &[u8], u8)] = &[(1000, b"swd 0.1.0\n", 0), (3, b"swd", 141)];

// The help is written again after a signal, and its last error counts.
#[test]
fn help_that_is_interrupted_goes_on(rt: HostRuntime) {
    for (room, taken, status) in INTERRUPTED {
        let output = Interrupted {
            came: false,
            then: Short {
                taken: Vec::new(rt.alloc()),
                room: *room,
                fails: Some(ErrorKind::BrokenPipe),
            },
        };
        let ran = run_to(
            rt.alloc(),
            &["swd", "--version"],
            b"".as_slice(),
            output,
            unbroken(rt.alloc()),
            &Still,
        );
        expect_eq_at(&rt, room, &ran.status, status);
        expect_eq_at(&rt, room, &ran.output.then.taken.as_slice(), taken);
        expect_at(&rt, room, ran.errors.taken().is_empty());
    }
}

// The arguments, standard input, and the line.
const UNUSED: &[(&[&str], &[u8], &[u8])] = &[
    (&["swd", "two"], b"", b"error: "),
    (&["swd", "encode"], b"x\n", b"swd: list line 1: bad line: "),
    (&["swd", "run", "-"], b"x\n", b"swd: script line 1: word: "),
    (
        &["swd", "run", "missing"],
        b"",
        b"swd: cannot open missing: ",
    ),
];

// A mistake in the arguments or a wrong input leaves standard output unused, although it can't be written.
#[test]
fn an_output_that_is_not_used_does_not_fail(rt: HostRuntime) {
    for (words, input, line) in UNUSED {
        let cut = run_short(rt.alloc(), words, input, 0, Some(ErrorKind::BrokenPipe));
        expect_eq_at(&rt, words, &cut.status, &2);
        expect_at(&rt, words, cut.errors.taken().starts_with(line));
    }
}

// The arguments, and the line: a file can't be read to its end.
const TORN: &[(&[&str], &[u8])] = &[
    (
        &["swd", "one", "torn-trace"],
        b"swd: read failed: torn-trace: timed out\n",
    ),
    (
        &["swd", "decode", "torn-trace"],
        b"swd: read failed: torn-trace: timed out\n",
    ),
    (
        &["swd", "decode", "torn\u{1b}"],
        b"swd: read failed: torn\\u{1b}: timed out\n",
    ),
    (
        &["swd", "decode", "--count", "torn-trace"],
        b"swd: read failed: torn-trace: timed out\n",
    ),
    (
        &["swd", "encode", "torn-list"],
        b"swd: read failed: torn-list: timed out\n",
    ),
    (
        &["swd", "run", "torn"],
        b"swd: read failed: torn: timed out\n",
    ),
    (
        &["swd", "run", "script", "--plan", "torn-plan"],
        b"swd: read failed: torn-plan: timed out\n",
    ),
    (
        &["swd", "run", "torn", "--remote", "--report", "traced"],
        b"swd: read failed: torn: timed out\n",
    ),
    (
        &["swd", "target", "torn"],
        b"swd: read failed: torn: timed out\n",
    ),
    (
        &["swd", "target", "memory", "--plan", "torn-plan"],
        b"swd: read failed: torn-plan: timed out\n",
    ),
    (
        &["swd", "load", "0", "torn-image", "--remote"],
        b"swd: read failed: torn-image: timed out\n",
    ),
    (
        &["swd", "verify", "0", "torn-image", "--remote"],
        b"swd: read failed: torn-image: timed out\n",
    ),
];

// The arguments, standard input, standard output, and the line: a file can't be written.
const FULL: &[(&[&str], &[u8], &[u8], &[u8])] = &[
    (
        &["swd", "run", "script", "--trace", "full"],
        b"",
        REPORT,
        b"swd: write failed: full: no storage space\n",
    ),
    (
        &["swd", "run", "script", "--trace", "pipe"],
        b"",
        REPORT,
        b"swd: write failed: pipe: broken pipe\n",
    ),
    (
        &["swd", "run", "script", "--accesses", "full"],
        b"",
        REPORT,
        b"swd: write failed: full: no storage space\n",
    ),
    (
        &["swd", "run", "script", "--accesses", "pipe"],
        b"",
        REPORT,
        b"swd: write failed: pipe: broken pipe\n",
    ),
    (
        &[
            "swd",
            "run",
            "script",
            "--trace",
            "traced",
            "--accesses",
            "full",
        ],
        b"",
        REPORT,
        b"swd: write failed: full: no storage space\n",
    ),
    (
        &["swd", "target", "memory", "--log", "full"],
        SESSION,
        LEVELS,
        b"swd: write failed: full: no storage space\n",
    ),
    (
        &["swd", "target", "memory", "--log", "pipe"],
        SESSION,
        LEVELS,
        b"swd: write failed: pipe: broken pipe\n",
    ),
    (
        &["swd", "target", "memory", "--trace", "full"],
        SESSION,
        LEVELS,
        b"swd: write failed: full: no storage space\n",
    ),
    (
        &[
            "swd", "target", "memory", "--log", "traced", "--trace", "pipe",
        ],
        SESSION,
        LEVELS,
        b"swd: write failed: pipe: broken pipe\n",
    ),
    (
        &[
            "swd", "dump", "0", "0", "full", "--format", "hex", "--remote",
        ],
        b"",
        b"OQ",
        b"swd: write failed: full: no storage space\n",
    ),
];

#[test]
fn a_file_that_fails_is_named_with_the_reason(rt: HostRuntime) {
    for (words, line) in TORN {
        let ran = run_on(rt.alloc(), words, b"".as_slice());
        expect_eq_at(&rt, words, &ran.errors.as_slice(), line);
        expect_at(&rt, words, ran.output.is_empty());
        expect_eq_at(&rt, words, &ran.status, &2);
    }
    for (words, input, output, line) in FULL {
        let ran = run_on(rt.alloc(), words, *input);
        expect_eq_at(&rt, words, &ran.errors.as_slice(), line);
        expect_eq_at(&rt, words, &ran.output.as_slice(), output);
        expect_eq_at(&rt, words, &ran.status, &2);
    }
}

// The arguments, the line, and the status.
const REMOTE: &[(&[&str], &[u8], u8)] = &[
    (
        &["swd", "run", "script", "--remote", "--report", "full"],
        b"swd: write failed: full: no storage space\n",
        2,
    ),
    (
        &[
            "swd", "run", "script", "--remote", "--report", "traced", "--trace", "pipe",
        ],
        b"swd: write failed: pipe: broken pipe\n",
        2,
    ),
    (
        &[
            "swd",
            "run",
            "script",
            "--remote",
            "--report",
            "traced",
            "--accesses",
            "full",
        ],
        LOST_LINES,
        1,
    ),
];

// A remote run whose report, trace or accesses can't be written, where no acknowledgement comes back. It is reported to
// the end, and nothing more is sent.
#[test]
fn a_remote_run_names_the_file_that_fails(rt: HostRuntime) {
    for (words, line, status) in REMOTE {
        let ran = run_on(rt.alloc(), words, b"111".as_slice());
        expect_eq_at(&rt, words, &ran.errors.as_slice(), line);
        expect_eq_at(&rt, words, &ran.status, status);
        expect_at(&rt, words, ran.output.ends_with(b"dcfQ"));
    }
}

// The arguments, standard input up to where it fails, and the line.
const INPUTS: &[(&[&str], &[u8], &[u8])] = &[
    (
        &["swd", "one"],
        b"",
        b"swd: read failed: standard input: broken pipe\n",
    ),
    (
        &["swd", "one", "-"],
        DPIDR_READ,
        b"swd: read failed: standard input: broken pipe\n",
    ),
    (
        &["swd", "decode"],
        b"",
        b"swd: read failed: standard input: broken pipe\n",
    ),
    (
        &["swd", "decode", "--places", "-"],
        b"",
        b"swd: read failed: standard input: broken pipe\n",
    ),
    (
        &["swd", "encode"],
        DPIDR_LINE,
        b"swd: read failed: standard input: broken pipe\n",
    ),
    (
        &["swd", "run", "-"],
        SCRIPT,
        b"swd: read failed: standard input: broken pipe\n",
    ),
    (
        &["swd", "run", "-", "--plan", "quiet"],
        b"",
        b"swd: read failed: standard input: broken pipe\n",
    ),
    // A file that is read in its place fails by itself.
    (
        &["swd", "run", "torn"],
        b"",
        b"swd: read failed: torn: timed out\n",
    ),
    // An error of the input comes before.
    (
        &["swd", "one"],
        b"10x",
        b"swd: trace byte 2: bad character 'x': a trace has 0, 1, blanks and comments\n",
    ),
    (
        &["swd", "encode"],
        b"x\n",
        b"swd: list line 1: bad line: 'x' is no item; these begin with dp, ap, reset, switch, idle, junk and cut\n",
    ),
    // The other end's.
    (
        &["swd", "target", "memory"],
        b"",
        b"swd: read failed: standard input: broken pipe\n",
    ),
    (
        &["swd", "target", "memory", "--log", "traced"],
        b"dR",
        b"swd: byte 1: a character of JTAG: set the debugger to serial wire\n",
    ),
];

#[test]
fn an_input_that_fails_is_named_with_the_reason(rt: HostRuntime) {
    for (words, text, line) in INPUTS {
        let kind = ErrorKind::BrokenPipe;
        let ran = run_on(rt.alloc(), words, Torn { text, kind });
        expect_eq_at(&rt, words, &ran.errors.as_slice(), line);
        expect_at(&rt, words, ran.output.is_empty());
        expect_eq_at(&rt, words, &ran.status, &2);
    }
}

// A drawing has its frame before anything is read.
#[test]
fn a_drawing_of_an_input_that_fails_has_the_reason(rt: HostRuntime) {
    let kind = ErrorKind::TimedOut;
    let ran = run_on(rt.alloc(), &["swd", "draw"], Torn { text: b"", kind });
    let line = b"swd: read failed: standard input: timed out\n".as_slice();
    expect_eq(&rt, &ran.errors.as_slice(), &line);
    expect_eq(&rt, &ran.status, &2);
}

// Of a connection over standard output: a closed one is the other end that went away.
const SENT: &[(Option<ErrorKind>, &[u8])] = &[
    (
        Some(ErrorKind::BrokenPipe),
        b"swd: the other end went away\n",
    ),
    (
        Some(ErrorKind::StorageFull),
        b"swd: write failed: standard output: no storage space\n",
    ),
    (None, b"swd: write failed: standard output: write zero\n"),
];

// How many characters it takes.
const ROOMS: &[usize] = &[0, 1, 30];

// Arguments, standard input, and the status whatever the reason.
const CONNECTED: &[(&[&str], &[u8], u8)] = &[
    (&["swd", "target", "memory"], SESSION, 2),
    (
        &["swd", "run", "script", "--remote", "--report", "traced"],
        b"111",
        1,
    ),
    (&["swd", "load", "20000000", "image", "--remote"], b"111", 1),
    (
        &["swd", "verify", "20000000", "image", "--remote"],
        b"111",
        1,
    ),
    (
        &["swd", "dump", "20000000", "5", "traced", "--remote"],
        b"111",
        1,
    ),
];

// Whether a connection ended with this line and status, and its output took so many characters.
fn is_cut_off<R: Abort>(rt: &R, cut: Ended<Short>, room: usize, line: &[u8], status: u8) {
    let said = cut.errors.taken();
    expect_eq_at(rt, &room, &said, &line);
    expect_eq_at(rt, &room, &cut.status, &status);
    expect_eq_at(rt, &room, &cut.output.taken.len(), &room);
}

// Tries a connection whose output fails, for each reason, after each number of characters.
fn is_unsent<R: Abort>(rt: &R, alloc: Global, words: &[&str], input: &[u8], status: u8) {
    for (fails, line) in SENT {
        for room in ROOMS {
            let cut = run_short(alloc, words, input, *room, *fails);
            is_cut_off(rt, cut, *room, line, status);
        }
    }
}

#[test]
fn a_connection_that_fails_has_its_line_and_its_status(rt: HostRuntime) {
    for (words, input, status) in CONNECTED {
        is_unsent(&rt, rt.alloc(), words, input, *status);
    }
}

// The other end's output can't be read.
#[test]
fn a_connection_that_is_reset_has_its_line_and_its_status(rt: HostRuntime) {
    for (words, _input, status) in CONNECTED {
        let kind = ErrorKind::ConnectionReset;
        let ran = run_on(rt.alloc(), words, Torn { text: b"", kind });
        let line = b"swd: read failed: standard input: connection reset\n".as_slice();
        expect_eq_at(&rt, words, &ran.errors.as_slice(), &line);
        expect_eq_at(&rt, words, &ran.status, status);
    }
}
