//! A memory in a file, at a simulated target and at a served one, whose file fails in ways that real ones seldom do.
use super::Still;
use super::expect::{expect_at, expect_eq, expect_eq_at};
use super::pen::{EMPTY, Page, Pen, Source};
use std::alloc::Global;
use std::cell::Cell;
use std::io;
use std::io::{ErrorKind, Read};
use swd_commands::run_words;
use swd_console::{Clock, Console, Files, Identity, Opened};

/// What the memory and the image have.
pub(super) struct Texts {
    pub(super) ram: &'static [u8],
    pub(super) image: &'static [u8],
}

// Files, by their names.
#[derive(Drop)]
struct Desk<'a> {
    texts: &'a Texts,
    // whether the standard streams are known: no command at a simulated target asks for them
    has_streams: bool,
    written: &'a Cell<Page>,
    calls: &'a Cell<Page>,
    cuts: &'a Cell<usize>,
}

fn number_of(name: &str) -> u64 {
    match name {
        "ram" => 1,
        "image" => 2,
        "full" => 4,
        "locked" => 5,
        "broken" => 6,
        "calls" => 8,
        "stuck" => 9,
        _ => 7,
    }
}

fn file<F>(name: &str, file: F, more: u64) -> Opened<F> {
    Opened {
        file,
        identity: Identity {
            device: 7,
            number: number_of(name).wrapping_add(more),
        },
    }
}

impl Desk<'_> {
    // The standard stream of this number.
    fn stream(&self, number: u64) -> io::Result<Option<Identity>> {
        if self.has_streams {
            Ok(Some(Identity { device: 7, number }))
        } else {
            Err(io::Error::from(ErrorKind::NotFound))
        }
    }
}

impl<'a> Files for Desk<'a> {
    type File = Source;

    type Made = Pen<'a>;

    fn open(&self, name: &str) -> io::Result<Opened<Source>> {
        match name {
            "ram" | "full" | "locked" | "moved" | "stuck" | "used" => {
                Ok(file(name, Source::Text(self.texts.ram), 0))
            }
            "image" => Ok(file(name, Source::Text(self.texts.image), 0)),
            "broken" => Ok(file(name, Source::Broken, 0)),
            _ => Err(io::Error::from(ErrorKind::NotFound)),
        }
    }

    fn open_to_write(&self, name: &str) -> io::Result<Opened<Pen<'a>>> {
        let pen = Pen {
            page: if name == "calls" {
                self.calls
            } else {
                self.written
            },
            is_full: name == "full",
            is_stuck: name == "stuck",
            beside: None,
        };
        match name {
            "locked" => Err(io::Error::from(ErrorKind::PermissionDenied)),
            // Another file has the name now.
            "moved" => Ok(file(name, pen, 10)),
            _ => Ok(file(name, pen, 0)),
        }
    }

    fn open_line_in(&self, name: &str) -> io::Result<Opened<Source>> {
        self.open(name)
    }

    fn open_line_out(&self, name: &str) -> io::Result<Opened<Pen<'a>>> {
        self.open_to_write(name)
    }

    fn cut_off(&self, file: &Pen<'a>) -> io::Result<()> {
        self.cuts.set(self.cuts.get().saturating_add(1));
        file.page.set(EMPTY);
        Ok(())
    }

    fn open_to_replace(&self, name: &str) -> io::Result<Opened<Pen<'a>>> {
        self.open_to_write(name)
    }

    fn lock(&self, name: &str, _file: &Pen<'a>) -> io::Result<()> {
        match name {
            "used" => Err(io::Error::from(ErrorKind::ResourceBusy)),
            _ => Ok(()),
        }
    }

    fn withdraw(&self, _name: &str, _file: &Pen<'a>) {}

    // It counts as one that is cut off.
    fn begin_replacing(&self, _name: &str, file: &mut Pen<'a>) -> io::Result<()> {
        self.cuts.set(self.cuts.get().saturating_add(1));
        file.beside = Some(EMPTY);
        Ok(())
    }

    fn finish_replacing(&self, file: &mut Pen<'a>) -> io::Result<()> {
        file.replace()
    }

    fn give_up(&self, _name: &str, file: &mut Pen<'a>) {
        file.beside = None;
    }

    fn standard_input(&self) -> io::Result<Option<Identity>> {
        self.stream(20)
    }

    fn standard_output(&self) -> io::Result<Option<Identity>> {
        self.stream(21)
    }

    fn standard_error(&self) -> io::Result<Option<Identity>> {
        self.stream(22)
    }

    fn shows_output(&self) -> bool {
        false
    }
}

/// What a run gave.
#[derive(Drop)]
pub(super) struct Ran {
    pub(super) status: u8,
    pub(super) errors: Vec<u8>,
    /// Whether standard output was written to.
    pub(super) spoke: bool,
    /// The file that was written, and how often a file was cut off.
    pub(super) written: Page,
    pub(super) cuts: usize,
    /// The report of the calls.
    pub(super) calls: Page,
}

// Fails at each read: standard input isn't used.
#[derive(Drop)]
struct Deaf;

impl Read for Deaf {
    fn read(&mut self, _buf: &mut [u8]) -> io::Result<usize> {
        Err(io::Error::from(ErrorKind::BrokenPipe))
    }
}

/// Runs a command at a simulated target over these files.
pub(super) fn run_at<C: Clock>(alloc: Global, words: &[&str], texts: &Texts, clock: &C) -> Ran {
    run_over(alloc, words, texts, &mut Deaf, clock)
}

// Runs a command over these files. Those of a served target know the standard streams.
fn run_over<I: Read, C: Clock>(
    alloc: Global,
    words: &[&str],
    texts: &Texts,
    input: &mut I,
    clock: &C,
) -> Ran
where
    I: Drop,
{
    let (written, calls, cuts) = (Cell::new(EMPTY), Cell::new(EMPTY), Cell::new(0));
    let desk = Desk {
        texts,
        has_streams: words.get(1) == Some(&"target"),
        written: &written,
        calls: &calls,
        cuts: &cuts,
    };
    let (mut output, mut errors) = (Vec::new(alloc), Vec::new(alloc));
    let mut console = Console {
        alloc,
        files: &desk,
        clock,
        errors: &mut errors,
    };
    let status = run_words(words, input, &mut output, &mut console);
    Ran {
        status,
        errors,
        spoke: !output.is_empty(),
        written: written.get(),
        calls: calls.get(),
        cuts: cuts.get(),
    }
}

const FOUR: Texts = Texts {
    ram: b"abcd",
    image: b"1",
};

const EIGHT: Texts = Texts {
    ram: b"abcdefgh",
    image: b"12345678",
};

// The arguments, the line, and how often a file was cut off.
const REFUSED: &[(&[&str], &[u8], usize)] = &[
    (
        &["swd", "load", "0", "image", "--memory", "locked"],
        b"swd: cannot open locked: permission denied\n",
        0,
    ),
    (
        &["swd", "load", "0", "image", "--memory", "moved"],
        b"swd: cannot open moved: it is another file now\n",
        0,
    ),
    (
        &["swd", "load", "0", "image", "--memory", "used"],
        b"swd: cannot open used: resource busy\n",
        0,
    ),
    (
        &["swd", "verify", "0", "image", "--memory", "broken"],
        b"swd: read failed: broken: broken pipe\n",
        0,
    ),
    (
        &["swd", "dump", "0", "1", "locked", "--memory", "ram"],
        b"swd: cannot open locked: permission denied\n",
        0,
    ),
    // A disk that is full is found out when the memory is written back, or a dump, and neither file has changed then.
    (
        &["swd", "load", "20000000", "image", "--memory", "full"],
        b"swd: write failed: full: no storage space\n",
        1,
    ),
    (
        &["swd", "dump", "20000000", "4", "full", "--memory", "ram"],
        b"swd: write failed: full: no storage space\n",
        1,
    ),
    // So is a file whose place can't be taken.
    (
        &["swd", "load", "20000000", "image", "--memory", "stuck"],
        b"swd: write failed: stuck: resource busy\n",
        1,
    ),
    (
        &["swd", "dump", "20000000", "4", "stuck", "--memory", "ram"],
        b"swd: write failed: stuck: resource busy\n",
        1,
    ),
    (
        &["swd", "target", "--memory", "locked"],
        b"swd: cannot open locked: permission denied\n",
        0,
    ),
    (
        &["swd", "target", "--memory", "moved"],
        b"swd: cannot open moved: it is another file now\n",
        0,
    ),
    (
        &["swd", "target", "--memory", "used"],
        b"swd: cannot open used: resource busy\n",
        0,
    ),
    (
        &["swd", "target", "--memory", "broken"],
        b"swd: read failed: broken: broken pipe\n",
        0,
    ),
];

// Nothing is written where a file can't be used.
#[test]
fn a_file_that_fails_changes_nothing(rt: HostRuntime) {
    for (words, line, cuts) in REFUSED {
        let ran = run_at(rt.alloc(), words, &FOUR, &Still);
        expect_eq_at(&rt, words, &ran.errors.as_slice(), line);
        expect_eq_at(&rt, words, &ran.written.text(), &b"".as_slice());
        expect_eq_at(&rt, words, &ran.cuts, cuts);
        expect_at(&rt, words, !ran.spoke);
        expect_eq_at(&rt, words, &ran.status, &2);
    }
}

// What becomes of a memory whose file can't be written, or can't be replaced.
const UNWRITTEN: &[(&str, &[u8])] = &[
    ("full", b"swd: write failed: full: no storage space\n"),
    ("stuck", b"swd: write failed: stuck: resource busy\n"),
];

const SESSIONS: &[&[u8]] = &[b"Q", b"x"];

// A served memory that can't be written back takes one line, also where the session failed. Its file is as it was,
// although some bytes could be written.
#[test]
fn a_memory_that_cannot_be_written_takes_one_line(rt: HostRuntime) {
    for session in SESSIONS {
        for (name, line) in UNWRITTEN {
            let mut input = *session;
            let words = &["swd", "target", "--memory", *name];
            let ran = run_over(rt.alloc(), words, &FOUR, &mut input, &Still);
            expect_eq_at(&rt, session, &ran.errors.as_slice(), line);
            expect_eq_at(&rt, session, &ran.written.text(), &b"".as_slice());
            expect_eq_at(&rt, session, &ran.status, &2);
        }
    }
}

const FULL_REPORT: &[&str] = &[
    "swd", "load", "20000000", "image", "--memory", "ram", "--report", "full",
];

const LOCKED_REPORT: &[&str] = &[
    "swd", "load", "20000000", "image", "--memory", "ram", "--report", "locked",
];

// A report that can't be written ends the load with status 2 after its call, and the memory's file has what it left.
// One that can't be opened changes no file.
#[test]
fn a_report_that_is_not_written(rt: HostRuntime) {
    let ran = run_at(rt.alloc(), FULL_REPORT, &EIGHT, &Still);
    let line = b"swd: write failed: full: ".as_slice();
    expect_at(&rt, &line, ran.errors.starts_with(line));
    expect_eq(&rt, &ran.written.text(), &b"12345678".as_slice());
    expect_eq(&rt, &ran.status, &2);
    let ran = run_at(rt.alloc(), LOCKED_REPORT, &EIGHT, &Still);
    let line = b"swd: cannot open locked: permission denied\n".as_slice();
    expect_eq(&rt, &ran.errors.as_slice(), &line);
    expect_eq(&rt, &ran.cuts, &0);
    expect_eq(&rt, &ran.status, &2);
}
