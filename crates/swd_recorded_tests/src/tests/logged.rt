//! Sessions whose log and trace are written while they go on.
use super::expect::{expect_eq, expect_eq_at};
use super::recorded::{Recorded, UNDISTURBED};
use super::serving::pins_under;
use std::alloc::Global;
use std::cell::{Cell, RefCell};
use std::io;
use std::io::{ErrorKind, Read, Write};
use std::test::Fail;
use swd_bitbang::{Pins, Served};
use swd_ends::serve_logged;
use swd_fakes::{CountingWriter, FailingReader, ShortWriter, WatchingReader};
use swd_port::Mark;
use swd_target::Memory;

// The session writes deadbeef at 20000000, and reads it back. The write takes effect with the last bit of its data, the
// read with the last bit of its request: after so many characters.
const WRITTEN: usize = 1492;

const READ: usize = 1735;

const WRITE_LINE: &[u8] = b"w 20000000 deadbeef\n";

const LOG: &[u8] = b"w 20000000 deadbeef\nr 20000000 deadbeef\ncycles 828 requests 15\n";

fn plain_pins(alloc: Global, session: &Recorded) -> Result<Pins<Memory>, Fail> {
    pins_under(alloc, session.request, session.mark)
}

// What a file holds, which its reader may look at while it is written.
#[derive(Drop)]
struct Page<'a>(&'a RefCell<Vec<u8>>);

impl<'a> Write for Page<'a> {
    fn write(&mut self, buf: &[u8]) -> io::Result<usize> {
        match self.0.try_borrow_mut() {
            Ok(mut held) => {
                held.extend_from_slice(buf)?;
                Ok(buf.len())
            }
            Err(_) => Err(io::Error::from(ErrorKind::Other)),
        }
    }

    fn flush(&mut self) -> io::Result<()> {
        Ok(())
    }
}

// Gives one piece after the other, and looks at both files before each read.
#[derive(Drop)]
struct Onlooker<'a> {
    pieces: &'a [&'a [u8]],
    next: usize,
    log: &'a RefCell<Vec<u8>>,
    trace: &'a RefCell<Vec<u8>>,
    logs: Vec<Vec<u8>>,
    traces: Vec<Vec<u8>>,
}

fn copied(page: &RefCell<Vec<u8>>) -> io::Result<Vec<u8>> {
    match page.try_borrow() {
        Ok(held) => Ok(held.clone()?),
        Err(_) => Err(io::Error::from(ErrorKind::Other)),
    }
}

impl<'a> Read for Onlooker<'a> {
    fn read(&mut self, buf: &mut [u8]) -> io::Result<usize> {
        self.logs.push(copied(self.log)?)?;
        self.traces.push(copied(self.trace)?)?;
        let Some(piece) = self.pieces.get(self.next) else {
            return Ok(0);
        };
        self.next = self.next.saturating_add(1);
        let count = piece.len().min(buf.len());
        buf[..count].copy_from_slice(&piece[..count]);
        Ok(count)
    }
}

// The writer of a file that was wanted.
fn wanted<M>(writer: Option<M>) -> Result<M, Fail> {
    match writer {
        Some(writer) => Ok(writer),
        None => Err(Fail::from("the file has no writer")),
    }
}

// What the files held before each read, and at the end.
#[derive(Drop)]
struct Looked {
    logs: Vec<Vec<u8>>,
    traces: Vec<Vec<u8>>,
    log: Vec<u8>,
    trace: Vec<u8>,
}

fn looked_at(alloc: Global, pieces: &[&[u8]]) -> Result<Looked, Fail> {
    let log = RefCell::new(Vec::new(alloc));
    let trace = RefCell::new(Vec::new(alloc));
    let mut reader = Onlooker {
        pieces,
        next: 0,
        log: &log,
        trace: &trace,
        logs: Vec::new(alloc),
        traces: Vec::new(alloc),
    };
    let mut levels = Vec::new(alloc);
    let pins = plain_pins(alloc, &UNDISTURBED)?;
    let files = (Some(Page(&log)), Some(Page(&trace)));
    let (_, _, files) = serve_logged(&mut reader, &mut levels, pins, files.0, files.1);
    if !files.are_whole() {
        return Err(Fail::from("a file isn't whole"));
    }
    Ok(Looked {
        logs: reader.logs,
        traces: reader.traces,
        log: copied(&log)?,
        trace: copied(&trace)?,
    })
}

#[test]
fn the_log_has_each_transfer_before_more_is_read(rt: HostRuntime) -> Result<(), Fail> {
    let (first, rest) = UNDISTURBED.characters.split_at(WRITTEN);
    let pieces = [first, rest];
    let looked = looked_at(rt.alloc(), pieces.as_slice())?;
    expect_eq(&rt, &looked.logs.len(), &2);
    for (log, wanted) in looked.logs.iter().zip([b"".as_slice(), WRITE_LINE]) {
        expect_eq(&rt, &log.as_slice(), &wanted);
    }
    expect_eq(&rt, &looked.log.as_slice(), &LOG);
    Ok(())
}

const PIECES: &[&[u8]] = &[b"egdf", b"egeg", b"d", b"fQ"];

// The trace before each of them.
const BEFORE: &[&[u8]] = &[b"", b"10", b"1011", b"1011"];

#[test]
fn the_trace_has_each_bit_before_more_is_read(rt: HostRuntime) -> Result<(), Fail> {
    // The host drives each bit; in a piece's midst the clock is low.
    let looked = looked_at(rt.alloc(), PIECES)?;
    expect_eq(&rt, &looked.traces.len(), &4);
    for (trace, wanted) in looked.traces.iter().zip(BEFORE) {
        expect_eq(&rt, &trace.as_slice(), wanted);
    }
    expect_eq(&rt, &looked.trace.as_slice(), &b"10110\n".as_slice());
    for log in looked.logs.iter() {
        expect_eq(&rt, &log.as_slice(), &b"".as_slice());
    }
    expect_eq(
        &rt,
        &looked.log.as_slice(),
        &b"cycles 5 requests 0\n".as_slice(),
    );
    Ok(())
}

// Byte by byte: how long the log is before a read.
#[test]
fn a_transfer_is_logged_once_it_took_effect(rt: HostRuntime) -> Result<(), Fail> {
    let taken = Cell::new(0);
    let mut reader = WatchingReader::new(rt.alloc(), UNDISTURBED.characters, &taken);
    let mut levels = Vec::new(rt.alloc());
    let log = CountingWriter { taken: &taken };
    let pins = plain_pins(rt.alloc(), &UNDISTURBED)?;
    let (served, _, _) = serve_logged(&mut reader, &mut levels, pins, Some(log), None);
    expect_eq(&rt, &served, &Served::Quit);
    let line = WRITE_LINE.len();
    let rows = [
        (0, 0),
        (WRITTEN - 1, 0),
        (WRITTEN, line),
        (READ - 1, line),
        (READ, line + line),
        (UNDISTURBED.characters.len() - 1, line + line),
    ];
    for (read, written) in rows {
        expect_eq_at(&rt, &read, &reader.noted.get(read), &Some(&written));
    }
    expect_eq(&rt, &taken.get(), &LOG.len());
    Ok(())
}

// A session that a reader's failure ends has its files whole.
#[test]
fn a_failed_read_leaves_the_files_so_far(rt: HostRuntime) -> Result<(), Fail> {
    let mut reader = FailingReader::new(UNDISTURBED.characters, WRITTEN);
    let mut levels = Vec::new(rt.alloc());
    let (log, trace) = (Vec::new(rt.alloc()), Vec::new(rt.alloc()));
    let pins = plain_pins(rt.alloc(), &UNDISTURBED)?;
    let (served, _, files) = serve_logged(&mut reader, &mut levels, pins, Some(log), Some(trace));
    expect_eq(&rt, &served, &Served::Read);
    assert!(rt; files.are_whole());
    let (log, trace) = files.into_writers();
    let (log, trace) = (wanted(log)?, wanted(trace)?);
    let lines = b"w 20000000 deadbeef\ncycles 636 requests 11\n".as_slice();
    expect_eq(&rt, &log.as_slice(), &lines);
    expect_eq(&rt, &trace.as_slice().len(), &(636 + 1));
    Ok(())
}

// A file whose writer fails has exactly the first bytes, although that writer would take more. The session goes on.
#[test]
fn a_failed_file_has_exactly_its_first_bytes(rt: HostRuntime) -> Result<(), Fail> {
    for room in 0..LOG.len() {
        for fails in [false, true] {
            let mut reader = FailingReader::new(UNDISTURBED.characters, usize::MAX);
            let mut levels = Vec::new(rt.alloc());
            let log = ShortWriter::new(rt.alloc(), room, fails);
            let trace = ShortWriter::new(rt.alloc(), usize::MAX, fails);
            let pins = plain_pins(rt.alloc(), &UNDISTURBED)?;
            let (served, _, files) = serve_logged(
                &mut reader,
                &mut levels,
                pins,
                Some(log),
                Some(trace),
            );
            expect_eq_at(&rt, &room, &served, &Served::Quit);
            expect_eq_at(&rt, &room, &levels.as_slice(), &UNDISTURBED.levels);
            assert!(rt; !files.are_whole());
            let (log, trace) = files.into_writers();
            let (log, trace) = (wanted(log)?, wanted(trace)?);
            expect_eq_at(&rt, &room, &log.taken(), &&LOG[..room]);
            expect_eq_at(&rt, &room, &trace.taken().len(), &(828 + 1));
        }
    }
    Ok(())
}

#[test]
fn a_failed_trace_has_exactly_its_first_bytes(rt: HostRuntime) -> Result<(), Fail> {
    let text = b"10110\n".as_slice();
    for room in 0..text.len() {
        for fails in [false, true] {
            let mut reader = FailingReader::new(b"egdfegegdfQ", usize::MAX);
            let mut levels = Vec::new(rt.alloc());
            let trace = ShortWriter::new(rt.alloc(), room, fails);
            let pins = pins_under(rt.alloc(), 0, Mark::Clean)?;
            let (served, _, files) = serve_logged(
                &mut reader,
                &mut levels,
                pins,
                None,
                Some(trace),
            );
            expect_eq_at(&rt, &room, &served, &Served::Quit);
            assert!(rt; !files.are_whole());
            let (_, trace) = files.into_writers();
            let trace = wanted(trace)?;
            expect_eq_at(&rt, &room, &trace.taken(), &&text[..room]);
        }
    }
    Ok(())
}
