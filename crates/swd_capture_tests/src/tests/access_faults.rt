//! Accesses: texts at fault, and readers and writers that fail at each place.
use super::expect::expect_eq_at;
use super::trace_of;
use std::alloc::Global;
use std::io::{Read, Write};
use std::test::Fail;
use swd_capture::Printed;
use swd_capture_text::{Reading, print_capture};
use swd_fakes::{FailingReader, OneByteReader, OneByteWriter, ShortWriter};
use swd_observer::TraceStart;
use swd_text::{DecodeFault, TextFault};

const LISTING: &[u8] =
    b"ap c write ok 00000001\nap c write ok 00000002\ndp c read none 7\njunk 0\n";

const TOLD: &[u8] = b"@0 w 00000000 00000001\n@46 w 00000000 00000002 may\n@104 gap\n";

// Writes the lines of what a trace tells, of a target that begins so.
fn observe<R: Read, W: Write>(
    reader: &mut R,
    writer: &mut W,
    start: TraceStart,
) -> Result<(), DecodeFault> {
    print_capture(Reading::Trace, Printed::Accesses { start }, reader, writer)
}

#[test]
fn byte_by_byte(rt: HostRuntime) -> Result<(), Fail> {
    let trace = trace_of(rt.alloc(), LISTING)?;
    let mut reader = OneByteReader::new(trace.as_slice());
    let mut writer = OneByteWriter::new(rt.alloc());
    let answer = observe(&mut reader, &mut writer, TraceStart::Made);
    expect_eq_at(&rt, &"answer", &answer, &Ok(()));
    expect_eq_at(&rt, &"told", &writer.taken.as_slice(), &TOLD);
    Ok(())
}

// What is written before a read fails begins what the whole text tells.
#[test]
fn a_read_that_fails(rt: HostRuntime) -> Result<(), Fail> {
    let trace = trace_of(rt.alloc(), LISTING)?;
    for place in 0..trace.len() {
        let mut reader = FailingReader::new(trace.as_slice(), place);
        let mut lines = Vec::new(rt.alloc());
        let answer = observe(&mut reader, &mut lines, TraceStart::Made);
        expect_eq_at(&rt, &place, &answer, &Err(DecodeFault::Read));
        expect_eq_at(&rt, &place, &TOLD.starts_with(lines.as_slice()), &true);
    }
    Ok(())
}

#[test]
fn a_write_that_fails(rt: HostRuntime) -> Result<(), Fail> {
    let trace = trace_of(rt.alloc(), LISTING)?;
    for room in 0..TOLD.len() {
        for fails in [false, true] {
            let mut reader = trace.as_slice();
            let mut writer = ShortWriter::new(rt.alloc(), room, fails);
            let answer = observe(&mut reader, &mut writer, TraceStart::Made);
            let written = room as u64;
            expect_eq_at(&rt, &room, &answer, &Err(DecodeFault::Write { written }));
            expect_eq_at(&rt, &room, &TOLD.starts_with(writer.taken()), &true);
            expect_eq_at(&rt, &room, &writer.taken().len(), &room);
        }
    }
    Ok(())
}

// What is told before a byte that no trace text has.
fn told_before(alloc: Global, listing: &[u8]) -> Result<(Vec<u8>, u64), Fail> {
    let mut trace = trace_of(alloc, listing)?;
    let place = trace.len() as u64;
    trace.push(b'x')?;
    Ok((trace, place))
}

#[test]
fn a_bad_character(rt: HostRuntime) -> Result<(), Fail> {
    let (trace, place) = told_before(rt.alloc(), LISTING)?;
    let mut reader = trace.as_slice();
    let mut lines = Vec::new(rt.alloc());
    let answer = observe(&mut reader, &mut lines, TraceStart::Made);
    let fault = DecodeFault::Text(TextFault::BadChar { place });
    expect_eq_at(&rt, &"answer", &answer, &Err(fault));
    expect_eq_at(&rt, &"told", &lines.as_slice(), &TOLD);
    Ok(())
}
