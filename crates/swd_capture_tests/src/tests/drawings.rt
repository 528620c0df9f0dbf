//! Drawings of traces, and of captures, at ends that fail.
ghost use Rattle.std.specs.Prelude.{◌<◌, length};

use super::drawn::DPIDR_DRAWING;
use super::expect::expect_eq_at;
use std::alloc::Global;
use std::test::Fail;
use swd_capture_text::Reading;
use swd_draw::{DrawnForm, draw_capture};
use swd_fakes::{FailingReader, OneByteReader, ShortWriter};
use swd_text::{DecodeFault, TextFault};

const DPIDR: &[u8] = b"10100101 1 100 11101110001010000000010111010100 0 1 # a read of DPIDR\n";

// Returns how often a text has a piece.
fn count(text: &[u8], piece: &[u8]) -> usize
    requires { 0 < length piece.now }
{
    text.windows(piece.len())
        .filter(|part| *part == piece)
        .count()
}

const PLAIN: DrawnForm = DrawnForm {
    items: 200,
    names: false,
};

// Returns the drawing of a trace.
fn drawing_of(alloc: Global, form: DrawnForm, trace: &[u8]) -> Result<Vec<u8>, Fail> {
    let mut reader = OneByteReader::new(trace);
    let mut drawing = Vec::new(alloc);
    match draw_capture(Reading::Trace, form, &mut reader, &mut drawing) {
        Ok(()) => Ok(drawing),
        Err(_) => Err(Fail::from("no drawing")),
    }
}

// Returns a trace that repeats some bits.
fn repeated(alloc: Global, bits: &[u8], times: usize) -> Result<Vec<u8>, Fail> {
    let mut trace = Vec::new(alloc);
    for _ in 0..times {
        trace.extend_from_slice(bits)?;
    }
    Ok(trace)
}

#[test]
fn a_trace_is_drawn(rt: HostRuntime) -> Result<(), Fail> {
    let drawing = drawing_of(rt.alloc(), PLAIN, DPIDR)?;
    expect_eq_at(&rt, &"a read", &drawing.as_slice(), &DPIDR_DRAWING);
    Ok(())
}

// What is repeated, how often, the most items, the rows that are drawn, and what is said.
const LONG: &[(&[u8], usize, u32, usize, &[u8])] = &[
    (b"10", 4, 0, 0, b"Items drawn: 0. Items left out: 8."),
    (b"", 0, 0, 0, b"Items drawn: 0. The trace ends here."),
    (
        b"10",
        501,
        1100,
        1000,
        b"Items drawn: 1000. Items left out: 2.",
    ),
];

// More items than the program draws, and none.
#[test]
fn the_first_items_are_drawn(rt: HostRuntime) -> Result<(), Fail> {
    for (bits, times, items, rows, said) in LONG {
        let trace = repeated(rt.alloc(), bits, *times)?;
        let form = DrawnForm {
            items: *items,
            names: false,
        };
        let drawing = drawing_of(rt.alloc(), form, &trace)?;
        expect_eq_at(&rt, said, &count(&drawing, b"<g "), rows);
        expect_eq_at(&rt, said, &count(&drawing, said), &1);
    }
    Ok(())
}

#[test]
fn failures_are_told(rt: HostRuntime) {
    for fails_at in 0..40 {
        let mut reader = FailingReader::new(DPIDR, fails_at);
        let mut drawing = Vec::new(rt.alloc());
        let answer = draw_capture(Reading::Trace, PLAIN, &mut reader, &mut drawing);
        expect_eq_at(&rt, &fails_at, &answer, &Err(DecodeFault::Read));
        expect_eq_at(&rt, &fails_at, &drawing.len(), &0);
    }
    let mut drawing = Vec::new(rt.alloc());
    let answer = draw_capture(
        Reading::Trace,
        PLAIN,
        &mut OneByteReader::new(b"1010x"),
        &mut drawing,
    );
    let bad = DecodeFault::Text(TextFault::BadChar { place: 4 });
    expect_eq_at(&rt, &"a bad character", &answer, &Err(bad));
    expect_eq_at(&rt, &"a bad character", &drawing.len(), &0);
    for room in 0..DPIDR_DRAWING.len() {
        for fails in [false, true] {
            let mut writer = ShortWriter::new(rt.alloc(), room, fails);
            let mut reader = OneByteReader::new(DPIDR);
            let answer = draw_capture(Reading::Trace, PLAIN, &mut reader, &mut writer);
            let written = room as u64;
            expect_eq_at(&rt, &room, &answer, &Err(DecodeFault::Write { written }));
            expect_eq_at(&rt, &room, &writer.taken(), &&DPIDR_DRAWING[..room]);
        }
    }
}
