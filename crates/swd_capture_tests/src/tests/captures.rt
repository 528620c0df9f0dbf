//! What is printed of captures that begin in mid-session, lose bits or have data phases behind WAIT and FAULT.
use super::expect::expect_eq_at;
use super::{BOTH, LINES, NAMES, PLACES, trace_of};
use std::alloc::Global;
use std::test::Fail;
use swd_capture::Printed;
use swd_capture_text::{Reading, print_capture};
use swd_fakes::{FailingReader, OneByteReader, ShortWriter};
use swd_observer::TraceStart;
use swd_text::{DecodeFault, TextFault};

// A listing's bits, or bits as they are.
enum Piece {
    Items(&'static [u8]),
    Bits(&'static [u8]),
}

// A capture, whether data phases follow WAIT and FAULT, what is printed, and the text.
struct Row {
    name: &'static str,
    pieces: &'static [Piece],
    over: bool,
    printed: Printed,
    text: &'static [u8],
}

const ACCESSES: Printed = Printed::Accesses {
    start: TraceStart::Any,
};

const MADE: Printed = Printed::Accesses {
    start: TraceStart::Made,
};

// The last bits of a transaction, a stretch, and what is cut off.
const CUT_START: &[Piece] = &[
    Piece::Bits(b"00000000000011110100000000"),
    Piece::Items(
        b"dp 8 write ok 00000000\nap 0 write ok 23000052\nidle 8\nap 4 write ok 20000000\nap c read ok deadbeef\n\
            idle 3\n",
    ),
];

// A byte of ones and a zero begins no transaction. SELECT is written before it.
const TWO_LOSSES: &[Piece] = &[
    Piece::Items(b"dp 8 write ok 00000000\ndp 4 read ok 00000000\n"),
    Piece::Bits(b"11111110"),
    Piece::Items(b"dp 4 read ok 00000000\ndp 8 write ok 00000000\n"),
    Piece::Bits(b"11111110"),
    Piece::Items(b"dp 4 read ok 00000000\ndp 8 write ok 000000f0\nap c read ok 00000000\n"),
];

const TWO_LOSSES_PLACED: &[u8] =
    b"@0 dp select write ok 00000000\n@46 dp ctrl/stat read ok 00000000\n@92 skip 8\n\
    @100 dp 4 read ok 00000000\n@146 dp select write ok 00000000\n@192 skip 8\n\
    @200 dp 4 read ok 00000000\n@246 dp select write ok 000000f0\n@292 ap bank f idr read ok 00000000\n";

// A write is confirmed, and another is in flight where bits are lost.
const LOST_WRITE: &[Piece] = &[
    Piece::Items(
        b"dp 8 write ok 00000000\nap 0 write ok 23000012\nap 4 write ok 20000000\nap c write ok deadbeef\n\
            dp c read ok 00000000\nap c write ok 00000001\n",
    ),
    Piece::Bits(b"11111110"),
    Piece::Items(
        b"dp 8 write ok 00000000\nap 0 write ok 23000012\nap 4 write ok 20000100\nap c write ok 00000002\n\
            dp c read ok 00000000\n",
    ),
];

// The host sends 33 bits behind WAIT.
const PHASE: &[Piece] = &[
    Piece::Items(
        b"dp 8 write ok 00000000\nap 0 write ok 23000012\nap 4 write ok 20000000\nap c write wait\n",
    ),
    Piece::Bits(b"111111111111111111111111111111111"),
    Piece::Items(b"ap c write ok deadbeef\ndp c read ok 00000000\n"),
];

const LOST_END: &[Piece] = &[
    Piece::Items(b"ap c write ok 00000001\ndp c read ok 00000000\n"),
    Piece::Bits(b"11111110"),
];

const ROWS: &[Row] = &[
    Row {
        name: "nothing, as lines",
        pieces: &[],
        over: false,
        printed: LINES,
        text: b"",
    },
    Row {
        name: "nothing, counted",
        pieces: &[],
        over: false,
        printed: Printed::Counts,
        text: b"",
    },
    Row {
        name: "a capture from the middle of a transaction on",
        pieces: CUT_START,
        over: false,
        printed: LINES,
        text: b"skip 26\ndp 8 write ok 00000000\nap 0 write ok 23000052\nidle 8\nap 4 write ok 20000000\n\
            ap c read ok deadbeef\nidle 3\n",
    },
    Row {
        name: "the same, placed",
        pieces: CUT_START,
        over: false,
        printed: PLACES,
        text: b"@0 skip 26\n@26 dp 8 write ok 00000000\n@72 ap 0 write ok 23000052\n@118 idle 8\n\
            @126 ap 4 write ok 20000000\n@172 ap c read ok deadbeef\n@218 idle 3\n",
    },
    Row {
        name: "the same, named",
        pieces: CUT_START,
        over: false,
        printed: NAMES,
        text: b"skip 26\ndp select write ok 00000000\nap csw write ok 23000052 device_en\nidle 8\n\
            ap tar write ok 20000000\nap drw read ok deadbeef\nidle 3\n",
    },
    Row {
        name: "the same, counted",
        pieces: CUT_START,
        over: false,
        printed: Printed::Counts,
        text: b"1 dp 8 write ok\n1 ap 0 write ok\n1 ap 4 write ok\n1 ap c read ok\n11 idle\n26 skip\n",
    },
    Row {
        name: "the same, its accesses",
        pieces: CUT_START,
        over: false,
        printed: ACCESSES,
        text: b"@0 gap\n@172 r 20000000 ???????? may\n",
    },
    Row {
        name: "behind each skip SELECT is unknown",
        pieces: TWO_LOSSES,
        over: false,
        printed: BOTH,
        text: TWO_LOSSES_PLACED,
    },
    Row {
        name: "the bits of all skips are counted",
        pieces: TWO_LOSSES,
        over: false,
        printed: Printed::Counts,
        text: b"3 dp 4 read ok\n3 dp 8 write ok\n1 ap c read ok\n16 skip\n",
    },
    Row {
        name: "a skip takes the transaction before it, and behind it nothing is known",
        pieces: LOST_WRITE,
        over: false,
        printed: ACCESSES,
        text: b"@138 w 20000000 deadbeef\n@230 gap\n@422 w 20000100 00000002\n",
    },
    Row {
        name: "a skip at the end takes what would confirm a write",
        pieces: LOST_END,
        over: false,
        printed: MADE,
        text: b"@0 w 00000000 00000001 may\n@46 gap\n",
    },
    Row {
        name: "places behind a data phase",
        pieces: PHASE,
        over: true,
        printed: PLACES,
        text: b"@0 dp 8 write ok 00000000\n@46 ap 0 write ok 23000012\n@92 ap 4 write ok 20000000\n\
            @138 ap c write wait\n@184 ap c write ok deadbeef\n@230 dp c read ok 00000000\n",
    },
    Row {
        name: "a data phase that isn't known of is skipped",
        pieces: PHASE,
        over: false,
        printed: PLACES,
        text: b"@0 dp 8 write ok 00000000\n@46 ap 0 write ok 23000012\n@92 ap 4 write ok 20000000\n\
            @138 ap c write wait\n@151 skip 33\n@184 ap c write ok deadbeef\n@230 dp c read ok 00000000\n",
    },
    Row {
        name: "an access behind a data phase",
        pieces: PHASE,
        over: true,
        printed: ACCESSES,
        text: b"@184 w 20000000 deadbeef\n",
    },
    Row {
        name: "an access behind a data phase that isn't known of",
        pieces: PHASE,
        over: false,
        printed: ACCESSES,
        text: b"@138 gap\n@184 w ???????? ???????? may\n",
    },
    Row {
        name: "a data phase is counted in no row",
        pieces: PHASE,
        over: true,
        printed: Printed::Counts,
        text: b"1 dp 8 write ok\n1 dp c read ok\n1 ap 0 write ok\n1 ap 4 write ok\n1 ap c write ok\n\
            1 ap c write wait\n",
    },
];

// The text of a capture.
fn capture_of(alloc: Global, pieces: &[Piece]) -> Result<Vec<u8>, Fail> {
    let mut text = Vec::new(alloc);
    for piece in pieces {
        match piece {
            Piece::Items(listing) => {
                text.extend_from_slice(trace_of(alloc, listing)?.as_slice())?
            }
            Piece::Bits(bits) => text.extend_from_slice(bits)?,
        }
    }
    Ok(text)
}

// How a row's bits are read.
fn reading_of(row: &Row) -> Reading {
    Reading::Capture { over: row.over }
}

#[test]
fn each_capture(rt: HostRuntime) -> Result<(), Fail> {
    for row in ROWS {
        let capture = capture_of(rt.alloc(), row.pieces)?;
        let mut whole = capture.as_slice();
        let mut out = Vec::new(rt.alloc());
        let answer = print_capture(reading_of(row), row.printed, &mut whole, &mut out);
        expect_eq_at(&rt, &row.name, &answer, &Ok(()));
        expect_eq_at(&rt, &row.name, &out.as_slice(), &row.text);
        // A byte at a read.
        let mut bytes = OneByteReader::new(capture.as_slice());
        let mut out = Vec::new(rt.alloc());
        let answer = print_capture(reading_of(row), row.printed, &mut bytes, &mut out);
        expect_eq_at(&rt, &row.name, &answer, &Ok(()));
        expect_eq_at(&rt, &row.name, &out.as_slice(), &row.text);
    }
    Ok(())
}

// A writer that fails, once at each byte, has taken exactly the bytes before it.
#[test]
fn each_write_that_fails_in_a_capture(rt: HostRuntime) -> Result<(), Fail> {
    for row in ROWS {
        let capture = capture_of(rt.alloc(), row.pieces)?;
        for room in 0..row.text.len() {
            let mut whole = capture.as_slice();
            let mut writer = ShortWriter::new(rt.alloc(), room, true);
            let answer = print_capture(reading_of(row), row.printed, &mut whole, &mut writer);
            let fault = DecodeFault::Write {
                written: room as u64,
            };
            expect_eq_at(&rt, &row.name, &answer, &Err(fault));
            expect_eq_at(&rt, &row.name, &writer.taken(), &&row.text[..room]);
        }
    }
    Ok(())
}

// What is written before a read fails begins what the whole capture tells.
#[test]
fn each_read_that_fails_in_a_capture(rt: HostRuntime) -> Result<(), Fail> {
    for row in ROWS {
        let capture = capture_of(rt.alloc(), row.pieces)?;
        for place in 0..capture.len() {
            let mut reader = FailingReader::new(capture.as_slice(), place);
            let mut out = Vec::new(rt.alloc());
            let answer = print_capture(reading_of(row), row.printed, &mut reader, &mut out);
            expect_eq_at(&rt, &row.name, &answer, &Err(DecodeFault::Read));
            let begins = row.printed == Printed::Counts || row.text.starts_with(out.as_slice());
            expect_eq_at(&rt, &row.name, &begins, &true);
        }
    }
    Ok(())
}

// At a fault all parts have been told but the last: what follows it might not be read.
#[test]
fn what_is_decided_before_a_fault(rt: HostRuntime) -> Result<(), Fail> {
    let mut capture = capture_of(rt.alloc(), TWO_LOSSES)?;
    let place = capture.len();
    let last = b"@292 ap bank f idr read ok 00000000\n";
    let told = &TWO_LOSSES_PLACED[..TWO_LOSSES_PLACED.len() - last.len()];
    let reading = Reading::Capture { over: false };
    let mut reader = FailingReader::new(capture.as_slice(), place);
    let mut out = Vec::new(rt.alloc());
    let answer = print_capture(reading, BOTH, &mut reader, &mut out);
    expect_eq_at(&rt, &"a failing read", &answer, &Err(DecodeFault::Read));
    expect_eq_at(&rt, &"a failing read", &out.as_slice(), &told);
    capture.push(b'x')?;
    let mut whole = capture.as_slice();
    let mut out = Vec::new(rt.alloc());
    let answer = print_capture(reading, BOTH, &mut whole, &mut out);
    let fault = DecodeFault::Text(TextFault::BadChar {
        place: place as u64,
    });
    expect_eq_at(&rt, &"a bad character", &answer, &Err(fault));
    expect_eq_at(&rt, &"a bad character", &out.as_slice(), &told);
    Ok(())
}
