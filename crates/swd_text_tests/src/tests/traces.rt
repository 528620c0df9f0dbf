//! The engines on worked texts, with failing readers and writers, and with memory refused.
use super::expect::{expect_eq, expect_eq_at};
use linked_list_allocator::LocalHeap;
use std::alloc::Global;
use std::cell::Cell;
use std::io::Read;
use std::process::Abort;
use std::test::Fail;
use swd_bits::{OneFault, one_text};
use swd_fakes::{CountingWriter, FailingReader, ShortWriter, WatchingReader};
use swd_text::{DecodeFault, EncodeFault, TextFault, decode_text, encode_text};
use swd_trace::ListFault;

// Forty-nine ones and a zero; fifty ones and a zero; a line reset, the switch, and a line reset again.
const FORTY_NINE: &[u8] = b"11111111111111111111111111111111111111111111111110";

const FIFTY: &[u8] = b"111111111111111111111111111111111111111111111111110";

const BRING_UP: &[u8] = b"11111111111111111111111111111111111111111111111111111111\
    0111100111100111\
    11111111111111111111111111111111111111111111111111111111\
    00";

pub(super) const DPIDR_READ: &[u8] = b"10100101 1 100 11101110001010000000010111010100 0 1";

pub(super) const DPIDR_LINE: &[u8] = b"dp 0 read ok 2ba01477\n";

// Traces with their listings. One at fault is listed up to its bad character.
const DECODED: &[(&str, &[u8], &[u8], Option<TextFault>)] = &[
    ("nothing", b"", b"", None),
    ("a read of DPIDR", DPIDR_READ, DPIDR_LINE, None),
    (
        "ones that cut off a switch",
        b"11111111111111111111111111111111111111111111111111 0111",
        b"reset 50\nidle 1\ncut 111\n",
        None,
    ),
    (
        "a read that is cut off",
        b"10100101 1 100 11101110001010000000010111010100 0",
        b"cut 101001011100111011100010100000000101110101000\n",
        None,
    ),
    (
        "a read with wrong parity",
        b"10100101 1 100 01101110001010000000010111010100 0 1",
        b"dp 0 read bad 2ba01476\n",
        None,
    ),
    (
        "a read that isn't acknowledged",
        b"10100101 1 111 000",
        b"dp 0 read none 7\njunk 0\njunk 0\njunk 0\n",
        None,
    ),
    (
        "a bring-up",
        b"11111111111111111111111111111111111111111111111111111111 0111100111100111\n\
          11111111111111111111111111111111111111111111111111111111 00 # up",
        b"reset 56\nswitch\nreset 56\nidle 2\n",
        None,
    ),
    (
        "WAIT, and FAULT",
        b"10100101 1 010 1 10000001 1 001 1 00",
        b"dp 0 read wait\ndp 0 write fault\nidle 2\n",
        None,
    ),
    // Long enough that digits are taken many at once, up to a comment of digits and after it.
    (
        "many digits at once",
        b"1010010111001110111000101000000001011101010001\
          1010010111001110111000101000000001011101010001#\
          1111111111111111111111111111111111111111111111111111111111111111\n\
          0000000000000000000000000000000000000000000000000000000000000000\
          000000101001011100",
        b"dp 0 read ok 2ba01477\ndp 0 read ok 2ba01477\nidle 70\ncut 101001011100\n",
        None,
    ),
    // Each list of four bits, after a transaction that isn't acknowledged, up to a line reset.
    (
        "each list of four bits after a transaction that isn't acknowledged",
        b"101001011111\
          0000100001001100001010100110111000011001010111010011101101111111\
          0\
          11111111111111111111111111111111111111111111111111\
          0",
        b"dp 0 read none 7\n\
          junk 0\njunk 0\njunk 0\njunk 0\n\
          junk 1\njunk 0\njunk 0\njunk 0\n\
          junk 0\njunk 1\njunk 0\njunk 0\n\
          junk 1\njunk 1\njunk 0\njunk 0\n\
          junk 0\njunk 0\njunk 1\njunk 0\n\
          junk 1\njunk 0\njunk 1\njunk 0\n\
          junk 0\njunk 1\njunk 1\njunk 0\n\
          junk 1\njunk 1\njunk 1\njunk 0\n\
          junk 0\njunk 0\njunk 0\njunk 1\n\
          junk 1\njunk 0\njunk 0\njunk 1\n\
          junk 0\njunk 1\njunk 0\njunk 1\n\
          junk 1\njunk 1\njunk 0\njunk 1\n\
          junk 0\njunk 0\njunk 1\njunk 1\n\
          junk 1\njunk 0\njunk 1\njunk 1\n\
          junk 0\njunk 1\njunk 1\njunk 1\n\
          junk 1\njunk 1\njunk 1\njunk 1\n\
          junk 0\nreset 50\nidle 1\n",
        None,
    ),
    (
        "forty-nine ones and a zero",
        FORTY_NINE,
        b"junk 1\njunk 1\njunk 1\njunk 1\njunk 1\njunk 1\njunk 1\n\
          junk 1\njunk 1\njunk 1\njunk 1\njunk 1\njunk 1\njunk 1\n\
          junk 1\njunk 1\njunk 1\njunk 1\njunk 1\njunk 1\njunk 1\n\
          junk 1\njunk 1\njunk 1\njunk 1\njunk 1\njunk 1\njunk 1\n\
          junk 1\njunk 1\njunk 1\njunk 1\njunk 1\njunk 1\njunk 1\n\
          junk 1\njunk 1\njunk 1\njunk 1\njunk 1\njunk 1\njunk 1\n\
          junk 1\njunk 1\njunk 1\njunk 1\njunk 1\njunk 1\njunk 1\n\
          junk 0\n",
        None,
    ),
    ("fifty ones and a zero", FIFTY, b"reset 50\nidle 1\n", None),
    (
        "a line reset, the switch, and a line reset again",
        BRING_UP,
        b"reset 56\nswitch\nreset 56\nidle 2\n",
        None,
    ),
    (
        "a bad character after two bits",
        b"10x",
        b"",
        Some(TextFault::BadChar { place: 2 }),
    ),
    (
        "a bad character after a line reset",
        b"11111111111111111111111111111111111111111111111111 0x",
        b"reset 50\n",
        Some(TextFault::BadChar { place: 52 }),
    ),
    (
        "a bad character after a comment",
        b"# x\n2",
        b"",
        Some(TextFault::BadChar { place: 4 }),
    ),
];

// Listings with their traces. Of one at fault nothing is written.
const ENCODED: &[(&str, &[u8], &[u8], Option<ListFault>)] = &[
    (
        "idle bits, and one that is cut off",
        b"idle 2\ncut 1",
        b"00\n1\n",
        None,
    ),
    (
        "a read of DPIDR",
        DPIDR_LINE,
        b"1010010111001110111000101000000001011101010001\n",
        None,
    ),
    (
        "a write of ABORT",
        b"dp 0 write ok 0000001e\n",
        b"1000000111001011110000000000000000000000000000\n",
        None,
    ),
    (
        "a line after a cut",
        b"cut 1\nidle 1\n",
        b"",
        Some(ListFault::NotNormal { line: 1 }),
    ),
    (
        "idle bits directly after no acknowledgement",
        b"dp 0 read none 7\nidle 1\n",
        b"",
        Some(ListFault::NotNormal { line: 2 }),
    ),
    (
        "idle bits directly after a switch",
        b"reset 50\nswitch\nidle 1\n",
        b"",
        Some(ListFault::NotNormal { line: 3 }),
    ),
    (
        "a number that begins with zero",
        b"idle 01\n",
        b"",
        Some(ListFault::BadLine { line: 1 }),
    ),
    (
        "an empty line",
        b"idle 1\n\n",
        b"",
        Some(ListFault::BadLine { line: 2 }),
    ),
];

// A text in two pieces, each of which a read gives whole.
fn listed_in_two(
    alloc: Global,
    text: &[u8],
    cut: usize,
) -> Result<(Result<(), DecodeFault>, Vec<u8>), Fail> {
    let (first, second) = text.split_at_checked(cut).ok_or("cut")?;
    let mut reader = first.chain(second);
    let mut out = Vec::new(alloc);
    let answer = decode_text(&mut reader, &mut out);
    Ok((answer, out))
}

// However the trace is cut, this is answered, and this is its listing.
fn is_listed<R: Abort>(
    rt: &R,
    alloc: Global,
    name: &str,
    trace: &[u8],
    wanted: &Result<(), DecodeFault>,
    listing: &[u8],
) -> Result<(), Fail> {
    for cut in 0..=trace.len() {
        let (answer, out) = listed_in_two(alloc, trace, cut)?;
        expect_eq_at(rt, &(name, cut), &answer, wanted);
        expect_eq_at(rt, &(name, cut), &out.as_slice(), &listing);
    }
    Ok(())
}

#[test]
fn a_trace_is_listed_however_it_is_cut(rt: HostRuntime) -> Result<(), Fail> {
    for (name, trace, listing, fault) in DECODED {
        let wanted = match fault {
            Some(fault) => Err(DecodeFault::Text(*fault)),
            None => Ok(()),
        };
        is_listed(&rt, rt.alloc(), name, trace, &wanted, listing)?;
        // The listing's own trace is listed so again.
        let mut reader = *listing;
        let mut again = Vec::new(rt.alloc());
        let answer = encode_text(rt.alloc(), &mut reader, &mut again);
        expect_eq_at(&rt, name, &answer, &Ok(()));
        let (answer, out) = listed_in_two(rt.alloc(), again.as_slice(), 0)?;
        expect_eq_at(&rt, name, &answer, &Ok(()));
        expect_eq_at(&rt, name, &out.as_slice(), listing);
    }
    Ok(())
}

#[test]
fn a_listing_has_its_trace_or_its_fault(rt: HostRuntime) {
    for (name, listing, trace, fault) in ENCODED {
        let wanted = match fault {
            Some(fault) => Err(EncodeFault::List(*fault)),
            None => Ok(()),
        };
        let mut reader = *listing;
        let mut out = Vec::new(rt.alloc());
        let answer = encode_text(rt.alloc(), &mut reader, &mut out);
        expect_eq_at(&rt, name, &answer, &wanted);
        expect_eq_at(&rt, name, &out.as_slice(), trace);
    }
}

#[test]
fn one_transaction_at_each_read_that_fails(rt: HostRuntime) {
    for i in 0..=DPIDR_READ.len() {
        let mut reader = FailingReader::new(DPIDR_READ, i);
        let mut out = Vec::new(rt.alloc());
        expect_eq_at(
            &rt,
            &i,
            &one_text(&mut reader, &mut out),
            &Err(OneFault::Read),
        );
        assert!(rt; out.is_empty());
    }
    let mut reader = FailingReader::new(b"x", 1);
    let mut out = Vec::new(rt.alloc());
    expect_eq(
        &rt,
        &one_text(&mut reader, &mut out),
        &Err(OneFault::BadChar { place: 0 }),
    );
}

#[test]
fn one_transaction_at_each_write_that_fails(rt: HostRuntime) {
    for fails in [false, true] {
        for room in 0..DPIDR_LINE.len() {
            let mut writer = ShortWriter::new(rt.alloc(), room, fails);
            let mut reader = DPIDR_READ;
            let answer = one_text(&mut reader, &mut writer);
            expect_eq_at(&rt, &room, &answer, &Err(OneFault::Write));
            expect_eq(&rt, &writer.taken(), &&DPIDR_LINE[..room]);
        }
    }
}

// A reset, a zero that ends it, and the beginning of a request.
const RESET: &[u8] = b"111111111111111111111111111111111111111111111111110101";

#[test]
fn decoding_at_each_read_that_fails(rt: HostRuntime) {
    for i in 0..=RESET.len() {
        let mut reader = FailingReader::new(RESET, i);
        let mut out = Vec::new(rt.alloc());
        expect_eq_at(
            &rt,
            &i,
            &decode_text(&mut reader, &mut out),
            &Err(DecodeFault::Read),
        );
        // The zero ends the reset. Directly after it 01 may go on as a switch, and 010 not.
        let lines = match i {
            0..=50 => b"".as_slice(),
            51 | 52 => b"reset 50\n".as_slice(),
            _ => b"reset 50\nidle 1\n".as_slice(),
        };
        expect_eq_at(&rt, &i, &out.as_slice(), &lines);
    }
}

#[test]
fn encoding_at_each_read_that_fails(rt: HostRuntime) {
    let listing = b"reset 50\nidle 2\n";
    for i in 0..=listing.len() {
        let mut reader = FailingReader::new(listing, i);
        let mut out = Vec::new(rt.alloc());
        let answer = encode_text(rt.alloc(), &mut reader, &mut out);
        expect_eq_at(&rt, &i, &answer, &Err(EncodeFault::List(ListFault::Read)));
        assert!(rt; out.is_empty());
    }
}

#[test]
fn decoding_at_each_write_that_fails(rt: HostRuntime) {
    let lines = b"reset 50\nidle 1\ncut 101\n";
    for fails in [false, true] {
        for room in 0..lines.len() {
            let mut writer = ShortWriter::new(rt.alloc(), room, fails);
            let mut reader = RESET;
            let answer = decode_text(&mut reader, &mut writer);
            let written = room as u64;
            expect_eq(&rt, &answer, &Err(DecodeFault::Write { written }));
            expect_eq(&rt, &writer.taken(), &&lines[..room]);
        }
    }
}

// How many bytes a writer takes before it fails.
const ROOMS: &[usize] = &[0, 1, 16, 17, 18, 7000, 32767, 32768, 32769, 35016];

#[test]
fn decoding_more_than_a_block_where_a_write_fails(rt: HostRuntime) -> Result<(), Fail> {
    // More lines than a block holds.
    let mut trace = Vec::new(rt.alloc());
    trace.extend_from_slice(b"10100101 1 111 ")?;
    let mut lines = Vec::new(rt.alloc());
    lines.extend_from_slice(b"dp 0 read none 7\n")?;
    for _ in 0..5000u16 {
        trace.extend_from_slice(b"0")?;
        lines.extend_from_slice(b"junk 0\n")?;
    }
    for fails in [false, true] {
        for room in ROOMS {
            let room = *room;
            let mut writer = ShortWriter::new(rt.alloc(), room, fails);
            let mut reader = trace.as_slice();
            let answer = decode_text(&mut reader, &mut writer);
            let written = room as u64;
            expect_eq(&rt, &answer, &Err(DecodeFault::Write { written }));
            assert!(rt; room <= lines.len());
            expect_eq(&rt, &writer.taken(), &&lines.as_slice()[..room]);
        }
    }
    expect_eq(&rt, &lines.len(), &35017);
    Ok(())
}

#[test]
fn encoding_at_each_write_that_fails(rt: HostRuntime) {
    let trace = b"1111111111111111111111111111111111111111111111111111111111\n0\n\
                  1010010111001110111000101000000001011101010001\n";
    for fails in [false, true] {
        for room in 0..trace.len() {
            let mut writer = ShortWriter::new(rt.alloc(), room, fails);
            let mut reader = b"reset 58\nidle 1\ndp 0 read ok 2ba01477\n".as_slice();
            let answer = encode_text(rt.alloc(), &mut reader, &mut writer);
            let written = room as u64;
            expect_eq(&rt, &answer, &Err(EncodeFault::Write { written }));
            expect_eq(&rt, &writer.taken(), &&trace[..room]);
        }
    }
}

#[test]
fn encoding_with_memory_refused(rt: HostRuntime) -> Result<(), Fail> {
    let mut listing = Vec::new(rt.alloc());
    listing.extend_from_slice(b"reset 50\nidle 1\n")?;
    for _ in 0..40u8 {
        listing.extend_from_slice(DPIDR_LINE)?;
    }
    let mut refused = 0u32;
    let mut done = 0u32;
    for size in 1..100usize {
        let heap = LocalHeap::new(rt.alloc(), size * 64)?;
        let mut reader = listing.as_slice();
        let mut out = Vec::new(rt.alloc());
        match encode_text(&heap, &mut reader, &mut out) {
            Ok(()) => done = done.saturating_add(1),
            Err(fault) => {
                expect_eq(&rt, &fault, &EncodeFault::List(ListFault::Memory));
                assert!(rt; out.is_empty());
                refused = refused.saturating_add(1);
            }
        }
    }
    assert!(rt; refused > 3);
    assert!(rt; done > 3);
    Ok(())
}

#[test]
fn lines_go_out_before_the_next_read(rt: HostRuntime) -> Result<(), Fail> {
    // Two transactions, and how many bytes of their lines have been written before each read.
    let mut trace = Vec::new(rt.alloc());
    trace.extend_from_slice(DPIDR_READ)?;
    trace.extend_from_slice(b"\n")?;
    trace.extend_from_slice(DPIDR_READ)?;
    let taken = Cell::new(0);
    let mut reader = WatchingReader::new(rt.alloc(), trace.as_slice(), &taken);
    let mut writer = CountingWriter { taken: &taken };
    expect_eq(&rt, &decode_text(&mut reader, &mut writer), &Ok(()));
    expect_eq(&rt, &reader.noted.len(), &(trace.len() + 1));
    let first = DPIDR_READ.len();
    for (read, noted) in reader.noted.iter().enumerate() {
        let lines = if read < first {
            0
        } else if read < trace.len() {
            1
        } else {
            2
        };
        expect_eq_at(&rt, &read, &*noted, &(lines * DPIDR_LINE.len()));
    }
    Ok(())
}

#[test]
fn a_cut_past_a_piece_makes_no_difference(rt: HostRuntime) -> Result<(), Fail> {
    // Blanks up to the end of a piece, and past it, inside the transaction.
    for blanks in [4090, 65520] {
        let mut text = Vec::new(rt.alloc());
        for _ in 0..blanks {
            text.extend_from_slice(b" ")?;
        }
        text.extend_from_slice(DPIDR_READ)?;
        let mut reader = text.as_slice();
        let mut out = Vec::new(rt.alloc());
        expect_eq(&rt, &decode_text(&mut reader, &mut out), &Ok(()));
        expect_eq(&rt, &out.as_slice(), &DPIDR_LINE);
    }
    Ok(())
}
