//! The reports of the calls of loads, verifications and dumps.
use super::expect::{expect_at, expect_eq_at};
use super::{BASE, WORDS, limits, target_of};
use linked_list_allocator::LocalHeap;
use std::alloc::Allocator;
use std::io::Write;
use std::test::Fail;
use swd_fakes::ShortWriter;
use swd_host::End;
use swd_image::{ByteDifference, ImageFault, dump, load, verify};
use swd_port::{Due, Mark, Wire};

// A load, what it ends with, and the report of its calls.
#[derive(Clone, Copy)]
struct Row {
    name: &'static str,
    addr: u32,
    bytes: &'static [u8],
    marks: &'static [(usize, Mark)],
    resumes: u32,
    end: Result<(), ImageFault>,
    text: &'static [u8],
}

const WHOLE: &[u8] = b"\xa0\xa1\xa2\xa3\xa4\xa5\xa6\xa7";

// A word between a byte of each of its neighbours: two reads, a call for each, and a call of three writes.
const EDGES_TEXT: &[u8] = b"r 20000000 44332211\nend all 1\nr 20000008 ccbbaa99\nend all 1\n\
    w 20000000 written\nw 20000004 written\nw 20000008 written\nend all 3\n";

const EDGES: Row = Row {
    name: "a word between a byte of each of its neighbours",
    addr: BASE + 3,
    bytes: b"\xa0\xa1\xa2\xa3\xa4\xa5",
    marks: &[],
    resumes: 0,
    end: Ok(()),
    text: EDGES_TEXT,
};

// The opening takes nine requests, TAR one, and the first access is the eleventh.
const ROWS: &[Row] = &[
    EDGES,
    Row {
        name: "no byte",
        addr: BASE + 1,
        bytes: b"",
        text: b"",
        ..EDGES
    },
    Row {
        name: "past the last address",
        addr: 0xffff_fff9,
        bytes: WHOLE,
        end: Err(ImageFault::Range),
        text: b"",
        ..EDGES
    },
    Row {
        name: "two words",
        addr: BASE + 4,
        bytes: WHOLE,
        text: b"w 20000004 written\nw 20000008 written\nend all 2\n",
        ..EDGES
    },
    Row {
        name: "a word and a byte",
        addr: BASE,
        bytes: b"\xa0\xa1\xa2\xa3\xa4",
        text: b"r 20000004 88776655\nend all 1\nw 20000000 written\nw 20000004 written\nend all 2\n",
        ..EDGES
    },
    Row {
        name: "past the memory",
        addr: BASE + 8,
        bytes: WHOLE,
        end: Err(ImageFault::BusFault(BASE + 12)),
        text: b"w 20000008 written\nw 2000000c busfault\nend all 2\n",
        ..EDGES
    },
    Row {
        name: "before the memory: no write follows the read",
        addr: BASE - 2,
        bytes: WHOLE,
        end: Err(ImageFault::BusFault(BASE - 4)),
        text: b"r 1ffffffc busfault\nend all 1\n",
        ..EDGES
    },
    Row {
        name: "the acknowledgement of the first write is lost",
        addr: BASE + 4,
        bytes: WHOLE,
        marks: &[(11, Mark::Mute(0))],
        end: Err(ImageFault::Stopped(End::Lost)),
        text: b"end lost 0 begun 1\n",
        ..EDGES
    },
    Row {
        name: "the same, resumed",
        addr: BASE + 4,
        bytes: WHOLE,
        marks: &[(11, Mark::Mute(0))],
        resumes: 1,
        text: b"resume 0 begun 1\nw 20000004 written\nw 20000008 written\nend all 2\n",
        ..EDGES
    },
];

// A load with a report, where nothing is due.
fn load_of<W: Wire, O: Write, A: Allocator + Copy>(
    alloc: A,
    wire: &mut W,
    row: &Row,
    report: &mut Option<O>,
) -> Option<Result<(), ImageFault>> {
    match wire.due() {
        Due::Nothing => Some(load(
            alloc,
            wire,
            row.addr,
            row.bytes,
            limits(row.resumes),
            report,
        )),
        _ => None,
    }
}

// What was written, if there is a writer.
fn text_of(report: &Option<Vec<u8>>) -> &[u8] {
    match report {
        Some(text) => text.as_slice(),
        None => b"",
    }
}

#[test]
fn a_load_of_each_shape_and_end(rt: HostRuntime) -> Result<(), Fail> {
    for row in ROWS {
        let target = target_of(rt.alloc(), BASE, &WORDS, 64, row.marks)?;
        let mut bench = target.expect(&rt, "a target");
        let mut report = Some(Vec::new(rt.alloc()));
        let done = load_of(rt.alloc(), &mut bench, row, &mut report);
        expect_eq_at(&rt, &row.name, &done, &Some(row.end));
        expect_eq_at(&rt, &row.name, &text_of(&report), &row.text);
        let target = target_of(rt.alloc(), BASE, &WORDS, 64, row.marks)?;
        let mut bench = target.expect(&rt, "a target");
        let mut none: Option<Vec<u8>> = None;
        let done = load_of(rt.alloc(), &mut bench, row, &mut none);
        expect_eq_at(&rt, &row.name, &done, &Some(row.end));
    }
    Ok(())
}

// The writer takes the first bytes alone, and the call goes on to its end. No call is made after it: a read takes one
// transfer, and the writes three.
#[test]
fn a_writer_that_fails_at_each_byte(rt: HostRuntime) -> Result<(), Fail> {
    let first = b"r 20000000 44332211\nend all 1\n".len();
    for room in 0..EDGES.text.len() {
        for fails in [true, false] {
            let target = target_of(rt.alloc(), BASE, &WORDS, 64, &[])?;
            let mut bench = target.expect(&rt, "a target");
            let mut report = Some(ShortWriter::new(rt.alloc(), room, fails));
            let done = load_of(rt.alloc(), &mut bench, &EDGES, &mut report);
            expect_eq_at(&rt, &room, &done, &Some(Err(ImageFault::Report)));
            let writer = report.expect(&rt, "its writer");
            let taken = EDGES.text.get(..room).unwrap_or(b"");
            expect_eq_at(&rt, &room, &writer.taken(), &taken);
            let transfers = bench.memory().log().len().saturating_sub(3);
            let made = if room < first {
                1
            } else if room < first * 2 {
                2
            } else {
                5
            };
            expect_eq_at(&rt, &room, &transfers, &made);
        }
    }
    Ok(())
}

const PARTS: &[&[u8]] = &[
    b"",
    b"r 20000000 44332211\nend all 1\n",
    b"r 20000000 44332211\nend all 1\nr 20000008 ccbbaa99\nend all 1\n",
    EDGES_TEXT,
];

// The report has the calls before memory ran out, each whole.
#[test]
fn memory_ends_at_each_place(rt: HostRuntime) -> Result<(), Fail> {
    let mut refused = false;
    let mut done = false;
    for size in 1..200usize {
        let heap = LocalHeap::new(rt.alloc(), size * 16)?;
        let target = target_of(rt.alloc(), BASE, &WORDS, 64, &[])?;
        let mut bench = target.expect(&rt, "a target");
        let mut report = Some(Vec::new(rt.alloc()));
        match load_of(&heap, &mut bench, &EDGES, &mut report) {
            Some(Ok(())) => {
                expect_eq_at(&rt, &size, &text_of(&report), &EDGES.text);
                done = true;
            }
            other => {
                expect_eq_at(&rt, &size, &other, &Some(Err(ImageFault::Memory)));
                let text = text_of(&report);
                expect_at(&rt, &size, PARTS.iter().any(|part| *part == text));
                refused = true;
            }
        }
        expect_eq_at(&rt, &size, &heap.used(), &0);
    }
    expect_eq_at(&rt, &"refused and done", &(refused, done), &(true, true));
    Ok(())
}

const THREE_READS: &[u8] =
    b"r 20000000 44332211\nr 20000004 88776655\nr 20000008 ccbbaa99\nend all 3\n";

// Six bytes of three words: a block of three reads.
#[test]
fn a_dump_and_a_verification(rt: HostRuntime) -> Result<(), Fail> {
    let target = target_of(rt.alloc(), BASE, &WORDS, 64, &[])?;
    let mut bench = target.expect(&rt, "a target");
    if let Due::Nothing = bench.due() {
        let mut report = Some(Vec::new(rt.alloc()));
        let bytes = dump(rt.alloc(), &mut bench, BASE + 3, 6, limits(0), &mut report)?;
        let found = b"\x44\x55\x66\x77\x88\x99".as_slice();
        expect_eq_at(&rt, &"dump", &bytes.as_slice(), &found);
        expect_eq_at(&rt, &"dump", &text_of(&report), &THREE_READS);
    }
    if let Due::Nothing = bench.due() {
        let mut report = Some(Vec::new(rt.alloc()));
        let bytes = b"\x44\x55\x66\x77\x88\x9a".as_slice();
        let found = verify(
            rt.alloc(),
            &mut bench,
            BASE + 3,
            bytes,
            limits(0),
            &mut report,
        )?;
        let difference = ByteDifference {
            addr: BASE + 8,
            found: 0x99,
            expected: 0x9a,
        };
        expect_eq_at(&rt, &"verify", &found, &Some(difference));
        expect_eq_at(&rt, &"verify", &text_of(&report), &THREE_READS);
        let mut short = Some(ShortWriter::new(rt.alloc(), 7, true));
        let found = verify(
            rt.alloc(),
            &mut bench,
            BASE + 3,
            bytes,
            limits(0),
            &mut short,
        );
        expect_eq_at(
            &rt,
            &"a writer that fails",
            &found,
            &Err(ImageFault::Report),
        );
    }
    Ok(())
}
