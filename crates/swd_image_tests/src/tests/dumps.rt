//! Ranges of each shape that are read, and images that are verified.
use super::expect::{expect_at, expect_eq_at};
use super::{BASE, WORDS, dump_at, target_of, verify_at};
use std::test::Fail;
use swd_host::End;
use swd_image::{ByteDifference, ImageFault};
use swd_port::Mark;

// What a dump gives, and how many transfers it makes: one for each word.
#[derive(Clone, Copy)]
struct Row {
    name: &'static str,
    base: u32,
    addr: u32,
    count: u64,
    marks: &'static [(usize, Mark)],
    resumes: u32,
    end: Result<&'static [u8], ImageFault>,
    transfers: usize,
}

const DUMP: Row = Row {
    name: "no byte",
    base: BASE,
    addr: BASE + 1,
    count: 0,
    marks: &[],
    resumes: 0,
    end: Ok(b""),
    transfers: 0,
};

const ROWS: &[Row] = &[
    DUMP,
    Row {
        name: "a byte in the middle of a word",
        addr: BASE + 6,
        count: 1,
        end: Ok(b"\x77"),
        transfers: 1,
        ..DUMP
    },
    Row {
        name: "three bytes of a word",
        addr: BASE + 1,
        count: 3,
        end: Ok(b"\x22\x33\x44"),
        transfers: 1,
        ..DUMP
    },
    Row {
        name: "a word",
        addr: BASE + 4,
        count: 4,
        end: Ok(b"\x55\x66\x77\x88"),
        transfers: 1,
        ..DUMP
    },
    Row {
        name: "two bytes of each of two words",
        addr: BASE + 2,
        count: 4,
        end: Ok(b"\x33\x44\x55\x66"),
        transfers: 2,
        ..DUMP
    },
    Row {
        name: "a word between a byte of each of its neighbours",
        addr: BASE + 3,
        count: 6,
        end: Ok(b"\x44\x55\x66\x77\x88\x99"),
        transfers: 3,
        ..DUMP
    },
    Row {
        name: "up to the last address",
        base: 0xffff_fff4,
        addr: 0xffff_fffb,
        count: 5,
        end: Ok(b"\x88\x99\xaa\xbb\xcc"),
        transfers: 2,
        ..DUMP
    },
    Row {
        name: "past the last address",
        base: 0xffff_fff4,
        addr: 0xffff_fffb,
        count: 6,
        end: Err(ImageFault::Range),
        ..DUMP
    },
    Row {
        name: "more bytes than there are addresses",
        addr: 0,
        count: 0xffff_ffff_ffff_ffff,
        end: Err(ImageFault::Range),
        ..DUMP
    },
    Row {
        name: "past the memory",
        addr: BASE + 8,
        count: 5,
        end: Err(ImageFault::BusFault(BASE + 12)),
        transfers: 1,
        ..DUMP
    },
    Row {
        name: "an acknowledgement is lost",
        addr: BASE,
        count: 12,
        marks: &[(12, Mark::Deaf)],
        end: Err(ImageFault::Stopped(End::Lost)),
        transfers: 1,
        ..DUMP
    },
    Row {
        name: "the same, resumed",
        addr: BASE,
        count: 12,
        marks: &[(12, Mark::Deaf)],
        resumes: 1,
        end: Ok(b"\x11\x22\x33\x44\x55\x66\x77\x88\x99\xaa\xbb\xcc"),
        transfers: 4,
        ..DUMP
    },
];

#[test]
fn a_range_of_each_shape(rt: HostRuntime) -> Result<(), Fail> {
    for row in ROWS {
        let target = target_of(rt.alloc(), row.base, &WORDS, 64, row.marks)?;
        let mut bench = target.expect(&rt, "a target");
        match dump_at(rt.alloc(), &mut bench, row.addr, row.count, row.resumes) {
            Some(Ok(bytes)) => expect_eq_at(&rt, &row.name, &Ok(bytes.as_slice()), &row.end),
            Some(Err(fault)) => expect_eq_at(&rt, &row.name, &Err(fault), &row.end),
            None => expect_at(&rt, &row.name, false),
        }
        let transfers = bench.memory().log().len().saturating_sub(3);
        expect_eq_at(&rt, &row.name, &transfers, &row.transfers);
    }
    Ok(())
}

// An image that is verified.
#[derive(Clone, Copy)]
struct Verified {
    name: &'static str,
    addr: u32,
    bytes: &'static [u8],
    end: Result<Option<ByteDifference>, ImageFault>,
}

const VERIFIED: &[Verified] = &[
    Verified {
        name: "no byte",
        addr: BASE + 3,
        bytes: b"",
        end: Ok(None),
    },
    Verified {
        name: "all that is there",
        addr: BASE,
        bytes: b"\x11\x22\x33\x44\x55\x66\x77\x88\x99\xaa\xbb\xcc",
        end: Ok(None),
    },
    Verified {
        name: "parts of two words",
        addr: BASE + 3,
        bytes: b"\x44\x55",
        end: Ok(None),
    },
    Verified {
        name: "another first byte",
        addr: BASE + 3,
        bytes: b"\x45\x55",
        end: Ok(Some(ByteDifference {
            addr: BASE + 3,
            found: 0x44,
            expected: 0x45,
        })),
    },
    Verified {
        name: "another last byte, of a word that isn't whole",
        addr: BASE + 1,
        bytes: b"\x22\x33\x44\x55\x00",
        end: Ok(Some(ByteDifference {
            addr: BASE + 5,
            found: 0x66,
            expected: 0,
        })),
    },
    Verified {
        name: "two bytes exchanged: the first is told",
        addr: BASE + 4,
        bytes: b"\x55\x77\x66\x88",
        end: Ok(Some(ByteDifference {
            addr: BASE + 5,
            found: 0x66,
            expected: 0x77,
        })),
    },
    Verified {
        name: "past the memory",
        addr: BASE + 10,
        bytes: b"\xbb\xcc\x00",
        end: Err(ImageFault::BusFault(BASE + 12)),
    },
    Verified {
        name: "past the last address",
        addr: 0xffff_ffff,
        bytes: b"\x00\x00",
        end: Err(ImageFault::Range),
    },
];

#[test]
fn an_image_is_verified(rt: HostRuntime) -> Result<(), Fail> {
    for row in VERIFIED {
        let target = target_of(rt.alloc(), BASE, &WORDS, 64, &[])?;
        let mut bench = target.expect(&rt, "a target");
        let end = verify_at(rt.alloc(), &mut bench, row.addr, row.bytes, 0);
        expect_eq_at(&rt, &row.name, &end, &Some(row.end));
    }
    Ok(())
}
