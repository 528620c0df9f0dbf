//! Images of several pieces over a served line. The checksums of the files were added up by hand.
use super::expect::{expect_eq, expect_eq_at};
use super::jobs::{load_over, verify_over};
use super::memory_server::{BASE, Cut, End, plain, server_of, transfers, were_made};
use std::alloc::Global;
use std::test::Fail;
use swd_host::End as RunEnd;
use swd_image::{ByteDifference, ImageFault};
use swd_image_files::{Format, Image, read_image};
use swd_port::Mark;

// Five bytes from 20000002 on, and two from 20000011 on.
const HEX: &[u8] = b":020000042000DA\n:050002001122334455FA\n:02001100AABB88\n:00000001FF\n";

// The same with another last byte.
const SREC: &[u8] = b"S30A200000021122334455D4\nS30720000011AACB52\nS70500000000FA\n";

fn image_of(
    alloc: Global,
    format: Format,
    file: &[u8],
    offset: u32,
) -> Result<Image<Global>, Fail> {
    Ok(read_image(alloc, format, file, offset)?)
}

const LOADED: &[(bool, u32, u32)] = &[
    (true, BASE, 0),
    (true, BASE + 4, 0),
    (false, BASE, 0x2211_0000),
    (false, BASE + 4, 0x0055_4433),
    (true, BASE + 0x10, 0),
    (false, BASE + 0x10, 0x00bb_aa00),
];

// Each partial word is read, and each word is written once: those of the first piece, and then that of the second.
#[test]
fn pieces_are_loaded_in_the_order_of_the_file(rt: HostRuntime) -> Result<(), Fail> {
    let image = image_of(rt.alloc(), Format::IntelHex, HEX, 0)?;
    let server = server_of(rt.alloc(), &plain(&[]), Cut::Never, usize::MAX)?;
    let end = End { server: &server };
    let (answer, line) = load_over(rt.alloc(), end, &image, 0);
    expect_eq(&rt, &answer, &Ok(()));
    expect_eq(&rt, &line.fault, &None);
    let log = transfers(rt.alloc(), server)?;
    were_made(&rt, &log, LOADED);
    Ok(())
}

// A file, its offset, and what comes of it.
type Verified = (
    Format,
    &'static [u8],
    u32,
    Result<Option<ByteDifference>, ImageFault>,
);

const VERIFIED: &[Verified] = &[
    (Format::IntelHex, HEX, 0, Ok(None)),
    (Format::SRecord, SREC, 0, Ok(Some(LAST))),
    (Format::SRecord, SREC, 0x20, Ok(Some(FIRST))),
    (Format::IntelHex, b":00000001FF\n", 0, Ok(None)),
    (
        Format::Binary,
        b"a",
        BASE + 0x43,
        Err(ImageFault::BusFault(BASE + 0x40)),
    ),
];

const LAST: ByteDifference = ByteDifference {
    addr: BASE + 0x12,
    found: 0xbb,
    expected: 0xcb,
};

const FIRST: ByteDifference = ByteDifference {
    addr: BASE + 0x22,
    found: 0,
    expected: 0x11,
};

#[test]
fn pieces_are_verified_up_to_the_first_that_differs(rt: HostRuntime) -> Result<(), Fail> {
    let image = image_of(rt.alloc(), Format::IntelHex, HEX, 0)?;
    let server = server_of(rt.alloc(), &plain(&[]), Cut::Never, 7)?;
    let end = End { server: &server };
    let (loaded, _) = load_over(rt.alloc(), end, &image, 0);
    expect_eq(&rt, &loaded, &Ok(()));
    for (format, file, offset, wanted) in VERIFIED {
        let image = image_of(rt.alloc(), *format, file, *offset)?;
        let (answer, line) = verify_over(rt.alloc(), end, &image);
        expect_eq_at(&rt, file, &answer, wanted);
        expect_eq_at(&rt, file, &line.fault, &None);
    }
    Ok(())
}

// The marks of the requests, the answer, and how many transfers there were.
type Failing = (&'static [(usize, Mark)], Result<(), ImageFault>, usize);

const FAILING: &[Failing] = &[
    (&[], Err(ImageFault::BusFault(BASE + 0x40)), 4),
    (
        &[(1, Mark::Mute(0))],
        Err(ImageFault::Stopped(RunEnd::Lost)),
        0,
    ),
];

// The first piece is loaded, and the second one has no memory. Or the first request gets no acknowledgement.
#[test]
fn a_load_of_pieces_ends_at_the_first_that_fails(rt: HostRuntime) -> Result<(), Fail> {
    let image = image_of(rt.alloc(), Format::IntelHex, HEX, 0x30)?;
    for (marks, wanted, count) in FAILING {
        let mut task = plain(&[]);
        task.marks = marks;
        let server = server_of(rt.alloc(), &task, Cut::Never, usize::MAX)?;
        let end = End { server: &server };
        let (answer, line) = load_over(rt.alloc(), end, &image, 0);
        expect_eq_at(&rt, marks, &answer, wanted);
        expect_eq_at(&rt, marks, &line.fault, &None);
        expect_eq_at(&rt, marks, &transfers(rt.alloc(), server)?.len(), count);
    }
    Ok(())
}
