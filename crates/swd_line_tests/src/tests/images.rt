//! Images over a served line, and the files that they come from.
use super::expect::{expect_at, expect_eq, expect_eq_at};
use super::jobs::{dump_over, load_over, piece_of, verify_over};
use super::memory_server::{BASE, Cut, End, Task, plain, server_of, transfers, were_made};
use linked_list_allocator::LocalHeap;
use std::test::Fail;
use swd_fakes::FailingReader;
use swd_host::End as RunEnd;
use swd_image::{ByteDifference, ImageFault};
use swd_image_ends::{FileFault, read_file};
use swd_io::Unread;
use swd_port::Mark;
use swd_remote::Fault;

// Two bytes of the first word, and three of the second.
const IMAGE: &[u8] = b"\x11\x22\x33\x44\x55";

const AT: u32 = BASE + 2;

// Both words after a load over zeros.
const WORDS: [u32; 2] = [0x2211_0000, 0x0055_4433];

// The same bytes, and another one.
const OTHER: &[u8] = b"\x11\x22\x33\xc4\x55";

#[test]
fn an_image_goes_over_a_line_and_back(rt: HostRuntime) -> Result<(), Fail> {
    for piece in [usize::MAX, 7, 1] {
        let server = server_of(rt.alloc(), &plain(&[]), Cut::Never, piece)?;
        let end = End { server: &server };
        let (answer, line) = load_over(rt.alloc(), end, &piece_of(rt.alloc(), AT, IMAGE)?, 0);
        expect_eq_at(&rt, &piece, &answer, &Ok(()));
        expect_eq_at(&rt, &piece, &line.fault, &None);
        let (answer, line) = dump_over(rt.alloc(), end, BASE, 8);
        expect_eq_at(
            &rt,
            &piece,
            &answer?.as_slice(),
            &b"\0\0\x11\x22\x33\x44\x55\0".as_slice(),
        );
        expect_eq_at(&rt, &piece, &line.fault, &None);
        let different = ByteDifference {
            addr: BASE + 5,
            found: 0x44,
            expected: 0xc4,
        };
        for (bytes, difference) in [(IMAGE, None), (OTHER, Some(different))] {
            let (answer, line) = verify_over(rt.alloc(), end, &piece_of(rt.alloc(), AT, bytes)?);
            expect_eq_at(&rt, &piece, &answer, &Ok(difference));
            expect_eq_at(&rt, &piece, &line.fault, &None);
        }
    }
    Ok(())
}

const LOADED: &[(bool, u32, u32)] = &[
    (true, BASE, 0),
    (true, BASE + 4, 0),
    (false, BASE, WORDS[0]),
    (false, BASE + 4, WORDS[1]),
];

// A load reads both of its partial words, and writes each word once.
#[test]
fn a_load_over_a_line_is_logged(rt: HostRuntime) -> Result<(), Fail> {
    let server = server_of(rt.alloc(), &plain(&[]), Cut::Never, usize::MAX)?;
    let end = End { server: &server };
    let (answer, _) = load_over(rt.alloc(), end, &piece_of(rt.alloc(), AT, IMAGE)?, 0);
    expect_eq(&rt, &answer, &Ok(()));
    let log = transfers(rt.alloc(), server)?;
    were_made(&rt, &log, LOADED);
    Ok(())
}

// A name, the marks of the requests, what happens to the line, the address, how often it may be resumed; and the
// answer, and why the line ended.
type Met = (
    &'static str,
    &'static [(usize, Mark)],
    Cut,
    u32,
    u32,
    Result<(), ImageFault>,
    Option<Fault>,
);

const LOST: &[(usize, Mark)] = &[(11, Mark::Mute(0))];

const STOPPED: Result<(), ImageFault> = Err(ImageFault::Stopped(RunEnd::Lost));

const MET: &[Met] = &[
    ("nothing", &[], Cut::Never, AT, 0, Ok(()), None),
    (
        "a lost acknowledgement",
        LOST,
        Cut::Never,
        AT,
        0,
        STOPPED,
        None,
    ),
    ("the same, resumed", LOST, Cut::Never, AT, 1, Ok(()), None),
    // The last word is partial, and read first.
    (
        "no memory there",
        &[],
        Cut::Never,
        BASE + 0x40,
        0,
        Err(ImageFault::BusFault(BASE + 0x44)),
        None,
    ),
    (
        "no such address",
        &[],
        Cut::Never,
        0xffff_fffc,
        0,
        Err(ImageFault::Range),
        None,
    ),
    (
        "the end",
        &[],
        Cut::Ends(10),
        AT,
        0,
        STOPPED,
        Some(Fault::Ended),
    ),
    (
        "no level",
        &[],
        Cut::Says(0, b'x'),
        AT,
        0,
        STOPPED,
        Some(Fault::NoLevel(b'x')),
    ),
    (
        "no read",
        &[],
        Cut::Unread(40),
        AT,
        0,
        STOPPED,
        Some(Fault::Read),
    ),
    (
        "no write",
        &[],
        Cut::Unsent(9),
        AT,
        0,
        STOPPED,
        Some(Fault::Write),
    ),
];

#[test]
fn an_image_ends_at_what_it_meets(rt: HostRuntime) -> Result<(), Fail> {
    for (name, marks, cut, addr, resumes, wanted, fault) in MET {
        let task = Task {
            accesses: &[],
            block: None,
            marks,
        };
        let server = server_of(rt.alloc(), &task, *cut, usize::MAX)?;
        let end = End { server: &server };
        let image = piece_of(rt.alloc(), *addr, IMAGE)?;
        let (answer, line) = load_over(rt.alloc(), end, &image, *resumes);
        expect_eq_at(&rt, name, &answer, wanted);
        expect_eq_at(&rt, name, &line.fault, fault);
        let server = server.into_inner();
        expect_eq_at(&rt, name, &server.calls_after, &0);
        // Where no call was made, O and Q alone are sent.
        let is_range = *wanted == Err(ImageFault::Range);
        expect_eq_at(&rt, name, &(server.taken == 2), &is_range);
    }
    Ok(())
}

// How many bytes are taken at most, and whether these are enough.
const SIZES: &[(u64, bool)] = &[(5, true), (6, true), (4, false), (0, false)];

#[test]
fn a_file_is_read_whole(rt: HostRuntime) -> Result<(), Fail> {
    for (most, taken) in SIZES {
        let (most, taken) = (*most, *taken);
        let mut file = IMAGE;
        match read_file(rt.alloc(), &mut file, most) {
            Ok(bytes) => {
                expect_eq_at(&rt, &most, &bytes.as_slice(), &IMAGE);
                expect_at(&rt, &most, taken);
            }
            Err(unread) => {
                expect_eq_at(&rt, &most, &unread, &Unread::Consumer(FileFault::TooLong));
                expect_at(&rt, &most, !taken);
            }
        }
    }
    for fails_at in 0..=IMAGE.len() {
        let mut file = FailingReader::new(IMAGE, fails_at);
        let read = read_file(rt.alloc(), &mut file, 5);
        expect_eq_at(&rt, &fails_at, &read.err(), &Some(Unread::Reader));
    }
    let heap = LocalHeap::new(rt.alloc(), 16)?;
    let mut file = [7u8; 64].as_slice();
    let read = read_file(&heap, &mut file, 64);
    expect_eq(&rt, &read.err(), &Some(Unread::Consumer(FileFault::Memory)));
    Ok(())
}
