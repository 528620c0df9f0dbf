//! Images of each shape, and loads that fail.
use super::expect::expect_eq_at;
use super::{BASE, WORDS, addr_at, load_at, target_of};
use std::alloc::Global;
use std::process::Abort;
use std::test::Fail;
use swd_host::End;
use swd_image::ImageFault;
use swd_port::{Mark, Transfer};
use swd_target::{Bench, Memory};

// What a load of these bytes leaves of three words, and how many transfers it makes: one for each word, and a read more
// for each that it doesn't fill.
#[derive(Clone, Copy)]
struct Row {
    name: &'static str,
    addr: u32,
    bytes: &'static [u8],
    words: [u32; 3],
    transfers: usize,
}

const ROWS: &[Row] = &[
    Row {
        name: "no byte",
        addr: BASE + 1,
        bytes: b"",
        words: WORDS,
        transfers: 0,
    },
    Row {
        name: "the first byte of a word",
        addr: BASE,
        bytes: b"\xa0",
        words: [0x4433_22a0, 0x8877_6655, 0xccbb_aa99],
        transfers: 2,
    },
    Row {
        name: "the last byte of a word",
        addr: BASE + 7,
        bytes: b"\xa0",
        words: [0x4433_2211, 0xa077_6655, 0xccbb_aa99],
        transfers: 2,
    },
    Row {
        name: "two bytes in the middle of a word",
        addr: BASE + 5,
        bytes: b"\xa0\xa1",
        words: [0x4433_2211, 0x88a1_a055, 0xccbb_aa99],
        transfers: 2,
    },
    Row {
        name: "three bytes from the first on",
        addr: BASE + 8,
        bytes: b"\xa0\xa1\xa2",
        words: [0x4433_2211, 0x8877_6655, 0xcca2_a1a0],
        transfers: 2,
    },
    Row {
        name: "three bytes up to the last",
        addr: BASE + 1,
        bytes: b"\xa0\xa1\xa2",
        words: [0xa2a1_a011, 0x8877_6655, 0xccbb_aa99],
        transfers: 2,
    },
    Row {
        name: "a word",
        addr: BASE + 4,
        bytes: b"\xa0\xa1\xa2\xa3",
        words: [0x4433_2211, 0xa3a2_a1a0, 0xccbb_aa99],
        transfers: 1,
    },
    Row {
        name: "a word and a byte",
        addr: BASE,
        bytes: b"\xa0\xa1\xa2\xa3\xa4",
        words: [0xa3a2_a1a0, 0x8877_66a4, 0xccbb_aa99],
        transfers: 3,
    },
    Row {
        name: "a byte and a word",
        addr: BASE + 3,
        bytes: b"\xa0\xa1\xa2\xa3\xa4",
        words: [0xa033_2211, 0xa4a3_a2a1, 0xccbb_aa99],
        transfers: 3,
    },
    Row {
        name: "the halves of two words",
        addr: BASE + 6,
        bytes: b"\xa0\xa1\xa2\xa3",
        words: [0x4433_2211, 0xa1a0_6655, 0xccbb_a3a2],
        transfers: 4,
    },
    Row {
        name: "a word between a byte of each of its neighbours",
        addr: BASE + 3,
        bytes: b"\xa0\xa1\xa2\xa3\xa4\xa5",
        words: [0xa033_2211, 0xa4a3_a2a1, 0xccbb_aaa5],
        transfers: 5,
    },
];

// The memory has these words.
fn expect_words<R: Abort>(
    rt: &R,
    name: &'static str,
    bench: &Bench<Memory>,
    base: u32,
    words: &[u32],
) {
    for (index, word) in words.iter().enumerate() {
        let found = bench.memory().word(addr_at(base, index));
        expect_eq_at(rt, &(name, index), &found, &Some(*word));
    }
}

#[test]
fn an_image_of_each_shape(rt: HostRuntime) -> Result<(), Fail> {
    for row in ROWS {
        let target = target_of(rt.alloc(), BASE, &WORDS, 64, &[])?;
        let mut bench = target.expect(&rt, "a target");
        let done = load_at(rt.alloc(), &mut bench, row.addr, row.bytes, 0);
        expect_eq_at(&rt, &row.name, &done, &Some(Ok(())));
        expect_words(&rt, row.name, &bench, BASE, &row.words);
        let transfers = bench.memory().log().len().saturating_sub(3);
        expect_eq_at(&rt, &row.name, &transfers, &row.transfers);
    }
    Ok(())
}

// A load of eight bytes that fails, or is resumed, and what it leaves.
#[derive(Clone, Copy)]
struct Failing {
    name: &'static str,
    base: u32,
    addr: u32,
    marks: &'static [(usize, Mark)],
    resumes: u32,
    end: Result<(), ImageFault>,
    words: [u32; 3],
}

const IMAGE: &[u8] = b"\xa0\xa1\xa2\xa3\xa4\xa5\xa6\xa7";

// The opening takes nine requests, TAR one, and each write of a burst one, which the next one confirms.
const FAILING: &[Failing] = &[
    Failing {
        name: "to the last address",
        base: 0xffff_fff4,
        addr: 0xffff_fff8,
        marks: &[],
        resumes: 0,
        end: Ok(()),
        words: [0x4433_2211, 0xa3a2_a1a0, 0xa7a6_a5a4],
    },
    Failing {
        name: "past the last address",
        base: 0xffff_fff4,
        addr: 0xffff_fff9,
        marks: &[],
        resumes: 0,
        end: Err(ImageFault::Range),
        words: WORDS,
    },
    Failing {
        name: "past the memory",
        base: BASE,
        addr: BASE + 8,
        marks: &[],
        resumes: 0,
        end: Err(ImageFault::BusFault(BASE + 12)),
        words: [0x4433_2211, 0x8877_6655, 0xa3a2_a1a0],
    },
    Failing {
        name: "before the memory: the word that is read isn't there, and none is written",
        base: BASE,
        addr: BASE - 2,
        marks: &[],
        resumes: 0,
        end: Err(ImageFault::BusFault(BASE - 4)),
        words: WORDS,
    },
    Failing {
        name: "the acknowledgement of the second write is lost",
        base: BASE,
        addr: BASE + 4,
        marks: &[(12, Mark::Mute(0))],
        resumes: 0,
        end: Err(ImageFault::Stopped(End::Lost)),
        words: [0x4433_2211, 0xa3a2_a1a0, 0xccbb_aa99],
    },
    Failing {
        name: "the same, resumed",
        base: BASE,
        addr: BASE + 4,
        marks: &[(12, Mark::Mute(0))],
        resumes: 1,
        end: Ok(()),
        words: [0x4433_2211, 0xa3a2_a1a0, 0xa7a6_a5a4],
    },
    Failing {
        name: "the acknowledgement of a read is lost, and that of a write, resumed",
        base: BASE,
        addr: BASE + 2,
        marks: &[(11, Mark::Deaf), (40, Mark::Mute(1))],
        resumes: 1,
        end: Ok(()),
        words: [0xa1a0_2211, 0xa5a4_a3a2, 0xccbb_a7a6],
    },
    Failing {
        name: "damaged words and WAITs",
        base: BASE,
        addr: BASE + 4,
        marks: &[(11, Mark::Flip(3)), (12, Mark::Wait), (15, Mark::Flip(32))],
        resumes: 0,
        end: Ok(()),
        words: [0x4433_2211, 0xa3a2_a1a0, 0xa7a6_a5a4],
    },
    Failing {
        name: "too many WAITs",
        base: BASE,
        addr: BASE + 4,
        marks: &[
            (11, Mark::Wait),
            (12, Mark::Wait),
            (13, Mark::Wait),
            (14, Mark::Wait),
        ],
        resumes: 1,
        end: Err(ImageFault::Stopped(End::TriesOut)),
        words: WORDS,
    },
];

#[test]
fn loads_that_fail_and_loads_that_are_resumed(rt: HostRuntime) -> Result<(), Fail> {
    for row in FAILING {
        let target = target_of(rt.alloc(), row.base, &WORDS, 64, row.marks)?;
        let mut bench = target.expect(&rt, "a target");
        let done = load_at(rt.alloc(), &mut bench, row.addr, IMAGE, row.resumes);
        expect_eq_at(&rt, &row.name, &done, &Some(row.end));
        bench.settle();
        expect_words(&rt, row.name, &bench, row.base, &row.words);
    }
    Ok(())
}
