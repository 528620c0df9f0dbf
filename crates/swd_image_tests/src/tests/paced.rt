//! What is told how far the calls of an image are.
use super::expect::expect_eq_at;
use super::{BASE, WORDS, limits, target_of};
use std::alloc::Global;
use std::test::Fail;
use swd_fakes::ShortWriter;
use swd_image::{Counted, ImageFault, PacedReports, Progress, load, verify};
use swd_port::{Due, Wire};

// The numbers that were told: that of all words, and then those that are done.
#[derive(Drop)]
struct Told {
    all: Option<u64>,
    done: Vec<u64>,
    refused: bool,
}

impl Progress for &mut Told {
    fn begin(&mut self, accesses: u64) {
        self.all = Some(accesses);
    }

    fn reached(&mut self, done: u64) {
        self.refused = self.refused || self.done.push(done).is_err();
    }
}

// A name, a command, its first address and its bytes, how many bytes of its report the writer takes, if there is one,
// and the numbers.
type Row<'a> = (&'a str, Counted, u32, &'a [u8], Option<usize>, &'a [u64]);

const ROWS: &[Row] = &[
    (
        "a load counts no read of a partial word",
        Counted::Written,
        BASE + 3,
        b"abcdef",
        None,
        &[0, 0, 3],
    ),
    (
        "with a report",
        Counted::Written,
        BASE + 3,
        b"abcdef",
        Some(1000),
        &[0, 0, 3],
    ),
    (
        "the report of the second call can't be written",
        Counted::Written,
        BASE + 3,
        b"abcdef",
        Some(31),
        &[0],
    ),
    (
        "the report of the writes can't be written",
        Counted::Written,
        BASE + 3,
        b"abcdef",
        Some(90),
        &[0, 0],
    ),
    (
        "a verification counts what it reads",
        Counted::Read,
        BASE + 3,
        b"\x44\x55\x66\x77\x88\x99",
        None,
        &[3],
    ),
    (
        "a word past the memory: all words of its call have an answer",
        Counted::Read,
        BASE + 8,
        b"\x99\xaa\xbb\xcc\0\0\0\0",
        None,
        &[2],
    ),
    ("no byte", Counted::Read, BASE, b"", None, &[]),
];

fn told_at(alloc: Global, row: &Row<'_>) -> Result<Vec<u64>, Fail> {
    let (_, counted, addr, bytes, room, _) = row;
    let mut told = Told {
        all: None,
        done: Vec::new(alloc),
        refused: false,
    };
    let Some(mut wire) = target_of(alloc, BASE, &WORDS, 64, &[])? else {
        return Err(Fail::from("the plan is not legal"));
    };
    let Due::Nothing = wire.due() else {
        return Err(Fail::from("something is due"));
    };
    let writer = room.map(|room| ShortWriter::new(alloc, room, true));
    let mut reports = PacedReports::new(writer, &mut told, *counted, 7);
    let _: Result<(), ImageFault> = match counted {
        Counted::Written => load(alloc, &mut wire, *addr, bytes, limits(0), &mut reports),
        Counted::Read => {
            match verify(alloc, &mut wire, *addr, bytes, limits(0), &mut reports) {
                Ok(_) => Ok(()),
                Err(fault) => Err(fault),
            }
        }
    };
    drop(reports);
    if told.refused || told.all != Some(7) {
        return Err(Fail::from("it was not told how many there are"));
    }
    Ok(told.done)
}

#[test]
fn words_count_once_their_lines_are_written(rt: HostRuntime) -> Result<(), Fail> {
    for row in ROWS {
        let (name, _, _, _, _, done) = row;
        let told = told_at(rt.alloc(), row)?;
        expect_eq_at(&rt, name, &told.as_slice(), done);
    }
    Ok(())
}
