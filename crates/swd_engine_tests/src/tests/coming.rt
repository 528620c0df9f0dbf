//! What an engine foretells, against the transactions of the protocol.
use super::engine::{opened, passed, seen, starts, taken};
use super::expect::{expect_at, expect_eq_at};
use std::process::Abort;
use std::test::Fail;
use swd_host::{Bursts, Engine};
use swd_port::{Access, Cue};
use swd_simulated::BASE;

// The bytes of the requests.
const DPIDR_READ: u8 = 0xa5;

const ABORT_WRITE: u8 = 0x81;

const CTRL_STAT_READ: u8 = 0x8d;

const CTRL_STAT_WRITE: u8 = 0xa9;

const SELECT_WRITE: u8 = 0xb1;

const CSW_READ: u8 = 0x87;

const CSW_WRITE: u8 = 0xa3;

const RDBUFF_READ: u8 = 0xbd;

const TAR_WRITE: u8 = 0x8b;

const DRW_READ: u8 = 0x9f;

const DRW_WRITE: u8 = 0xbb;

// A request's byte, and the word that is written; 0 for a read.
type Told = (u8, u32);

// Ends the test where the engine foretells anything else.
fn foretells<R: Abort>(rt: &R, place: &usize, engine: &Engine, after: &[Access], told: &[Told]) {
    let coming = engine.coming(after);
    let coming = coming.as_slice();
    expect_eq_at(rt, place, &coming.len(), &told.len());
    for (next, (byte, word)) in coming.iter().zip(told) {
        expect_eq_at(rt, place, &next.request.bits(), byte);
        expect_eq_at(rt, place, &next.word, word);
    }
}

// In an opening a word decides four times: each time this is foretold, and then this word is read.
const OPENING: &[(&[Told], u32)] = &[
    (&[(DPIDR_READ, 0)], 0x2ba0_1477),
    (&[(ABORT_WRITE, 0x1e), (CTRL_STAT_READ, 0)], 0),
    (
        &[
            (SELECT_WRITE, 0),
            (CTRL_STAT_WRITE, 0x5000_0000),
            (CTRL_STAT_READ, 0),
        ],
        0xf000_0000,
    ),
    (
        &[(CSW_WRITE, 0x2300_0012), (CSW_READ, 0), (RDBUFF_READ, 0)],
        0x2300_0052,
    ),
];

// A burst of two writes; a read at an address that TAR doesn't hold; and a write to the next one, where it is known.
const LIST: &[Access] = &[
    Access::Write(BASE, 5),
    Access::Write(BASE + 4, 6),
    Access::Read(BASE),
    Access::Write(BASE + 4, 7),
];

const LIST_TOLD: &[Told] = &[
    (TAR_WRITE, BASE),
    (DRW_WRITE, 5),
    (DRW_WRITE, 6),
    (RDBUFF_READ, 0),
    (TAR_WRITE, BASE),
    (DRW_READ, 0),
    (RDBUFF_READ, 0),
    (DRW_WRITE, 7),
    (RDBUFF_READ, 0),
];

// A block of three reads.
const BLOCK: &[Access] = &[
    Access::Read(BASE),
    Access::Read(BASE + 4),
    Access::Read(BASE + 8),
];

const BLOCK_TOLD: &[Told] = &[
    (TAR_WRITE, BASE),
    (DRW_READ, 0),
    (DRW_READ, 0),
    (DRW_READ, 0),
    (RDBUFF_READ, 0),
];

const LISTS: &[(Bursts, &[Access], &[Told])] = &[
    (Bursts::Writes, LIST, LIST_TOLD),
    (Bursts::Reads, BLOCK, BLOCK_TOLD),
];

// The transactions of these are answered OK, a read with this word.
fn made(engine: &mut Engine, told: &[Told], word: u32) {
    for _ in told {
        seen(engine, 1);
        taken(engine, word);
        if let Some(Cue::Give(_)) = engine.cue() {
            engine.done();
        }
    }
}

#[test]
fn an_opening_is_foretold_up_to_a_word_that_decides(rt: HostRuntime) -> Result<(), Fail> {
    let mut engine = Engine::new(8);
    foretells(&rt, &9, &engine, LIST, &[]);
    if let Some(Cue::Lead { .. }) = engine.cue() {
        engine.done();
    }
    for (index, (told, word)) in OPENING.iter().enumerate() {
        foretells(&rt, &index, &engine, LIST, told);
        made(&mut engine, told, *word);
    }
    foretells(&rt, &10, &engine, LIST, LIST_TOLD);
    Ok(())
}

#[test]
fn accesses_are_foretold_to_the_end(rt: HostRuntime) -> Result<(), Fail> {
    for (index, (bursts, list, told)) in LISTS.iter().enumerate() {
        let mut engine = opened(Engine::opening(*bursts, 8), 0x2300_0052);
        foretells(&rt, &index, &engine, list, told);
        let (Some(first), Some(after)) = (list.first(), list.get(1..)) else {
            continue;
        };
        expect_at(
            &rt,
            &index,
            starts(&mut engine, *first, after.first().copied()),
        );
        foretells(&rt, &index, &engine, after, told);
        // At a turnaround nothing is; behind it the same is as before.
        seen(&mut engine, 2);
        foretells(&rt, &index, &engine, after, &[]);
        passed(&mut engine);
        foretells(&rt, &index, &engine, after, told);
    }
    Ok(())
}

// Each of these accesses writes TAR, so it takes three requests.
#[test]
fn at_most_160_transactions_are_foretold(rt: HostRuntime) -> Result<(), Fail> {
    let list = [Access::Write(BASE, 1), Access::Read(BASE)].repeat(rt.alloc(), 40)?;
    let engine = opened(Engine::new(8), 0x2300_0052);
    expect_eq_at(&rt, &"a long list", &engine.coming(&list).len(), &160);
    Ok(())
}
