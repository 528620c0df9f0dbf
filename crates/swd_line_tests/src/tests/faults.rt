//! Lines that fail at each place.
use super::expect::expect_eq;
use super::memory_server::{BASE, Cut, End, over, plain, server_of};
use std::alloc::Global;
use std::process::Abort;
use std::test::Fail;
use swd_host as host;
use swd_port::{Access, Answer};
use swd_remote::Fault;

const TASK: [Access; 3] = [
    Access::Write(BASE, 0xdead_beef),
    Access::Read(BASE),
    Access::Read(0x3000_0000),
];

const ANSWERS: [Answer; 3] = [
    Answer::Written,
    Answer::Value(0xdead_beef),
    Answer::BusFault,
];

// The line is cut: the run is lost, what is told is true, and nothing is sent or read after it. Whether it
// was cut at all.
fn is_cut<R: Abort>(rt: &R, alloc: Global, cut: Cut, wanted: Fault) -> Result<bool, Fail> {
    let task = plain(&TASK);
    let server = server_of(alloc, &task, cut, usize::MAX)?;
    let (report, fault) = over(alloc, End { server: &server }, &task)?;
    let answers = report.answers.as_slice();
    assert!(rt; ANSWERS.starts_with(answers));
    expect_eq(rt, &server.into_inner().calls_after, &0);
    let Some(fault) = fault else {
        expect_eq(rt, &report.ended, &host::End::All);
        expect_eq(rt, &answers, &ANSWERS.as_slice());
        return Ok(false);
    };
    expect_eq(rt, &fault, &wanted);
    Ok(true)
}

// How a line fails.
#[derive(Clone, Copy)]
enum Kind {
    Ends,
    Says(u8),
    Unread,
    Unsent,
    Full,
}

fn cut_of(kind: Kind, place: usize) -> (Cut, Fault) {
    match kind {
        Kind::Ends => (Cut::Ends(place), Fault::Ended),
        Kind::Says(byte) => (Cut::Says(place, byte), Fault::NoLevel(byte)),
        Kind::Unread => (Cut::Unread(place), Fault::Read),
        Kind::Unsent => (Cut::Unsent(place), Fault::Write),
        Kind::Full => (Cut::Full(place), Fault::Write),
    }
}

// How many places there are at which a line can fail so.
fn places<R: Abort>(rt: &R, alloc: Global, kind: Kind) -> Result<usize, Fail> {
    for place in 0..10_000usize {
        let (cut, wanted) = cut_of(kind, place);
        if !is_cut(rt, alloc, cut, wanted)? {
            return Ok(place);
        }
    }
    Ok(0)
}

// Nine requests of the opening, four of them reads; TAR and DRW of the write; then RDBUFF, which confirms it, and so
// on.
#[test]
fn a_line_fails_at_each_level(rt: HostRuntime) -> Result<(), Fail> {
    let ends = places(&rt, rt.alloc(), Kind::Ends)?;
    assert!(rt; ends > 9 * 3 + 4 * 33);
    expect_eq(&rt, &places(&rt, rt.alloc(), Kind::Says(b'x'))?, &ends);
    expect_eq(&rt, &places(&rt, rt.alloc(), Kind::Says(b'2'))?, &ends);
    expect_eq(&rt, &places(&rt, rt.alloc(), Kind::Says(b'/'))?, &ends);
    expect_eq(&rt, &places(&rt, rt.alloc(), Kind::Unread)?, &ends);
    Ok(())
}

#[test]
fn a_line_fails_at_each_character(rt: HostRuntime) -> Result<(), Fail> {
    let unsent = places(&rt, rt.alloc(), Kind::Unsent)?;
    assert!(rt; unsent > 1000);
    expect_eq(&rt, &places(&rt, rt.alloc(), Kind::Full)?, &unsent);
    Ok(())
}
