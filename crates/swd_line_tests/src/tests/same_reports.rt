//! The same reports over characters and over single clocks as over a simulated wire.
use super::expect::{expect_at, expect_eq, expect_eq_at};
use super::memory_server::{
    BASE, Cut, End, Task, clocked, over, plain, server_of, simulated, transfers, whole,
};
use std::alloc::Global;
use std::process::Abort;
use std::test::Fail;
use swd_host::Report;
use swd_port::{Access, Mark};
use swd_remote::Fault;

const WRITE: Access = Access::Write(BASE, 0xdead_beef);

const READ: Access = Access::Read(BASE);

const FAR: Access = Access::Read(0x3000_0000);

const BURST: &[Access] = &[
    WRITE,
    Access::Write(0x2000_0004, 1),
    Access::Write(0x2000_0008, 2),
];

// A block of so many words whose requests meet these marks.
fn block(marks: &[(usize, Mark)], count: u32) -> Task<'_> {
    Task {
        accesses: &[],
        block: Some(count),
        marks,
    }
}

fn same<R: Abort>(rt: &R, row: usize, report: &Report, wanted: &Report) {
    expect_eq_at(rt, &row, &report.ended, &wanted.ended);
    expect_eq_at(rt, &row, &report.begun, &wanted.begun);
    expect_eq_at(rt, &row, &report.requests, &wanted.requests);
    expect_eq_at(
        rt,
        &row,
        &report.answers.as_slice(),
        &wanted.answers.as_slice(),
    );
}

fn comes_out<R: Abort>(rt: &R, alloc: Global, row: usize, task: &Task) -> Result<(), Fail> {
    let (wanted, log) = simulated(alloc, task)?;
    let (report, moved) = clocked(alloc, task)?;
    same(rt, row, &report, &wanted);
    expect_at(rt, &row, moved == log);
    for piece in [usize::MAX, 7, 1] {
        let server = server_of(alloc, task, Cut::Never, piece)?;
        let (report, fault) = over(alloc, End { server: &server }, task)?;
        expect_eq_at(rt, &row, &fault, &None);
        same(rt, row, &report, &wanted);
        expect_at(rt, &row, transfers(alloc, server)? == log);
    }
    Ok(())
}

// Accesses, and the marks that their requests meet.
type Marked = (&'static [Access], &'static [(usize, Mark)]);

const RUNS: &[Marked] = &[
    (&[], &[]),
    (&[WRITE, READ], &[]),
    (&[FAR, READ, WRITE, FAR], &[]),
    (BURST, &[]),
    (
        &[WRITE, READ],
        &[(1, Mark::Wait), (11, Mark::Wait), (12, Mark::Wait)],
    ),
    (
        &[WRITE, READ],
        &[
            (9, Mark::Flip(3)),
            (11, Mark::Flip(0)),
            (14, Mark::Flip(32)),
        ],
    ),
    (BURST, &[(12, Mark::Flip(7)), (13, Mark::Wait)]),
    (&[WRITE, READ], &[(10, Mark::Deaf)]),
    (&[WRITE, READ], &[(11, Mark::Mute(0))]),
    (&[READ, READ], &[(12, Mark::Mute(2))]),
];

#[test]
fn reports_are_those_of_a_simulated_wire(rt: HostRuntime) -> Result<(), Fail> {
    for (row, (accesses, marks)) in RUNS.iter().enumerate() {
        let mut task = plain(accesses);
        task.marks = marks;
        comes_out(&rt, rt.alloc(), row, &task)?;
    }
    Ok(())
}

// How many words a block has, and the marks that its requests meet.
const BLOCKS: &[(u32, &[(usize, Mark)])] = &[
    (1, &[]),
    (16, &[]),
    (20, &[]),
    (8, &[(12, Mark::Flip(1)), (14, Mark::Wait)]),
    (8, &[(13, Mark::Mute(1))]),
];

#[test]
fn blocks_are_those_of_a_simulated_wire(rt: HostRuntime) -> Result<(), Fail> {
    for (row, (count, marks)) in BLOCKS.iter().enumerate() {
        comes_out(&rt, rt.alloc(), row, &block(marks, *count))?;
    }
    Ok(())
}

// How often characters are sent for a task.
fn flushes(alloc: Global, task: &Task) -> Result<usize, Fail> {
    let server = server_of(alloc, task, Cut::Never, usize::MAX)?;
    let _ = over(alloc, End { server: &server }, task)?;
    let writes = server.into_inner().writes;
    Ok(writes)
}

const WRITES: &[Access] = &[
    WRITE,
    Access::Write(0x2000_0004, 1),
    Access::Write(0x2000_0008, 2),
    Access::Write(0x2000_000c, 3),
    Access::Write(0x2000_0010, 4),
];

const READS: &[Access] = &[
    READ,
    Access::Read(0x2000_0004),
    Access::Read(0x2000_0008),
    Access::Read(0x2000_000c),
    Access::Read(0x2000_0010),
];

#[test]
fn characters_are_sent_where_an_answer_is_needed(rt: HostRuntime) -> Result<(), Fail> {
    let alloc = rt.alloc();
    // A word that is written, a read, a word of a block.
    let four = flushes(alloc, &plain(&WRITES[..4]))?;
    expect_eq(
        &rt,
        &flushes(alloc, &plain(WRITES))?,
        &four.saturating_add(1),
    );
    let four = flushes(alloc, &plain(&READS[..4]))?;
    expect_eq(
        &rt,
        &flushes(alloc, &plain(READS))?,
        &four.saturating_add(4),
    );
    let four = flushes(alloc, &block(&[], 4))?;
    expect_eq(
        &rt,
        &flushes(alloc, &block(&[], 5))?,
        &four.saturating_add(2),
    );
    // The opening has nine requests, and five of them read; then what waits is sent at the end.
    expect_eq(&rt, &flushes(alloc, &plain(&[]))?, &(9 + 5 + 1));
    Ok(())
}

#[test]
fn a_whole_line_comes_to_the_same_report(rt: HostRuntime) -> Result<(), Fail> {
    let alloc = rt.alloc();
    let task = plain(&[WRITE, READ, FAR]);
    let (wanted, log) = simulated(alloc, &task)?;
    let server = server_of(alloc, &task, Cut::Never, 7)?;
    let (report, fault) = whole(alloc, End { server: &server }, &task)?;
    expect_eq(&rt, &fault, &None);
    same(&rt, 0, &report, &wanted);
    assert!(rt; transfers(alloc, server)? == log);
    let server = server_of(alloc, &task, Cut::Ends(20), 7)?;
    let (report, fault) = whole(alloc, End { server: &server }, &task)?;
    expect_eq(&rt, &fault, &Some(Fault::Ended));
    expect_eq(&rt, &report.ended, &swd_host::End::Lost);
    Ok(())
}
