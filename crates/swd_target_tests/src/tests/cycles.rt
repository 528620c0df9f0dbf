//! Cycles, one after the other.
use super::cycle_texts::{Part, failing};
use super::expect::{expect_eq, expect_eq_at};
use super::recorded::RUN;
use std::alloc::Global;
use std::test::Fail;
use swd_bits::word_of;
use swd_clocked::{Clocked, ClockedBench};
use swd_port::{Due, Register, Transfer, Wire};
use swd_target::{Memory, Quirks};

const QUIRKS: Quirks = Quirks {
    wrap: true,
    late: false,
    filler: 0,
    idr: None,
};

// A new target with sixteen words from 20000000 and room for sixteen transfers.
fn target(alloc: Global) -> Result<Clocked<Memory>, Fail> {
    let memory = Memory::new(alloc, 0x2000_0000, 16, 16)?;
    Ok(Clocked::new(memory, QUIRKS))
}

// The opening of a line, and a DPIDR read.
const IDENTIFICATION: &[Part] = &[
    Part::Sent(b"11111111111111111111111111111111111111111111111111111111"),
    Part::Sent(b"0111100111100111"),
    Part::Sent(b"11111111111111111111111111111111111111111111111111111111"),
    Part::Sent(b"00"),
    Part::Sent(b"10100101"),
    Part::Seen(b"1"),
    Part::Seen(b"100"),
    Part::Seen(b"11101110001010000000010111010100"),
    Part::Seen(b"0"),
    Part::Seen(b"1"),
];

// Forty-nine ones are no line reset: DPIDR is not answered.
const FEW: &[Part] = &[
    Part::Sent(b"1111111111111111111111111111111111111111111111111"),
    Part::Sent(b"0"),
    Part::Sent(b"10100101"),
    Part::Seen(b"1111"),
];

// Power, a CSW with auto-increment, and TAR = 20000000.
const UP: &[Part] = &[
    Part::Sent(b"11111111111111111111111111111111111111111111111111111111"),
    Part::Sent(b"0111100111100111"),
    Part::Sent(b"11111111111111111111111111111111111111111111111111111111"),
    Part::Sent(b"00"),
    Part::Sent(b"10100101"),
    Part::Seen(b"11001110111000101000000001011101010001"),
    Part::Sent(b"10010101"),
    Part::Seen(b"11001"),
    Part::Sent(b"000000000000000000000000000010100"),
    Part::Sent(b"11000101"),
    Part::Seen(b"11001"),
    Part::Sent(b"010010000000000000000000110001001"),
    Part::Sent(b"11010001"),
    Part::Seen(b"11001"),
    Part::Sent(b"000000000000000000000000000001001"),
];

// The request of a DRW write, and its data phase that is all zeros: nothing but what an idle line has.
const IDLE_WRITE: &[Part] = &[
    Part::Sent(b"11011101"),
    Part::Seen(b"1100"),
    Part::Sent(b"0000000000000000000000000000000000"),
];

// The request of a CTRL/STAT write is answered WAIT, and DPIDR's isn't.
const HELD: &[Part] = &[
    Part::Sent(b"10010101"),
    Part::Seen(b"10101"),
    Part::Sent(b"10100101"),
    Part::Seen(b"1100"),
];

// What stands on the line of a new target.
const RUNS: &[(&str, &[Part])] = &[
    ("DPIDR is read after a line reset", IDENTIFICATION),
    ("forty-nine ones are no line reset", FEW),
    ("a recorded run is answered as it was recorded", RUN),
];

#[test]
fn a_new_target_answers_each_run(rt: HostRuntime) -> Result<(), Fail> {
    for (name, parts) in RUNS {
        let mut target = target(rt.alloc())?;
        expect_eq_at(&rt, name, &failing(&mut target, parts), &None);
    }
    Ok(())
}

// This is why a host sends nothing after a lost acknowledgement: zeros are the data of a write.
#[test]
fn an_idle_line_writes_a_word(rt: HostRuntime) -> Result<(), Fail> {
    let mut target = target(rt.alloc())?;
    expect_eq(&rt, &failing(&mut target, UP), &None);
    assert!(rt; target.memory().log().is_empty());
    expect_eq(&rt, &failing(&mut target, IDLE_WRITE), &None);
    let written = Transfer {
        read: false,
        addr: 0x2000_0000,
        word: 0,
    };
    expect_eq(&rt, &target.memory().log(), &[written].as_slice());
    Ok(())
}

#[test]
fn a_held_target_answers_wait(rt: HostRuntime) -> Result<(), Fail> {
    let mut target = target(rt.alloc())?;
    expect_eq(&rt, &failing(&mut target, IDENTIFICATION), &None);
    target.hold(true);
    expect_eq(&rt, &failing(&mut target, HELD), &None);
    Ok(())
}

#[test]
fn a_bench_counts_the_cycles_that_it_drives(rt: HostRuntime) -> Result<(), Fail> {
    let memory = Memory::new(rt.alloc(), 0x2000_0000, 16, 16)?;
    let Ok(mut bench) = ClockedBench::new(rt.alloc(), memory, QUIRKS, Vec::new(rt.alloc())) else {
        panic!(rt; "no memory");
    };
    bench.lead(56, true, 2);
    expect_eq(&rt, &bench.cycles(), &130);
    expect_eq(&rt, &bench.ask(Register::DpidrRead.request()), &1);
    expect_eq(&rt, &bench.cycles(), &142);
    let Due::Take = bench.due() else {
        panic!(rt; "no data phase");
    };
    expect_eq(&rt, &word_of(bench.take()), &Some(0x2ba0_1477));
    expect_eq(&rt, &bench.cycles(), &176);
    bench.settle();
    assert!(rt; bench.memory().log().is_empty());
    Ok(())
}
