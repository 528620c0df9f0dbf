//! Cycles with FAULT, with damaged data, and with ones where they are no line reset of their own.
use super::cycle_texts::{Part, failing};
use super::expect::{expect_eq, expect_eq_at};
use std::alloc::Global;
use std::test::Fail;
use swd_clocked::Clocked;
use swd_target::{Memory, Quirks};

// A new target with one word.
fn target(alloc: Global) -> Result<Clocked<Memory>, Fail> {
    let quirks = Quirks {
        wrap: true,
        late: false,
        filler: 0,
        idr: None,
    };
    Ok(Clocked::new(Memory::new(alloc, 0x2000_0000, 1, 1)?, quirks))
}

// A DPIDR read, and its answer.
const DPIDR: Part = Part::Sent(b"10100101");

const IDENTIFIED: Part = Part::Seen(b"11001110111000101000000001011101010001");

// A turnaround, OK, and the turnaround before a write's data; a turnaround, FAULT and a turnaround; and an
// undriven line.
const OKAY: Part = Part::Seen(b"11001");

const FAULT: Part = Part::Seen(b"10011");

const SILENCE: Part = Part::Seen(b"1111");

const CTRL_STAT: Part = Part::Sent(b"10110001");

const ABORT: Part = Part::Sent(b"10000001");

const SELECT: Part = Part::Sent(b"10001101");

const LOW: Part = Part::Sent(b"0");

// Without power an access port faults, which sets STICKYERR; every request that isn't exempt faults then,
// until ABORT clears it.
const FAULTS: &[Part] = &[
    Part::Ones(50),
    LOW,
    DPIDR,
    IDENTIFIED,
    // CSW's read.
    Part::Sent(b"11100001"),
    FAULT,
    CTRL_STAT,
    Part::Seen(b"11000000010000000000000000000000000011"),
    // RDBUFF's read.
    Part::Sent(b"10111101"),
    FAULT,
    SELECT,
    FAULT,
    ABORT,
    OKAY,
    Part::Sent(b"001000000000000000000000000000001"),
    CTRL_STAT,
    Part::Seen(b"11000000000000000000000000000000000001"),
];

// A write whose parity is wrong isn't done, and sets WDATAERR, ABORT's too.
const DAMAGED: &[Part] = &[
    Part::Ones(50),
    LOW,
    DPIDR,
    IDENTIFIED,
    SELECT,
    OKAY,
    // 00000001, which would leave CTRL/STAT's bank.
    Part::Sent(b"100000000000000000000000000000000"),
    CTRL_STAT,
    Part::Seen(b"11000000000100000000000000000000000011"),
    SELECT,
    FAULT,
    ABORT,
    OKAY,
    Part::Sent(b"000100000000000000000000000000000"),
    CTRL_STAT,
    Part::Seen(b"11000000000100000000000000000000000011"),
    ABORT,
    OKAY,
    Part::Sent(b"000100000000000000000000000000001"),
    CTRL_STAT,
];

// A write of SELECT whose data is awaited.
const BEGUN: &[Part] = &[Part::Ones(50), LOW, DPIDR, IDENTIFIED, SELECT, OKAY];

// What stands on the line of a new target, in stretches.
const RUNS: &[(&str, &[&[Part]])] = &[
    ("a fault is driven until it is cleared", &[FAULTS]),
    (
        "damaged data is not written",
        &[
            DAMAGED,
            &[Part::Seen(b"11000000000000000000000000000000000001")],
        ],
    ),
    // Write data that is awaited is taken from the ones of a line reset: 33 of them, whose parity is wrong.
    (
        "too few ones are left behind the data",
        &[BEGUN, &[Part::Ones(82), LOW, DPIDR, SILENCE]],
    ),
    (
        "ones fill a write that is awaited",
        &[
            BEGUN,
            &[Part::Ones(83)],
            &[
                LOW,
                DPIDR,
                IDENTIFIED,
                CTRL_STAT,
                Part::Seen(b"11000000000100000000000000000000000011"),
            ],
        ],
    ),
];

#[test]
fn a_new_target_answers_each_run_with_a_fault(rt: HostRuntime) -> Result<(), Fail> {
    for (name, stretches) in RUNS {
        let mut target = target(rt.alloc())?;
        for (index, parts) in stretches.iter().enumerate() {
            expect_eq_at(&rt, &(*name, index), &failing(&mut target, parts), &None);
        }
    }
    Ok(())
}

// What a host sends after a line reset, and the least number of ones behind it that are a line reset again.
const BEFORE: &[(&[Part], u32)] = &[
    (&[LOW], 50),
    // The switch is passed over, with its last three ones.
    (&[Part::Sent(b"0111100111100111")], 50),
    // Its last bit, or its tenth, is another one. The first nine are idle and a broken request, whose two
    // last ones count.
    (&[Part::Sent(b"0111100111100110")], 50),
    (&[Part::Sent(b"011110011")], 48),
    // DPIDR's request with wrong parity: its last bit counts.
    (&[LOW, Part::Sent(b"10100001")], 49),
    // Eight ones are a broken request.
    (&[LOW, Part::Sent(b"11111111")], 42),
    // A request that isn't answered: its last bit counts, and so do four cycles that nobody drives.
    (&[LOW, CTRL_STAT, SILENCE], 45),
];

// One less, and DPIDR isn't answered.
#[test]
fn ones_of_broken_requests_count(rt: HostRuntime) -> Result<(), Fail> {
    for (before, least) in BEFORE {
        for ones in *least - 1..=*least {
            let mut target = target(rt.alloc())?;
            expect_eq(&rt, &failing(&mut target, &[Part::Ones(50)]), &None);
            expect_eq_at(&rt, least, &failing(&mut target, before), &None);
            let answer = if ones == *least { IDENTIFIED } else { SILENCE };
            let after = [Part::Ones(ones), LOW, DPIDR, answer];
            expect_eq_at(&rt, &(*least, ones), &failing(&mut target, &after), &None);
        }
    }
    Ok(())
}
