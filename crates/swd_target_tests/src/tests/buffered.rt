//! A debug port that gives up a write, by worked values.
use super::expect::{expect_at, expect_eq_at};
use super::registers::FILLER;
use std::alloc::Global;
use std::process::Abort;
use std::test::Fail;
use swd_bits::{Request, data_bits, word_of};
use swd_port::{Due, Register, Wire};
use swd_target::{BufferedBench, Memory, Quirks, Transfer};

const BASE: u32 = 0x2000_0000;

const QUIRKS: Quirks = Quirks {
    wrap: true,
    late: true,
    filler: FILLER,
    idr: None,
};

// A transaction: the register, the word that is written, what is seen, and the word that is read.
type Step = (Register, u32, u8, Option<u32>);

const UP: &[Step] = &[
    (Register::DpidrRead, 0, 1, Some(0x2ba0_1477)),
    (Register::CtrlStatWrite, 0x5000_0000, 1, None),
    (Register::CswWrite, 0x2300_0012, 1, None),
    (Register::TarWrite, BASE, 1, None),
];

// What follows, and the first word in memory then.
struct Row {
    name: &'static str,
    steps: &'static [Step],
    word: u32,
    log: &'static [Transfer],
}

const ROWS: &[Row] = &[
    Row {
        name: "at a read of DPIDR; TAR isn't moved",
        steps: &[
            (Register::DrwWrite, 0x1111_1111, 1, None),
            (Register::DpidrRead, 0, 1, Some(0x2ba0_1477)),
            (Register::RdbuffRead, 0, 4, None),
            (Register::CtrlStatRead, 0, 1, Some(0xf000_0080)),
            (Register::AbortWrite, 0x0000_0008, 1, None),
            (Register::CtrlStatRead, 0, 1, Some(0xf000_0000)),
            (Register::DrwWrite, 0x2222_2222, 1, None),
            (Register::RdbuffRead, 0, 1, Some(FILLER)),
        ],
        word: 0x2222_2222,
        log: &[Transfer {
            read: false,
            addr: BASE,
            word: 0x2222_2222,
        }],
    },
    Row {
        name: "at a read of CTRL/STAT, which shows it",
        steps: &[
            (Register::DrwWrite, 0x1111_1111, 1, None),
            (Register::CtrlStatRead, 0, 1, Some(0xf000_0080)),
        ],
        word: 0,
        log: &[],
    },
    Row {
        name: "at a write of ABORT, which clears the flag",
        steps: &[
            (Register::DrwWrite, 0x1111_1111, 1, None),
            (Register::AbortWrite, 0x0000_001e, 1, None),
            (Register::CtrlStatRead, 0, 1, Some(0xf000_0000)),
            (Register::RdbuffRead, 0, 1, Some(FILLER)),
        ],
        word: 0,
        log: &[],
    },
    Row {
        name: "not once it is confirmed",
        steps: &[
            (Register::DrwWrite, 0x1111_1111, 1, None),
            (Register::RdbuffRead, 0, 1, Some(FILLER)),
            (Register::DpidrRead, 0, 1, Some(0x2ba0_1477)),
            (Register::CtrlStatRead, 0, 1, Some(0xf000_0040)),
        ],
        word: 0x1111_1111,
        log: &[Transfer {
            read: false,
            addr: BASE,
            word: 0x1111_1111,
        }],
    },
    Row {
        name: "a read isn't given up",
        steps: &[
            (Register::DrwRead, 0, 1, Some(FILLER)),
            (Register::DpidrRead, 0, 1, Some(0x2ba0_1477)),
            (Register::RdbuffRead, 0, 1, Some(0)),
        ],
        word: 0,
        log: &[Transfer {
            read: true,
            addr: BASE,
            word: 0,
        }],
    },
];

// Makes a transaction, and returns what is seen, and the word of a read. None where something else is due.
fn transact<W: Wire>(wire: &mut W, request: Request, word: u32) -> Option<(u8, Option<u32>)> {
    let Due::Nothing = wire.due() else {
        return None;
    };
    let seen = wire.ask(request);
    match wire.due() {
        Due::Take => Some((seen, word_of(wire.take()))),
        Due::Give => {
            wire.give(data_bits(word));
            Some((seen, None))
        }
        Due::Pass => {
            wire.pass();
            Some((seen, None))
        }
        _ => Some((seen, None)),
    }
}

fn goes<R: Abort>(rt: &R, name: &str, bench: &mut BufferedBench<Memory>, steps: &[Step]) {
    for (at, (register, word, seen, read)) in steps.iter().enumerate() {
        let is = transact(bench, register.request(), *word);
        expect_eq_at(rt, &(name, at), &is, &Some((*seen, *read)));
    }
}

#[test]
fn a_pending_write_is_given_up(rt: HostRuntime) -> Result<(), Fail> {
    for row in ROWS {
        let memory = Memory::new(rt.alloc(), BASE, 16, 16)?;
        let mut bench = BufferedBench::new(memory, QUIRKS, Vec::new(rt.alloc()));
        bench.lead(56, true, 2);
        goes(&rt, row.name, &mut bench, UP);
        goes(&rt, row.name, &mut bench, row.steps);
        expect_eq_at(&rt, &row.name, &bench.device().word(BASE), &Some(row.word));
        expect_eq_at(&rt, &row.name, &bench.device().log(), &row.log);
        expect_at(&rt, &row.name, matches!(bench.due(), Due::Nothing));
    }
    Ok(())
}
