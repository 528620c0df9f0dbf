//! What each simulated end of a wire has to do, by the tables of the debug port and the access port.
use super::bench_steps::Step;
use swd_port::Register;
use swd_simulated::FILLER;
use swd_target::Mark;

/// A target just made, and the steps that it goes, piece by piece.
#[derive(Clone, Copy)]
pub(super) struct Row<'a> {
    pub(super) name: &'a str,
    pub(super) wrap: bool,
    /// Transfers are late or not: it goes so under each of these.
    pub(super) late: &'a [bool],
    pub(super) words: u32,
    pub(super) marks: &'a [Mark],
    pub(super) steps: &'a [&'a [Step]],
}

// A target of sixteen words. No transfer is late, and no request is marked.
const PLAIN: Row = Row {
    name: "",
    wrap: true,
    late: &[false],
    words: 16,
    marks: &[],
    steps: &[],
};

// The last word of a kilobyte is written, and TAR is read.
const KILOBYTE: &[Step] = &[
    Step::Up,
    Step::Write(Register::TarWrite, 0x2000_03fc),
    Step::Write(Register::DrwWrite, 0x0000_0001),
    Step::Read(Register::TarRead, Some(FILLER)),
];

const WRITTEN: &[Step] = &[
    Step::Up,
    Step::Write(Register::TarWrite, 0x2000_0000),
    Step::Write(Register::DrwWrite, 0x0000_0001),
];

const SETTLED: &[Step] = &[Step::Settle, Step::Logged(1), Step::Wrote(0x2000_0000, 1)];

pub(super) const ROWS: &[Row] = &[
    Row {
        name: "the debug port answers nothing before a line reset",
        steps: &[&[Step::Ask(Register::DpidrRead, 7), Step::Lost]],
        ..PLAIN
    },
    Row {
        name: "the debug port answers after a line reset",
        steps: &[&[
            Step::Reset,
            Step::Read(Register::DpidrRead, Some(0x2ba0_1477)),
            Step::Read(Register::RdbuffRead, Some(FILLER)),
            Step::Read(Register::CtrlStatRead, Some(0x0000_0040)),
        ]],
        ..PLAIN
    },
    Row {
        name: "the debug port takes a write that is cut off for damaged",
        steps: &[&[
            Step::Reset,
            Step::Read(Register::DpidrRead, Some(0x2ba0_1477)),
            Step::Ask(Register::SelectWrite, 1),
            Step::Recover,
            Step::Ask(Register::CtrlStatRead, 7),
            Step::Recover,
            Step::Read(Register::DpidrRead, Some(0x2ba0_1477)),
            Step::Read(Register::CtrlStatRead, Some(0x0000_0080)),
        ]],
        ..PLAIN
    },
    Row {
        name: "the debug port takes no power request in another bank",
        steps: &[&[
            Step::Reset,
            Step::Read(Register::DpidrRead, Some(0x2ba0_1477)),
            Step::Write(Register::SelectWrite, 0x0000_0001),
            Step::Write(Register::CtrlStatWrite, 0x5000_0000),
            Step::Write(Register::SelectWrite, 0x0000_0000),
            Step::Read(Register::CtrlStatRead, Some(0x0000_0000)),
        ]],
        ..PLAIN
    },
    Row {
        name: "the access port faults without power",
        late: &[false, true],
        steps: &[&[
            Step::Reset,
            Step::Read(Register::DpidrRead, Some(0x2ba0_1477)),
            Step::Refused(Register::CswRead, 4),
            Step::Read(Register::CtrlStatRead, Some(0x0000_0020)),
        ]],
        ..PLAIN
    },
    Row {
        name: "the access port gives CSW at RDBUFF",
        late: &[false, true],
        steps: &[&[
            Step::Up,
            Step::Read(Register::CswRead, Some(FILLER)),
            Step::Read(Register::RdbuffRead, Some(0x2300_0052)),
        ]],
        ..PLAIN
    },
    Row {
        name: "the access port gives a word of memory at RDBUFF, once",
        late: &[false, true],
        steps: &[&[
            Step::Up,
            Step::Write(Register::TarWrite, 0x2000_0000),
            Step::Read(Register::DrwRead, Some(FILLER)),
            Step::Read(Register::RdbuffRead, Some(0x0000_0000)),
            Step::Read(Register::RdbuffRead, Some(FILLER)),
            Step::Read(Register::ResendRead, Some(FILLER)),
        ]],
        ..PLAIN
    },
    Row {
        name: "the access port tells a bus error, and its flag is cleared",
        late: &[false, true],
        steps: &[&[
            Step::Up,
            Step::Write(Register::TarWrite, 0x3000_0000),
            Step::Write(Register::DrwWrite, 0x0000_0001),
            Step::Refused(Register::RdbuffRead, 4),
            Step::Write(Register::AbortWrite, 0x0000_0004),
            Step::Read(Register::CtrlStatRead, Some(0xf000_0000)),
        ]],
        ..PLAIN
    },
    Row {
        name: "the address register wraps at a kilobyte",
        wrap: true,
        late: &[false, true],
        words: 512,
        steps: &[
            KILOBYTE,
            &[Step::Read(Register::RdbuffRead, Some(0x2000_0000))],
        ],
        ..PLAIN
    },
    Row {
        name: "the address register carries on at a kilobyte",
        wrap: false,
        late: &[false, true],
        words: 512,
        steps: &[
            KILOBYTE,
            &[Step::Read(Register::RdbuffRead, Some(0x2000_0400))],
        ],
        ..PLAIN
    },
    Row {
        name: "a transfer takes effect at once",
        late: &[false],
        steps: &[WRITTEN, &[Step::Logged(1)], SETTLED],
        ..PLAIN
    },
    Row {
        name: "a late transfer takes effect when it is settled",
        late: &[true],
        steps: &[WRITTEN, &[Step::Logged(0)], SETTLED],
        ..PLAIN
    },
    // An AP access without power while a flag is set sets the other one.
    Row {
        name: "an access without power sets STICKYERR beside WDATAERR",
        marks: &[Mark::Clean, Mark::Flip(5)],
        steps: &[&[
            Step::Reset,
            Step::Read(Register::DpidrRead, Some(0x2ba0_1477)),
            Step::Write(Register::SelectWrite, 0x0000_0000),
            Step::Refused(Register::CswRead, 4),
            Step::Read(Register::CtrlStatRead, Some(0x0000_00a0)),
        ]],
        ..PLAIN
    },
    Row {
        name: "a damaged write leaves the values that were read",
        marks: &[
            Mark::Clean,
            Mark::Clean,
            Mark::Clean,
            Mark::Clean,
            Mark::Clean,
            Mark::Flip(32),
        ],
        steps: &[&[
            Step::Up,
            Step::Read(Register::CswRead, Some(FILLER)),
            Step::Read(Register::RdbuffRead, Some(0x2300_0052)),
            Step::Write(Register::TarWrite, 0x2000_0000),
            Step::Write(Register::AbortWrite, 0x0000_0008),
            Step::Read(Register::ResendRead, Some(0x2300_0052)),
        ]],
        ..PLAIN
    },
    Row {
        name: "an unanswered read leaves READOK, and a bus error leaves TAR",
        steps: &[&[
            Step::Reset,
            Step::Read(Register::DpidrRead, Some(0x2ba0_1477)),
            Step::Read(Register::ResendRead, Some(FILLER)),
            Step::Read(Register::ResendRead, Some(FILLER)),
            Step::Read(Register::RdbuffRead, Some(FILLER)),
            Step::Reset,
            Step::Ask(Register::RdbuffRead, 7),
            Step::Recover,
            Step::Read(Register::DpidrRead, Some(0x2ba0_1477)),
            Step::Read(Register::CtrlStatRead, Some(0x0000_0040)),
            Step::Write(Register::CtrlStatWrite, 0x5000_0000),
            Step::Write(Register::TarWrite, 0x3000_0000),
            Step::Write(Register::DrwWrite, 0x0000_0001),
            Step::Refused(Register::RdbuffRead, 4),
            Step::Write(Register::AbortWrite, 0x0000_0004),
            Step::Read(Register::TarRead, Some(FILLER)),
            Step::Read(Register::RdbuffRead, Some(0x3000_0000)),
            Step::Logged(0),
        ]],
        ..PLAIN
    },
];

/// What the sixth request meets: the RDBUFF read that confirms a DRW write at this address.
#[derive(Clone, Copy)]
pub(super) struct Marked {
    pub(super) name: &'static str,
    pub(super) late: bool,
    pub(super) addr: u32,
    pub(super) mark: Mark,
    pub(super) steps: &'static [Step],
}

pub(super) const MARKED: &[Marked] = &[
    Marked {
        name: "the confirming request gets WAIT once",
        late: false,
        addr: 0x2000_0000,
        mark: Mark::Wait,
        steps: &[
            Step::Refused(Register::RdbuffRead, 2),
            Step::Ask(Register::RdbuffRead, 1),
        ],
    },
    Marked {
        name: "the confirming request of a late transfer gets WAIT once",
        late: true,
        addr: 0x2000_0000,
        mark: Mark::Wait,
        steps: &[
            Step::Refused(Register::RdbuffRead, 2),
            Step::Logged(0),
            Step::Ask(Register::RdbuffRead, 1),
            Step::Logged(1),
        ],
    },
    Marked {
        name: "a late bus error is told in place of WAIT",
        late: true,
        addr: 0x3000_0000,
        mark: Mark::Wait,
        steps: &[Step::Refused(Register::RdbuffRead, 4)],
    },
    Marked {
        name: "a read of CTRL/STAT never gets WAIT",
        late: false,
        addr: 0x2000_0000,
        mark: Mark::Wait,
        steps: &[
            Step::Read(Register::CtrlStatRead, Some(0xf000_0000)),
            Step::Ask(Register::RdbuffRead, 1),
        ],
    },
    Marked {
        name: "a word arrives with wrong parity, and is given again",
        late: false,
        addr: 0x2000_0000,
        mark: Mark::Flip(32),
        steps: &[
            Step::Read(Register::RdbuffRead, None),
            Step::Read(Register::ResendRead, Some(FILLER)),
        ],
    },
    Marked {
        name: "a request is not heard",
        late: false,
        addr: 0x2000_0000,
        mark: Mark::Deaf,
        steps: &[
            Step::Ask(Register::RdbuffRead, 7),
            Step::Recover,
            Step::Logged(1),
        ],
    },
    Marked {
        name: "a request is not heard, and a late transfer stays",
        late: true,
        addr: 0x2000_0000,
        mark: Mark::Deaf,
        steps: &[
            Step::Ask(Register::RdbuffRead, 7),
            Step::Recover,
            Step::Logged(0),
        ],
    },
    Marked {
        name: "the first bit of OK is changed",
        late: false,
        addr: 0x2000_0000,
        mark: Mark::Mute(0),
        steps: &[Step::Ask(Register::RdbuffRead, 0)],
    },
    Marked {
        name: "the second bit of OK is changed",
        late: false,
        addr: 0x2000_0000,
        mark: Mark::Mute(1),
        steps: &[Step::Ask(Register::RdbuffRead, 3)],
    },
    Marked {
        name: "the third bit of OK is changed",
        late: false,
        addr: 0x2000_0000,
        mark: Mark::Mute(2),
        steps: &[Step::Ask(Register::RdbuffRead, 5)],
    },
    Marked {
        name: "the first bit of FAULT is changed",
        late: false,
        addr: 0x3000_0000,
        mark: Mark::Mute(0),
        steps: &[Step::Ask(Register::RdbuffRead, 5)],
    },
    Marked {
        name: "the second bit of FAULT is changed",
        late: false,
        addr: 0x3000_0000,
        mark: Mark::Mute(1),
        steps: &[Step::Ask(Register::RdbuffRead, 6)],
    },
    Marked {
        name: "the third bit of FAULT is changed",
        late: false,
        addr: 0x3000_0000,
        mark: Mark::Mute(2),
        steps: &[Step::Ask(Register::RdbuffRead, 0)],
    },
];
