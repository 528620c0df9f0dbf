//! Power that isn't there yet when it is looked for: a `Wait` mark at a read of CTRL/STAT, step by step.
use super::bench_steps::{Step, failing, make};
use super::expect::expect_eq_at;
use std::alloc::Global;
use std::process::Abort;
use swd_clocked::ClockedBench;
use swd_port::Register;
use swd_simulated::{FILLER, QUIRKS, Simulated};
use swd_target::{Bench, Mark, Memory};

// A simulated end of a wire, step by step.
#[derive(Clone, Copy)]
struct Walk {
    name: &'static str,
    marks: &'static [Mark],
    steps: &'static [Step],
}

const WALKS: &[Walk] = &[
    Walk {
        name: "an access port faults until the power is found; then it stays, until it is asked for anew",
        marks: &[
            Mark::Clean,
            Mark::Clean,
            Mark::Wait,
            Mark::Clean,
            Mark::Wait,
            Mark::Clean,
            Mark::Clean,
            Mark::Clean,
            Mark::Wait,
            Mark::Clean,
            Mark::Wait,
        ],
        steps: &[
            Step::Reset,
            Step::Read(Register::DpidrRead, Some(0x2ba0_1477)),
            Step::Write(Register::CtrlStatWrite, 0x5000_0000),
            Step::Read(Register::CtrlStatRead, Some(0x5000_0000)),
            Step::Refused(Register::CswRead, 4),
            Step::Read(Register::CtrlStatRead, Some(0x5000_0020)),
            Step::Read(Register::CtrlStatRead, Some(0xf000_0020)),
            Step::Write(Register::AbortWrite, 0x0000_0004),
            Step::Write(Register::CswWrite, 0x2300_0012),
            Step::Read(Register::CtrlStatRead, Some(0xf000_0000)),
            Step::Write(Register::CtrlStatWrite, 0x5000_0000),
            Step::Read(Register::CtrlStatRead, Some(0x5000_0000)),
            Step::Read(Register::CtrlStatRead, Some(0xf000_0000)),
            Step::Read(Register::CswRead, Some(FILLER)),
            Step::Read(Register::RdbuffRead, Some(0x2300_0052)),
        ],
    },
    Walk {
        name: "an access port that answers has power, and no later read finds it late",
        marks: &[Mark::Clean, Mark::Clean, Mark::Clean, Mark::Wait],
        steps: &[
            Step::Up,
            Step::Read(Register::CtrlStatRead, Some(0xf000_0000)),
        ],
    },
];

// All steps go as they say, under these marks.
fn goes<W: Simulated + Drop, R: Abort>(rt: &R, alloc: Global, walk: &Walk) {
    let Some(mut wire) = make::<W>(alloc, 16, QUIRKS, walk.marks) else {
        panic!(rt; "{}: no target", walk.name);
    };
    expect_eq_at(rt, &walk.name, &failing(&mut wire, walk.steps), &None);
}

#[test]
fn a_target_has_power_once_it_is_found(rt: HostRuntime) {
    for walk in WALKS {
        goes::<Bench<Memory>, HostRuntime>(&rt, rt.alloc(), walk);
        goes::<ClockedBench<Memory>, HostRuntime>(&rt, rt.alloc(), walk);
    }
}
