//! Runs over both simulated targets with four registers behind them, at which one access too many shows: under every
//! single mark, and under every pair out of eight marks, at every two of the first 40 requests. It prints how many runs
//! there were, and how many of them made an access another time than the report says.
#![tactic(auto)]

mod attempt;
mod plans;
mod simulated;

use crate::attempt::{Fault, is_once};
use crate::plans::{MARKS, PAIRED, PLACES, mark, paired, plan};
use crate::simulated::Simulated;
use std::alloc::Global;
use std::process::ExitCode;
use swd_clocked::ClockedBench;
use swd_devices::Registers;
use swd_port::Mark;
use swd_target::{Attached, Bench};

// The number of runs, and of those that went wrong.
#[derive(Clone, Copy, Default)]
struct Count {
    runs: u32,
    wrong: u32,
}

impl Count {
    fn and(self, is_right: bool) -> Count {
        Count {
            runs: self.runs.saturating_add(1),
            wrong: self.wrong.saturating_add(u32::from(!is_right)),
        }
    }
}

fn singles<S: Simulated + Drop>(alloc: Global, late: bool) -> Result<Count, Fault> {
    let mut count = Count::default();
    for place in 0..PLACES {
        for number in 0..MARKS {
            let plan = plan(alloc, (place, mark(number)), (PLACES, Mark::Clean))?;
            count = count.and(is_once::<S>(alloc, late, plan)?);
        }
    }
    Ok(count)
}

fn pairs<S: Simulated + Drop>(alloc: Global, late: bool) -> Result<Count, Fault> {
    let mut count = Count::default();
    for second in 0..PLACES {
        for first in 0..second {
            for number in 0..PAIRED * PAIRED {
                let one = (first, paired(number / PAIRED));
                let plan = plan(alloc, one, (second, paired(number % PAIRED)))?;
                count = count.and(is_once::<S>(alloc, late, plan)?);
            }
        }
    }
    Ok(count)
}

// Makes all runs over one of the two targets, with transfers that take effect early or late, and prints the counts.
fn all<S: Simulated + Drop>(rt: HostRuntime, name: &str, late: bool) -> anyhow::Result<bool> {
    let single = singles::<S>(rt.alloc(), late)?;
    let pair = pairs::<S>(rt.alloc(), late)?;
    println!(rt;
        "{name}: {} runs under one mark, {} wrong; {} under two, {} wrong",
        single.runs, single.wrong, pair.runs, pair.wrong
    )?;
    Ok(single.wrong == 0 && pair.wrong == 0)
}

fn main(rt: HostRuntime) -> anyhow::Result<ExitCode> {
    let early = all::<Bench<Attached<Registers>>>(rt, "bench", false)?;
    let late = all::<ClockedBench<Attached<Registers>>>(rt, "clocked bench, late", true)?;
    if early && late {
        Ok(ExitCode::SUCCESS)
    } else {
        Ok(ExitCode::FAILURE)
    }
}
