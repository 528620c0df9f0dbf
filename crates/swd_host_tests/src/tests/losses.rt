//! A write whose confirmation is lost, over a target with late transfers.
use super::expect::expect_eq;
use std::alloc::Global;
use std::process::Abort;
use std::test::Fail;
use swd_clocked::ClockedBench;
use swd_simulated::{QUIRKS, RUN, Run, Simulated, WRITE, WRITTEN, report_of, target_of};
use swd_target::{Bench, Mark, Memory, Quirks};

fn takes_effect_late<S: Simulated + Drop, R: Abort>(rt: &R, alloc: Global) -> Result<(), Fail> {
    let run = Run {
        marks: &[(12, Mark::Deaf)],
        accesses: &[WRITE],
        ..RUN
    };
    let quirks = Quirks {
        late: true,
        ..QUIRKS
    };
    let mut bench = target_of::<S>(alloc, &run, quirks)?;
    let _ = report_of(alloc, &mut bench, &run)?;
    assert!(rt; bench.memory().log().is_empty());
    bench.settle();
    expect_eq(rt, &bench.memory().log(), &[WRITTEN].as_slice());
    Ok(())
}

#[test]
fn a_begun_write_that_is_late_takes_effect_after_the_run(rt: HostRuntime) -> Result<(), Fail> {
    takes_effect_late::<Bench<Memory>, HostRuntime>(&rt, rt.alloc())?;
    takes_effect_late::<ClockedBench<Memory>, HostRuntime>(&rt, rt.alloc())
}
