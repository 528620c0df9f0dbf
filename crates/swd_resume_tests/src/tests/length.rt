//! How many bits a run is on the wire.
use super::expect::expect_eq;
use std::test::Fail;
use swd_clocked::ClockedBench;
use swd_simulated::{QUIRKS, RUN, recorder_over, report_of, target_of};
use swd_target::Memory;

#[test]
fn a_run_of_nothing_is_552_bits(rt: HostRuntime) -> Result<(), Fail> {
    let target = target_of::<ClockedBench<Memory>>(rt.alloc(), &RUN, QUIRKS)?;
    let mut wire = recorder_over(rt.alloc(), target)?;
    let _ = report_of(rt.alloc(), &mut wire, &RUN)?;
    let mut sum = 0u64;
    for item in wire.items() {
        sum = sum.saturating_add(item.bit_count());
    }
    expect_eq(&rt, &sum, &552);
    expect_eq(&rt, &wire.into_wire().cycles(), &552);
    Ok(())
}
