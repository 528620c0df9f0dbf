//! A script over a simulated target.
use std::alloc::Global;
use swd_run::{Finished, Limits, Records, RunFault, run_text};

/// Runs a script over a simulated target of which no request is disturbed, and appends its report.
pub fn report(
    alloc: Global,
    mut script: &[u8],
    report: &mut Vec<u8>,
) -> Result<Finished, RunFault> {
    let mut plan: &[u8] = b"";
    let mut records = Records::<Vec<u8>>::none();
    let limits = Limits {
        tries: 8,
        resumes: 0,
        bursts: true,
    };
    run_text(alloc, &mut script, &mut plan, limits, report, &mut records)
}
