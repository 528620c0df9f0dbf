//! A poll of a status that is ready at the last read that a script allows.
use crate::fault::Fault;
use crate::targets::TRIES;
use std::alloc::Global;
use swd_devices::Registers;
use swd_host::End;
use swd_run::{Finished, Limits, QUIRKS, Records, run_batches};
use swd_script::read_script;
use swd_target::{Attached, Bench};

const SCRIPT: &[u8] = b"memory 40000000 4\nuntil 40000000 1 1 1000000\n";

const REPORT: &[u8] = b"r 40000000 00000001 reads 1000000\nend all 1\n";

/// The reads that find the status not ready.
const READS: u32 = 999_999;

/// Returns whether the last read is answered with the word, and the report says so.
pub fn ends_at_its_last_read(alloc: Global) -> Result<bool, Fault> {
    let mut text = SCRIPT;
    let Ok(script) = read_script(alloc, &mut text) else {
        return Err(Fault::Script);
    };
    let bench = Bench::new(
        Attached::new(Registers::new(READS)),
        QUIRKS,
        Vec::new(alloc),
    );
    let mut report = Vec::new(alloc);
    let (answer, _) = run_batches(
        alloc,
        bench,
        script.batches.as_slice(),
        Limits {
            tries: TRIES,
            resumes: 0,
            bursts: true,
        },
        &mut report,
        &mut Records::<Vec<u8>>::none(),
    );
    Ok(matches!(answer, Ok(Finished { .. })) && report.as_slice() == REPORT)
}
