//! Writes a word to a target, and reads it back.
#![tactic(auto)]

use swd_host::run;
use swd_port::Access;
use swd_target::{Bench, Memory, Quirks};

fn main(rt: HostRuntime) -> anyhow::Result<()> {
    let alloc = rt.alloc();
    let quirks = Quirks {
        wrap: true,
        late: false,
        filler: 0,
        idr: None,
    };
    // The wire: here a simulated target. For a probe, implement `Transport` and call `swd_host::run_over_transport`.
    let memory = Memory::new(alloc, 0x2000_0000, 16, 16)?;
    let mut wire = Bench::new(memory, quirks, Vec::new(alloc));
    let accesses = [
        Access::Write(0x2000_0000, 0xdead_beef),
        Access::Read(0x2000_0000),
    ];
    let report = run(alloc, &mut wire, &accesses, 8)?;
    for (access, answer) in accesses.iter().zip(report.answers.iter()) {
        println!(rt; "{access}: {answer}")?;
    }
    println!(rt; "{} after {} requests", report.ended, report.requests)?;
    Ok(())
}
