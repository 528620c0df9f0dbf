//! Registers behind a simulated target in place of a memory.
use crate::whole::{Failure, QUIRKS, TRIES};
use std::alloc::Global;
use swd_devices::{Key, Registers};
use swd_host::{End, run};
use swd_port::{Access, Answer};
use swd_target::{Attached, Bench};

const ACCESSES: [Access; 3] = [
    Access::Write(Registers::KEY, Registers::OPENING),
    Access::Write(Registers::FIFO, 0xdead_beef),
    Access::Read(Registers::FIFO),
];

/// Writes a key that may come only once, and a word to a FIFO, whose read takes it away.
pub fn once(alloc: Global) -> Result<(), Failure> {
    let device = Attached::new(Registers::new(0));
    let mut wire = Bench::new(device, QUIRKS, Vec::new(alloc));
    let report = run(alloc, &mut wire, &ACCESSES, TRIES)?;
    if report.ended != End::All {
        return Err(Failure::Stopped(report.ended));
    }
    let registers = wire.device().peripheral();
    if registers.key != Key::Open {
        return Err(Failure::Differs(0));
    }
    match (report.answers.get(2), registers.first) {
        (Some(Answer::Value(0xdead_beef)), None) => Ok(()),
        _ => Err(Failure::Differs(2)),
    }
}
