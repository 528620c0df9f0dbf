//! What the tests need of a simulated target, whichever it is.
ghost use Rattle.std.specs.Prelude.{◌≡◌, IfOk};
ghost use Rattle.swd_port.specs.PlainBus.{bus_of};
ghost use Rattle.swd_port.specs.Made.{port_made};
ghost use Rattle.swd_port.specs.Choices.{Choice, IsPortChoice};
ghost use Rattle.swd_port.specs.Completion.{port_completed};
ghost use Rattle.swd_target.specs.Marks.{IsLegalPlan};

use std::alloc::{AllocError, Global};
use swd_clocked::ClockedBench;
use swd_port::Wire;
use swd_target::{Bench, BufferedBench, Mark, Memory, Quirks};

/// A simulated target: a wire whose memory can be looked at.
pub trait Simulated: Wire {
    /// A target that had no line reset yet, with this memory behind its access port. The marks are
    /// those of its requests, one after the other.
    fn simulate(
        alloc: Global,
        memory: Memory,
        quirks: Quirks,
        plan: Vec<Mark>,
    ) -> Result<Self, AllocError>
        requires { IsLegalPlan plan.items }
        ensures { IfOk result (λ target. Self.Wire.port target ≡ port_made 0x2ba0_1477 (bus_of memory)) };

    /// Completes the transfer that was accepted and has not taken effect yet, where there is one.
    fn settle(&mut self)
        ensures { (c : Choice) × IsPortChoice c
            × (Self.Wire.port self.new ≡ port_completed c (Self.Wire.port self.old)) };

    /// The memory behind the access port.
    fn memory(&self) -> &Memory
        ensures { (Self.Wire.port self.now).target.memory ≡ bus_of result.now };
}

impl Simulated for Bench<Memory> {
    fn simulate(
        alloc: Global,
        memory: Memory,
        quirks: Quirks,
        plan: Vec<Mark>,
    ) -> Result<Bench<Memory>, AllocError> {
        let _ = alloc;
        Ok(Bench::new(memory, quirks, plan))
    }

    fn settle(&mut self) {
        Bench::settle(self)
    }

    fn memory(&self) -> &Memory {
        Bench::memory(self)
    }
}

impl Simulated for ClockedBench<Memory> {
    fn simulate(
        alloc: Global,
        memory: Memory,
        quirks: Quirks,
        plan: Vec<Mark>,
    ) -> Result<ClockedBench<Memory>, AllocError> {
        match ClockedBench::new(alloc, memory, quirks, plan) {
            Ok(bench) => Ok(bench),
            Err(_) => Err(AllocError),
        }
    }

    fn settle(&mut self) {
        ClockedBench::settle(self)
    }

    fn memory(&self) -> &Memory {
        ClockedBench::memory(self)
    }
}

impl Simulated for BufferedBench<Memory> {
    fn simulate(
        alloc: Global,
        memory: Memory,
        quirks: Quirks,
        plan: Vec<Mark>,
    ) -> Result<BufferedBench<Memory>, AllocError> {
        let _ = alloc;
        Ok(BufferedBench::new(memory, quirks, plan))
    }

    fn settle(&mut self) {
        BufferedBench::settle(self)
    }

    fn memory(&self) -> &Memory {
        BufferedBench::memory(self)
    }
}
