//! What a run needs of a simulated target with registers behind it, whichever it is.
ghost use Rattle.std.specs.Prelude.{◌≡◌, IfOk};
ghost use Rattle.swd_port.specs.declared.wire.Due.TheVariants.{Nothing};
ghost use Rattle.swd_target.specs.Marks.{IsLegalPlan};

use std::alloc::{AllocError, Global};
use swd_clocked::ClockedBench;
use swd_devices::Registers;
use swd_port::Wire;
use swd_target::{Attached, Bench, Mark, Quirks};

/// A simulated target with registers behind its access port.
pub trait Simulated: Wire {
    /// Creates a target before its first line reset.
    fn simulate(
        alloc: Global,
        registers: Registers,
        quirks: Quirks,
        plan: Vec<Mark>,
    ) -> Result<Self, AllocError>
        requires { IsLegalPlan plan.items }
        ensures { IfOk result (λ target. (Self.Wire.port target).link.due ≡ Nothing) };

    /// Completes the transfer that was accepted and has not taken effect yet, if any.
    fn settle(&mut self);

    /// Returns the registers as they are.
    fn registers(&self) -> Registers;
}

impl Simulated for Bench<Attached<Registers>> {
    fn simulate(
        alloc: Global,
        registers: Registers,
        quirks: Quirks,
        plan: Vec<Mark>,
    ) -> Result<Bench<Attached<Registers>>, AllocError> {
        let _ = alloc;
        Ok(Bench::new(Attached::new(registers), quirks, plan))
    }

    fn settle(&mut self) {
        Bench::settle(self)
    }

    fn registers(&self) -> Registers {
        *self.device().peripheral()
    }
}

impl Simulated for ClockedBench<Attached<Registers>> {
    fn simulate(
        alloc: Global,
        registers: Registers,
        quirks: Quirks,
        plan: Vec<Mark>,
    ) -> Result<ClockedBench<Attached<Registers>>, AllocError> {
        match ClockedBench::new(alloc, Attached::new(registers), quirks, plan) {
            Ok(bench) => Ok(bench),
            Err(_) => Err(AllocError),
        }
    }

    fn settle(&mut self) {
        ClockedBench::settle(self)
    }

    fn registers(&self) -> Registers {
        *self.device().peripheral()
    }
}
