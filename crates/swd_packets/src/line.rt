//! The pins of a simulated target as the line of a probe.
ghost use Rattle.std.specs.Prelude.{◌≡◌};

use std::alloc::{Allocator, Global};
use swd_bitbang::Pins;
use swd_dap_probe::ProbeLine;
use swd_target::Device;

/// The pins of a simulated target, which a probe moves. nRESET is connected to nothing.
#[derive(Drop)]
pub struct PinsLine<D, A: Allocator = Global> {
    pub(crate) pins: Pins<D, A>,
}

impl<D: Device, A: Allocator> ProbeLine for PinsLine<D, A> {
    ghost use Rattle.swd_packets.specs.Packets.{PinsLineClock};

    ghost clocks = { PinsLineClock D.bus };

    ghost resets = { λ level s t. t ≡ s };

    fn clock(&mut self, drive: Option<bool>) -> bool {
        self.pins.clock(drive)
    }

    fn reset(&mut self, _level: bool) {}
}
