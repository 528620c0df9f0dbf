//! A simulated target as the line of a probe.

use std::alloc::Global;
use swd_clocked::FaultyClocked;
use swd_dap_probe::ProbeLine;
use swd_target::Memory;

/// A simulated target.
#[derive(Drop)]
pub(super) struct TargetLine {
    pub(super) target: FaultyClocked<Memory<Global>, Global>,
}

impl ProbeLine for TargetLine {
    fn clock(&mut self, drive: Option<bool>) -> bool {
        self.target.cycle(drive)
    }

    fn reset(&mut self, _level: bool) {}
}
