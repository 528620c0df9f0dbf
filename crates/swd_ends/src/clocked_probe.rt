//! A probe over the clocks of a simulated target, like a microcontroller that moves two pins.
ghost use Rattle.std.specs.Prelude.{◌≡◌, ◌<◌, ◌≤◌, ◌^◌, ◌++◌, ◌∷◌, [], None, Some, map, replicate, take};
ghost use Rattle.swd_bits.specs.Bits.{low_bits};

use std::alloc::{Allocator, Global};
use swd_clocked::FaultyClocked;
use swd_port::Disconnected;
use swd_remote::{Probe, Sequence};
use swd_target::Device;

// The most levels that are kept for an exchange.
const MOST: u8 = 64;

/// A probe over the clocks of a simulated target. It performs each sequence at once, and keeps the sampled levels until
/// the next exchange. Of more than 64 levels since the last exchange it keeps the first 64.
#[derive(Drop)]
pub struct ClockedProbe<D, A: Allocator = Global> {
    pub(crate) target: FaultyClocked<D, A>,
    // The levels since the last exchange, the first one least significant, and their number.
    pub(crate) levels: u64,
    pub(crate) sampled: u8,
    ghost few: { sampled ≤ 64 },
    ghost range: { levels < 2 ^ sampled },
}

impl<D: Device, A: Allocator> ClockedProbe<D, A> {
    ghost use Rattle.swd_ends.specs.ClockedProbes.{clocked_probe_target, clocked_probe_waiting, ClockedProbeCycles};
    ghost use Rattle.swd_ends.specs.ClockedProbes.{ClockedProbePasses, ClockedProbeSequence};

    /// Returns a probe over this target, without levels.
    pub fn new(target: FaultyClocked<D, A>) -> ClockedProbe<D, A>
        ensures target { clocked_probe_target result ≡ target }
        ensures waits { clocked_probe_waiting result ≡ [] }
    {
        ClockedProbe {
            target,
            levels: 0,
            sampled: 0,
        }
    }

    /// Consumes the probe, and returns the target.
    pub fn into_target(self) -> FaultyClocked<D, A>
        ensures { result ≡ clocked_probe_target self }
    {
        let ClockedProbe { target, .. } = self;
        target
    }

    fn drive(&mut self, bits: u64, count: u8)
        ensures { ClockedProbePasses D.bus (map Some (low_bits count bits)) self.old self.new }
    {
        let mut rest = bits;
        for place in 0..count {
            let _ = self.target.cycle(Some(rest % 2 == 1));
            rest /= 2;
        }
    }

    fn hold(&mut self, drive: Option<bool>, count: u32)
        ensures { ClockedProbePasses D.bus (replicate count drive) self.old self.new }
    {
        for place in 0..count {
            let _ = self.target.cycle(drive);
        }
    }

    fn sample(&mut self, count: u8)
        ensures { ClockedProbeSequence D.bus (Sequence.Sample count) self.old self.new }
    {
        for place in 0..count {
            let level = self.target.cycle(None);
            self.keep(level);
        }
    }

    // Appends a level if there is room for it.
    fn keep(&mut self, level: bool)
        ensures waits { clocked_probe_waiting self.new ≡ take 64 (clocked_probe_waiting self.old ++ level ∷ []) }
        ensures target { clocked_probe_target self.new ≡ clocked_probe_target self.old }
    {
        if self.sampled < MOST {
            self.levels += u64::from(level) << self.sampled;
            self.sampled += 1;
        }
    }
}

impl<D: Device, A: Allocator> Probe for ClockedProbe<D, A> {
    ghost use Rattle.swd_ends.specs.ClockedProbes.{ClockedProbeSequence, ClockedProbeHandsOut};

    ghost queues = { λ sequence s t. ClockedProbeSequence D.bus sequence s t };

    ghost exchanges = { λ result s t. ClockedProbeHandsOut result s t };

    fn queue(&mut self, sequence: Sequence) {
        match sequence {
            Sequence::Drive { bits, count } => self.drive(bits, count),
            Sequence::Hold { level, count } => self.hold(Some(level), count),
            Sequence::Release { count } => self.hold(None, count),
            Sequence::Sample { count } => self.sample(count),
        }
    }

    fn exchange(&mut self) -> Result<u64, Disconnected> {
        let levels = self.levels;
        self.levels = 0;
        self.sampled = 0;
        Ok(levels)
    }
}
