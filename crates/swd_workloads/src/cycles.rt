//! What is measured clock by clock.
ghost use Rattle.std.specs.Prelude.{◌≤◌};

use crate::random::{Random, SEED};
use std::alloc::Global;
use swd_bits::{SWITCH, SWITCH_BITS, data_bits};
use swd_clocked::Clocked;
use swd_port::{CtrlStat, Register};
use swd_target::{Memory, Quirks};

/// Each has four transactions and eight idle cycles: 192 in all.
const ROUNDS: u32 = 400_000;

const QUIRKS: Quirks = Quirks {
    wrap: true,
    late: false,
    filler: 0,
    idr: None,
};

/// A host that drives a target cycle by cycle and sums up what stands on the line.
#[derive(Drop)]
struct Host {
    target: Clocked<Memory>,
    sum: u64,
}

impl Host {
    // One cycle.
    fn cycle(&mut self, drive: Option<bool>) {
        let bit = self.target.cycle(drive);
        self.sum = self.sum.rotate_left(1) ^ u64::from(bit);
    }

    // So many bits of a number, the first in time least significant.
    fn send(&mut self, bits: u64, count: u32)
        requires { count ≤ 64 }
    {
        for place in 0..count {
            self.cycle(Some(bits >> place & 1 == 1));
        }
    }

    // So many cycles that nobody drives, or only the target does.
    fn see(&mut self, count: u32) {
        for _ in 0..count {
            self.cycle(None);
        }
    }

    fn read(&mut self, register: Register) {
        self.send(u64::from(register.request().bits()), 8);
        self.see(38);
    }

    fn write(&mut self, register: Register, word: u32) {
        self.send(u64::from(register.request().bits()), 8);
        self.see(5);
        self.send(data_bits(word), 33);
    }

    fn open(&mut self) {
        self.send(0xff_ffff_ffff_ffff, 56);
        self.send(SWITCH, u32::from(SWITCH_BITS));
        self.send(0xff_ffff_ffff_ffff, 56);
        self.send(0, 2);
        self.read(Register::DpidrRead);
        let power = CtrlStat::CDBGPWRUPREQ.bits() + CtrlStat::CSYSPWRUPREQ.bits();
        self.write(Register::CtrlStatWrite, power);
    }

    fn round(&mut self, word: u32) {
        self.write(Register::TarWrite, word);
        self.read(Register::TarRead);
        self.read(Register::RdbuffRead);
        self.read(Register::CtrlStatRead);
        self.send(0, 8);
    }
}

/// A sum over all bits on the line. None when out of memory.
pub fn checksum(alloc: Global) -> Option<u64> {
    let memory = Memory::new(alloc, 0x2000_0000, 16, 16).ok()?;
    let target = Clocked::new(memory, QUIRKS);
    let mut host = Host { target, sum: 0 };
    let mut random = Random(SEED);
    host.open();
    for _ in 0..ROUNDS {
        host.round(random.word());
    }
    Some(host.sum)
}
