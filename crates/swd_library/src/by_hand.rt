//! The engine without a wire: it returns what to send, and takes what was seen.
ghost use Rattle.std.specs.Prelude.{◌≤◌};
ghost use Rattle.swd_port.specs.Steps.{IsPortSeen};

use crate::whole::{BASE, Failure, IMAGE, writes};
use std::alloc::Global;
use swd_bits::{SWITCH, SWITCH_BITS};
use swd_clocked::Clocked;
use swd_host::{End, Engine, Outcome};
use swd_port::{Access, Answer, Cue};
use swd_target::{Memory, Quirks};

const QUIRKS: Quirks = Quirks {
    wrap: true,
    late: false,
    filler: 0,
    idr: None,
};

/// The pins SWCLK and SWDIO. Here they drive a simulated target; on a board they are registers.
#[derive(Drop)]
pub struct Pins {
    target: Clocked<Memory>,
}

impl Pins {
    // Performs one clock, in which the host drives this level or releases SWDIO. Returns the level of SWDIO.
    fn clock(&mut self, drive: Option<bool>) -> bool {
        self.target.cycle(drive)
    }

    // Drives `count` bits, the first in time least significant.
    fn send(&mut self, bits: u64, count: u32)
        requires { count ≤ 64 }
    {
        for place in 0..count {
            self.clock(Some(bits >> place & 1 == 1));
        }
    }

    // Drives one level for `count` clocks.
    fn hold(&mut self, level: bool, count: u32) {
        for _ in 0..count {
            self.clock(Some(level));
        }
    }

    // Samples `count` bits, the first in time least significant.
    fn see(&mut self, count: u32) -> u64
        requires { count ≤ 64 }
    {
        let mut bits = 0;
        for place in 0..count {
            bits |= u64::from(self.clock(None)) << place;
        }
        bits
    }

    // Releases the line for `count` clocks.
    fn release(&mut self, count: u32) {
        for _ in 0..count {
            self.clock(None);
        }
    }

    // Performs a turnaround, which nobody drives.
    fn turn_around(&mut self) {
        self.clock(None);
    }

    // Sends `ones` cycles of 1, of which the first `undriven` are released, since the target may be driving the line.
    // If `switch`, then the switch sequence and the ones again. Last, `zeros` cycles of 0.
    fn lead(&mut self, ones: u32, undriven: u32, switch: bool, zeros: u32) {
        self.release(undriven);
        self.hold(true, ones.saturating_sub(undriven));
        if switch {
            self.send(SWITCH, u32::from(SWITCH_BITS));
            self.hold(true, ones);
        }
        self.hold(false, zeros);
    }

    // Performs a cue, and returns the reply.
    fn follow(&mut self, cue: Cue) -> u64
        ensures { IsPortSeen cue result }
    {
        match cue {
            Cue::Lead {
                ones,
                undriven,
                switch,
                zeros,
            } => {
                self.lead(ones, undriven, switch, zeros);
                0
            }
            Cue::Ask(request) => {
                self.send(u64::from(request.bits()), 8);
                self.turn_around();
                self.see(3) % 8
            }
            Cue::Take => {
                let bits = self.see(33);
                self.turn_around();
                bits % (1 << 33)
            }
            Cue::Give(bits) => {
                self.turn_around();
                self.send(bits, 33);
                0
            }
            Cue::Pass => {
                self.turn_around();
                0
            }
        }
    }

    // Drives the engine to its next outcome, which takes about a hundred cues at most.
    fn come_to(&mut self, engine: &mut Engine) -> Outcome {
        for _ in 0..u32::MAX {
            let Some(cue) = engine.cue() else {
                break;
            };
            let reply = self.follow(cue);
            engine.next(reply);
        }
        engine.finished().unwrap_or(Outcome::Stopped(End::Confused))
    }

    // Performs an access, once the engine has reached the outcome of the one before.
    fn access(
        &mut self,
        engine: &mut Engine,
        access: Access,
        following: Option<Access>,
    ) -> Result<Answer, Failure> {
        match engine.finished() {
            Some(Outcome::Opened) | Some(Outcome::Answered(_)) => engine.start(access, following),
            _ => return Err(Failure::Stopped(End::Confused)),
        }
        match self.come_to(engine) {
            Outcome::Answered(answer) => Ok(answer),
            Outcome::Stopped(end) => Err(Failure::Stopped(end)),
            Outcome::Opened => Err(Failure::Stopped(End::Confused)),
        }
    }
}

/// Loads the image. Each `start` has the following write too, whose request then confirms the one before.
pub fn load(alloc: Global) -> Result<(), Failure> {
    let memory = Memory::new(alloc, BASE, 64, 65_536)?;
    let mut pins = Pins {
        target: Clocked::new(memory, QUIRKS),
    };
    let mut engine = Engine::new(8);
    match pins.come_to(&mut engine) {
        Outcome::Opened => {}
        Outcome::Stopped(end) => return Err(Failure::Stopped(end)),
        Outcome::Answered(_) => return Err(Failure::Stopped(End::Confused)),
    }
    let accesses = writes(alloc)?;
    for (index, access) in accesses.iter().enumerate() {
        let following = accesses.get(index.saturating_add(1)).copied();
        if pins.access(&mut engine, *access, following)? == Answer::BusFault {
            return Err(Failure::BusFault(index));
        }
    }
    // Send eight idle cycles, in which the last transfer can complete.
    pins.hold(false, 8);
    for (index, word) in IMAGE.iter().enumerate() {
        let addr = BASE.wrapping_add(4 * (index as u32));
        if pins.target.memory().word(addr) != Some(*word) {
            return Err(Failure::Differs(index));
        }
    }
    Ok(())
}
