//! Whole phases at a clocked target with a plan, cycle by cycle, as a host drives them.
ghost use Rattle.std.specs.Prelude.{◌≡◌, ◌≤◌, ◌<◌, ◌^◌, ◌-◌, ◌+◌, true, is_some, unwrap_or};
ghost use Rattle.swd_port.specs.Choices.{port_undriven, port_flipped};
ghost use Rattle.swd_port.specs.Choices.{port_flip_of};

use crate::frame::Frame;
use crate::marked::FaultyClocked;
use std::alloc::Allocator;
use swd_bits::{Request, SWITCH, SWITCH_BITS};
use swd_target::Device;

impl<D: Device, A: Allocator> FaultyClocked<D, A> {
    ghost use Rattle.swd_clocked.specs.Clocks.{CountsCycles};
    ghost use Rattle.swd_clocked.specs.Frames.{idle_frame, frame_bits, frame_register, reset_cycles};
    ghost use Rattle.swd_clocked.specs.Frames.{IsRisingFrame, rising_frame_ones, IsFallingFrame, falling_frame_zeros};
    ghost use Rattle.swd_clocked.specs.Marked.{marked_clocked_frame, marked_clocked_mark, marked_clocked_unseen};
    ghost use Rattle.swd_clocked.specs.Phases.{CyclesMoveFrame, CyclesBringData, CyclesLeadToReset, CyclesSendRequest};
    ghost use Rattle.swd_clocked.specs.Phases.{CyclesSeeReply, CyclesAskRequest};

    // Sends the eight bits of a request.
    fn send_request(&mut self, request: Request)
        requires frame { marked_clocked_frame self.old ≡ idle_frame }
        requires heard { marked_clocked_unseen self.old ≡ 0 }
        ensures sent { CyclesSendRequest D.bus request self.old self.new }
        ensures clocks { CountsCycles 8 self.old.clocked self.new.clocked }
    {
        let bits = request.bits();
        let mut rest = bits;
        for place in 0..7u8 {
            let _ = self.cycle_now(Some(rest % 2 == 1));
            rest /= 2;
        }
        let _ = self.cycle_now(Some(rest % 2 == 1));
    }

    // Returns the three bits of a reply after its turnaround, the first in time least significant.
    fn see_reply(&mut self) -> u8
        ensures range { result < 8 }
        ensures sees { CyclesSeeReply result self.old self.new }
        ensures clocks { CountsCycles 4 self.old.clocked self.new.clocked }
    {
        let _ = self.cycle_now(None); // the turnaround after a request
        let first = self.cycle_now(None);
        let second = self.cycle_now(None);
        let third = self.cycle_now(None);
        u8::from(first) + 2 * u8::from(second) + 4 * u8::from(third)
    }

    // Sends a request, and returns the three bits of its reply, the first in time least significant.
    pub(crate) fn ask_request(&mut self, request: Request) -> u8
        requires frame { marked_clocked_frame self.old ≡ idle_frame }
        requires heard { marked_clocked_unseen self.old ≡ 0 }
        ensures range { result < 8 }
        ensures asked { CyclesAskRequest D.bus request result self.old self.new }
        ensures clocks { CountsCycles 12 self.old.clocked self.new.clocked }
    {
        self.send_request(request);
        self.see_reply()
    }

    // Returns the 33 bits of a read as they arrive, the first in time least significant, and passes a turnaround.
    pub(crate) fn take_bits(&mut self) -> u64
        requires frame { marked_clocked_frame self.old ≡ Frame.Drives (frame_bits (marked_clocked_frame self.old)) 33 }
        requires heard { marked_clocked_unseen self.old ≡ 0 }
        ensures range { result < 2 ^ 33 }
        ensures bits { result ≡ port_flipped (port_flip_of (marked_clocked_mark self.old))
            (frame_bits (marked_clocked_frame self.old)) }
        ensures goes { CyclesMoveFrame idle_frame self.old self.new }
        ensures clocks { CountsCycles 34 self.old.clocked self.new.clocked }
    {
        let mut bits = 0u64;
        for place in 0..33u8 {
            let bit = self.cycle_now(None);
            bits = bits / 2 + u64::from(bit) * 0x1_0000_0000;
        }
        let _ = self.cycle_now(None); // the turnaround after a read's data
        bits
    }

    // Passes a turnaround, and sends the 33 bits of a write.
    pub(crate) fn give_bits(&mut self, bits: u64)
        requires frame { marked_clocked_frame self.old
            ≡ Frame.Awaits (frame_register (marked_clocked_frame self.old)) port_undriven 0 }
        requires heard { marked_clocked_unseen self.old ≡ 0 }
        requires bits { bits < 2 ^ 33 }
        ensures brings { CyclesBringData D.bus (port_flipped (port_flip_of (marked_clocked_mark self.old)) bits)
            self.old self.new }
        ensures clocks { CountsCycles 34 self.old.clocked self.new.clocked }
    {
        let mut rest = bits;
        let _ = self.cycle_now(None); // the turnaround before a write's data
        for place in 0..32u8 {
            let _ = self.cycle_now(Some(rest % 2 == 1));
            rest /= 2;
        }
        let _ = self.cycle_now(Some(rest % 2 == 1));
    }

    // Passes the turnaround after WAIT or FAULT.
    pub(crate) fn pass_by(&mut self)
        requires frame { marked_clocked_frame self.old ≡ Frame.Passes }
        requires heard { marked_clocked_unseen self.old ≡ 0 }
        ensures goes { CyclesMoveFrame idle_frame self.old self.new }
        ensures clocks { CountsCycles 1 self.old.clocked self.new.clocked }
    {
        let _ = self.cycle_now(None); // the turnaround after WAIT or FAULT
    }

    // Sends a line reset, with the switch or without. The first `undriven` ones are left undriven, among them those in
    // which a data phase in progress passes.
    pub(crate) fn send_reset(&mut self, ones: u32, undriven: u32, switch: bool)
        requires frame { IsRisingFrame (marked_clocked_frame self.old) }
        requires heard { marked_clocked_unseen self.old ≡ 0 }
        requires enough { rising_frame_ones (marked_clocked_frame self.old) ≤ ones }
        requires quiet { rising_frame_ones (marked_clocked_frame self.old) ≤ 50 + undriven }
        requires some { 0 < rising_frame_ones (marked_clocked_frame self.old) }
        requires least { 50 ≤ ones }
        ensures frame { marked_clocked_frame self.new ≡ Frame.High }
        ensures leads { CyclesLeadToReset D.bus self.old self.new }
        ensures clocks { CountsCycles (reset_cycles ones switch) self.old.clocked self.new.clocked }
    {
        self.send_ones(ones, undriven);
        if switch {
            self.send_switch();
            self.send_ones(ones, 0);
        }
    }

    // Sends ones, of which the first `undriven` are left undriven.
    fn send_ones(&mut self, count: u32, undriven: u32)
        requires frame { IsRisingFrame (marked_clocked_frame self.old) }
        requires heard { marked_clocked_unseen self.old ≡ 0 }
        requires enough { rising_frame_ones (marked_clocked_frame self.old) ≤ count }
        requires quiet { rising_frame_ones (marked_clocked_frame self.old) ≤ 50 + undriven }
        ensures frame { marked_clocked_frame self.new ≡ Frame.High }
        ensures leads { CyclesLeadToReset D.bus self.old self.new }
        ensures clocks { CountsCycles count self.old.clocked self.new.clocked }
    {
        for place in 0..count {
            self.send_one(if place < undriven { None } else { Some(true) });
        }
    }

    // Sends one of the ones, left undriven while a data phase is in progress.
    fn send_one(&mut self, drive: Option<bool>)
        requires one { unwrap_or drive true ≡ true }
        requires frame { IsRisingFrame (marked_clocked_frame self.old) }
        requires heard { marked_clocked_unseen self.old ≡ 0 }
        requires quiet { is_some drive ≡ true → rising_frame_ones (marked_clocked_frame self.old) ≤ 50 }
        ensures frame { IsRisingFrame (marked_clocked_frame self.new) }
        ensures rise { rising_frame_ones (marked_clocked_frame self.new)
            ≡ rising_frame_ones (marked_clocked_frame self.old) - 1 }
        ensures leads { CyclesLeadToReset D.bus self.old self.new }
        ensures clocks { CountsCycles 1 self.old.clocked self.new.clocked }
    {
        let _ = self.cycle_now(drive);
    }

    // Sends the sixteen bits of the switch.
    fn send_switch(&mut self)
        requires frame { marked_clocked_frame self.old ≡ Frame.High }
        requires heard { marked_clocked_unseen self.old ≡ 0 }
        ensures goes { CyclesMoveFrame (Frame.Lost 0) self.old self.new }
        ensures clocks { CountsCycles 16 self.old.clocked self.new.clocked }
    {
        for place in 0..SWITCH_BITS {
            let _ = self.cycle_now(Some(SWITCH >> place & 1 == 1));
        }
    }

    // Sends zeros.
    pub(crate) fn send_zeros(&mut self, count: u32)
        requires frame { IsFallingFrame (marked_clocked_frame self.old) }
        requires heard { marked_clocked_unseen self.old ≡ 0 }
        requires enough { falling_frame_zeros (marked_clocked_frame self.old) ≤ count }
        ensures goes { CyclesMoveFrame idle_frame self.old self.new }
        ensures clocks { CountsCycles count self.old.clocked self.new.clocked }
    {
        for place in 0..count {
            self.send_zero();
        }
    }

    fn send_zero(&mut self)
        requires frame { IsFallingFrame (marked_clocked_frame self.old) }
        requires heard { marked_clocked_unseen self.old ≡ 0 }
        ensures frame { IsFallingFrame (marked_clocked_frame self.new) }
        ensures fall { falling_frame_zeros (marked_clocked_frame self.new)
            ≡ falling_frame_zeros (marked_clocked_frame self.old) - 1 }
        ensures goes { CyclesMoveFrame (marked_clocked_frame self.new) self.old self.new }
        ensures clocks { CountsCycles 1 self.old.clocked self.new.clocked }
    {
        let _ = self.cycle_now(Some(false));
    }
}
