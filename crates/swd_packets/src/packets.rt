//! A probe that is served by its packets.
ghost use Rattle.std.specs.Prelude.{ℕ, ◌≡◌, ◌≤◌, ◌++◌, ◌∷◌, List, [], length, drop};
ghost use Rattle.swd_io.specs.Blocks.{BlockQueues};
ghost use Rattle.swd_packets.specs.Packets.{PacketsStep, IsPacketsEnd, PacketsPerform, packets_pins, packet_frame};
ghost use Rattle.swd_packets.specs.Packets.{packet_told, is_packet_cut_off, IsPacketsAtRest};
ghost use Rattle.swd_packets.specs.Reaches.{packets_reach};

use crate::line::PinsLine;
use arrayvec::ArrayVec;
use std::alloc::{Allocator, Global};
use std::io::Write;
use swd_bitbang::{Pins, Protocol, Served};
use swd_dap_probe::{LONGEST, Processor};
use swd_io::Block;
use swd_target::Device;

// The most bytes of a packet with its length.
const LONGEST_FRAME: usize = LONGEST + 2;

/// A probe at the pins of a simulated target, and what has come of its next packet.
#[derive(Drop)]
pub struct SimulatedProbe<D, A: Allocator = Global> {
    pub(crate) probe: Processor<PinsLine<D, A>>,
    // The bytes of a packet that isn't whole, its length first.
    pub(crate) frame: ArrayVec<u8, LONGEST_FRAME>,
}

// Returns how many bytes a packet has with its length once this byte is added. As long as the length isn't whole, it
// is 2.
fn frame_length(frame: &[u8], byte: u8) -> usize
    ensures is { result ≡ packet_frame (frame.now ++ byte ∷ []) }
    ensures least { 2 ≤ result }
{
    match frame {
        [] => 2,
        [low] => 2 + usize::from(u16::from_le_bytes([*low, byte])),
        [low, high, ..] => 2 + usize::from(u16::from_le_bytes([*low, *high])),
    }
}

// Queues a reply behind its length; none is no bytes.
fn put_reply<W: Write>(block: &mut Block<'_, W>, reply: &[u8])
    requires { length reply.now ≤ 512 }
    ensures sends { BlockQueues W.contents (packet_told reply.now) block.old block.new }
    ensures writer { block.new.writer.ghost_name ≡ block.old.writer.ghost_name }
{
    if reply.is_empty() {
        block.put(b"");
    } else {
        block.put(&(reply.len() as u16).to_le_bytes());
        block.put(reply);
    }
}

impl<D: Device, A: Allocator> SimulatedProbe<D, A> {
    /// Returns a probe at these pins, for packets of at most so many bytes, 64 to 512, else the nearest.
    pub fn new(pins: Pins<D, A>, size: usize) -> SimulatedProbe<D, A>
        ensures { IsPacketsAtRest pins size result }
    {
        SimulatedProbe {
            probe: Processor::new(PinsLine { pins }, size),
            frame: ArrayVec::new(),
        }
    }

    /// Consumes the probe, and returns its pins.
    pub fn into_pins(self) -> Pins<D, A>
        ensures { result ≡ packets_pins self }
    {
        let SimulatedProbe { probe, .. } = self;
        let PinsLine { pins } = probe.into_line();
        pins
    }

    /// Returns whether a packet has begun that isn't whole: some of its bytes, or of its length, are missing.
    pub fn is_cut_off(&self) -> bool
        ensures { result ≡ is_packet_cut_off self.now }
    {
        !self.frame.is_empty()
    }

    // Performs the packet that is whole, and queues its reply.
    fn perform<W: Write>(&mut self, block: &mut Block<'_, W>)
        requires { 2 ≤ length self.old.frame.items }
        ensures performs { (told : List ℕ) × PacketsPerform D.bus (drop 2 self.old.frame.items) told self.old self.new
            × BlockQueues W.contents (packet_told told) block.old block.new }
        ensures writer { block.new.writer.ghost_name ≡ block.old.writer.ghost_name }
    {
        let mut reply = [0u8; LONGEST];
        let length = self.probe.take(&self.frame.as_slice()[2..], &mut reply);
        self.frame.clear();
        put_reply(block, &reply[..length]);
    }
}

impl<D: Device, A: Allocator> Protocol<D, A> for SimulatedProbe<D, A> {
    ghost pins_of = { packets_pins };

    ghost step = { PacketsStep D.bus };

    ghost end = { IsPacketsEnd };

    fn pins(&self) -> &Pins<D, A> {
        &self.probe.line().pins
    }

    fn answer<W: Write>(
        &mut self,
        block: &mut Block<'_, W>,
        byte: u8,
        place: u64,
    ) -> Result<(), Served> {
        let whole = frame_length(self.frame.as_slice(), byte);
        if whole > LONGEST_FRAME || self.frame.is_full() {
            return Err(Served::Bad { place, byte });
        }
        self.frame.push(byte);
        if self.frame.len() >= whole {
            self.perform(block);
        } else {
            block.put(b"");
        }
        Ok(())
    }

    ghost reaches = { packets_reach D.bus };
}
