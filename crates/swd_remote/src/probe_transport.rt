//! A probe as the transport of a wire: each of the host's cues as sequences of clocks.
ghost use Rattle.std.specs.Prelude.{◌≡◌, ℕ, Result};
ghost use Rattle.swd_port.specs.declared.cue.Cue.TheVariants.{Lead, Ask};
ghost use Rattle.swd_port.specs.declared.outside.Disconnected.{Disconnected as IsDisconnected};
ghost use Rattle.swd_remote.specs.Packets.{probe_sequences, probe_has_clocks, ProbeQueuesBy, ProbeQueues};
ghost use Rattle.swd_remote.specs.Packets.{ProbePerforms, IsProbeDoneAs};

use crate::probe::Probe;
use swd_bits::{Request, SWITCH, SWITCH_BITS};
use swd_port::{Cue, Disconnected, Transport};
use swd_sequences::Sequence;

/// A probe as the transport of a wire. Each cue is its sequences of clocks. Only a request and the data phase
/// of a read are exchanged; all other sequences are queued until the next exchange.
#[derive(Drop)]
pub struct ProbeTransport<P: Probe> {
    pub probe: P,
}

impl<P: Probe> ProbeTransport<P> {
    /// Returns a transport over this probe.
    pub fn new(probe: P) -> ProbeTransport<P>
        ensures { result.probe ≡ probe }
    {
        ProbeTransport { probe }
    }

    /// Sends the queued sequences.
    ///
    /// # Errors
    ///
    /// `Disconnected` if the exchange with the probe fails.
    pub fn finish(&mut self) -> Result<(), Disconnected>
        ensures { (seen : Result ℕ IsDisconnected) × P.exchanges seen self.old.probe self.new.probe
            × IsProbeDoneAs seen result }
    {
        match self.probe.exchange() {
            Ok(_) => Ok(()),
            Err(gone) => Err(gone),
        }
    }

    /// Returns the probe.
    pub fn into_probe(self) -> P
        ensures { result ≡ self.probe }
    {
        let ProbeTransport { probe } = self;
        probe
    }

    // Queues a sequence if it has clocks.
    fn queue(&mut self, sequence: Sequence)
        ensures { ProbeQueuesBy (probe_has_clocks sequence) P.queues sequence self.old.probe self.new.probe }
    {
        if has_clocks(sequence) {
            self.probe.queue(sequence);
        }
    }

    // Queues the sequences that have clocks, in order.
    fn queue_all(&mut self, sequences: &[Sequence])
        ensures { ProbeQueues P.queues sequences.now self.old.probe self.new.probe }
    {
        for sequence in sequences {
            self.queue(*sequence);
        }
    }

    // Queues the sequences of a cue, up to its answer.
    fn queue_cue(&mut self, cue: Cue)
        ensures { ProbeQueues P.queues (probe_sequences cue) self.old.probe self.new.probe }
    {
        match cue {
            Cue::Lead {
                ones,
                undriven,
                switch,
                zeros,
            } => self.queue_all(&led(ones, undriven, switch, zeros)),
            Cue::Ask(request) => self.queue_all(&asked(request)),
            Cue::Take => self.queue_all(&[Sequence::Sample { count: 33 }]),
            Cue::Give(bits) => self.queue_all(&[
                Sequence::Release { count: 1 },
                Sequence::Drive { bits, count: 33 },
            ]),
            Cue::Pass => self.queue_all(&[Sequence::Release { count: 1 }]),
        }
    }
}

// Returns whether a sequence has clocks.
fn has_clocks(sequence: Sequence) -> bool
    ensures { result ≡ probe_has_clocks sequence }
{
    match sequence {
        Sequence::Drive { bits: _, count } | Sequence::Sample { count } => count > 0,
        Sequence::Hold { level: _, count } | Sequence::Release { count } => count > 0,
    }
}

// Returns the sequences of a lead: ones, with `switch` the switch and the ones again, and zeros.
fn led(ones: u32, undriven: u32, switch: bool, zeros: u32) -> [Sequence; 5]
    ensures { result ≡ probe_sequences (Lead ones undriven switch zeros) }
{
    let undriven = undriven.min(ones);
    [
        Sequence::Release { count: undriven },
        Sequence::Hold {
            level: true,
            count: ones - undriven,
        },
        Sequence::Drive {
            bits: SWITCH,
            count: if switch { SWITCH_BITS } else { 0 },
        },
        Sequence::Hold {
            level: true,
            count: if switch { ones } else { 0 },
        },
        Sequence::Hold {
            level: false,
            count: zeros,
        },
    ]
}

// Returns the sequences of a request and its acknowledgement.
fn asked(request: Request) -> [Sequence; 3]
    ensures { result ≡ probe_sequences (Ask request) }
{
    [
        Sequence::Drive {
            bits: u64::from(request.bits()),
            count: 8,
        },
        Sequence::Release { count: 1 },
        Sequence::Sample { count: 3 },
    ]
}

impl<P: Probe> Transport for ProbeTransport<P> {
    fn step(&mut self, cue: Cue) -> Result<u64, Disconnected>
        ensures { ProbePerforms P.queues P.exchanges cue result self.old.probe self.new.probe }
    {
        self.queue_cue(cue);
        match cue {
            Cue::Ask(_) => self.probe.exchange(),
            Cue::Take => {
                let seen = self.probe.exchange();
                self.queue(Sequence::Release { count: 1 });
                seen
            }
            _ => Ok(0),
        }
    }
}
