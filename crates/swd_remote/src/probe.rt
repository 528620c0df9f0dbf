//! A way to a target: sequences of clocks, sent where an answer is needed.
ghost use Rattle.std.specs.Prelude.{ℕ, Result};
ghost use Rattle.swd_sequences.specs.declared.sequence.Sequence.{Sequence};
ghost use Rattle.swd_port.specs.declared.outside.Disconnected.{Disconnected};

use swd_port::Disconnected;
use swd_sequences::Sequence;

/// A way to a target: a microcontroller's pins, a server that moves them, or the sequence command of a debug
/// probe. **Nothing is assumed of it**: any levels may be returned, and each exchange may fail.
///
/// Sequences are queued until the next exchange, so that one round-trip serves many of them. A queued
/// sequence has at least one clock, and at most 64 levels are sampled between two exchanges.
///
/// The two relations are optional. They are for implementers who state what their calls do.
pub trait Probe {
    /// What queueing a sequence does.
    ghost queues: { Sequence → Self → Self → Type 0 } = { λ _ _ _. Unit {0} };

    /// What an exchange does.
    ghost exchanges: { Result ℕ Disconnected → Self → Self → Type 0 } = { λ _ _ _. Unit {0} };

    /// Queues a sequence. The next exchange reports an error, if there is one.
    fn queue(&mut self, sequence: Sequence)
        ensures { queues sequence self.old self.new };

    /// Sends the queued sequences. Returns the levels sampled since the last exchange, the first one least
    /// significant.
    ///
    /// # Errors
    ///
    /// `Disconnected` if the other end can't be reached. Nothing more is sent after it.
    fn exchange(&mut self) -> Result<u64, Disconnected>
        ensures { exchanges result self.old self.new };
}
