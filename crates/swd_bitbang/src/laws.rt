//! A law that relates both ends of a connection. The function does nothing: its contract is the law.
ghost use Rattle.swd_bitbang.specs.Lines.{PinsReadSequences, AreServed, SequencesKeepBitbangOpen};

use std::alloc::Allocator;
use swd_target::Device;

/// States that a server reads a host's characters as the sequences of clocks that the host sent. Each clock
/// is one cycle of the target, in which the host drives what the sequence says. Exactly the sampled levels
/// are returned, in order. This holds from pins between two clocks on, and the characters never end the
/// session before the host's `Q`.
pub fn sequences_are_read<D: Device, A: Allocator>()
    ensures reads { PinsReadSequences A D.bus }
    ensures serves { AreServed A D.bus }
    ensures goes_on { SequencesKeepBitbangOpen }
{}
