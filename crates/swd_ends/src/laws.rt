//! A law of both ends of a connection. The function does nothing: its contract is the law.
ghost use Rattle.swd_ends.specs.OneLine.{CallsAreServed};

use std::alloc::Allocator;
use swd_target::Device;

/// States that `serve` performs what `run_remote` sends, where `serve` returns `Quit`. The target went through exactly
/// the clocks of the calls, and exactly the levels that they sample were sent back.
pub fn calls_are_served<D: Device, A: Allocator>()
    ensures { CallsAreServed A D.bus }
{}
