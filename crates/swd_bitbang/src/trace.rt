//! The bits on the line, as a trace text.
ghost use Rattle.std.specs.Prelude.{◌≡◌, true, false, []};
ghost use Rattle.swd_bitbang.specs.Traces.{PinsTraceKeeps, pins_kept_trace, is_pins_trace_kept, is_pins_trace_cut_off};

use std::alloc::{Allocator, Global};

/// The bits on the line as a trace text: a character `0` or `1` for each clock, as the host sees it. The text
/// is truncated when memory runs out, and nothing else changes.
#[derive(Debug, Drop)]
pub struct Trace<A: Allocator = Global> {
    bits: Vec<u8, A>,
    wanted: bool,
    cut: bool,
}

impl<A: Allocator> Trace<A> {
    /// Returns a trace that keeps nothing.
    pub fn none(alloc: A) -> Trace<A>
        ensures text { pins_kept_trace result ≡ [] }
        ensures kept { is_pins_trace_kept result ≡ false }
        ensures whole { is_pins_trace_cut_off result ≡ false }
    {
        Trace {
            bits: Vec::new(alloc),
            wanted: false,
            cut: false,
        }
    }

    /// Returns a trace that keeps every bit.
    pub fn new(alloc: A) -> Trace<A>
        ensures text { pins_kept_trace result ≡ [] }
        ensures kept { is_pins_trace_kept result ≡ true }
        ensures whole { is_pins_trace_cut_off result ≡ false }
    {
        Trace {
            bits: Vec::new(alloc),
            wanted: true,
            cut: false,
        }
    }

    /// Returns whether memory ran out for a bit. The text ends before that bit.
    pub fn is_cut(&self) -> bool
        ensures { result ≡ is_pins_trace_cut_off self.now }
    {
        self.cut
    }

    /// Returns the characters so far.
    pub fn text(&self) -> &[u8]
        ensures { result.now ≡ pins_kept_trace self.now }
    {
        self.bits.as_slice()
    }

    // Keeps one more bit, if bits are kept and there is memory.
    pub(crate) fn keep(&mut self, bit: bool)
        ensures { PinsTraceKeeps bit self.old self.new }
    {
        if !self.wanted || self.cut {
            return;
        }
        if self.bits.push(if bit { b'1' } else { b'0' }).is_err() {
            self.cut = true;
        }
    }
}
