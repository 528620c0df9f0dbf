//! Cues: the steps that a host makes on a wire.

use swd_bits::Request;

/// The next step of a host on a wire: one call of [`Wire::step`](crate::Wire::step).
///
/// Bits are numbers with the first bit in time least significant.
#[derive(Clone, Copy, Debug, PartialEq, Eq)]
pub enum Cue {
    /// Drives `ones` cycles high, if `switch` the sixteen bits 0111100111100111 and the ones again, and then `zeros`
    /// cycles low. With ones this is a line reset (IHI 0031, B4, "Connection and line reset sequence").
    Lead {
        /// The number of cycles that are high: 0, or at least 50.
        ones: u32,
        /// The number of these, from the first on, that the host leaves undriven, since the target may be driving the
        /// line. An undriven line reads 1.
        undriven: u32,
        /// Whether the switch from JTAG, and the ones again, come before the zeros.
        switch: bool,
        /// The number of cycles that are low.
        zeros: u32,
    },
    /// Sends the eight bits of a request, and samples three bits after a turnaround.
    Ask(Request),
    /// Samples the 33 bits of a read's data phase, 32 of the word and above them the parity, and passes the turnaround.
    Take,
    /// Sends the turnaround and these 33 bits of a write's data phase, 32 of the word and above them the parity.
    Give(u64),
    /// Sends the turnaround after WAIT or FAULT.
    Pass,
}
