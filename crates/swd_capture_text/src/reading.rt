//! The ways to read bits.

/// The way in which the bits of a text are read.
#[derive(Clone, Copy, Debug, PartialEq, Eq)]
pub enum Reading {
    /// As a trace, which begins with its session.
    Trace,
    /// As a capture, which may begin anywhere and lose bits. It is divided into stretches and skips.
    Capture {
        /// Whether the host uses overrun detection at the beginning of the capture (IHI 0031, B4), so that a data phase
        /// follows WAIT and FAULT. From there on the reading follows the host.
        over: bool,
    },
}
