//! The switch from JTAG to serial wire.

/// The sixteen bits 0111100111100111 of a switch, the first bit in time least significant (IHI 0031, B5, "Switching
/// from JTAG to SWD").
pub const SWITCH: u64 = 0xe79e;

/// The number of bits of a switch.
pub const SWITCH_BITS: u8 = 16;
