//! Sequences of clocks.

/// Successive clocks. In numbers the first bit in time is least significant.
#[derive(Clone, Copy, Debug, PartialEq, Eq)]
pub enum Sequence {
    /// The host drives the `count` low bits of a number, at most 64, one in each clock.
    Drive { bits: u64, count: u8 },
    /// The host drives one level for `count` clocks.
    Hold { level: bool, count: u32 },
    /// The host releases the line for `count` clocks, and doesn't sample it.
    Release { count: u32 },
    /// The host releases the line for `count` clocks, at most 64, and samples each.
    Sample { count: u8 },
}
