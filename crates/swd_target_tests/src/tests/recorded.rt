//! A run that was recorded: the opening of a host, with no access after it.
use super::cycle_texts::Part;

/// The cycles of the run, 552 of them: those that the host drives, and those that it doesn't. In a
/// turnaround nobody drives the line, which reads 1.
pub(super) const RUN: &[Part] = &[
    // A line reset, the switch from JTAG, a line reset, and idle.
    Part::Sent(b"11111111111111111111111111111111111111111111111111111111"),
    Part::Sent(b"0111100111100111"),
    Part::Sent(b"11111111111111111111111111111111111111111111111111111111"),
    Part::Sent(b"00"),
    // DPIDR is 2ba01477.
    Part::Sent(b"10100101"),
    Part::Seen(b"11001110111000101000000001011101010001"),
    // ABORT = 0000001e.
    Part::Sent(b"10000001"),
    Part::Seen(b"11001"),
    Part::Sent(b"011110000000000000000000000000000"),
    // CTRL/STAT is 00000000.
    Part::Sent(b"10110001"),
    Part::Seen(b"11000000000000000000000000000000000001"),
    // SELECT = 00000000.
    Part::Sent(b"10001101"),
    Part::Seen(b"11001"),
    Part::Sent(b"000000000000000000000000000000000"),
    // CTRL/STAT = 50000000.
    Part::Sent(b"10010101"),
    Part::Seen(b"11001"),
    Part::Sent(b"000000000000000000000000000010100"),
    // CTRL/STAT is f0000000.
    Part::Sent(b"10110001"),
    Part::Seen(b"11000000000000000000000000000000111101"),
    // CSW = 23000012.
    Part::Sent(b"11000101"),
    Part::Seen(b"11001"),
    Part::Sent(b"010010000000000000000000110001001"),
    // CSW returns the read buffer, 00000000.
    Part::Sent(b"11100001"),
    Part::Seen(b"11000000000000000000000000000000000001"),
    // RDBUFF is 23000052.
    Part::Sent(b"10111101"),
    Part::Seen(b"11000100101000000000000000001100010001"),
    // Idle.
    Part::Sent(b"00000000"),
];
