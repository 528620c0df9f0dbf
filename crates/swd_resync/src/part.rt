//! The parts of a capture.
ghost use Rattle.std.specs.Prelude.{◌≡◌, ◌+◌, ◌≤◌, ◌++◌};
ghost use Rattle.arrayvec.specs.ArrayString.{array_string_len};

use arrayvec::ArrayString;
use swd_bits::Tx;
use swd_trace::{Item, LONGEST_LINE};

/// How many bits a data phase has.
pub const PHASE_BITS: u8 = 33;

/// One part of a capture. The division is this project's choice.
#[derive(Clone, Copy, Debug, PartialEq, Eq)]
pub enum Part {
    /// An item of a stretch, which decodes as a trace.
    Item(Item),
    /// A transaction of a stretch that WAIT or FAULT ended, and the data phase after it, whose 33 bits say nothing: the
    /// host uses overrun detection (IHI 0031, B4).
    Phased(Tx),
    /// A skip: the number of bits, at least one, that belong to no stretch.
    Skip(u64),
}

/// A part that a transaction follows directly, whose bits were taken.
#[derive(Clone, Copy, Debug, PartialEq, Eq)]
pub struct FollowedPart {
    /// The part.
    pub part: Part,
    /// The number of bits of the transaction after it.
    pub taken: u8,
}

impl Part {
    ghost use Rattle.swd_resync.specs.PartTexts.{resync_part_line};

    /// Appends the part's line without its line feed: an item's line, or as in `skip 26`.
    pub fn push_line<const N: usize>(&self, text: &mut ArrayString<N>)
        requires { array_string_len text.old + LONGEST_LINE ≤ N }
        ensures bytes { text.new.bytes ≡ text.old.bytes ++ resync_part_line self.now }
        ensures len { array_string_len text.new ≤ array_string_len text.old + LONGEST_LINE }
    {
        match self {
            Part::Item(item) => item.push_line(text),
            Part::Phased(tx) => Item::Tx(*tx).push_line(text),
            Part::Skip(count) => {
                let mut digits = itoa::Buffer::new();
                text.push_str("skip ");
                text.push_str(digits.format(*count));
            }
        }
    }
}
