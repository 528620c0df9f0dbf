//! Clocks of a line, one after the other.
ghost use Rattle.std.specs.Prelude.{◌≤◌, ◌<◌, ◌^◌, []};
ghost use Rattle.swd_sequences.specs.declared.sequence.Sequence.{Sequence};
ghost use Rattle.swd_sequences.specs.Going.{SequenceGoesBy};
ghost use Rattle.swd_dap_probe.specs.Moves.{DapSampled};

use crate::line::ProbeLine;

/// Drives the low bits of a number, the first in time least significant.
pub(crate) fn drive<L: ProbeLine>(line: &mut L, bits: u64, count: u8)
    ensures { SequenceGoesBy L.clocks (Sequence.Drive bits count) [] line.old line.new }
{
    let mut rest = bits;
    for place in 0..count {
        let _ = line.clock(Some(rest % 2 == 1));
        rest /= 2;
    }
}

/// Drives one level for so many clocks.
pub(crate) fn hold<L: ProbeLine>(line: &mut L, level: bool, count: u8)
    ensures { SequenceGoesBy L.clocks (Sequence.Hold level count) [] line.old line.new }
{
    for place in 0..count {
        let _ = line.clock(Some(level));
    }
}

/// Releases the line for so many clocks.
pub(crate) fn release<L: ProbeLine>(line: &mut L, count: u8)
    ensures { SequenceGoesBy L.clocks (Sequence.Release count) [] line.old line.new }
{
    for place in 0..count {
        let _ = line.clock(None);
    }
}

/// Releases the line for so many clocks, at most 64, and returns the levels, the first in time least significant.
pub(crate) fn sample<L: ProbeLine>(line: &mut L, count: u8) -> u64
    requires { count ≤ 64 }
    ensures bound { result < 2 ^ count }
    ensures levels { DapSampled L.clocks count result line.old line.new }
{
    let mut levels = 0u64;
    for place in 0..count {
        let level = line.clock(None);
        levels += u64::from(level) << place;
    }
    levels
}
